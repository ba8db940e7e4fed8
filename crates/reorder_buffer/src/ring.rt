//! The packets that wait, in a ring of places over one pool of blocks: a packet stands at the place that its number is modulo
//! the number of places. Only the first call takes memory.
ghost use Rattle.std.specs.Prelude.{◌≡◌, ◌==◌, ◌<◌, ◌≤◌, ◌+◌, ◌%◌, ◌^◌, ℕ, [], length, nat_le, int_lt, pos, take};
ghost use Rattle.std.specs.Prelude.{true, false, None, replicate, unwrap_or, IsTrue, IfOk};
ghost use Rattle.std.specs.List.{list_any};
ghost use Rattle.std.specs.Option.{ForSome, option_map};
ghost use Rattle.receiver_rules.specs.declared.bounds.TheConstants.{MAX_SPAN};
ghost use Rattle.receiver_rules.specs.Packets.{At, distance, insert_by_number, is_past_deadline};
ghost use Rattle.receiver_rules.specs.Seen.{moment_of, packet_at};
ghost use Rattle.reorder_buffer.specs.Inside.Ring.{floor_after_first, after_first, first_payload, ends_and, ends_from as ends_between};

use crate::places::{Standing, lowest_from};
use deadline_index::{DeadlineIndex, NEVER};
use link_channels::MAX_PAYLOAD;
use receiver_rules::place::Position;
use std::alloc::{AllocError, Global};
use std::marker::Model;

/// A packet that waits. Its payload is the front of its place's block.
#[derive(Clone, Copy)]
pub struct Held {
    /// Its extended sequence number.
    pub number: u64,
    /// Its extended RTP timestamp, in ticks of 1/90,000 s.
    pub timestamp: u64,
    /// When it is to be played out, in ticks of the receiver's clock.
    pub deadline: u64,
    /// How many octets its payload has. There may be none.
    pub length: usize,
}

/// The lowest and the highest number that wait.
#[derive(Clone, Copy)]
pub struct Ends {
    pub low: u64,
    pub high: u64,
}

/// Packets that wait, whose numbers lie less than the number of places apart. Putting one in, taking the first out and finding
/// what is due take three searches of a `DeadlineIndex` at most; all else but `clear` looks at one place.
#[derive(Drop)]
pub struct Ring {
    places: Vec<Option<Held>>,
    pool: Vec<[u8; MAX_PAYLOAD]>,
    /// At each place the deadline of the packet that stands there.
    index: DeadlineIndex,
    ends: Option<Ends>,
    /// Where the packet with the lowest number stands, if any waits.
    first: usize,
    count: usize,
}

impl Model for Ring {
    ghost use Rattle.reorder_buffer.specs.Inside.Ring.{Waiting};

    ghost Value = { Waiting };

    ghost use Rattle.reorder_buffer.specs.Inside.Shown.{shown_waiting};

    ghost view = { shown_waiting };

    ghost use Rattle.reorder_buffer.specs.Inside.Shown.{IsShownRing};

    ghost invariant = { IsShownRing };
}

impl Ring {
    /// No packets, and room for a number of them.
    pub fn with_places(alloc: Global, capacity: usize) -> Result<Ring, AllocError>
        requires { (1 ≤ capacity) × (capacity ≤ MAX_SPAN) }
        ensures capacity { IfOk result (λ r. r.capacity ≡ capacity) }
        ensures packets { IfOk result (λ r. r.packets ≡ []) }
    {
        let places = empty_places(alloc, capacity)?;
        let mut pool = Vec::with_capacity(alloc, capacity)?;
        pool.resize(capacity, [0; MAX_PAYLOAD])?;
        let index = DeadlineIndex::with_places(alloc, capacity)?;
        Ok(Ring {
            places,
            pool,
            index,
            ends: None,
            first: 0,
            count: 0,
        })
    }

    /// How many wait.
    pub fn count(&self) -> usize
        ensures { result ≡ length self.now.packets }
    {
        self.count
    }

    /// Whether the number waits.
    pub fn has(&self, number: u64) -> bool
        ensures { result ≡ list_any (λ p. p.number == number) self.now.packets }
    {
        match self.places[self.place_of(number)] {
            Some(held) => held.number == number,
            None => false,
        }
    }

    /// Whether a number that waits lies as far away as there are places, or farther. The lowest and the highest decide.
    pub fn is_any_far_from(&self, number: u64) -> bool
        ensures { result ≡ list_any (λ p. nat_le self.now.capacity (distance p.number number)) self.now.packets }
    {
        match self.ends {
            Some(ends) => self.is_far(ends.low, number) || self.is_far(ends.high, number),
            None => false,
        }
    }

    /// Whether a packet that waits is due at a tick, or any waits, without a tick. Mostly the first is due, or none is: then
    /// no place but the first's is looked at.
    #[inline(always)]
    pub fn is_any_due(&self, until: Option<u64>) -> bool
        requires { ForSome until (λ t. t < 2 ^ 61) }
        ensures { result ≡ list_any (is_past_deadline (moment_of until)) self.now.packets }
    {
        match until {
            Some(at) => self.is_first_due(at) || self.index.is_any_by(at),
            None => self.ends.is_some(),
        }
    }

    /// Whether the packet with the lowest number is due at a tick.
    fn is_first_due(&self, at: u64) -> bool
        ensures { IsTrue result → list_any (is_past_deadline (At at)) self.now.packets ≡ true }
    {
        let Some(_) = self.ends else {
            return false;
        };
        match self.places[self.first] {
            Some(held) => held.deadline <= at,
            None => false,
        }
    }

    /// The floor once the packet with the lowest number is out: one above its number.
    pub fn floor_after_first(&self) -> u64
        ensures { result ≡ floor_after_first self.now.packets }
    {
        match self.ends {
            Some(ends) => ends.low + 1,
            None => 0,
        }
    }

    /// The octets of the packet with the lowest number.
    pub fn first_payload(&self) -> &[u8]
        ensures { result.now ≡ first_payload self.now.packets }
    {
        let Some(_) = self.ends else {
            return &[];
        };
        match self.places[self.first] {
            Some(held) => &self.pool[self.first][..held.length],
            None => &[],
        }
    }

    /// Puts a packet at its place, which is free.
    pub fn put(&mut self, place: &Position, payload: &[u8])
        requires number { place.now.number < 2 ^ 62 }
        requires positive { int_lt place.now.deadline (pos 0) ≡ false }
        requires soon { int_lt place.now.deadline (pos (2 ^ 62)) ≡ true }
        requires payload { length payload.now ≤ MAX_PAYLOAD }
        requires new { list_any (λ p. p.number == place.now.number) self.old.packets ≡ false }
        requires near { list_any
            (λ p. nat_le self.old.capacity (distance p.number place.now.number)) self.old.packets ≡ false }
        ensures packets { self.new.packets
            ≡ insert_by_number (packet_at place.now payload.now) self.old.packets }
        ensures capacity { self.new.capacity ≡ self.old.capacity }
    {
        let free = self.place_of(place.number);
        let deadline = place.deadline as u64;
        fill(&mut self.pool[free], payload);
        self.places[free] = Some(Held {
            number: place.number,
            timestamp: place.timestamp,
            deadline,
            length: payload.len(),
        });
        self.index.set(free, deadline);
        self.first = first_with(self.ends, self.first, place.number, free);
        self.ends = Some(with_number(self.ends, place.number));
        self.count += 1;
    }

    /// Takes the packet with the lowest number out, if there is one.
    pub fn drop_first(&mut self)
        ensures packets { self.new.packets ≡ after_first self.old.packets }
        ensures capacity { self.new.capacity ≡ self.old.capacity }
    {
        let Some(ends) = self.ends else {
            return;
        };
        self.places[self.first] = None;
        self.index.set(self.first, NEVER);
        self.count -= 1;
        let start = place_after(self.first, 1, self.places.len());
        let lowest = lowest_from(&self.places, &self.index, start, ends.low + 1);
        self.first = first_from(lowest, self.first);
        self.ends = ends_from(lowest, ends.high);
    }

    /// Takes all packets out.
    pub fn clear(&mut self)
        ensures packets { self.new.packets ≡ [] }
        ensures capacity { self.new.capacity ≡ self.old.capacity }
    {
        while self.ends.is_some() {
            self.drop_first();
        }
    }

    /// The place of a number. Mostly it is counted from that of the lowest, since a division takes longer.
    fn place_of(&self, number: u64) -> usize
        ensures value { result ≡ number % self.now.capacity }
        ensures within { result < self.now.capacity }
    {
        let count = self.places.len();
        match self.ends {
            Some(ends) if ends.low <= number && number - ends.low < count as u64 => {
                place_after(self.first, (number - ends.low) as usize, count)
            }
            _ => (number % count as u64) as usize,
        }
    }

    /// Whether two numbers lie as far apart as there are places, or farther.
    fn is_far(&self, one: u64, other: u64) -> bool
        ensures { result ≡ nat_le self.now.capacity (distance one other) }
    {
        one.abs_diff(other) >= self.places.len() as u64
    }
}

/// So many places where no packet stands.
fn empty_places(alloc: Global, capacity: usize) -> Result<Vec<Option<Held>>, AllocError>
    ensures { IfOk result (λ places. places.items ≡ replicate capacity None) }
{
    let mut places = Vec::with_capacity(alloc, capacity)?;
    places.resize(capacity, None)?;
    Ok(places)
}

/// The ends with one more number.
fn with_number(ends: Option<Ends>, number: u64) -> Ends
    ensures { result ≡ ends_and ends number }
{
    match ends {
        Some(ends) => Ends {
            low: ends.low.min(number),
            high: ends.high.max(number),
        },
        None => Ends {
            low: number,
            high: number,
        },
    }
}

/// Where the lowest number stands with one more, which stands at this place.
fn first_with(ends: Option<Ends>, first: usize, number: u64, place: usize) -> usize
    ensures { (capacity : ℕ) → place ≡ number % capacity → ForSome ends (λ e. first ≡ e.low % capacity)
        → result ≡ (ends_and ends number).low % capacity }
{
    match ends {
        Some(ends) if ends.low <= number => first,
        _ => place,
    }
}

/// The ends where the lowest number is this one, if any.
fn ends_from(lowest: Option<Standing>, high: u64) -> Option<Ends>
    ensures { result ≡ ends_between (option_map (λ s. s.number) lowest) high }
{
    match lowest {
        Some(lowest) => Some(Ends {
            low: lowest.number,
            high,
        }),
        None => None,
    }
}

/// Where the lowest number stands, if any waits.
fn first_from(lowest: Option<Standing>, first: usize) -> usize
    ensures { result ≡ unwrap_or (option_map (λ s. s.place) lowest) first }
{
    match lowest {
        Some(lowest) => lowest.place,
        None => first,
    }
}

/// The place so many steps after another, around a ring of so many places.
fn place_after(place: usize, steps: usize, count: usize) -> usize
    requires place { place < count }
    requires steps { steps ≤ count }
    requires few { count ≤ MAX_SPAN }
    ensures value { (number : ℕ) → place ≡ number % count → result ≡ (number + steps) % count }
    ensures within { result < count }
{
    let after = place + steps;
    if after < count { after } else { after - count }
}

/// Writes a payload to the front of a block.
fn fill(block: &mut [u8; MAX_PAYLOAD], payload: &[u8])
    requires { length payload.now ≤ MAX_PAYLOAD }
    ensures { take (length payload.now) block.new ≡ payload.now }
{
    block[..payload.len()].copy_from_slice(payload);
}
