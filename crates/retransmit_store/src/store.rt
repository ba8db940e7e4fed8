ghost use Rattle.std.specs.Prelude.{◌≡◌, ◌<◌, ◌+◌, ◌-◌, ◌%◌};
ghost use Rattle.seq_unwrap.specs.Nearest.{cycle_of};

use crate::sent::Sent;
use circular_buffer::HeapCircularBuffer;
use seq_unwrap::Width;
use std::alloc::{AllocError, Global};
use std::marker::Model;

/// A packet, and the tick at which it was last sent again.
#[derive(Drop)]
struct Stored {
    sent: Sent,
    mark: Option<u64>,
}

/// The last packets that were sent, for retransmission.
///
/// All memory is taken by `with_size`: one block of packets, each with its mark beside it.
#[derive(Drop)]
pub struct Store {
    packets: HeapCircularBuffer<Stored>,
}

impl Model for Store {
    ghost use Rattle.std.specs.Prelude.{◌≤◌, length, map};
    ghost use Rattle.sender_rules.specs.Sendings.{AreFalling};
    ghost use Rattle.retransmit_store.specs.State.{StoreState};

    ghost Value = { StoreState };

    ghost view = { λ s. record { size = s.packets.capacity; packets = s.packets.items } };

    ghost invariant = { λ s. (1 ≤ s.packets.capacity) × (s.packets.capacity ≤ 65536) × (length s.packets.items ≤ s.packets.capacity) × AreFalling (map (λ p. p.sent.number) s.packets.items) };
}

impl Store {
    ghost use Rattle.std.specs.Prelude.{◌≡◌, ◌≤◌, ◌<◌, ◌+◌, ◌∷◌, [], ℕ, List, Some, None, take, IfOk, IsSome, option_map, option_copied};
    ghost use Rattle.seq_unwrap.specs.Nearest.{cycle_of};
    ghost use Rattle.sender_rules.specs.declared.bounds.TheConstants.{MAX_STORED};
    ghost use Rattle.sender_rules.specs.Sendings.{Sending, First, Again};
    ghost use Rattle.sender_rules.specs.Stored.{stored_packets, packet_with, packet_for, stored_mark};
    ghost use Rattle.retransmit_store.specs.State.{packets_in, IsNext, IsStoreAfter, mark_in, stored_with, stored_at, with_mark};

    /// No packets yet, and room for `size`: 1 to 65,536.
    pub fn with_size(alloc: Global, size: usize) -> Result<Store, AllocError>
        requires some { 1 ≤ size }
        requires few { size ≤ MAX_STORED }
        ensures value { IfOk result (λ s. s ≡ record { size = size; packets = [] }) }
        ensures history { IfOk result (λ s. IsStoreAfter s []) }
    {
        let packets = HeapCircularBuffer::with_capacity(alloc, size)?;
        Ok(Store { packets })
    }

    /// Stores a packet whose number is one above the newest. Where there is no room, the oldest goes.
    pub fn put(&mut self, sent: Sent)
        requires next { IsNext self.old.packets sent.number }
        ensures value { self.new ≡ record {
          size = self.old.size;
          packets = take self.old.size
              (record { sent = sent; mark = None } ∷ self.old.packets);
        } }
        ensures next { IsNext self.new.packets (sent.number + 1) }
        ensures history { (history : List Sending) → IsStoreAfter self.old history
            → IsStoreAfter self.new (First sent ∷ history) }
    {
        self.packets.push_front(Stored { sent, mark: None });
    }

    /// Forgets all packets, as another flow begins whose numbers are its own. The room stays.
    pub fn empty(&mut self)
        ensures value { self.new ≡ record { size = self.old.size; packets = [] } }
        ensures next { (n : ℕ) → IsNext self.new.packets n }
        ensures history { IsStoreAfter self.new [] }
    {
        self.packets.clear();
    }

    /// The number of the stored packet that a word asks for, and `None` exactly where no stored number ends in it.
    pub fn find(&self, width: Width, word: u32) -> Option<u64>
        requires { word < cycle_of width }
        ensures value { result ≡ option_map (λ p. p.number) (packet_for (packets_in self.now) width word) }
        ensures history { (history : List Sending) → IsStoreAfter self.now history
            → result ≡ option_map (λ p. p.number) (packet_for (stored_packets self.now.size history) width word) }
    {
        self.number_for(width, word)
    }

    /// The packet with a number, and `None` exactly where it isn't stored.
    pub fn copy(&self, number: u64) -> Option<&Sent>
        ensures value { option_copied result ≡ packet_with (packets_in self.now) number }
        ensures history { (history : List Sending) → IsStoreAfter self.now history
            → option_copied result ≡ packet_with (stored_packets self.now.size history) number }
    {
        self.sent_under(number)
    }

    /// Notes that a stored packet was sent again, at a tick.
    pub fn mark(&mut self, number: u64, at: u64)
        requires stored { IsSome (packet_with (packets_in self.old) number) }
        ensures value { self.new ≡ record { size = self.old.size; packets = with_mark number at self.old.packets } }
        ensures next { (n : ℕ) → IsNext self.old.packets n → IsNext self.new.packets n }
        ensures history { (history : List Sending) → IsStoreAfter self.old history
            → IsStoreAfter self.new (Again number at ∷ history) }
    {
        self.put_mark(number, at);
    }

    /// The tick at which a packet was last sent again, and `None` exactly where it isn't stored or never was.
    pub fn marked(&self, number: u64) -> Option<u64>
        ensures value { result ≡ mark_in (stored_with self.now.packets number) }
        ensures history { (history : List Sending) → IsStoreAfter self.now history
            → result ≡ stored_mark history (packet_with (stored_packets self.now.size history) number) }
    {
        self.mark_of(number)
    }

    fn number_for(&self, width: Width, word: u32) -> Option<u64>
        requires { word < cycle_of width }
        ensures value { result ≡ option_map (λ p. p.number) (packet_for (packets_in self.now) width word) }
    {
        let newest = self.packets.front()?.sent.number();
        let place = places_behind(newest, width, word);
        match self.packets.get(place as usize) {
            Some(stored) => Some(stored.sent.number()),
            None => None,
        }
    }

    fn sent_under(&self, number: u64) -> Option<&Sent>
        ensures value { option_copied result ≡ packet_with (packets_in self.now) number }
    {
        match self.stored(number) {
            Some(stored) => Some(&stored.sent),
            None => None,
        }
    }

    fn put_mark(&mut self, number: u64, at: u64)
        requires stored { IsSome (packet_with (packets_in self.old) number) }
        ensures value { self.new ≡ record { size = self.old.size; packets = with_mark number at self.old.packets } }
    {
        if let Some(place) = self.place_of(number) {
            if let Some(stored) = self.packets.get_mut(place) {
                stored.mark = Some(at);
            }
        }
    }

    fn mark_of(&self, number: u64) -> Option<u64>
        ensures value { result ≡ mark_in (stored_with self.now.packets number) }
    {
        match self.stored(number) {
            Some(stored) => stored.mark,
            None => None,
        }
    }

    fn stored(&self, number: u64) -> Option<&Stored>
        ensures value { option_copied result ≡ stored_with self.now.packets number }
    {
        let place = self.place_of(number)?;
        self.packets.get(place)
    }

    /// How far a number lies behind the newest, and `None` where it lies before it or nothing is stored.
    fn place_of(&self, number: u64) -> Option<usize>
        ensures value { stored_with self.now.packets number ≡ stored_at self.now.packets result }
    {
        let newest = self.packets.front()?.sent.number();
        if newest < number {
            return None;
        }
        Some((newest - number) as usize)
    }
}

/// How many places behind a number the nearest one lies that ends in a word.
fn places_behind(newest: u64, width: Width, word: u32) -> u64
    requires { word < cycle_of width }
    ensures value { result ≡ (newest % cycle_of width + cycle_of width - word) % cycle_of width }
    ensures within { result < cycle_of width }
{
    let cycle = width.cycle();
    (newest % cycle + cycle - u64::from(word)) % cycle
}
