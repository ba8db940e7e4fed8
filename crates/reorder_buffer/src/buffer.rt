ghost use Rattle.std.specs.Prelude.{◌≡◌, ◌<◌, ◌≤◌, ◌^◌};
ghost use Rattle.link_channels.specs.declared.bounds.TheConstants.{MAX_PAYLOAD};

use crate::fill::lead;
use crate::phase::Phase;
use crate::release::put_due;
use crate::ring::Ring;
use outside_io::{NoMemory, Sink, WriteFault};
use receiver_rules::clock::{clock_in, clock_with};
use receiver_rules::place::{Position, highest_after, new_anchor, place_of};
use receiver_rules::{Anchor, Arrival, Clock, Highest, Limits, Verdict};
use std::alloc::Global;
use std::marker::Model;

/// The receiver's playout buffer. `receive` brings a media packet and `release` the time, each at a tick of the receiver's
/// clock that never falls. Both write what is due then, and `flush` all that is left at the end. `arrive` brings a packet
/// where what is due is out already. Only `with_limits` takes memory.
#[derive(Drop)]
pub struct Buffer {
    limits: Limits,
    phase: Phase,
    time: u64,
    anchor: Option<Anchor>,
    highest: Option<Highest>,
    floor: u64,
    ring: Ring,
    last: u64,
    epoch: u64,
    clock: Clock,
}

impl Model for Buffer {
    ghost use Rattle.reorder_buffer.specs.State.{State};

    ghost Value = { State };

    ghost use Rattle.reorder_buffer.specs.Inside.Shown.{state_of};

    ghost view = { state_of };

    ghost use Rattle.reorder_buffer.specs.Inside.Sound.{IsSoundInside};

    ghost invariant = { IsSoundInside };
}

impl Buffer {
    ghost use Rattle.std.specs.Prelude.{◌≡◌, ◌≢◌, ◌↔◌, ◌≤◌, ◌<◌, ◌+◌, ◌*◌, ◌^◌, List, [], ◌∷◌, length, IsTrue, ◌==◌, nat_le, true, false, Some, IfOk, IsOk, OnOk, OnErr, IsSome};
    ghost use Rattle.std.specs.List.{list_any, filter};
    ghost use Rattle.std.specs.Option.{option_map, ForSome};
    ghost use Rattle.outside_io.specs.Causes.{HasCause};
    ghost use Rattle.outside_io.specs.Told.{Appends, AppendsPart};
    ghost use Rattle.seq_unwrap.specs.Nearest.{cycle_of};
    ghost use Rattle.receiver_rules.specs.Steps.{Step, media_step, time_step, end_step};
    ghost use Rattle.receiver_rules.specs.Packets.{is_below, placed_packet};
    ghost use Rattle.receiver_rules.specs.Seen.{seen, moment_of, packet_at, start_of, IsPlaceOf};
    ghost use Rattle.receiver_rules.specs.Bounds.{AreInRange, IsEarlyAnchor, IsClockWithin, IsNearBase};
    ghost use Rattle.reorder_buffer.specs.State.{failed, number_below, IsNoLower};
    ghost use Rattle.reorder_buffer.specs.StateAfter.{IsStateAfter};
    ghost use Rattle.reorder_buffer.specs.Fill.{fill_of, lead_of, base_in};
    ghost use Rattle.reorder_buffer.specs.OneMore.{StandsAfter, Judges, Releases, ReleasesPart, ReleasesNothing, Counts, IsKept};
    ghost use Rattle.reorder_buffer.specs.Inside.Release.{octets_below, floor_then};
    ghost use Rattle.reorder_buffer.specs.Inside.Changes.{holding, moved, taken, raised, is_opening, next_epoch, begun, opened_at};
    ghost use Rattle.reorder_buffer.specs.Inside.Tests.{verdict_here, judged, anchor_at, clock_at, IsAdmissible};
    ghost use Rattle.receiver_rules.specs.declared.bounds.TheConstants.{MAX_DELAY, MAX_RESTART, MAX_SPAN};

    /// A buffer of `span` packets (1 to 16,384) that plays each out `delay_ms` milliseconds (1 to 30,000) after its
    /// time. Another flow takes the place of the current one once nothing waits and no packet was kept for `restart_ms`
    /// milliseconds (up to 60,000); where that is 0 none ever does. With `drift` deadlines follow a sender's clock that
    /// drifts. It takes the memory for all packets.
    pub fn with_limits(
        alloc: Global,
        span: u64,
        delay_ms: u64,
        restart_ms: u64,
        drift: bool,
    ) -> Result<Buffer, NoMemory>
        requires span { (1 ≤ span) × (span ≤ MAX_SPAN) }
        requires delay { (1 ≤ delay_ms) × (delay_ms ≤ MAX_DELAY) }
        requires restart { restart_ms ≤ MAX_RESTART }
        ensures delay { IfOk result (λ b. b.limits.playout_delay ≡ 90 * delay_ms) }
        ensures span { IfOk result (λ b. b.limits.capacity ≡ span) }
        ensures restart { IfOk result (λ b. b.limits.restart_time ≡ 90 * restart_ms) }
        ensures drift { IfOk result (λ b. b.limits.drift ≡ drift) }
        ensures running { IfOk result (λ b. b.phase ≡ Phase.Open) }
        ensures state { IfOk result (λ b. IsStateAfter b []) }
    {
        let ring = Ring::with_places(alloc, span as usize)?;
        Ok(Buffer {
            limits: Limits {
                playout_delay: 90 * delay_ms,
                capacity: span,
                restart_time: 90 * restart_ms,
                drift,
            },
            phase: Phase::Open,
            time: 0,
            anchor: None,
            highest: None,
            floor: 0,
            ring,
            last: 0,
            epoch: 0,
            clock: Clock::starting(0),
        })
    }

    /// Decides on an arrival, and keeps it where the rules say so.
    pub fn arrive(&mut self, at: u64, arrival: &Arrival<'_>) -> Verdict
        requires running { self.old.phase ≡ Phase.Open }
        requires tick { at < 2 ^ 61 }
        requires clock { self.old.time ≤ at }
        requires released { IsSome self.old.anchor → self.old.time ≡ at }
        requires word { arrival.now.word < cycle_of arrival.now.width }
        requires payload { length arrival.now.payload.now ≤ MAX_PAYLOAD }

        ensures verdict { Judges self.old at (seen arrival.now) result }
        ensures state { StandsAfter self.old self.new (media_step at (seen arrival.now)) }
        ensures time { (self.new.time ≡ at) × (self.new.phase ≡ Phase.Open) }
        ensures limits { self.new.limits ≡ self.old.limits }
    {
        self.take(at, arrival)
    }

    /// Writes what is due at a tick and then decides on an arrival, as one step. After a failed write the buffer has
    /// ended, and nothing waits.
    pub fn receive<K: Sink>(
        &mut self,
        at: u64,
        arrival: &Arrival<'_>,
        sink: &mut K,
    ) -> Result<Verdict, WriteFault>
        requires running { self.old.phase ≡ Phase.Open }
        requires tick { at < 2 ^ 61 }
        requires clock { self.old.time ≤ at }
        requires word { arrival.now.word < cycle_of arrival.now.width }
        requires payload { length arrival.now.payload.now ≤ MAX_PAYLOAD }

        ensures verdict { IfOk result (Judges self.old at (seen arrival.now)) }
        ensures state { OnOk result (StandsAfter self.old self.new (media_step at (seen arrival.now))) }
        ensures sink { OnOk result
            (Releases self.old (media_step at (seen arrival.now)) (K.contents sink.old) (K.contents sink.new)) }
        ensures time { OnOk result ((self.new.time ≡ at) × (self.new.phase ≡ Phase.Open)) }
        // Unless an epoch opens the highest number is no lower than it was.
        ensures high { OnOk result
            (self.new.epoch ≡ self.old.epoch → IsNoLower self.old.highest self.new.highest) }
        // And where one opens its first packet is kept.
        ensures opens { OnOk result (self.new.epoch ≢ self.old.epoch → IsSome self.new.highest) }
        ensures limits { self.new.limits ≡ self.old.limits }

        ensures err { OnErr result (self.new ≡ failed self.old) }
        ensures part { OnErr result
            (ReleasesPart self.old (media_step at (seen arrival.now)) (K.contents sink.old) (K.contents sink.new)) }
        ensures cause { HasCause (K.faults sink.old) (K.faults sink.new) result }
    {
        self.let_out(Some(at), sink)?;
        Ok(self.take(at, arrival))
    }

    /// Writes what is due at a tick, by rising number, and says how many packets were played out. After a failed write the
    /// buffer has ended, and nothing waits.
    pub fn release<K: Sink>(&mut self, at: u64, sink: &mut K) -> Result<u32, WriteFault>
        requires running { self.old.phase ≡ Phase.Open }
        requires tick { at < 2 ^ 61 }
        requires clock { self.old.time ≤ at }

        ensures state { OnOk result (StandsAfter self.old self.new (time_step at)) }
        ensures sink { OnOk result (Releases self.old (time_step at) (K.contents sink.old) (K.contents sink.new)) }
        ensures count { IfOk result (Counts self.old (time_step at)) }
        ensures time { OnOk result ((self.new.time ≡ at) × (self.new.phase ≡ Phase.Open)) }
        ensures high { OnOk result (self.new.highest ≡ self.old.highest) }
        ensures limits { self.new.limits ≡ self.old.limits }

        ensures err { OnErr result (self.new ≡ failed self.old) }
        ensures part { OnErr result (ReleasesPart self.old (time_step at) (K.contents sink.old) (K.contents sink.new)) }
        // Where no octet is to be written no write can fail: an empty payload makes no piece.
        ensures complete { ReleasesNothing self.old (time_step at) → IsOk result }
        ensures cause { HasCause (K.faults sink.old) (K.faults sink.new) result }
    {
        let count = self.let_out(Some(at), sink)?;
        self.time = at;
        Ok(count)
    }

    /// Writes all that waits, by rising number, ends the buffer, and says how many packets were played out. After a failed
    /// write nothing waits.
    pub fn flush<K: Sink>(&mut self, sink: &mut K) -> Result<u32, WriteFault>
        requires running { self.old.phase ≡ Phase.Open }

        ensures state { OnOk result (StandsAfter self.old self.new end_step) }
        ensures sink { OnOk result (Releases self.old end_step (K.contents sink.old) (K.contents sink.new)) }
        ensures count { IfOk result (Counts self.old end_step) }
        ensures ended { OnOk result (self.new.phase ≡ Phase.Ended) }
        ensures limits { self.new.limits ≡ self.old.limits }

        ensures err { OnErr result (self.new ≡ failed self.old) }
        ensures part { OnErr result (ReleasesPart self.old end_step (K.contents sink.old) (K.contents sink.new)) }
        // Where no octet is to be written no write can fail: an empty payload makes no piece.
        ensures complete { ReleasesNothing self.old end_step → IsOk result }
        ensures cause { HasCause (K.faults sink.old) (K.faults sink.new) result }
    {
        let count = self.let_out(None, sink)?;
        self.phase = Phase::Ended;
        Ok(count)
    }

    /// How many packets wait: at most the span.
    pub fn held(&self) -> usize
        ensures count { result ≡ length self.now.held }
        ensures within { result ≤ self.now.limits.capacity }
    {
        self.ring.count()
    }

    /// The highest number of the epoch that was played out.
    pub fn floor(&self) -> Option<u64>
        ensures value { result ≡ number_below self.now.floor }
        ensures within { self.now.floor < 2 ^ 64 }
    {
        self.floor.checked_sub(1)
    }

    /// The highest number that was kept in the epoch.
    pub fn high(&self) -> Option<u64>
        ensures number { result ≡ option_map (λ h. h.number) self.now.highest }
        ensures within { ForSome result (λ n. n < 2 ^ 62) }
    {
        self.highest.map(|highest| highest.number)
    }

    /// The number of the epoch's first arrival.
    pub fn first(&self) -> Option<u64>
        ensures { result ≡ option_map (λ a. a.number) self.now.anchor }
    {
        self.anchor.map(|anchor| anchor.number)
    }

    /// How often the flow has restarted: the place of the current epoch, from 0 on. An arrival that opens an epoch, but the
    /// very first, raises it.
    pub fn epoch(&self) -> u64
        ensures value { result ≡ self.now.epoch }
    {
        self.epoch
    }

    /// The flow of the epoch's first arrival: its SSRC with the lowest bit cleared.
    pub fn flow(&self) -> Option<u32>
        ensures { result ≡ option_map (λ a. a.flow) self.now.anchor }
    {
        self.anchor.map(|anchor| anchor.flow)
    }

    /// What the deadlines of the epoch's next packets count from, in ticks of the receiver's clock: it moves only with drift.
    pub fn base(&self) -> Option<i64>
        ensures { result ≡ base_in self.now }
    {
        match self.anchor {
            Some(_) => Some(self.clock.base),
            None => None,
        }
    }

    /// How far ahead the packet with the highest number is due, in ticks, by the base of now. Where nothing waits it is 0.
    pub fn fill(&self) -> u64
        requires running { self.now.phase ≢ Phase.Failed }
        ensures value { result ≡ fill_of self.now }
    {
        if self.ring.count() == 0 {
            return 0;
        }
        match (self.anchor, self.highest) {
            (Some(anchor), Some(highest)) => self.lead(&anchor, &highest),
            _ => 0,
        }
    }

    /// Whether the packet with this number waits. Above the highest number that was played out this says whether it was
    /// kept.
    pub fn has(&self, number: u64) -> bool
        ensures waits { result ≡ list_any (λ p. p.number == number) self.now.held }
        ensures kept { self.now.phase ≡ Phase.Open → self.now.floor ≤ number → IsKept self.now number result }
    {
        self.ring.has(number)
    }

    /// Whether all was written, or a write failed.
    pub fn ended(&self) -> bool
        ensures { IsTrue result ↔ (self.now.phase ≢ Phase.Open) }
    {
        self.phase != Phase::Open
    }

    /// An arrival, by what the buffer keeps.
    fn take(&mut self, at: u64, arrival: &Arrival<'_>) -> Verdict
        requires running { self.old.phase ≡ Phase.Open }
        requires tick { at < 2 ^ 61 }
        requires clock { self.old.time ≤ at }
        requires word { arrival.now.word < cycle_of arrival.now.width }
        requires payload { length arrival.now.payload.now ≤ MAX_PAYLOAD }
        ensures verdict { result ≡ judged (opened_at self.old at arrival.now.flow) at (seen arrival.now) }
        ensures taken { self.new ≡ taken (opened_at self.old at arrival.now.flow) at (seen arrival.now) }
    {
        self.open_epoch(at, arrival.flow);
        self.take_in_epoch(at, arrival)
    }

    /// Begins an epoch where a packet of this flow opens one.
    fn open_epoch(&mut self, at: u64, flow: u32)
        requires tick { at < 2 ^ 61 }
        requires clock { self.old.time ≤ at }
        ensures opened { self.new ≡ opened_at self.old at flow }
        ensures clock { self.new.time ≤ at }
        ensures phase { self.new.phase ≡ self.old.phase }
    {
        if self.is_opening(at, flow) {
            self.begin_epoch(at);
        }
    }

    /// Whether a packet of this flow opens an epoch: it is the first, or it is of another flow, nothing waits, and no packet
    /// was kept for the restart time.
    fn is_opening(&self, at: u64, flow: u32) -> bool
        requires tick { at < 2 ^ 61 }
        requires clock { self.now.time ≤ at }
        ensures value { result ≡ is_opening self.now self.now.anchor at flow }
        ensures fits { IsTrue result → next_epoch self.now.anchor self.now.epoch ≤ at }
    {
        match self.anchor {
            None => true,
            Some(anchor) => {
                flow != anchor.flow
                    && self.limits.restart_time > 0
                    && self.ring.count() == 0
                    && self.last + self.limits.restart_time <= at
            }
        }
    }

    /// Nothing has come yet in a new epoch.
    fn begin_epoch(&mut self, at: u64)
        requires tick { at < 2 ^ 61 }
        requires clock { self.old.time ≤ at }
        requires fits { next_epoch self.old.anchor self.old.epoch ≤ at }
        ensures { self.new ≡ begun self.old self.old.anchor at }
    {
        if self.anchor.is_some() {
            self.anchor = None;
            self.highest = None;
            self.floor = 0;
            self.epoch += 1;
        }
        self.last = at;
        self.time = at;
    }

    /// An arrival of the current epoch.
    fn take_in_epoch(&mut self, at: u64, arrival: &Arrival<'_>) -> Verdict
        requires running { self.old.phase ≡ Phase.Open }
        requires tick { at < 2 ^ 61 }
        requires clock { self.old.time ≤ at }
        requires word { arrival.now.word < cycle_of arrival.now.width }
        requires payload { length arrival.now.payload.now ≤ MAX_PAYLOAD }
        ensures verdict { result ≡ judged self.old at (seen arrival.now) }
        ensures taken { self.new ≡ taken self.old at (seen arrival.now) }
    {
        let anchor = self.anchor_for(at, arrival);
        let clock = self.clock_for(at);
        let place = self.place(&anchor, &clock, arrival);
        let verdict = self.verdict(&anchor, at, arrival.flow, &place);
        let counts = verdict.counts(arrival.again);
        let clock = clock_with(&self.limits, &anchor, &clock, at, place.timestamp, counts);
        if verdict.is_kept() {
            self.hold(&place, arrival.payload);
        }
        self.move_to(at, anchor, clock, verdict.is_kept());
        verdict
    }

    /// What deadlines count from: the epoch's first arrival, which may be this one.
    fn anchor_for(&self, at: u64, arrival: &Arrival<'_>) -> Anchor
        requires tick { at < 2 ^ 61 }
        requires clock { self.now.time ≤ at }
        ensures value { result ≡ anchor_at self.now at (seen arrival.now) }
        ensures early { IsEarlyAnchor at result }
    {
        match self.anchor {
            Some(anchor) => anchor,
            None => new_anchor(at, arrival),
        }
    }

    /// The epoch's clock, which may begin now.
    fn clock_for(&self, at: u64) -> Clock
        requires running { self.now.phase ≡ Phase.Open }
        requires tick { at < 2 ^ 61 }
        ensures value { result ≡ clock_at self.now at }
        ensures within { IsClockWithin (start_of self.now.anchor at) (self.now.floor + length self.now.held) result }
        ensures few { result.originals + 1 < 2 ^ 64 }
        ensures base { IsNearBase (start_of self.now.anchor at) result.base }
    {
        clock_in(self.anchor, &self.clock, at)
    }

    /// An arrival's place in the flow.
    fn place(&self, anchor: &Anchor, clock: &Clock, arrival: &Arrival<'_>) -> Position
        requires anchor { anchor.now.time < 2 ^ 61 }
        requires base { IsNearBase anchor.now.time clock.now.base }
        requires start { anchor.now.timestamp < 2 ^ 60 + 2 ^ 32 }
        requires word { arrival.now.word < cycle_of arrival.now.width }
        ensures place { IsPlaceOf result
            (placed_packet self.now.limits anchor.now clock.now.base self.now.highest (seen arrival.now)) }
        ensures limits { AreInRange self.now.limits }
    {
        place_of(&self.limits, anchor, clock, self.highest, arrival)
    }

    /// The first test that fits.
    fn verdict(&self, anchor: &Anchor, at: u64, flow: u32, place: &Position) -> Verdict
        requires { at < 2 ^ 61 }
        ensures { result ≡ verdict_here self.now anchor.now at flow place.now.number place.now.deadline }
    {
        if flow != anchor.flow {
            Verdict::Stranger
        } else if place.number >= 1 << 62 {
            Verdict::Exhausted
        } else if place.deadline <= at as i64 {
            Verdict::Late
        } else if place.number < self.floor {
            Verdict::Behind
        } else if place.deadline > (at + 2 * self.limits.playout_delay) as i64 {
            Verdict::Early
        } else if self.ring.has(place.number) {
            Verdict::Twice
        } else if self.ring.is_any_far_from(place.number) {
            Verdict::Span
        } else {
            Verdict::Kept
        }
    }

    /// How far ahead a packet with the timestamp of the highest one is due.
    fn lead(&self, anchor: &Anchor, highest: &Highest) -> u64
        requires running { self.now.phase ≢ Phase.Failed }
        requires anchor { self.now.anchor ≡ Some anchor.now }
        requires highest { self.now.highest ≡ Some highest.now }
        ensures value { result
            ≡ lead_of self.now.limits self.now.anchor self.now.clock.base self.now.highest self.now.time }
    {
        lead(
            &self.limits,
            anchor,
            &self.clock,
            highest.timestamp,
            self.time,
        )
    }

    /// Puts a packet among those that wait.
    fn hold(&mut self, place: &Position, payload: &[u8])
        requires fits { IsAdmissible self.old (packet_at place.now payload.now) }
        requires payload { length payload.now ≤ MAX_PAYLOAD }
        ensures { self.new ≡ holding self.old (packet_at place.now payload.now) }
    {
        self.ring.put(place, payload);
        self.highest = Some(highest_after(self.highest, place.number, place.timestamp));
    }

    /// The epoch's first arrival fixes the anchor, each moves the time, one that is kept is the last, and an original
    /// that is kept moves the clock.
    fn move_to(&mut self, at: u64, anchor: Anchor, clock: Clock, kept: bool)
        requires anchor { IsEarlyAnchor at anchor }
        requires clock { self.old.time ≤ at }
        requires within { IsClockWithin anchor.time (self.old.floor + length self.old.held) clock }
        ensures { self.new ≡ moved self.old at anchor clock kept }
    {
        self.anchor = Some(anchor);
        self.clock = clock;
        self.last = if kept { at } else { self.last };
        self.time = at;
    }

    /// Lets out what is due at a tick, or all. After a failed write nothing waits any more.
    fn let_out<K: Sink>(&mut self, until: Option<u64>, sink: &mut K) -> Result<u32, WriteFault>
        requires { ForSome until (λ t. t < 2 ^ 61) }
        ensures ok { OnOk result (self.new ≡ raised self.old (floor_then self.old (moment_of until))) }
        ensures sink { OnOk result (Appends (K.contents sink.old) (K.contents sink.new)
            (octets_below (floor_then self.old (moment_of until)) self.old.held)) }
        ensures count { IfOk result (λ n. n
            ≡ length (filter (is_below (floor_then self.old (moment_of until))) self.old.held)) }
        ensures err { OnErr result (self.new ≡ failed self.old) }
        ensures limits { self.new.limits ≡ self.old.limits }
        ensures range { AreInRange self.old.limits }
        ensures part { OnErr result (AppendsPart (K.contents sink.old) (K.contents sink.new)
            (octets_below (floor_then self.old (moment_of until)) self.old.held)) }
        ensures complete { octets_below (floor_then self.old (moment_of until)) self.old.held ≡ []
            → IsOk result }
        ensures cause { HasCause (K.faults sink.old) (K.faults sink.new) result }
    {
        match put_due(&mut self.ring, self.floor, until, sink) {
            Ok(released) => {
                self.floor = released.floor;
                Ok(released.count)
            }
            Err(_) => {
                self.ring.clear();
                self.phase = Phase::Failed;
                Err(WriteFault)
            }
        }
    }
}
