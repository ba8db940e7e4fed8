//! A sender and a receiver, and the links between them.
ghost use Rattle.std.specs.Prelude.{◌≡◌, ◌≤◌, ◌++◌, ◌==◌, [], None, IfOk, IfSome, replicate, length, take, map, set, get_or, slice_get};
ghost use Rattle.link_channels.specs.declared.bounds.TheConstants.{MAX_LINKS};
ghost use Rattle.std.specs.Prelude.{nat_lt, option_map, if◌then◌else◌, ◌&&◌, ◌%◌, not};
ghost use Rattle.std.specs.List.{list_any};
ghost use Rattle.rist_reporter.specs.OneMore.{outs_of};
ghost use Rattle.world_rules.specs.World.{datagram_made};
ghost use Rattle.rist_world.specs.World.{AreSound, datagrams_on, none};

use crate::marks::{Marks, mark_all, media_in};
use crate::tally::Tally;
use crate::wire::Wire;
use crate::written::Written;
use link_channels::{Channel, MAX_DATAGRAM, MAX_PAYLOAD};
use outside_io::NoMemory;
use psk_seal::Sealer;
use rist_ends::{Outcome, Outs, Receiver, Settings as ReceiverSettings, Told, What, what_of};
use rist_sender::{Sender, Settings as SenderSettings};
use rist_wire::{Item, Opener, Session};
use rtcp_compound::Compound;
use std::alloc::Global;
use std::marker::Model;
use world_rules::Move;

/// A sender and a receiver in one session, with links between them on which nothing goes by itself: each datagram that
/// either end puts is kept, and comes to the other end where a move says so. Where memory is short a move answers
/// `NoMemory`, and then nothing is said of the world any more.
#[derive(Drop)]
pub struct World {
    sender: Sender,
    near: Opener,
    receiver: Receiver,
    far: Opener,
    written: Written,
    forward: Vec<Wire>,
    backward: Vec<Wire>,
    media: Vec<Marks>,
    flows: Vec<u32>,
    tally: Tally,
}

impl Model for World {
    ghost use Rattle.std.specs.Prelude.{◌≡◌, ◌≤◌, length};
    ghost use Rattle.sender_rules.specs.Bonding.{link_count};
    ghost use Rattle.link_channels.specs.declared.bounds.TheConstants.{MAX_LINKS};
    ghost use Rattle.rist_world.specs.World.{WorldState};

    ghost Value = { WorldState };

    ghost view = { λ w. record {
      sender = w.sender;
      near = w.near;
      receiver = w.receiver;
      far = w.far;
      written = w.written;
      forward = w.forward.items;
      backward = w.backward.items;
      media = w.media.items;
      flows = w.flows.items;
      tally = w.tally;
    } };

    ghost invariant = { λ w. (length w.forward.items ≡ link_count w.sender.bonding)
        × (length w.forward.items ≤ MAX_LINKS) × (length w.backward.items ≡ length w.forward.items) };
}

// Links on which nothing was put, so many.
fn wires(alloc: Global, count: usize) -> Result<Vec<Wire>, NoMemory>
    ensures value { IfOk result (λ wires. wires.items ≡ replicate count (record { put = []; faults = 0 })) }
{
    let mut wires = Vec::with_capacity(alloc, count)?;
    for made in 0..count {
        match wires.push(Wire::with(alloc)) {
            Ok(()) => {}
            Err(_) => return Err(NoMemory),
        }
    }
    Ok(wires)
}

// The marks of so many links on which nothing was put.
fn no_marks(alloc: Global, count: usize) -> Result<Vec<Marks>, NoMemory>
    ensures value { IfOk result (λ media. media.items ≡ replicate count []) }
{
    let mut media = Vec::with_capacity(alloc, count)?;
    for made in 0..count {
        match media.push(Marks::with(alloc)) {
            Ok(()) => {}
            Err(_) => return Err(NoMemory),
        }
    }
    Ok(media)
}

impl World {
    ghost use Rattle.std.specs.Prelude.{◌≡◌, ◌≤◌, ◌<◌, ◌%◌, ◌+◌, ◌∷◌, [], length, nat_lt, is_some, IfOk};
    ghost use Rattle.receiver_rules.specs.Steps.{tick_of};
    ghost use Rattle.request_rules.specs.Steps.{Tick, End};
    ghost use Rattle.rist_sender.specs.Calls.{IfElse};
    ghost use Rattle.rist_ends.specs.Told.{IsFit, step_of};
    ghost use Rattle.sender_rules.specs.declared.bounds.TheConstants.{MAX_STORED};
    ghost use Rattle.sender_rules.specs.Bonding.{link_count};
    ghost use Rattle.rist_wire.specs.Session.{IsSession};
    ghost use Rattle.rist_ends.specs.Settings.{IsInRange};
    ghost use Rattle.world_rules.specs.World.{Setup, Course, Makes, beginning, links_of, Works, SendsIn, TicksIn, FeedsIn, FeedsIf, CarriesIf, ReceivesIf};
    ghost use Rattle.world_rules.specs.World.{compound_carried, backward_at, forward_at, is_new, renewed_in};
    ghost use Rattle.rist_world.specs.World.{IsWorldAfter, GoesOn, setup_of};
    ghost use Rattle.world_rules.specs.Counts.{media_if};
    ghost use Rattle.rist_world.specs.Counted.{media_at};

    /// Both ends in a session, before any move. A sealer for each is handed in exactly where the session has a
    /// passphrase.
    pub fn with(
        alloc: Global,
        session: &Session,
        near: SenderSettings,
        far: &ReceiverSettings,
        near_sealer: Option<Sealer>,
        far_sealer: Option<Sealer>,
        links: u8,
    ) -> Result<World, NoMemory>
        requires session { IsSession session.now }
        requires flow { near.flow % 2 ≡ 0 }
        requires store { (1 ≤ near.store) × (near.store ≤ MAX_STORED) }
        requires hold { (1 ≤ near.hold) × (near.hold ≤ 1000) }
        requires links { (1 ≤ links) × (links ≤ MAX_LINKS) × (link_count near.bond ≡ links) }
        requires settings { IsInRange far.now }
        requires near { is_some near_sealer ≡ is_some session.now.pass }
        requires far { is_some far_sealer ≡ is_some session.now.pass }
        ensures state { IfOk result (λ w. IsWorldAfter (setup_of session.now near far.now) w
            (beginning near_sealer far_sealer links)) }
    {
        let flow = near.flow;
        let flows = Vec::from_slice(alloc, &[flow])?;
        Ok(World {
            sender: Sender::with(alloc, near, session, near_sealer)?,
            near: Opener::with(alloc, session)?,
            receiver: Receiver::with(alloc, far, session, far_sealer)?,
            far: Opener::with(alloc, session)?,
            written: Written::with(alloc),
            forward: wires(alloc, usize::from(links))?,
            backward: wires(alloc, usize::from(links))?,
            media: no_marks(alloc, usize::from(links))?,
            flows,
            tally: Tally::with(alloc, usize::from(links))?,
        })
    }

    /// Makes a move.
    pub fn make(&mut self, next: &Move) -> Result<(), NoMemory>
        ensures value { IfOk result (λ done. GoesOn self.old self.new (λ setup from to. Makes setup next.now from to)) }
    {
        match next {
            Move::Send(us, payload) => {
                let payload = payload.as_slice();
                if payload.len() <= MAX_PAYLOAD {
                    return self.send(*us, payload);
                }
                Ok(())
            }
            Move::Carry(link, place, us) => self.carry(*link, *place, *us),
            Move::CarryBack(link, place, us) => self.carry_back(*link, *place, *us),
            Move::SenderTick(us) => self.tick_sender(*us),
            Move::Tick(link, us) => self.tick(*link, *us),
            Move::End(us) => self.end(*us),
            Move::Renew(flow, first) => self.renew(*flow, *first),
        }
    }

    /// How many datagrams the sender put on a link: 0 where that isn't there.
    pub fn forward(&self, link: u8) -> u64
        ensures value { result
            ≡ (if nat_lt link (length self.now.forward) then length (get_or self.now.forward link none).put else 0) }
    {
        held_on(&self.forward, link)
    }

    /// How many datagrams the receiver put on a link: 0 where that isn't there.
    pub fn backward(&self, link: u8) -> u64
        ensures value { result
            ≡ (if nat_lt link (length self.now.backward) then length (get_or self.now.backward link none).put else 0) }
    {
        held_on(&self.backward, link)
    }

    /// Whether the datagram that the sender put at a place of a link, from 0, is there and is media.
    pub fn media(&self, link: u8, place: u64) -> bool
        ensures value { (setup : Setup) (course : Course) → IsWorldAfter setup self.now course
            → result ≡ is_some (media_if setup.session (forward_at setup course link place)) }
    {
        self.media_at(link, place).is_some()
    }

    /// What the receiver wrote.
    pub fn written(&self) -> &[u8]
        ensures value { result.now ≡ self.now.written.octets }
    {
        self.written.octets()
    }

    /// Of media that the sender put at a place of a link, whether it says that it is a retransmission; nothing of what
    /// is no media or isn't there.
    pub(crate) fn media_at(&self, link: u8, place: u64) -> Option<bool>
        ensures value { result ≡ media_at self.now link place }
    {
        match self.media.get(usize::from(link)) {
            Some(marks) => marks.at(place),
            None => None,
        }
    }

    /// How many links there are.
    pub(crate) fn links(&self) -> u8
        ensures value { result ≡ length self.now.forward }
    {
        self.forward.len() as u8
    }

    /// What was counted so far.
    pub(crate) fn tally(&self) -> &Tally
        ensures value { result.now ≡ self.now.tally }
    {
        &self.tally
    }

    /// How many packets the receiver kept.
    pub(crate) fn kept(&self) -> u64
        ensures value { result ≡ self.now.receiver.counts.kept }
    {
        self.receiver.counts().kept
    }

    /// How many numbers the receiver asked for.
    pub(crate) fn asked(&self) -> u64
        ensures value { result ≡ self.now.receiver.asked }
    {
        self.receiver.figures().asked
    }

    /// A payload of at most 1,500 octets is sent at a moment.
    pub(crate) fn send(&mut self, us: u64, payload: &[u8]) -> Result<(), NoMemory>
        requires payload { length payload.now ≤ MAX_PAYLOAD }
        ensures value { IfOk result (λ done. GoesOn self.old self.new
            (λ setup from to. Works (SendsIn setup us payload.now) from to)) }
    {
        let sent = self.sender.send(us, payload, &mut self.forward);
        self.tally.send(sent);
        check_memory(&self.forward)?;
        mark_all(&self.forward, &mut self.far, &mut self.media)
    }

    /// The sender's clock ticks.
    pub(crate) fn tick_sender(&mut self, us: u64) -> Result<(), NoMemory>
        ensures value { IfOk result (λ done. GoesOn self.old self.new
            (λ setup from to. Works (TicksIn setup us) from to)) }
    {
        let _ = self.sender.tick(us, &mut self.forward);
        check_memory(&self.forward)?;
        mark_all(&self.forward, &mut self.far, &mut self.media)
    }

    /// The datagram that the receiver put at a place of a link, from 0, comes to the sender, if it is there.
    pub(crate) fn carry_back(&mut self, link: u8, place: u64, us: u64) -> Result<(), NoMemory>
        ensures value { IfOk result (λ done. GoesOn self.old self.new
            (λ setup from to. FeedsIf setup us link (compound_carried setup (backward_at from link place)) from to)) }
    {
        let mut datagram = [0; MAX_DATAGRAM];
        let Some((channel, length)) = datagram_at(&self.backward, link, place, &mut datagram) else {
            return Ok(());
        };
        let Ok(Item::Control(compound)) = self.near.take(channel, &mut datagram[..length]) else {
            return Ok(());
        };
        self.feed(us, link, &compound)
    }

    // A compound comes to the sender.
    fn feed(&mut self, us: u64, link: u8, compound: &Compound<'_>) -> Result<(), NoMemory>
        requires among { link < length self.old.forward }
        ensures value { IfOk result (λ done. GoesOn self.old self.new
            (λ setup from to. Works (FeedsIn setup us link compound.now) from to)) }
    {
        let _ = self.sender.feedback(us, link, compound, &mut self.forward);
        check_memory(&self.forward)?;
        mark_all(&self.forward, &mut self.far, &mut self.media)
    }

    /// Another flow begins, where its SSRC is even and none of the earlier ones.
    pub(crate) fn renew(&mut self, flow: u32, first: u32) -> Result<(), NoMemory>
        ensures value { IfOk result (λ done. GoesOn self.old self.new
            (λ setup from to. IfElse (is_new setup from flow) (to ≡ renewed_in flow first from) (to ≡ from))) }
    {
        if !is_new(&self.flows, flow) {
            return Ok(());
        }
        if self.flows.insert(0, flow).is_err() {
            return Err(NoMemory);
        }
        self.sender.renew(flow, first);
        Ok(())
    }

    /// The datagram that the sender put at a place of a link, from 0, comes to the receiver, if it is there.
    pub(crate) fn carry(&mut self, link: u8, place: u64, us: u64) -> Result<(), NoMemory>
        ensures value { IfOk result (λ done. GoesOn self.old self.new
            (λ setup from to. CarriesIf setup link place us (forward_at setup from link place) from to)) }
    {
        let mut datagram = [0; MAX_DATAGRAM];
        let Some((channel, length)) = datagram_at(&self.forward, link, place, &mut datagram) else {
            return Ok(());
        };
        let mut block = [0; MAX_PAYLOAD];
        let item = self.far.take(channel, &mut datagram[..length]);
        let media = media_in(&item).is_some();
        self.tally.carry(link, place, media)?;
        let what = what_of(&item, &mut block);
        self.step(&Told { link, us, what })
    }

    /// The receiver's clock ticks for a link, if that is there.
    pub(crate) fn tick(&mut self, link: u8, us: u64) -> Result<(), NoMemory>
        ensures value { IfOk result (λ done. GoesOn self.old self.new
            (λ setup from to. IfElse (nat_lt link (links_of setup))
            (ReceivesIf setup (record { link = link; tick = tick_of us; input = Tick us }) from to) (to ≡ from))) }
    {
        if usize::from(link) < self.forward.len() {
            let what = What::Tick;
            return self.step(&Told { link, us, what });
        }
        Ok(())
    }

    /// The stream ends at the receiver.
    pub(crate) fn end(&mut self, us: u64) -> Result<(), NoMemory>
        ensures value { IfOk result (λ done. GoesOn self.old self.new
            (λ setup from to. ReceivesIf setup (record { link = 0; tick = tick_of us; input = End }) from to)) }
    {
        let what = What::End;
        self.step(&Told { link: 0, us, what })
    }

    // The receiver makes a step, and what it makes goes on the step's link.
    fn step(&mut self, told: &Told<'_>) -> Result<(), NoMemory>
        requires fits { IsFit told.now }
        ensures value { IfOk result (λ done. GoesOn self.old self.new
            (λ setup from to. ReceivesIf setup (step_of told.now) from to)) }
    {
        match self.receiver.step(told, &mut self.written) {
            Outcome::WriteFault => Err(NoMemory),
            Outcome::Made(outs) => put_back(&mut self.backward, told.link, &outs),
            Outcome::Stopped => Ok(()),
            Outcome::Verdict(_) => Ok(()),
            Outcome::Spent => Ok(()),
            Outcome::Nothing => Ok(()),
        }
    }
}

// How many datagrams were put on a link.
fn held_on(wires: &[Wire], link: u8) -> u64
    ensures value { result ≡ (if nat_lt link (length wires.now) then length (get_or wires.now link none).put else 0) }
{
    match wires.get(usize::from(link)) {
        Some(wire) => wire.len() as u64,
        None => 0,
    }
}

// Refuses where some write has failed.
fn check_memory(wires: &[Wire]) -> Result<(), NoMemory>
    ensures sound { IfOk result (λ done. AreSound wires.now) }
{
    for wire in wires.iter() {
        if wire.failed() {
            return Err(NoMemory);
        }
    }
    Ok(())
}

// Whether an SSRC is even and not among these.
fn is_new(flows: &[u32], flow: u32) -> bool
    ensures value { result ≡ ((flow % 2 == 0) && not (list_any (λ n. n == flow) flows.now)) }
{
    flow % 2 == 0 && !flows.contains(&flow)
}

// Copies the datagram at a place of a link into the front of the block, if it is there.
fn datagram_at(
    wires: &[Wire],
    link: u8,
    place: u64,
    block: &mut [u8; MAX_DATAGRAM],
) -> Option<(Channel, usize)>
    ensures value { option_map (λ d. record { channel = d.0; octets = take d.1 block.new }) result
        ≡ (if nat_lt link (length wires.now) then slice_get (get_or wires.now link none).put place else None) }
    ensures within { IfSome result (λ d. d.1 ≤ MAX_DATAGRAM) }
{
    match wires.get(usize::from(link)) {
        Some(wire) => wire.at(place, block),
        None => None,
    }
}

// Puts what was made on its link.
fn put_back(wires: &mut [Wire], link: u8, outs: &Outs) -> Result<(), NoMemory>
    ensures value { IfOk result (λ done. datagrams_on wires.new
        ≡ set (datagrams_on wires.old) link
        (get_or (datagrams_on wires.old) link [] ++ map datagram_made (outs_of outs.now))) }
    ensures length { length wires.new ≡ length wires.old }
{
    let link = usize::from(link);
    if link >= wires.len() {
        return Ok(());
    }
    put_all(&mut wires[link], outs)
}

// Puts what was made on a link.
fn put_all(wire: &mut Wire, outs: &Outs) -> Result<(), NoMemory>
    ensures value { IfOk result (λ done.
        wire.new.put ≡ wire.old.put ++ map datagram_made (outs_of outs.now)) }
{
    wire.put(outs.first.channel(), outs.first.octets())?;
    match &outs.second {
        Some(out) => wire.put(out.channel(), out.octets()),
        None => Ok(()),
    }
}
