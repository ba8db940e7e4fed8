//! The made script: a stream of packets over links that lose, delay and exchange datagrams by the words of a seeded
//! generator (this profile).
ghost use Rattle.std.specs.Prelude.{◌≡◌, ◌≤◌, ◌<◌, ◌+◌, ◌++◌, ◌∷◌, [], IfOk, map};
ghost use Rattle.std.specs.List.{range_with_len};
ghost use Rattle.rist_world.specs.Script.{is_same_way, is_due, carry_by, carries_on, carries, sends, ticks, slot_moves};
ghost use Rattle.rist_world.specs.Script.{moves_at, micros_of, held_on};

use crate::mover::Mover;
use crate::world::World;
use made_script::{Draws, Due, Held, Script, Way, payload_of};
use outside_io::NoMemory;
use outside_net::Octets;
use std::alloc::Global;
use std::collections::VecDeque;
use std::marker::Model;
use world_rules::Move;

/// A slot's length in microseconds.
const SLOT_LEN: u64 = 1000;

/// The script of a number: so many payloads over so many links, of which so many datagrams in a thousand are lost.
#[derive(Drop)]
pub struct Made {
    draws: Draws,
    queue: VecDeque<Move>,
}

impl Model for Made {
    ghost use Rattle.rist_world.specs.Script.{MadeState};

    ghost Value = { MadeState };

    ghost view = { λ m. record { draws = m.draws; queue = m.queue.items } };
}

// How many microseconds after the first slot one begins.
fn micros_of(slot: u32) -> u64
    ensures value { result ≡ micros_of slot }
{
    SLOT_LEN * u64::from(slot)
}

// Puts a move behind the others.
fn push(moves: &mut VecDeque<Move>, next: Move) -> Result<(), NoMemory>
    ensures items { IfOk result (λ done. moves.new.items ≡ moves.old.items ++ next ∷ []) }
{
    match moves.push_back(next) {
        Ok(()) => Ok(()),
        Err(_) => Err(NoMemory),
    }
}

// Puts the moves that carry what is due in a slot on a link.
fn push_link(
    moves: &mut VecDeque<Move>,
    dues: &[Due],
    way: Way,
    link: u8,
    slot: u32,
) -> Result<(), NoMemory>
    ensures items { IfOk result (λ done. moves.new.items ≡ moves.old.items ++ carries_on way link slot dues.now) }
{
    let us = micros_of(slot);
    for due in dues.iter() {
        if due.way == way && due.link == link && due.slot == slot {
            let next = match way {
                Way::Forward => Move::Carry(link, due.place, us),
                Way::Backward => Move::CarryBack(link, due.place, us),
            };
            push(moves, next)?;
        }
    }
    Ok(())
}

// Puts those of all links.
fn push_way(moves: &mut VecDeque<Move>, draws: &Draws, way: Way) -> Result<(), NoMemory>
    ensures items { IfOk result (λ done. moves.new.items
        ≡ moves.old.items ++ carries way draws.now.script.links draws.now.slot draws.now.dues) }
{
    for link in 0..draws.script().links {
        push_link(moves, draws.dues(), way, link, draws.slot())?;
    }
    Ok(())
}

// Puts a tick of the receiver's clock for each link.
fn push_ticks(moves: &mut VecDeque<Move>, links: u8, slot: u32) -> Result<(), NoMemory>
    ensures items { IfOk result (λ done. moves.new.items ≡ moves.old.items ++ ticks links slot) }
{
    for link in 0..links {
        push(moves, Move::Tick(link, micros_of(slot)))?;
    }
    Ok(())
}

// Puts the move that sends a slot's payload, where one is left.
fn push_send(
    alloc: Global,
    moves: &mut VecDeque<Move>,
    script: &Script,
    slot: u32,
) -> Result<(), NoMemory>
    ensures items { IfOk result (λ done. moves.new.items ≡ moves.old.items ++ sends script.now slot) }
{
    if slot >= script.count {
        return Ok(());
    }
    let payload = Octets::of(alloc, &payload_of(slot))?;
    push(moves, Move::Send(micros_of(slot), payload))
}

// The moves of the slot that is on; behind the last one stands the end.
fn moves_at(alloc: Global, draws: &Draws) -> Result<VecDeque<Move>, NoMemory>
    ensures items { IfOk result (λ moves. moves.items ≡ moves_at draws.now.script draws.now.slot draws.now.dues) }
{
    let mut moves = VecDeque::new(alloc);
    let script = draws.script();
    let slot = draws.slot();
    if slot >= draws.slots() {
        push(&mut moves, Move::End(micros_of(slot)))?;
        return Ok(moves);
    }
    push_send(alloc, &mut moves, script, slot)?;
    push(&mut moves, Move::SenderTick(micros_of(slot)))?;
    push_way(&mut moves, draws, Way::Forward)?;
    push_ticks(&mut moves, script.links, slot)?;
    push_way(&mut moves, draws, Way::Backward)?;
    Ok(moves)
}

// How many datagrams the first four links hold.
fn held_in(world: &World) -> Held
    ensures forward { result.forward ≡ map (held_on world.now.forward) (range_with_len 0 4) }
    ensures backward { result.backward ≡ map (held_on world.now.backward) (range_with_len 0 4) }
{
    Held {
        forward: [
            world.forward(0),
            world.forward(1),
            world.forward(2),
            world.forward(3),
        ],
        backward: [
            world.backward(0),
            world.backward(1),
            world.backward(2),
            world.backward(3),
        ],
    }
}

impl Made {
    ghost use Rattle.std.specs.Prelude.{◌≡◌, ◌≤◌, ◌<◌, ◌+◌, [], IfOk};
    ghost use Rattle.rist_world.specs.World.{IsWorldAfter};
    ghost use Rattle.made_script.specs.declared.draws.TheConstants.{MAX_LINKS, MAX_COUNT};
    ghost use Rattle.made_script.specs.declared.draws.Script.{Script as ScriptValue};
    ghost use Rattle.made_script.specs.Draws.{IsDrawn, draw};
    ghost use Rattle.rist_world.specs.Mover.{HasGivenNone};
    ghost use Rattle.rist_world.specs.Script.{moves_at, slot_count, HasGiven};

    /// The script of a number.
    pub fn with(
        alloc: Global,
        number: u64,
        count: u32,
        links: u8,
        loss: u16,
    ) -> Result<Made, NoMemory>
        requires { (links ≤ MAX_LINKS) × (count ≤ MAX_COUNT) }
        ensures script { IfOk result (λ made. made.draws.script
            ≡ record { number = number; count = count; links = links; loss = loss }) }
        ensures none { IfOk result (λ made. HasGivenNone (⟦<Made as Mover>⟧.given made)) }
    {
        let script = Script {
            number,
            count,
            links,
            loss,
        };
        let draws = Draws::with(alloc, script);
        let queue = moves_at(alloc, &draws)?;
        Ok(Made { draws, queue })
    }

    // The next slot begins, after one behind which the links hold so many datagrams.
    fn turn(&mut self, alloc: Global, held: &Held) -> Result<(), NoMemory>
        requires slot { self.old.draws.slot < slot_count self.old.draws.script }
        ensures script { IfOk result (λ done. self.new.draws.script ≡ self.old.draws.script) }
        ensures slot { IfOk result (λ done. self.new.draws.slot ≡ self.old.draws.slot + 1) }
        ensures drawn { IfOk result (λ done. (drawn : _) → IsDrawn self.old.draws drawn
            → IsDrawn self.new.draws (draw self.old.draws.script self.old.draws.slot held.now drawn)) }
        ensures queue { IfOk result (λ done. self.new.queue
            ≡ moves_at self.new.draws.script self.new.draws.slot self.new.draws.dues) }
    {
        self.draws.draw(held)?;
        self.queue = moves_at(alloc, &self.draws)?;
        Ok(())
    }

    // The next slot begins where all moves of the one that is on were given, unless that is the last.
    fn prepare(&mut self, alloc: Global, world: &World) -> Result<(), NoMemory>
        ensures given { IfOk result (λ done. (setup from moves to : _) → HasGiven self.old setup from moves to
            → IsWorldAfter setup world.now to → HasGiven self.new setup from moves to) }
        ensures script { IfOk result (λ done. self.new.draws.script ≡ self.old.draws.script) }
        ensures some { IfOk result (λ done. self.new.queue ≡ []
            → slot_count self.new.draws.script ≤ self.new.draws.slot) }
    {
        if !self.queue.is_empty() || self.draws.slot() >= self.draws.slots() {
            return Ok(());
        }
        self.turn(alloc, &held_in(world))?;
        Ok(())
    }
}

impl Mover for Made {
    ghost use Rattle.rist_world.specs.Script.{IsMadeScript, HasGiven};

    ghost script = { λ made. IsMadeScript made.draws.script };

    ghost given = { λ made. HasGiven made };

    fn next(&mut self, alloc: Global, world: &World) -> Result<Option<Move>, NoMemory> {
        self.prepare(alloc, world)?;
        Ok(self.queue.pop_front())
    }
}
