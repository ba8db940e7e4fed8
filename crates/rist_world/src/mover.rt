//! What makes a script, move by move.
ghost use Rattle.std.specs.Prelude.{◌≡◌, List, IfOk};
ghost use Rattle.world_rules.specs.declared.moves.Move.{Move as MoveValue};
ghost use Rattle.world_rules.specs.World.{Setup, Course};
ghost use Rattle.rist_world.specs.Mover.{GivesNext};

use crate::world::World;
use outside_io::NoMemory;
use outside_net::Octets;
use std::alloc::Global;
use world_rules::Move;

/// Gives the moves of a script, one after another. A world tells how many datagrams each of its
/// links holds each way, and which of them are media.
pub trait Mover {
    /// The mover's script: from this course on these moves, the newest first, are all that it gives, and lead to that
    /// course.
    ghost script: { Self → Setup → Course → List MoveValue → Course → Type 0 };

    /// From this course on it has given these moves, the newest first, which have led to that course.
    ghost given: { Self → Setup → Course → List MoveValue → Course → Type 0 };

    /// The next move, or none where the script has come to its end. The world is what the moves so far have made.
    fn next(&mut self, alloc: Global, world: &World) -> Result<Option<Move>, NoMemory>
        ensures next { IfOk result (λ next. GivesNext (script self.old) (given self.old)
            (script self.new) (given self.new) world.now next) };
}

/// The moves of a list, in their order.
#[derive(Drop)]
pub struct Listed<'a> {
    moves: &'a [Move],
    at: usize,
}

impl<'a> Listed<'a> {
    ghost use Rattle.std.specs.Prelude.{◌≡◌};
    ghost use Rattle.rist_world.specs.Mover.{HasGivenNone};

    /// Over a list of moves.
    pub fn over(moves: &'a [Move]) -> Listed<'a>
        ensures moves { result.moves.now ≡ moves.now }
        ensures none { HasGivenNone (⟦<Listed<'a> as Mover>⟧.given result) }
    {
        Listed { moves, at: 0 }
    }
}

impl<'a> Mover for Listed<'a> {
    ghost use Rattle.std.specs.Prelude.{◌≡◌, take, reverse};

    ghost script = { λ listed setup from moves to. reverse moves ≡ listed.moves.now };

    ghost given = { λ listed setup from moves to. reverse moves ≡ take listed.at listed.moves.now };

    fn next(&mut self, alloc: Global, _world: &World) -> Result<Option<Move>, NoMemory> {
        let Some(next) = self.moves.get(self.at) else {
            return Ok(None);
        };
        self.at = self.at.saturating_add(1);
        Ok(Some(copied(alloc, next)?))
    }
}

// A move as it is.
fn copied(alloc: Global, next: &Move) -> Result<Move, NoMemory>
    ensures value { IfOk result (λ copy. copy ≡ next.now) }
{
    Ok(match next {
        Move::Send(us, payload) => Move::Send(*us, Octets::of(alloc, payload.as_slice())?),
        Move::Carry(link, place, us) => Move::Carry(*link, *place, *us),
        Move::CarryBack(link, place, us) => Move::CarryBack(*link, *place, *us),
        Move::SenderTick(us) => Move::SenderTick(*us),
        Move::Tick(link, us) => Move::Tick(*link, *us),
        Move::End(us) => Move::End(*us),
        Move::Renew(flow, first) => Move::Renew(*flow, *first),
    })
}
