//! A look at a link of the sink's own, in a turn.
use crate::shared::Shared;
use rist_desk::{Beside, DeskOrigin, Side, Step};
use turn_lock::Acts;

/// A look at a link of the sink's own, by its place, at a moment in microseconds.
#[derive(Clone, Copy)]
pub struct Aside {
    pub us: u64,
    pub link: u8,
}

/// Memory that is not written to.
#[derive(Drop)]
pub struct NoRoom;

impl<N: DeskOrigin, K: Beside> Acts<Step, Aside, NoRoom, Side> for Shared<N, K> {
    ghost use Rattle.std.specs.Prelude.{None};
    ghost use Rattle.turn_desk.specs.Asides.{LooksAt};

    ghost asks = { λ ask room. Unit {0} };

    ghost adds = { λ ask room answer. None };

    ghost answers = { λ h ask was is answer. LooksAt K.contents K.faults K.looks ask.us ask.link answer };

    fn act(&mut self, ask: &Aside, room: &mut NoRoom) -> Side {
        let _ = room;
        self.parts.sink.aside(ask.us, ask.link)
    }
}
