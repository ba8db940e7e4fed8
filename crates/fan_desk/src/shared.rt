//! What the lock is passed on over.
use crate::fan_step::FanStep;
use crate::origin::FanOrigin;
use crate::told::FanTold;
use outside_io::Sink;
use rist_fan::{Came, Fan};
use std::marker::{Model, PhantomData};
use turn_lock::{Acts, Turned};

/// Receivers and their sinks, under a name that knows how many there are. They lie in a box, so that a turn moves no more
/// than a pointer.
#[derive(Drop)]
pub struct SharedFan<N: FanOrigin, K> {
    pub fan: Box<Fan<K>>,
    pub of: PhantomData<N>,
}

impl<N: FanOrigin, K> Model for SharedFan<N, K> {
    ghost use Rattle.std.specs.Prelude.{◌≡◌, length};
    ghost use Rattle.rist_fan.specs.declared.fan.Fan.{Fan};
    ghost use Rattle.rist_fan.specs.Fan.{flows_in};

    ghost Value = { Fan K };

    ghost view = { λ shared. shared.fan.value };

    ghost invariant = { λ shared. length (flows_in shared.fan.value) ≡ N.places };
}

impl<N: FanOrigin, K: Sink> Turned<FanStep> for SharedFan<N, K> {
    ghost use Rattle.fan_desk.specs.Rows.{StandAs};

    ghost stands = { StandAs N.given K.contents K.faults };
}

impl<'a, N: FanOrigin, K: Sink> Acts<FanStep, FanTold<'a>, Vec<Came>, ()> for SharedFan<N, K> {
    ghost use Rattle.fan_desk.specs.Rows.{MayBeTold, AnswersFigured, row_added};

    ghost asks = { λ ask room. MayBeTold N.places ask room.items };

    ghost adds = { λ ask room answer. row_added ask room.items answer };

    ghost answers = { λ before ask was is answer. AnswersFigured N.given before ask was.items is.items answer };

    fn act(&mut self, ask: &FanTold<'a>, room: &mut Vec<Came>) {
        let fan = &mut *self.fan;
        fan.step(ask.place, &ask.told, room);
    }
}
