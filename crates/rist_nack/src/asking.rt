//! What a compound asks for. A contract sees the list that is left.
ghost use Rattle.std.specs.Prelude.{◌≡◌};
ghost use Rattle.rist_nack.specs.Asked.{asks_in};

use crate::ask::Ask;
use crate::requests::Requests;
use crate::words::Words;
use rtcp_compound::Compound;
use std::marker::Model;

/// The asks of a compound that are left to give.
#[derive(Debug, Drop)]
pub struct Asks<'a> {
    words: Words<'a>,
    requests: Requests<'a>,
}

impl<'a> Model for Asks<'a> {
    ghost use Rattle.std.specs.Prelude.{◌++◌, List};
    ghost use Rattle.rist_nack.specs.State.{asks_left};
    ghost use Rattle.rist_nack.specs.declared.ask.Ask.{Ask};

    ghost Value = { List Ask };

    ghost view = { λ a. a.words ++ asks_left a.requests };
}

impl<'a> Asks<'a> {
    // Those of a flow, or of all flows.
    pub(crate) fn of(compound: &'a Compound<'a>, flow: Option<u32>) -> Asks<'a>
        ensures { result ≡ asks_in flow compound.now }
    {
        Asks {
            words: Words::of(false, None, 0, &[]),
            requests: Requests::of(compound, flow),
        }
    }
}

impl<'a> Iterator for Asks<'a> {
    type Item = Ask;

    ghost use Rattle.std.specs.Iterator.{YieldsFirst, item_count};

    ghost next_gives = { YieldsFirst (λ asks. asks) };

    ghost remaining = { item_count (λ asks. asks) };

    fn next(&mut self) -> Option<Ask> {
        loop {
            if let Some(ask) = self.words.next() {
                return Some(ask);
            }
            match self.requests.step() {
                Some(Some(words)) => self.words = words,
                Some(None) => {}
                None => return None,
            }
        }
    }
}
