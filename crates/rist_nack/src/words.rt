//! What the words of one request ask for. A contract sees the list that is left.
ghost use Rattle.std.specs.Prelude.{◌≡◌};
ghost use Rattle.rist_nack.specs.Requests.{words_asks};

use crate::ask::{Ask, ask_of};
use crate::places::next_place;
use octet_fields::u16_at;
use std::marker::Model;

/// The asks of one request that are left to give: the rest of a mask, and then the words behind it.
#[derive(Debug, Drop)]
pub(crate) struct Words<'a> {
    is_mask: bool,
    upper: Option<u16>,
    flow: u32,
    pid: u16,
    mask: u16,
    place: u8,
    rest: &'a [u8],
}

impl<'a> Model for Words<'a> {
    ghost use Rattle.std.specs.Prelude.{◌≤◌, ◌+◌, ◌-◌, ◌++◌, List, map};
    ghost use Rattle.rist_nack.specs.Requests.{numbered, set_places, words_asks};
    ghost use Rattle.rist_nack.specs.declared.ask.Ask.{Ask};

    ghost Value = { List Ask };

    ghost view = { λ w. map (λ i. numbered w.upper w.flow (w.pid + i) 0) (set_places (17 - w.place) w.mask w.place) ++ words_asks w.is_mask w.upper w.flow w.rest.now };

    ghost invariant = { λ w. w.place ≤ 17 };
}

impl<'a> Words<'a> {
    // The words of a request for this flow, under the upper half that holds.
    pub(crate) fn of(is_mask: bool, upper: Option<u16>, flow: u32, rest: &'a [u8]) -> Words<'a>
        ensures { result ≡ words_asks is_mask upper flow rest.now }
    {
        Words {
            is_mask,
            upper,
            flow,
            pid: 0,
            mask: 0,
            place: 17,
            rest,
        }
    }
}

impl<'a> Iterator for Words<'a> {
    type Item = Ask;

    ghost use Rattle.std.specs.Iterator.{YieldsFirst, item_count};

    ghost next_gives = { YieldsFirst (λ asks. asks) };

    ghost remaining = { item_count (λ asks. asks) };

    fn next(&mut self) -> Option<Ask> {
        if let Some(place) = next_place(&mut self.mask, &mut self.place) {
            return Some(ask_of(self.flow, self.upper, self.pid as u32 + place as u32, 0));
        }
        if self.rest.len() < 4 {
            return None;
        }
        let first = u16_at(self.rest, 0);
        let second = u16_at(self.rest, 2);
        self.rest = &self.rest[4..];
        if !self.is_mask {
            return Some(ask_of(self.flow, self.upper, first as u32, second));
        }
        self.pid = first;
        self.mask = second;
        self.place = 1;
        Some(ask_of(self.flow, self.upper, first as u32, 0))
    }
}
