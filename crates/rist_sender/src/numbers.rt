//! The numbers that a compound asks for, one by one.
ghost use Rattle.std.specs.Prelude.{◌≡◌, ◌<◌, ◌≤◌, ◌+◌, ◌%◌, take, Some};
ghost use Rattle.seq_unwrap.specs.Nearest.{cycle_of};
ghost use Rattle.sender_rules.specs.declared.bounds.TheConstants.{MAX_LOOKED_AT};
ghost use Rattle.rist_sender.specs.Calls.{asked_numbers};

use rist_nack::{Asks, asks};
use rtcp_compound::Compound;
use sender_rules::MAX_LOOKED_AT;
use seq_unwrap::Width;
use std::marker::Model;

/// A number that is asked for: how many bits it has, and these bits.
#[derive(Clone, Copy)]
pub(crate) struct Number {
    pub(crate) width: Width,
    pub(crate) word: u32,
    ghost fits: { word < cycle_of width },
}

/// The numbers that a compound asks for and that are left to give.
#[derive(Drop)]
struct All<'a> {
    width: Width,
    next: u64,
    left: u32,
    asks: Asks<'a>,
}

impl<'a> Model for All<'a> {
    ghost use Rattle.std.specs.Prelude.{◌≤◌, ◌+◌, List};
    ghost use Rattle.sender_rules.specs.Retransmissions.{AskedNumber};
    ghost use Rattle.rist_sender.specs.Inside.Numbers.{numbers_left};

    ghost Value = { List AskedNumber };

    ghost view = { λ n. numbers_left n.width n.next n.left n.asks };

    ghost invariant = { λ n. n.next + n.left ≤ 4295032832 };
}

impl<'a> All<'a> {
    // Those of a flow.
    fn of(compound: &'a Compound<'a>, flow: u32) -> All<'a>
        ensures value { result ≡ asked_numbers flow compound.now }
    {
        All {
            width: Width::W16,
            next: 0,
            left: 0,
            asks: asks(compound, Some(flow)),
        }
    }
}

impl<'a> Iterator for All<'a> {
    type Item = Number;

    ghost use Rattle.std.specs.Iterator.{YieldsFirstBy, item_count};
    ghost use Rattle.rist_sender.specs.Inside.Numbers.{number_seen};

    ghost next_gives = { YieldsFirstBy number_seen (λ numbers. numbers) };

    ghost remaining = { item_count (λ numbers. numbers) };

    fn next(&mut self) -> Option<Number> {
        if self.left == 0 {
            let ask = self.asks.next()?;
            self.width = ask.width;
            self.next = u64::from(ask.first);
            self.left = u32::from(ask.more) + 1;
        }
        let word = (self.next % self.width.cycle()) as u32;
        self.next += 1;
        self.left -= 1;
        Some(Number {
            width: self.width,
            word,
        })
    }
}

/// Those of the first 65,536 numbers that a compound asks for that are left to give.
#[derive(Drop)]
pub(crate) struct Numbers<'a> {
    all: All<'a>,
    budget: usize,
}

impl<'a> Model for Numbers<'a> {
    ghost use Rattle.std.specs.Prelude.{List, take};
    ghost use Rattle.sender_rules.specs.Retransmissions.{AskedNumber};

    ghost Value = { List AskedNumber };

    ghost view = { λ n. take n.budget n.all };
}

impl<'a> Numbers<'a> {
    /// Those of a flow.
    pub(crate) fn of(compound: &'a Compound<'a>, flow: u32) -> Numbers<'a>
        ensures value { result ≡ take MAX_LOOKED_AT (asked_numbers flow compound.now) }
    {
        Numbers {
            all: All::of(compound, flow),
            budget: MAX_LOOKED_AT,
        }
    }
}

impl<'a> Iterator for Numbers<'a> {
    type Item = Number;

    ghost use Rattle.std.specs.Iterator.{YieldsFirstBy, item_count};
    ghost use Rattle.rist_sender.specs.Inside.Numbers.{number_seen};

    ghost next_gives = { YieldsFirstBy number_seen (λ numbers. numbers) };

    ghost remaining = { item_count (λ numbers. numbers) };

    fn next(&mut self) -> Option<Number> {
        if self.budget == 0 {
            return None;
        }
        let number = self.all.next()?;
        self.budget -= 1;
        Some(number)
    }
}
