//! What the words of a made script do to its datagrams.
ghost use Rattle.std.specs.Prelude.{◌≡◌, ◌≤◌, ◌<◌, ◌+◌, ◌-◌, ◌++◌, IfOk, IfSome, get_or, length, option_to_list};
ghost use Rattle.made_script.specs.Draws.{held_on, due_by, dues_on, dues_of, new_below, DrawsMore};

use crate::words::{generator, next_word};
use outside_io::NoMemory;
use rand_chacha::ChaCha8Rng;
use std::alloc::Global;
use std::marker::Model;

/// How many payloads a script sends at most.
pub const MAX_COUNT: u32 = 5000;

/// Over how many links it goes at most.
pub const MAX_LINKS: u8 = 4;

/// How many slots follow the last payload.
pub const SLOTS_AFTER: u32 = 1100;

/// A datagram is due one to so many slots after the slot in which it was put.
const MOST_DELAY: u32 = 5;

/// Which way a datagram goes.
#[derive(Clone, Copy, Debug, PartialEq, Eq)]
pub enum Way {
    /// From the sender to the receiver.
    Forward,
    /// From the receiver to the sender.
    Backward,
}

/// A datagram that is carried: its link, its place among all that were put there the same way, from 0, and the slot.
#[derive(Clone, Copy, Debug, PartialEq, Eq)]
pub struct Due {
    pub way: Way,
    pub link: u8,
    pub place: u64,
    pub slot: u32,
}

/// How many datagrams each link holds, each way.
#[derive(Clone, Copy, Debug, PartialEq, Eq)]
pub struct Held {
    pub forward: [u64; 4],
    pub backward: [u64; 4],
}

impl Held {
    // How many a link holds.
    fn on(&self, way: Way, link: u8) -> u64
        requires link { link < 4 }
        ensures value { result ≡ held_on way self.now link }
    {
        match way {
            Way::Forward => self.forward[usize::from(link)],
            Way::Backward => self.backward[usize::from(link)],
        }
    }
}

/// What a script is made of: a number, and how many payloads it sends over how many links, of which so many datagrams
/// in a thousand are lost.
#[derive(Clone, Copy, Debug, PartialEq, Eq)]
pub struct Script {
    pub number: u64,
    pub count: u32,
    pub links: u8,
    pub loss: u16,
}

/// The draws of a script, slot by slot.
#[derive(Drop)]
pub struct Draws {
    script: Script,
    slot: u32,
    words: ChaCha8Rng,
    held: Held,
    dues: Vec<Due>,
}

impl Model for Draws {
    ghost use Rattle.std.specs.Prelude.{◌≤◌, ◌+◌};
    ghost use Rattle.made_script.specs.Draws.{DrawsState};

    ghost Value = { DrawsState };

    ghost view = { λ d. record { script = d.script; slot = d.slot; words = d.words; held = d.held; dues = d.dues.items } };

    ghost use Rattle.made_script.specs.declared.draws.TheConstants.{MAX_LINKS, MAX_COUNT, SLOTS_AFTER};

    ghost invariant = { λ d. (d.script.links ≤ MAX_LINKS) × (d.script.count ≤ MAX_COUNT)
        × (d.slot ≤ d.script.count + SLOTS_AFTER) };
}

// A datagram of a link that draws this word, if it isn't lost.
fn due_by(script: &Script, slot: u32, way: Way, link: u8, place: u64, word: u32) -> Option<Due>
    requires slot { slot ≤ 6100 }
    ensures value { option_to_list result ≡ due_by script.now slot way link place word }
    ensures within { IfSome result (λ due. due.slot ≤ slot + 5) }
{
    if word % 1000 < u32::from(script.loss) {
        return None;
    }
    let slot = slot + 1 + word / 65_536 % MOST_DELAY;
    Some(Due {
        way,
        link,
        place,
        slot,
    })
}

// Puts a datagram behind the others, if there is one.
fn push_due(dues: &mut Vec<Due>, due: Option<Due>) -> Result<(), NoMemory>
    ensures items { IfOk result (λ done. dues.new.items ≡ dues.old.items ++ option_to_list due) }
{
    let Some(due) = due else {
        return Ok(());
    };
    match dues.push(due) {
        Ok(()) => Ok(()),
        Err(_) => Err(NoMemory),
    }
}

impl Draws {
    ghost use Rattle.made_script.specs.declared.draws.TheConstants.{MAX_LINKS, MAX_COUNT};
    ghost use Rattle.made_script.specs.Draws.{IsDrawn, nothing_drawn, draw, is_pending};
    ghost use Rattle.std.specs.Prelude.{◌≡◌, ◌≤◌, ◌<◌, ◌+◌, ◌++◌, IfOk, OnOk, OnErr};

    /// Before the first slot.
    pub fn with(alloc: Global, script: Script) -> Draws
        requires links { script.links ≤ MAX_LINKS }
        requires count { script.count ≤ MAX_COUNT }
        ensures drawn { IsDrawn result nothing_drawn }
        ensures script { result.script ≡ script }
        ensures slot { result.slot ≡ 0 }
    {
        Draws {
            script,
            slot: 0,
            words: generator(script.number, 0),
            held: Held {
                forward: [0; 4],
                backward: [0; 4],
            },
            dues: Vec::new(alloc),
        }
    }

    /// What it was made of.
    pub fn script(&self) -> &Script
        ensures value { result.now ≡ self.now.script }
    {
        &self.script
    }

    /// How many slots the script has.
    pub fn slots(&self) -> u32
        ensures value { result ≡ self.now.script.count + 1100 }
        ensures within { self.now.slot ≤ result }
    {
        self.script.count + SLOTS_AFTER
    }

    /// The slot that is on: behind the last one, how many the script has.
    pub fn slot(&self) -> u32
        ensures value { result ≡ self.now.slot }
    {
        self.slot
    }

    /// What is due in this slot or a later one, as far as it was drawn.
    pub fn dues(&self) -> &[Due]
        ensures value { result.now ≡ self.now.dues }
    {
        &self.dues
    }

    // The datagrams of a link from a place on draw their words.
    fn draw_link(&mut self, way: Way, link: u8, first: u64, held: u64) -> Result<(), NoMemory>
        requires slot { self.old.slot < self.old.script.count + 1100 }
        ensures drawn { IfOk result (λ done. DrawsMore self.old self.new (held - first)
            (λ words. dues_on self.old.script self.old.slot words way link first (held - first))) }
        ensures script { self.new.script ≡ self.old.script }
        ensures slot { self.new.slot ≡ self.old.slot }
    {
        for place in first..held {
            let word = next_word(&mut self.words);
            let due = due_by(&self.script, self.slot, way, link, place, word);
            push_due(&mut self.dues, due)?;
        }
        Ok(())
    }

    // All that were put one way since draw their words.
    fn draw_way(&mut self, way: Way, held: &Held) -> Result<(), NoMemory>
        requires slot { self.old.slot < self.old.script.count + 1100 }
        ensures drawn { IfOk result (λ done. DrawsMore self.old self.new
            (new_below way self.old.held held.now self.old.script.links)
            (λ words. dues_of self.old.script self.old.slot words way self.old.held held.now self.old.script.links)) }
        ensures script { self.new.script ≡ self.old.script }
        ensures slot { self.new.slot ≡ self.old.slot }
    {
        for link in 0..self.script.links {
            let first = self.held.on(way, link);
            self.draw_link(way, link, first, held.on(way, link))?;
        }
        Ok(())
    }

    /// Behind a slot, after which the links hold so many datagrams: those that were put in it draw their words, and the
    /// next slot begins. For want of memory the slot stays on, and what is due by it isn't known any more.
    pub fn draw(&mut self, held: &Held) -> Result<(), NoMemory>
        requires slot { self.old.slot < self.old.script.count + 1100 }
        ensures drawn { IfOk result (λ done. (drawn : _) → IsDrawn self.old drawn
            → IsDrawn self.new (draw self.old.script self.old.slot held.now drawn)) }
        ensures script { self.new.script ≡ self.old.script }
        ensures slot { OnOk result (self.new.slot ≡ self.old.slot + 1) }
        ensures stays { OnErr result (self.new.slot ≡ self.old.slot) }
    {
        self.draw_way(Way::Forward, held)?;
        self.draw_way(Way::Backward, held)?;
        self.held = *held;
        self.slot += 1;
        let slot = self.slot;
        self.dues.retain(|due| due.slot >= slot);
        Ok(())
    }
}
