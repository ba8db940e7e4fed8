//! Requests for retransmission, as packets of a compound.
ghost use Rattle.std.specs.Prelude.{◌≡◌, ◌≤◌, ◌<◌, ◌+◌, ◌*◌, ◌++◌, [], ◌∷◌, length, map, take};
ghost use Rattle.std.specs.List.{flat_map};
ghost use Rattle.rtcp_compound.specs.Compound.{application, feedback};
ghost use Rattle.rtcp_compound.specs.Name.{rist_name};
ghost use Rattle.rist_nack.specs.Written.{words_spelling, upper_spelling};
ghost use Rattle.rist_reporter.specs.Nacks.{halves_of, upper_of, nack, nacks, groups_of, extended_nack};
ghost use Rattle.request_rules.specs.Near.{AreNear};
ghost use Rattle.rist_reporter.specs.Inside.Groups.{leading};

use request_rules::{AskWord, NackKind};
use rist_nack::{put_mask, put_range, put_seqext};
use rtcp_compound::CompoundOut;
use seq_unwrap::Width;

/// Who asks, of which flow, and how its requests are written.
#[derive(Clone, Copy, Debug, PartialEq, Eq)]
pub struct Asker {
    /// A range NACK or a generic NACK.
    pub kind: NackKind,
    /// The receiver's own SSRC.
    pub own: u32,
    /// The SSRC of the media, its lowest bit 0.
    pub flow: u32,
}

// The upper half of a word's first number, of 32 bits.
fn upper_of(word: &AskWord) -> u16
    ensures value { result ≡ upper_of word.now }
{
    (word.first / 65536 % 65536) as u16
}

// Words as they are written, from the front of a block on.
fn put_halves(halves: &mut [(u16, u16); 64], words: &[AskWord])
    requires room { length words.now ≤ 64 }
    ensures value { take (length words.now) halves.new ≡ map halves_of words.now }
{
    for place in 0..words.len() {
        let word = words[place];
        halves[place] = ((word.first % 65536) as u16, word.second);
    }
}

// Puts a range NACK, for which there is room.
fn put_ranges(out: &mut CompoundOut, asker: &Asker, halves: &[(u16, u16)])
    requires begun { 0 < length out.old.octets }
    requires room { length out.old.octets + 12 + 4 * length halves.now ≤ 1400 }
    ensures packets { out.new.packets ≡ out.old.packets
        ++ application 0 asker.now.flow rist_name (words_spelling halves.now) ∷ [] }
    ensures length { length out.new.octets ≡ length out.old.octets + 12 + 4 * length halves.now }
{
    let Ok(()) = put_range(out, asker.flow, halves) else {
        unreachable!()
    };
}

// Puts a generic NACK, for which there is room.
fn put_masks(out: &mut CompoundOut, asker: &Asker, halves: &[(u16, u16)])
    requires begun { 0 < length out.old.octets }
    requires room { length out.old.octets + 12 + 4 * length halves.now ≤ 1400 }
    ensures packets { out.new.packets ≡ out.old.packets
        ++ feedback 205 1 asker.now.own asker.now.flow (words_spelling halves.now) ∷ [] }
    ensures length { length out.new.octets ≡ length out.old.octets + 12 + 4 * length halves.now }
{
    let Ok(()) = put_mask(out, asker.own, asker.flow, halves) else {
        unreachable!()
    };
}

// Puts a sequence extension, for which there is room.
fn put_upper(out: &mut CompoundOut, flow: u32, upper: u16)
    requires begun { 0 < length out.old.octets }
    requires room { length out.old.octets + 16 ≤ 1400 }
    ensures packets { out.new.packets ≡ out.old.packets ++ application 1 flow rist_name (upper_spelling upper) ∷ [] }
    ensures length { length out.new.octets ≡ length out.old.octets + 16 }
{
    let Ok(()) = put_seqext(out, flow, upper) else {
        unreachable!()
    };
}

// Puts a request of at most 64 words.
fn put_nack(out: &mut CompoundOut, asker: &Asker, words: &[AskWord])
    requires begun { 0 < length out.old.octets }
    requires few { length words.now ≤ 64 }
    requires room { length out.old.octets + 12 + 4 * length words.now ≤ 1400 }
    ensures packets { out.new.packets ≡ out.old.packets
        ++ nack asker.now.kind asker.now.own asker.now.flow words.now ∷ [] }
    ensures length { length out.new.octets ≡ length out.old.octets + 12 + 4 * length words.now }
{
    let mut block = [(0, 0); 64];
    put_halves(&mut block, words);
    let halves = &block[..words.len()];
    match asker.kind {
        NackKind::Range => put_ranges(out, asker, halves),
        NackKind::Mask => put_masks(out, asker, halves),
    }
}

// Puts a sequence extension, and a request whose words have one upper half.
fn put_group(out: &mut CompoundOut, asker: &Asker, upper: u16, words: &[AskWord])
    requires begun { 0 < length out.old.octets }
    requires few { length words.now ≤ 64 }
    requires room { length out.old.octets + 28 + 4 * length words.now ≤ 1400 }
    ensures packets { out.new.packets ≡ out.old.packets
        ++ extended_nack asker.now.kind asker.now.own asker.now.flow (record { upper = upper; words = words.now }) }
    ensures length { length out.new.octets ≡ length out.old.octets + 28 + 4 * length words.now }
{
    put_upper(out, asker.flow, upper);
    put_nack(out, asker, words);
}

// How many words from the front have this upper half.
fn group_len(words: &[AskWord], upper: u16) -> usize
    ensures value { result ≡ leading upper words.now }
    ensures within { result ≤ length words.now }
{
    for (place, word) in words.iter().enumerate() {
        if upper_of(word) != upper {
            return place;
        }
    }
    words.len()
}

// Puts the requests of numbers of 32 bits. Words that lie near together have two upper halves at most.
fn put_extended(out: &mut CompoundOut, asker: &Asker, words: &[AskWord])
    requires begun { 0 < length out.old.octets }
    requires some { 0 < length words.now }
    requires near { AreNear words.now }
    requires room { length out.old.octets + 56 + 4 * length words.now ≤ 1400 }
    ensures packets { out.new.packets ≡ out.old.packets
        ++ flat_map (extended_nack asker.now.kind asker.now.own asker.now.flow) (groups_of words.now) }
    ensures within { length out.new.octets ≤ length out.old.octets + 56 + 4 * length words.now }
    ensures begun { 0 < length out.new.octets }
{
    let upper = upper_of(&words[0]);
    let count = group_len(words, upper);
    put_group(out, asker, upper, &words[..count]);
    if count < words.len() {
        let rest = &words[count..];
        put_group(out, asker, upper_of(&rest[0]), rest);
    }
}

/// Puts the requests for retransmission of some words, if there are any: in one packet where numbers have 16 bits, else
/// each upper half's behind an extension.
pub(crate) fn put_nacks(out: &mut CompoundOut, asker: &Asker, width: Width, words: &[AskWord])
    requires begun { 0 < length out.old.octets }
    requires near { AreNear words.now }
    requires room { length out.old.octets + 312 ≤ 1400 }
    ensures packets { out.new.packets ≡ out.old.packets
        ++ nacks asker.now.kind asker.now.own asker.now.flow width words.now }
    ensures within { length out.new.octets ≤ length out.old.octets + 312 }
    ensures begun { 0 < length out.new.octets }
{
    if words.is_empty() {
        return;
    }
    match width {
        Width::W16 => put_nack(out, asker, words),
        Width::W32 => put_extended(out, asker, words),
    }
}
