//! Messages, read as items.
ghost use Rattle.std.specs.Prelude.{◌≡◌, ◌<◌, ◌-◌, ◌%◌, length};
ghost use Rattle.rtp_packet.specs.Reading.{extension_shown, reading_of as rtp_reading_of};
ghost use Rattle.rtcp_compound.specs.Reading.{fault_of};
ghost use Rattle.keepalive_msg.specs.Reading.{reading_of as keepalive_reading_of};
ghost use Rattle.seq_unwrap.specs.Nearest.{cycle_of};
ghost use Rattle.rist_wire.specs.Media.{can_restore, width_by, word_by};
ghost use Rattle.rist_wire.specs.Messages.{extension_word, word_in, media_with, tested_media, rtp_item, rtcp_item, keepalive_item, item_by};

use crate::bad::WireBad;
use crate::item::{Item, Kind};
use crate::media::Media;
use gre_tunnel::Tunnel;
use rist_ext::{ExtBad, ExtWord};
use rist_nack::flow;
use rtcp_compound::Compound;
use rtp_packet::Rtp;
use seq_unwrap::Width;
use ts_nulls::{NullBad, Strip};

const NO_WORD: ExtWord = ExtWord {
    strip: None,
    upper: None,
};

fn extension_word(
    tunnel: Tunnel,
    left: usize,
    profile: u16,
    words: &[u8],
) -> Result<ExtWord, ExtBad>
    ensures value { result ≡ extension_word tunnel left profile words.now }
{
    match tunnel {
        Tunnel::Own => ExtWord::read(profile, words),
        Tunnel::Librist => ExtWord::read_counted(left, profile, words),
    }
}

// The RIST extension of a packet with so many octets of payload: that of a packet without one where the extension has
// another profile word or count.
fn word_in(tunnel: Tunnel, left: usize, extension: Option<(u16, &[u8])>) -> Result<ExtWord, ExtBad>
    ensures value { result ≡ word_in tunnel left (extension_shown extension.entry) }
{
    let Some((profile, words)) = extension else {
        return Ok(NO_WORD);
    };
    match extension_word(tunnel, left, profile, words) {
        Ok(word) => Ok(word),
        Err(ExtBad::Profile) => Ok(NO_WORD),
        Err(ExtBad::Length) => Ok(NO_WORD),
        Err(ExtBad::Size) => Err(ExtBad::Size),
    }
}

fn width_by(upper: Option<u16>) -> Width
    ensures value { result ≡ width_by upper }
{
    match upper {
        Some(_) => Width::W32,
        None => Width::W16,
    }
}

// The bits of the number that were sent.
fn word_by(upper: Option<u16>, number: u16) -> u32
    ensures value { result ≡ word_by upper number }
    ensures within { result < cycle_of (width_by upper) }
{
    match upper {
        Some(upper) => u32::from(upper) * 65536 + u32::from(number),
        None => u32::from(number),
    }
}

fn can_restore(strip: &Option<Strip>, payload: &[u8]) -> bool
    ensures value { result ≡ can_restore strip.now payload.now }
{
    match strip {
        Some(strip) => ts_nulls::can_restore(strip, payload),
        None => true,
    }
}

fn tested_media<'a>(rtp: &Rtp<'a>, word: ExtWord) -> Result<Item<'a>, WireBad>
    ensures value { result ≡ tested_media (media_with rtp.now word) }
{
    let payload = rtp.payload();
    if !can_restore(&word.strip, payload) {
        return Err(WireBad::Nulls(NullBad::Shape));
    }
    let ssrc = rtp.ssrc();
    Ok(Item::Media(Media {
        flow: flow(ssrc),
        again: ssrc % 2 == 1,
        width: width_by(word.upper),
        word: word_by(word.upper, rtp.number()),
        stamp: rtp.stamp(),
        strip: word.strip,
        payload,
    }))
}

fn media_in<'a>(tunnel: Tunnel, octets: &'a [u8]) -> Result<Item<'a>, WireBad>
    ensures value { result ≡ rtp_item tunnel (rtp_reading_of octets.now) }
{
    let rtp = match Rtp::read(octets) {
        Ok(rtp) => rtp,
        Err(bad) => return Err(WireBad::Rtp(bad)),
    };
    match word_in(tunnel, rtp.payload().len(), rtp.extension()) {
        Ok(word) => tested_media(&rtp, word),
        Err(bad) => Err(WireBad::Ext(bad)),
    }
}

fn control_in<'a>(octets: &'a [u8]) -> Result<Item<'a>, WireBad>
    ensures value { result ≡ rtcp_item octets.now (fault_of octets.now) }
{
    match Compound::read(octets) {
        Ok(compound) => Ok(Item::Control(compound)),
        Err(bad) => Err(WireBad::Rtcp(bad)),
    }
}

fn keepalive_in<'a>(octets: &'a [u8]) -> Result<Item<'a>, WireBad>
    ensures value { result ≡ keepalive_item (keepalive_reading_of octets.now) }
{
    match keepalive_msg::read(octets) {
        Ok(keepalive) => Ok(Item::Keepalive(keepalive)),
        Err(bad) => Err(WireBad::Keepalive(bad)),
    }
}

/// The item of a message.
pub(crate) fn item_in<'a>(tunnel: Tunnel, kind: Kind, octets: &'a [u8]) -> Result<Item<'a>, WireBad>
    ensures value { result ≡ item_by tunnel kind octets.now }
{
    match kind {
        Kind::Media => media_in(tunnel, octets),
        Kind::Control => control_in(octets),
        Kind::Keepalive => keepalive_in(octets),
    }
}
