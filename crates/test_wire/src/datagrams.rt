ghost use Rattle.std.specs.Prelude.{◌≡◌, ◌⊎◌, ◌≤◌, ◌+◌, true, None, is_some, length, take};
ghost use Rattle.link_channels.specs.declared.profile.Profile.TheVariants.{Main};
ghost use Rattle.rist_wire.specs.Session.{IsSession};

use link_channels::Channel;
use outside_io::Words;
use psk_keys::{Keys, Phrase};
use psk_seal::{Sealer, Spent};
use rist_wire::{Item, Kind, Media, Opener, Profile, Session, Shutter, Tunnel, WireBad};
use seq_unwrap::Width;
use std::alloc::Global;
use std::process::Abort;
use std::test::Fail;
use ts_nulls::{Strip, can_restore};

fn simple_session() -> Session
    ensures session { IsSession result }
    ensures pass { result.pass ≡ None }
{
    Session {
        profile: Profile::Simple,
        port: 1968,
        pass: None,
        bits: 128,
        nulls: false,
        width: Width::W16,
        full: false,
        tunnel: Tunnel::Own,
        echo: false,
    }
}

pub(crate) fn main_session(pass: Option<Phrase>, bits: u16, width: Width) -> Session
    requires { (bits ≡ 128) ⊎ (bits ≡ 256) }
    ensures session { IsSession result }
    ensures profile { result.profile ≡ Main }
    ensures pass { result.pass ≡ pass }
    ensures nulls { result.nulls ≡ true }
{
    Session {
        profile: Profile::Main,
        port: 1968,
        pass,
        bits,
        nulls: true,
        width,
        full: false,
        tunnel: Tunnel::Own,
        echo: false,
    }
}

fn full_session(pass: Option<Phrase>) -> Session
    ensures session { IsSession result }
    ensures profile { result.profile ≡ Main }
    ensures pass { result.pass ≡ pass }
{
    Session {
        profile: Profile::Main,
        port: 1968,
        pass,
        bits: 128,
        nulls: false,
        width: Width::W16,
        full: true,
        tunnel: Tunnel::Own,
        echo: false,
    }
}

// A session with the passphrase `secret` and a key of so many bits.
pub(crate) fn secret_session(bits: u16) -> Session
    requires { (bits ≡ 128) ⊎ (bits ≡ 256) }
    ensures session { IsSession result }
    ensures profile { result.profile ≡ Main }
    ensures pass { is_some result.pass ≡ true }
{
    main_session(Some(Phrase::of(b"secret")), bits, Width::W16)
}

pub(crate) fn opener_of(alloc: Global, session: &Session) -> Result<Opener, Fail>
    requires { IsSession session.now }
{
    match Opener::with(alloc, session) {
        Ok(opener) => Ok(opener),
        Err(_) => Err(Fail::new("out of memory")),
    }
}

// Why a datagram is no item.
fn refusal(opener: &mut Opener, channel: Channel, octets: &[u8]) -> Option<WireBad> {
    let mut block = [0; 2048];
    if octets.len() > 2048 {
        return None;
    }
    block[..octets.len()].copy_from_slice(octets);
    match opener.take(channel, &mut block[..octets.len()]) {
        Ok(_) => None,
        Err(bad) => Some(bad),
    }
}

fn assert_refused(
    rt: &impl Abort,
    opener: &mut Opener,
    channel: Channel,
    octets: &[u8],
    bad: WireBad,
) {
    assert!(rt; refusal(opener, channel, octets) == Some(bad));
}

// The octets of each row are refused with its text, at its place.
fn assert_refusals(
    rt: &impl Abort,
    alloc: Global,
    opener: &mut Opener,
    channel: Channel,
    rows: &[(&[u8], &str, usize)],
) -> Result<(), Fail> {
    for (octets, text, place) in rows {
        let bad = refusal(opener, channel, octets).ok_or("an item")?;
        let told = format!(in alloc; "{bad}")?;
        assert!(rt; told.as_str() == *text, "not {text}");
        assert!(rt; bad.place() == *place, "{text} elsewhere");
    }
    Ok(())
}

// Datagrams of the tunnel, with the text and the place of the first test that fails.
static TUNNEL_REFUSALS: [(&[u8], &str, usize); 13] = [
    (b"\x00\x00", "gre short", 0),
    (b"\x00\x01\x88\xb6", "gre version", 0),
    (b"\x80\x00\x88\xb6", "gre checksum", 0),
    (b"\x40\x00\x88\xb6", "gre reserved", 0),
    (
        b"\x20\x00\x88\xb6\x00\x00\x00\x00",
        "gre key without sequence",
        0,
    ),
    (b"\x00\x00\xcc\xe0", "gre protocol", 0),
    (
        b"\x30\x00\x88\xb5\x00\x00\x00\x01\x00\x00\x00\x00\x02\x00\x10\x20\x30\x40\x00\x00",
        "wire sealed",
        0,
    ),
    (b"\x00\x00\x88\xb5\x02\x00\x10", "keepalive short", 0),
    (b"\x00\x00\x88\xb6\x07\xb0", "wire stub", 0),
    (
        b"\x00\x00\x88\xb6\x07\xb0\x07\xb2\x80\x21\x00\x00\x00\x00\x00\x00\x10\x20\x30\x40\x41",
        "wire port",
        0,
    ),
    // The destination is media's, whatever the source.
    (b"\x00\x00\x88\xb6\x07\xb1\x07\xb0\x80", "rtp short", 0),
    (b"\x00\x00\x88\xb6\x07\xb0\x07\xb1\x80", "rtcp short", 0),
    (
        b"\x00\x00\x88\xb6\x07\xb1\x07\xb1\x80\xc9\x00\x01\x00\x00\x00\x07\x80\xcb\x00\x01",
        "rtcp length",
        8,
    ),
];

#[test]
fn the_first_test_that_fails_names_a_datagram_of_the_tunnel(rt: HostRuntime) -> Result<(), Fail> {
    let alloc = rt.alloc();
    let mut opener = opener_of(alloc, &main_session(None, 128, Width::W16))?;
    assert_refused(&rt, &mut opener, Channel::Media, b"", WireBad::Channel);
    assert_refusals(&rt, alloc, &mut opener, Channel::Tunnel, &TUNNEL_REFUSALS)
}

// Full datagrams, with the text of the first test that fails.
static FULL_REFUSALS: [(&[u8], &str, usize); 12] = [
    (
        b"\x00\x00\x08\x00\x45\x00\x00\x29\x00\x00\x40\x00\x40\x11\x26\xc2\x0a\x00\x00\x01\x0a\x00\x00",
        "ip short",
        0,
    ),
    (
        b"\x00\x00\x08\x00\x65\x00\x00\x29\x00\x00\x40\x00\x40\x11\x06\xc2\x0a\x00\x00\x01\x0a\x00\x00\x02\x07\xb0\x07\xb0\x00\x15\xda\xdf\x80\x21\x00\x00\x00\x00\x00\x00\x10\x20\x30\x40\x41",
        "ip version",
        0,
    ),
    (
        b"\x00\x00\x08\x00\x44\x00\x00\x29\x00\x00\x40\x00\x40\x11\x27\xc2\x0a\x00\x00\x01\x0a\x00\x00\x02\x07\xb0\x07\xb0\x00\x15\xda\xdf\x80\x21\x00\x00\x00\x00\x00\x00\x10\x20\x30\x40\x41",
        "ip header",
        0,
    ),
    (
        b"\x00\x00\x08\x00\x45\x00\x00\x29\x00\x00\x40\x00\x40\x11\x26\xc3\x0a\x00\x00\x01\x0a\x00\x00\x02\x07\xb0\x07\xb0\x00\x15\xda\xdf\x80\x21\x00\x00\x00\x00\x00\x00\x10\x20\x30\x40\x41",
        "ip header sum",
        0,
    ),
    (
        b"\x00\x00\x08\x00\x45\x00\x00\x2a\x00\x00\x40\x00\x40\x11\x26\xc1\x0a\x00\x00\x01\x0a\x00\x00\x02\x07\xb0\x07\xb0\x00\x15\xda\xdf\x80\x21\x00\x00\x00\x00\x00\x00\x10\x20\x30\x40\x41",
        "ip length",
        0,
    ),
    (
        b"\x00\x00\x08\x00\x45\x00\x00\x29\x00\x00\x60\x00\x40\x11\x06\xc2\x0a\x00\x00\x01\x0a\x00\x00\x02\x07\xb0\x07\xb0\x00\x15\xda\xdf\x80\x21\x00\x00\x00\x00\x00\x00\x10\x20\x30\x40\x41",
        "ip fragment",
        0,
    ),
    (
        b"\x00\x00\x08\x00\x45\x00\x00\x29\x00\x00\x40\x00\x40\x06\x26\xcd\x0a\x00\x00\x01\x0a\x00\x00\x02\x07\xb0\x07\xb0\x00\x15\xda\xdf\x80\x21\x00\x00\x00\x00\x00\x00\x10\x20\x30\x40\x41",
        "ip protocol",
        0,
    ),
    (
        b"\x00\x00\x08\x00\x45\x00\x00\x1b\x00\x00\x40\x00\x40\x11\x26\xd0\x0a\x00\x00\x01\x0a\x00\x00\x02\x07\xb0\x07\xb0\x00\x15\xda\xdf\x80\x21\x00\x00\x00\x00\x00\x00\x10\x20\x30\x40\x41",
        "udp short",
        0,
    ),
    (
        b"\x00\x00\x08\x00\x45\x00\x00\x29\x00\x00\x40\x00\x40\x11\x26\xc2\x0a\x00\x00\x01\x0a\x00\x00\x02\x07\xb0\x07\xb0\x00\x16\x00\x00\x80\x21\x00\x00\x00\x00\x00\x00\x10\x20\x30\x40\x41",
        "udp length",
        0,
    ),
    (
        b"\x00\x00\x08\x00\x45\x00\x00\x29\x00\x00\x40\x00\x40\x11\x26\xc2\x0a\x00\x00\x01\x0a\x00\x00\x02\x07\xb0\x07\xb0\x00\x15\xda\xde\x80\x21\x00\x00\x00\x00\x00\x00\x10\x20\x30\x40\x41",
        "udp sum",
        0,
    ),
    (
        b"\x00\x00\x08\x00\x45\x00\x00\x29\x00\x00\x40\x00\x40\x11\x26\xc2\x0a\x00\x00\x01\x0a\x00\x00\x02\x07\xb0\x07\xb2\x00\x15\xda\xdd\x80\x21\x00\x00\x00\x00\x00\x00\x10\x20\x30\x40\x41",
        "wire port",
        0,
    ),
    (
        b"\x00\x00\x08\x00\x45\x00\x00\x29\x00\x00\x40\x00\x40\x11\x26\xc2\x0a\x00\x00\x01\x0a\x00\x00\x02\x07\xb0\x07\xb1\x00\x15\xda\xde\x80\x21\x00\x00\x00\x00\x00\x00\x10\x20\x30\x40\x41",
        "rtcp kind",
        0,
    ),
];

#[test]
fn the_first_test_that_fails_names_a_full_datagram(rt: HostRuntime) -> Result<(), Fail> {
    let alloc = rt.alloc();
    let mut opener = opener_of(alloc, &main_session(None, 128, Width::W16))?;
    assert_refusals(&rt, alloc, &mut opener, Channel::Tunnel, &FULL_REFUSALS)
}

// Whether a datagram is this media: flow 0x10203040, number 0, timestamp 0 and the octet `A`.
fn is_media_a(opener: &mut Opener, octets: &[u8]) -> bool {
    let mut block = [0; 2048];
    if octets.len() > 2048 {
        return false;
    }
    block[..octets.len()].copy_from_slice(octets);
    match opener.take(Channel::Tunnel, &mut block[..octets.len()]) {
        Ok(Item::Media(media)) => {
            media.flow == 0x10203040
                && !media.again
                && media.word == 0
                && media.stamp == 0
                && media.payload() == b"A".as_slice()
        }
        _ => false,
    }
}

fn assert_media_a(rt: &impl Abort, opener: &mut Opener, octets: &[u8]) {
    assert!(rt; is_media_a(opener, octets));
}

// Octets behind the IPv4 datagram, behind the UDP datagram, no checksum of UDP, and options in the header of IPv4.
static FULL: [&[u8]; 4] = [
    b"\x00\x00\x08\x00\x45\x00\x00\x29\x00\x00\x40\x00\x40\x11\x26\xc2\x0a\x00\x00\x01\x0a\x00\x00\x02\x07\xb0\x07\xb0\x00\x15\xda\xdf\x80\x21\x00\x00\x00\x00\x00\x00\x10\x20\x30\x40\x41\x01\x02",
    b"\x00\x00\x08\x00\x45\x00\x00\x2b\x00\x00\x40\x00\x40\x11\x26\xc0\x0a\x00\x00\x01\x0a\x00\x00\x02\x07\xb0\x07\xb0\x00\x15\xda\xdf\x80\x21\x00\x00\x00\x00\x00\x00\x10\x20\x30\x40\x41\x03\x04",
    b"\x00\x00\x08\x00\x45\x00\x00\x29\x00\x00\x40\x00\x40\x11\x26\xc2\x0a\x00\x00\x01\x0a\x00\x00\x02\x07\xb0\x07\xb0\x00\x15\x00\x00\x80\x21\x00\x00\x00\x00\x00\x00\x10\x20\x30\x40\x41\x00\x00",
    b"\x00\x00\x08\x00\x46\x00\x00\x2d\x00\x00\x40\x00\x40\x11\x23\xbd\x0a\x00\x00\x01\x0a\x00\x00\x02\x01\x01\x01\x00\x07\xb0\x07\xb0\x00\x15\xda\xdf\x80\x21\x00\x00\x00\x00\x00\x00\x10\x20\x30\x40\x41",
];

#[test]
fn a_full_datagram_is_taken(rt: HostRuntime) -> Result<(), Fail> {
    let mut opener = opener_of(rt.alloc(), &main_session(None, 128, Width::W16))?;
    for octets in &FULL {
        assert_media_a(&rt, &mut opener, octets);
    }
    Ok(())
}

#[test]
fn media_is_not_taken_as_plain_text_under_a_passphrase(rt: HostRuntime) -> Result<(), Fail> {
    let mut opener = opener_of(rt.alloc(), &secret_session(128))?;
    let full = b"\x00\x00\x08\x00";
    assert_refused(&rt, &mut opener, Channel::Tunnel, full, WireBad::Clear);
    let media =
        b"\x00\x00\x88\xb6\x07\xb0\x07\xb0\x80\x21\x00\x00\x00\x00\x00\x00\x10\x20\x30\x40\x41";
    assert_refused(&rt, &mut opener, Channel::Tunnel, media, WireBad::Clear);
    Ok(())
}

// Datagrams on the port of RTP, with the text and the place of the first test that fails.
static MEDIA_REFUSALS: [(&[u8], &str, usize); 7] = [
    (b"\x80", "rtp short", 0),
    (
        b"\x40\x21\x00\x0a\x00\x00\x00\x00\x10\x20\x30\x40",
        "rtp version",
        0,
    ),
    (
        b"\x81\x21\x00\x0a\x00\x00\x00\x00\x10\x20\x30\x40",
        "rtp sources",
        0,
    ),
    (
        b"\x90\x21\x00\x0a\x00\x00\x00\x00\x10\x20\x30\x40",
        "rtp extension",
        0,
    ),
    (
        b"\xa0\x21\x00\x0a\x00\x00\x00\x00\x10\x20\x30\x40",
        "rtp padding",
        0,
    ),
    (
        b"\x90\x21\x00\x0a\x00\x00\x00\x00\x10\x20\x30\x40\x52\x49\x00\x01\x80\x00\x00\x00",
        "extension size",
        0,
    ),
    (
        b"\x90\x21\x00\x0a\x00\x00\x00\x00\x10\x20\x30\x40\x52\x49\x00\x01\x88\x00\x00\x00\x00",
        "nulls shape",
        0,
    ),
];

// The same on the port of RTCP.
static CONTROL_REFUSALS: [(&[u8], &str, usize); 6] = [
    (b"", "rtcp short", 0),
    (b"\x40\xc9\x00\x01\x00\x00\x00\x07", "rtcp version", 0),
    (b"\x80\xbf\x00\x01\x00\x00\x00\x07", "rtcp kind", 0),
    (b"\x80\xca\x00\x01\x00\x00\x00\x07", "rtcp first", 0),
    (
        b"\xa0\xc9\x00\x01\x00\x00\x00\x07\x80\xcb\x00\x00",
        "rtcp padding",
        0,
    ),
    (b"\x81\xc9\x00\x01\x00\x00\x00\x07", "rtcp body", 0),
];

#[test]
fn the_first_test_that_fails_names_a_datagram_of_two_ports(rt: HostRuntime) -> Result<(), Fail> {
    let alloc = rt.alloc();
    let mut opener = opener_of(alloc, &simple_session())?;
    assert_refused(&rt, &mut opener, Channel::Tunnel, b"", WireBad::Channel);
    assert_refusals(&rt, alloc, &mut opener, Channel::Media, &MEDIA_REFUSALS)?;
    assert_refusals(&rt, alloc, &mut opener, Channel::Control, &CONTROL_REFUSALS)
}

// Keyed datagrams of the passphrase `secret` and a key of 128 bits under six nonces, by another implementation
// (OpenSSL 3.0).
static KEYED: [[u8; 29]; 6] = [
    *b"\x30\x00\x88\xb6\x00\x00\x00\x01\x00\x00\x00\x00\x51\x74\xfc\xec\xb4\xdd\xf6\x6f\x0d\x72\xb6\x64\x32\x18\xa1\xba\x0f",
    *b"\x30\x00\x88\xb6\x00\x00\x00\x02\x00\x00\x00\x00\x49\x10\x22\x78\xf7\x6d\x43\xb7\x91\xd4\x71\x57\x48\x46\xa2\xf0\x31",
    *b"\x30\x00\x88\xb6\xff\xff\xff\xff\x00\x00\x00\x07\xd2\x4c\x76\x53\x86\xb8\x77\x2f\x9d\x16\x9a\x4b\xa7\xa1\x23\x94\xc5",
    *b"\x30\x00\x88\xb6\x01\x02\x03\x04\x00\x00\x01\x00\x06\x21\x6e\x2c\x16\x68\xca\x0b\xd7\xe5\xd4\x93\x81\xa1\xb4\xa0\xf0",
    *b"\x30\x00\x88\xb6\x00\x00\x00\x05\xff\xff\xff\xff\x5e\x39\x4a\xd0\xe6\x76\x0b\xc7\xa4\x6d\x2f\x12\x15\x9b\x7f\x83\x38",
    *b"\x30\x00\x88\xb6\x00\x00\x00\x06\x00\x00\x00\x01\x03\xaa\xdd\xd9\x49\xf7\x44\x29\x17\x02\xff\x77\xff\xd9\x8e\x15\xfe",
];

#[test]
fn what_is_enciphered_is_taken_under_its_passphrase(rt: HostRuntime) -> Result<(), Fail> {
    let mut opener = opener_of(rt.alloc(), &secret_session(128))?;
    for octets in &KEYED {
        assert_media_a(&rt, &mut opener, octets);
    }
    Ok(())
}

#[test]
fn six_datagrams_under_six_nonces_leave_four_keys_cached(rt: HostRuntime) -> Result<(), Fail> {
    let mut opener = opener_of(rt.alloc(), &secret_session(128))?;
    let mut keys = Keys::with(rt.alloc(), Phrase::of(b"secret"), 128)?;
    for octets in &KEYED {
        assert_media_a(&rt, &mut opener, octets);
        let [_, _, _, _, a, b, c, d, ..] = *octets;
        keys.turn_to([a, b, c, d]);
    }
    assert!(rt; keys.cached() == 4);
    // The first datagram again, whose key is derived anew, and the last, whose key is cached.
    assert_media_a(&rt, &mut opener, &KEYED[0]);
    assert_media_a(&rt, &mut opener, &KEYED[5]);
    Ok(())
}

#[test]
fn what_is_enciphered_with_a_long_key_is_taken(rt: HostRuntime) -> Result<(), Fail> {
    let mut opener = opener_of(rt.alloc(), &secret_session(256))?;
    let octets =
        b"\x30\x40\x88\xb6\x01\x02\x03\x04\x00\x00\x01\x00\x36\x26\xd5\x32\xcd\xe4\x39\x57\x90\x41\x43\xbf\x76\x32\x58\x2d\x1a";
    assert_media_a(&rt, &mut opener, octets);
    Ok(())
}

// Whether a datagram is the keepalive of the SSRC 0x10203040.
fn is_keepalive(opener: &mut Opener, octets: &[u8]) -> bool
    requires { length octets.now ≤ 20 }
{
    let mut block = [0; 20];
    block[..octets.len()].copy_from_slice(octets);
    match opener.take(Channel::Tunnel, &mut block[..octets.len()]) {
        Ok(Item::Keepalive(keepalive)) => {
            keepalive.mac == *b"\x02\x00\x10\x20\x30\x40"
                && keepalive.capabilities == 0
                && keepalive.text == 0
        }
        _ => false,
    }
}

#[test]
fn a_keepalive_is_taken_in_clear_and_enciphered(rt: HostRuntime) -> Result<(), Fail> {
    let mut opener = opener_of(rt.alloc(), &secret_session(128))?;
    let clear = b"\x00\x00\x88\xb5\x02\x00\x10\x20\x30\x40\x00\x00";
    assert!(rt; is_keepalive(&mut opener, clear));
    assert!(rt; is_keepalive(&mut opener, &KEYED_KEEPALIVE));
    Ok(())
}

// Datagrams that are refused in a session with the passphrase `secret`, why, and what stands after it. The first is
// KEYED[0] with one bit of the destination turned, which is turned in its text too; the second names no key.
static REFUSED: [([u8; 29], WireBad, [u8; 29]); 2] = [
    (
        *b"\x30\x00\x88\xb6\x00\x00\x00\x01\x00\x00\x00\x00\x51\x74\xfe\xec\xb4\xdd\xf6\x6f\x0d\x72\xb6\x64\x32\x18\xa1\xba\x0f",
        WireBad::Port,
        *b"\x30\x00\x88\xb6\x00\x00\x00\x01\x00\x00\x00\x00\x07\xb0\x05\xb0\x80\x21\x00\x00\x00\x00\x00\x00\x10\x20\x30\x40\x41",
    ),
    (
        *b"\x10\x00\x88\xb6\x00\x00\x00\x01\x07\xb0\x07\xb0\x80\x21\x00\x00\x00\x00\x00\x00\x10\x20\x30\x40AAAAA",
        WireBad::Clear,
        *b"\x10\x00\x88\xb6\x00\x00\x00\x01\x07\xb0\x07\xb0\x80\x21\x00\x00\x00\x00\x00\x00\x10\x20\x30\x40AAAAA",
    ),
];

// A datagram that is refused, whether an item is made of it or not, and what stands after it.
fn assert_left(
    rt: &impl Abort,
    opener: &mut Opener,
    octets: &[u8; 29],
    bad: WireBad,
    after: &[u8; 29],
) {
    let mut block = *octets;
    assert!(rt; matches!(opener.take(Channel::Tunnel, &mut block), Err(found) if found == bad));
    assert!(rt; block == *after);
    let mut block = *octets;
    assert!(rt; opener.open(Channel::Tunnel, &mut block) == Err(bad));
    assert!(rt; block == *after);
}

#[test]
fn a_refused_datagram_is_deciphered_exactly_where_its_header_has_a_key(
    rt: HostRuntime,
) -> Result<(), Fail> {
    let mut opener = opener_of(rt.alloc(), &secret_session(128))?;
    for (octets, bad, after) in &REFUSED {
        assert_left(&rt, &mut opener, octets, *bad, after);
    }
    Ok(())
}

#[test]
fn a_part_is_read_where_it_stands(rt: HostRuntime) -> Result<(), Fail> {
    let mut opener = opener_of(rt.alloc(), &secret_session(128))?;
    let mut block = KEYED[0];
    let Ok(part) = opener.open(Channel::Tunnel, &mut block) else {
        return Err(Fail::new("no part"));
    };
    assert!(rt; (part.kind, part.from) == (Kind::Media, 16));
    assert!(rt;
        matches!(part.item(Tunnel::Own, &block), Ok(Item::Media(media)) if media.word() == 0)
    );
    Ok(())
}

// A block that begins with these octets.
fn block_with(front: &[u8; 20]) -> [u8; 2048] {
    let mut block = [0xab; 2048];
    block[..20].copy_from_slice(front);
    block
}

// A null packet of 188 octets stands here, of which five octets tell enough.
fn assert_null(rt: &impl Abort, content: &[u8; 1500], at: usize) {
    let packet = content.get(at..).unwrap_or(&[]);
    assert!(rt; packet.starts_with(b"\x47\x1f\xff\x10\xff"), "at {at}");
}

// A packet of 188 octets 0xab stands here.
fn assert_kept(rt: &impl Abort, content: &[u8; 1500], at: usize) {
    let packet = content.get(at..at.saturating_add(188));
    assert!(rt; packet == Some([0xab; 188].as_slice()), "at {at}");
}

// The content of the media: three null packets of seven.
fn assert_restored(rt: &impl Abort, media: &Media<'_>) {
    let mut content = [0; 1500];
    assert!(rt; media.content(&mut content) == 1316);
    for at in [0, 564, 1128] {
        assert_null(rt, &content, at);
    }
    for at in [188, 376, 752, 940] {
        assert_kept(rt, &content, at);
    }
}

#[test]
fn null_packets_return_to_their_places(rt: HostRuntime) -> Result<(), Fail> {
    let mut opener = opener_of(rt.alloc(), &simple_session())?;
    let mut block = block_with(
        b"\x90\x21\x00\x0a\x00\x00\x00\x00\x10\x20\x30\x41\x52\x49\x00\x01\xb8\x49\x00\x00",
    );
    let Ok(Item::Media(media)) = opener.take(Channel::Media, block.get_mut(..772).ok_or("772")?)
    else {
        return Err(Fail::new("no media"));
    };
    assert!(rt; media.again && !media.is_whole());
    let strip = Strip {
        units: 7,
        long: false,
        nulls: 0x49,
    };
    assert!(rt; media.strip() == Some(strip));
    assert_restored(&rt, &media);
    Ok(())
}

#[test]
fn packets_of_204_octets_and_wide_numbers_are_told(rt: HostRuntime) -> Result<(), Fail> {
    let mut opener = opener_of(rt.alloc(), &simple_session())?;
    let mut block = block_with(
        b"\x90\x21\x00\x0a\x00\x00\x00\x00\x10\x20\x30\x40\x52\x49\x00\x01\xd0\xa0\x00\x02",
    );
    let Ok(Item::Media(media)) = opener.take(Channel::Media, block.get_mut(..224).ok_or("224")?)
    else {
        return Err(Fail::new("no media"));
    };
    assert!(rt; media.width == Width::W32);
    assert!(rt; media.word == 0x0002000a);
    let mut content = [0; 1500];
    assert!(rt; media.content(&mut content) == 408);
    assert!(rt; &content[200..205] == b"\xab\xab\xab\xab\x47".as_slice());
    Ok(())
}

// What was sent is a datagram of these octets on the channel.
fn assert_sent(
    rt: &impl Abort,
    sent: Result<(Channel, usize), Spent>,
    out: &[u8; 2048],
    channel: Channel,
    want: &[u8],
) {
    assert!(rt; sent == Ok((channel, want.len())));
    assert!(rt; out.get(..want.len()) == Some(want));
}

// The media with this number and these octets in clear.
fn assert_media(rt: &impl Abort, session: &Session, number: u64, payload: &[u8], want: &[u8])
    requires session { IsSession session.now }
    requires pass { session.now.pass ≡ None }
    requires payload { length payload.now ≤ 1500 }
{
    let mut out = [0xff; 2048];
    let mut shutter = Shutter::with(session, None);
    let sent = shutter.media(0x10203040, false, number, 0, None, payload, &mut out);
    assert_sent(rt, sent, &out, Channel::Tunnel, want);
}

// A compound in clear.
fn assert_control(rt: &impl Abort, session: &Session, channel: Channel, want: &[u8])
    requires session { IsSession session.now }
    requires pass { session.now.pass ≡ None }
{
    let mut out = [0xff; 2048];
    let mut shutter = Shutter::with(session, None);
    let sent = shutter.control(b"\x80\xc9\x00\x01\x00\x00\x00\x07", &mut out);
    assert_sent(rt, sent, &out, channel, want);
}

// A keepalive in clear.
fn assert_keepalive(rt: &impl Abort, session: &Session, want: &[u8])
    requires session { IsSession session.now }
    requires profile { session.now.profile ≡ Main }
    requires pass { session.now.pass ≡ None }
{
    let mut out = [0xff; 2048];
    let mut shutter = Shutter::with(session, None);
    let sent = shutter.keepalive(0x10203040, &mut out);
    assert_sent(rt, sent, &out, Channel::Tunnel, want);
}

#[test]
fn datagrams_are_written_octet_by_octet(rt: HostRuntime) {
    let session = main_session(None, 128, Width::W16);
    let media =
        b"\x00\x00\x88\xb6\x07\xb0\x07\xb0\x80\x21\x00\x00\x00\x00\x00\x00\x10\x20\x30\x40\x41";
    assert_media(&rt, &session, 65536, b"A", media);
    let keepalive = b"\x00\x00\x88\xb5\x02\x00\x10\x20\x30\x40\x00\x00";
    assert_keepalive(&rt, &session, keepalive);
    let control = b"\x00\x00\x88\xb6\x07\xb1\x07\xb1\x80\xc9\x00\x01\x00\x00\x00\x07";
    assert_control(&rt, &session, Channel::Tunnel, control);
    let alone = b"\x80\xc9\x00\x01\x00\x00\x00\x07";
    assert_control(&rt, &simple_session(), Channel::Control, alone);
}

// Full datagrams: media with an odd count of data, media of which UDP's checksum is computed as 0 and written as its
// complement, and a compound.
const FULL_ODD: &[u8] =
    b"\x00\x00\x08\x00\x45\x00\x00\x29\x00\x00\x40\x00\x40\x11\x26\xc2\x0a\x00\x00\x01\x0a\x00\x00\x02\x07\xb0\x07\xb0\x00\x15\xda\xdf\x80\x21\x00\x00\x00\x00\x00\x00\x10\x20\x30\x40\x41";

const FULL_ZERO: &[u8] =
    b"\x00\x00\x08\x00\x45\x00\x00\x2a\x00\x00\x40\x00\x40\x11\x26\xc1\x0a\x00\x00\x01\x0a\x00\x00\x02\x07\xb0\x07\xb0\x00\x16\xff\xff\x80\x21\x00\x00\x00\x00\x00\x00\x10\x20\x30\x40\x1b\xde";

const FULL_CONTROL: &[u8] =
    b"\x00\x00\x08\x00\x45\x00\x00\x24\x00\x00\x40\x00\x40\x11\x26\xc7\x0a\x00\x00\x01\x0a\x00\x00\x02\x07\xb1\x07\xb1\x00\x10\x5b\x98\x80\xc9\x00\x01\x00\x00\x00\x07";

#[test]
fn full_datagrams_are_written_octet_by_octet(rt: HostRuntime) {
    let session = full_session(None);
    assert_media(&rt, &session, 0, b"A", FULL_ODD);
    assert_media(&rt, &session, 0, b"\x1b\xde", FULL_ZERO);
    assert_control(&rt, &session, Channel::Tunnel, FULL_CONTROL);
    // A keepalive has no ports, so it is the same in either form.
    let keepalive = b"\x00\x00\x88\xb5\x02\x00\x10\x20\x30\x40\x00\x00";
    assert_keepalive(&rt, &session, keepalive);
}

fn sealer(alloc: Global) -> Result<Sealer, Fail> {
    let words = [1, 2, 3, 4, 5, 6, 7, 8, 9, 10, 11, 12, 13, 14, 15, 16];
    match Sealer::with(&mut Words::with(alloc, &words, &[])?) {
        Ok(sealer) => Ok(sealer),
        Err(_) => Err(Fail::new("no nonces")),
    }
}

#[test]
fn a_full_datagram_is_enciphered_as_another_one_is(rt: HostRuntime) -> Result<(), Fail> {
    let mut out = [0xff; 2048];
    let session = full_session(Some(Phrase::of(b"secret")));
    let mut shutter = Shutter::with(&session, Some(sealer(rt.alloc())?));
    let sent = shutter.media(0x10203040, false, 0, 0, None, b"A", &mut out);
    assert!(rt; sent == Ok((Channel::Tunnel, 53)));
    assert!(rt; out.starts_with(b"\x30\x00\x08\x00\x00\x00\x00\x01\x00\x00\x00\x00"));
    let mut opener = opener_of(rt.alloc(), &session)?;
    assert_media_a(&rt, &mut opener, &out[..53]);
    Ok(())
}

// The RTP packet behind the header of a datagram of so many octets.
fn assert_packet(
    rt: &impl Abort,
    sent: Result<(Channel, usize), Spent>,
    out: &[u8; 2048],
    length: usize,
    want: &[u8],
) {
    assert!(rt; sent == Ok((Channel::Tunnel, length)));
    assert!(rt; out.get(8..length) == Some(want));
}

#[test]
fn the_extension_stands_where_nulls_are_deleted(rt: HostRuntime) {
    let mut out = [0xff; 2048];
    let strip = Strip {
        units: 1,
        long: false,
        nulls: 0x40,
    };
    assert!(rt; can_restore(&strip, b""));
    let mut shutter = Shutter::with(&main_session(None, 128, Width::W16), None);
    let sent = shutter.media(0x10203040, true, 1, 900, Some(strip), b"", &mut out);
    let want = b"\x90\x21\x00\x01\x00\x00\x03\x84\x10\x20\x30\x41\x52\x49\x00\x01\x88\x40\x00\x00";
    assert_packet(&rt, sent, &out, 28, want);
}

#[test]
fn the_extension_stands_where_numbers_are_wide(rt: HostRuntime) {
    let mut out = [0xff; 2048];
    let mut wide = Shutter::with(&main_session(None, 128, Width::W32), None);
    let sent = wide.media(0x10203040, false, 0x1_0002_0003, 900, None, b"A", &mut out);
    let want =
        b"\x90\x21\x00\x03\x00\x00\x03\x84\x10\x20\x30\x40\x52\x49\x00\x01\x40\x00\x00\x02\x41";
    assert_packet(&rt, sent, &out, 29, want);
}

// The first keepalive of a session with the passphrase `secret` that has sent one datagram.
static KEYED_KEEPALIVE: [u8; 20] =
    *b"\x30\x00\x88\xb5\x00\x00\x00\x01\x00\x00\x00\x01\x69\x36\xc6\xad\x9e\xba\xbd\x96";

#[test]
fn each_datagram_is_enciphered_under_a_pair_of_its_own(rt: HostRuntime) -> Result<(), Fail> {
    let mut out = [0xff; 2048];
    let mut shutter = Shutter::with(&secret_session(128), Some(sealer(rt.alloc())?));
    let sent = shutter.media(0x10203040, false, 0, 0, None, b"A", &mut out);
    assert_sent(&rt, sent, &out, Channel::Tunnel, &KEYED[0]);
    let sent = shutter.keepalive(0x10203040, &mut out);
    assert_sent(&rt, sent, &out, Channel::Tunnel, &KEYED_KEEPALIVE);
    assert!(rt; shutter.left() == Some(68_719_476_734));
    Ok(())
}

#[test]
fn a_long_key_is_named_in_the_header(rt: HostRuntime) -> Result<(), Fail> {
    let mut out = [0xff; 2048];
    let mut shutter = Shutter::with(&secret_session(256), Some(sealer(rt.alloc())?));
    let sent = shutter.media(0x10203040, false, 0, 0, None, b"A", &mut out);
    let want =
        b"\x30\x40\x88\xb6\x00\x00\x00\x01\x00\x00\x00\x00\x7f\x8e\x9b\xa1\x75\xdb\xb8\x30\x06\xf5\x38\x1e\xd5\x65\xfb\x32\xf3";
    assert_sent(&rt, sent, &out, Channel::Tunnel, want);
    Ok(())
}
