ghost use Rattle.std.specs.Prelude.{◌≡◌, ◌+◌, ◌-◌, ◌*◌, ◌<◌, ◌≤◌, ◌++◌, ◌==◌, if◌then◌else◌, true, false, Ok, IfOk, OnErr, is_ok, length, take, drop};
ghost use Rattle.std.specs.Int.{bit_at};
ghost use Rattle.ts_nulls.specs.Nulls.{null_flags, kept_count, restored, restoring_of, written};
ghost use Rattle.ts_nulls.specs.Packets.{packet_len, null_packet};

use crate::nulls::{NullBad, Strip};
use crate::packets::{LONG_LEN, MAX_PACKETS, MAX_PACKETS_LEN, SYNC_BYTE, packet_len};
use link_channels::MAX_PAYLOAD;
use octet_fields::put_at;

// Whether the packet at this place was null.
fn was_null(nulls: u8, place: u8) -> bool
    requires { place < MAX_PACKETS }
    ensures { result ≡ (bit_at nulls (6 - place) == 1) }
{
    (nulls >> (6 - place)) & 1 == 1
}

// One where the packet at this place was kept.
fn kept_at(nulls: u8, place: u8) -> usize
    requires { place < MAX_PACKETS }
    ensures value { result ≡ (if bit_at nulls (6 - place) == 1 then 0 else 1) }
    ensures within { result ≤ 1 }
{
    if was_null(nulls, place) { 0 } else { 1 }
}

fn kept_count(units: u8, nulls: u8) -> usize
    requires { units ≤ MAX_PACKETS }
    ensures count { result ≡ kept_count (null_flags 7 units nulls) }
    ensures within { result ≤ MAX_PACKETS }
{
    let mut kept = 0;
    for place in 0..units {
        kept += kept_at(nulls, place);
    }
    kept
}

// Writes a null packet at its place.
fn put_null(out: &mut [u8], at: usize, long: bool) -> usize
    requires room { at + packet_len long ≤ length out.old }
    ensures end { result ≡ at + packet_len long }
    ensures octets { take result out.new ≡ take at out.old ++ null_packet long }
{
    let mut packet = [0xff; LONG_LEN];
    packet[0] = SYNC_BYTE;
    packet[1] = 0x1f;
    packet[3] = 0x10;
    put_at(out, at, &packet[..packet_len(long)])
}

// Writes the next packet, a null one or the first of the rest, and says where it ends and what is left.
fn put_next<'a>(
    out: &mut [u8],
    at: usize,
    long: bool,
    null: bool,
    rest: &'a [u8],
) -> (usize, &'a [u8])
    requires room { at + packet_len long ≤ length out.old }
    requires rest { null ≡ false → packet_len long ≤ length rest.now }
    ensures end { result.0 ≡ at + packet_len long }
    ensures octets { take result.0 out.new
        ≡ take at out.old ++ (if null then null_packet long else take (packet_len long) rest.now) }
    ensures rest { result.1.now ≡ (if null then rest.now else drop (packet_len long) rest.now) }
{
    if null {
        return (put_null(out, at, long), rest);
    }
    let (packet, after) = rest.split_at(packet_len(long));
    (put_at(out, at, packet), after)
}

// Writes all packets of a payload, and says how many octets they are.
fn put_packets(
    octets: &[u8],
    units: u8,
    long: bool,
    nulls: u8,
    out: &mut [u8; MAX_PAYLOAD],
) -> usize
    requires few { units ≤ MAX_PACKETS }
    requires whole { length octets.now ≡ packet_len long * kept_count (null_flags 7 units nulls) }
    ensures octets { take result out.new ≡ restored long (null_flags 7 units nulls) octets.now }
    ensures end { result ≡ packet_len long * units }
{
    let mut rest = octets;
    let mut at = 0;
    for place in 0..units {
        let (end, after) = put_next(out, at, long, was_null(nulls, place), rest);
        at = end;
        rest = after;
    }
    at
}

/// Whether null packets can be put back into a payload: it is as long as the packets that weren't null.
pub fn can_restore(strip: &Strip, payload: &[u8]) -> bool
    ensures value { result ≡ is_ok (restoring_of strip.now payload.now) }
{
    payload.len() == packet_len(strip.long) * kept_count(strip.units, strip.nulls)
}

/// Copies a payload that can be restored to the front of `out`, with its null packets put back, and says how many octets
/// that makes.
pub fn put_back(strip: &Strip, payload: &[u8], out: &mut [u8; MAX_PAYLOAD]) -> usize
    requires whole { is_ok (restoring_of strip.now payload.now) ≡ true }
    ensures octets { Ok (take result out.new) ≡ restoring_of strip.now payload.now }
    ensures within { result ≤ MAX_PACKETS_LEN }
{
    put_packets(payload, strip.units, strip.long, strip.nulls, out)
}

/// Copies a payload with its null packets put back to the front of `out`, and says how many octets it has.
/// Where they can't be put back, nothing is written.
pub fn restore(strip: &Strip, payload: &[u8], out: &mut [u8; MAX_PAYLOAD]) -> Result<usize, NullBad>
    ensures value { written out.new result ≡ restoring_of strip.now payload.now }
    ensures within { IfOk result (λ len. len ≤ MAX_PACKETS_LEN) }
    ensures same { OnErr result (out.new ≡ out.old) }
{
    if !can_restore(strip, payload) {
        return Err(NullBad::Shape);
    }
    Ok(put_back(strip, payload, out))
}
