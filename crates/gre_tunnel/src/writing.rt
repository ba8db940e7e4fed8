ghost use Rattle.std.specs.Prelude.{◌≡◌, ◌+◌, ◌^◌, ◌<◌, ◌≤◌, ◌++◌, ℕ, List, Ok, IfSome, IsSome, IsTrue, length, take, drop};
ghost use Rattle.octet_fields.specs.Writing.{KeepsFrom};
ghost use Rattle.gre_tunnel.specs.Gre.{optional_word, spelling, IsProtocol};
ghost use Rattle.gre_tunnel.specs.Reading.{reading_of, value_of};
ghost use Rattle.gre_tunnel.specs.Writing.{header_with, version_with, ignored_with};

use crate::tunnel::Tunnel;
use octet_fields::put_at;

const KEY: u16 = 0x2000;

const SEQUENCE: u16 = 0x1000;

// An ignored bit: the key has 32 octets (this profile).
const LONG_KEY: u16 = 0x0040;

// The lowest of the three ignored bits that librist calls the version of its tunnel.
const VERSION: u16 = 0x0008;

fn version_with(tunnel: Tunnel, key: Option<u32>) -> u16
    ensures value { result ≡ version_with tunnel key }
    ensures small { result ≤ 1 }
{
    match tunnel {
        Tunnel::Own => 0,
        Tunnel::Librist => u16::from(key.is_some()),
    }
}

// Writes a number of 32 bits, where it is there.
fn put_number(out: &mut [u8], at: usize, number: Option<u32>) -> usize
    requires room { at + 4 ≤ length out.old }
    ensures fits { IfSome number (λ n. n < 2 ^ 32) }
    ensures within { result ≤ at + 4 }
    ensures octets { take result out.new ≡ take at out.old ++ optional_word number }
    ensures rest { KeepsFrom result out.old out.new }
{
    match number {
        Some(number) => put_at(out, at, &number.to_be_bytes()),
        None => at,
    }
}

/// Writes a header at the front of `out`, and says how many octets it has. `long` says that the key has
/// 32 octets (this profile). A header with a key has the version 1 in librist's tunnel.
pub fn write(
    tunnel: Tunnel,
    key: Option<u32>,
    sequence: Option<u32>,
    long: bool,
    protocol: u16,
    out: &mut [u8; 12],
) -> usize
    requires paired { IsSome key → IsSome sequence }
    requires long { IsTrue long → IsSome key }
    requires protocol { IsProtocol protocol }
    ensures octets { take result out.new ≡ spelling (header_with key sequence protocol)
        (ignored_with tunnel key long) }
    ensures rest { drop result out.new ≡ drop result out.old }
    ensures within { result ≤ 12 }

    // What is written is read back as it was given, whatever follows it.
    ensures read_back { (more : List ℕ)
        → reading_of (take result out.new ++ more) ≡ Ok (value_of (header_with key sequence protocol)) }
{
    let flags = KEY * u16::from(key.is_some())
        + SEQUENCE * u16::from(sequence.is_some())
        + LONG_KEY * u16::from(long)
        + VERSION * version_with(tunnel, key);
    let at = put_at(out, 0, &flags.to_be_bytes());
    let at = put_at(out, at, &protocol.to_be_bytes());
    let at = put_number(out, at, key);
    put_number(out, at, sequence)
}
