//! What one word of a request asks for.
ghost use Rattle.std.specs.Prelude.{◌≡◌, ◌<◌, ◌+◌};
ghost use Rattle.rist_nack.specs.Requests.{numbered};

use seq_unwrap::Width;

/// A number that is asked for, and how many more after it.
#[derive(Clone, Copy, Debug, PartialEq, Eq)]
pub struct Ask {
    /// The flow: the SSRC of its media with the lowest bit cleared.
    pub flow: u32,
    /// How many bits its numbers have.
    pub width: Width,
    /// The first number, of so many bits.
    pub first: u32,
    /// How many more, one after another; after the greatest number 0 comes.
    pub more: u16,
}

// A number under the upper half that holds, if any.
pub(crate) fn ask_of(flow: u32, upper: Option<u16>, number: u32, more: u16) -> Ask
    requires { number < 65536 + 17 }
    ensures { result ≡ numbered upper flow number more }
{
    match upper {
        None => Ask {
            flow,
            width: Width::W16,
            first: number % 65_536,
            more,
        },
        Some(upper) => Ask {
            flow,
            width: Width::W32,
            first: (65_536 * upper as u32).wrapping_add(number),
            more,
        },
    }
}
