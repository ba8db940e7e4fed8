//! How much of what comes the system keeps for a link.
use outside_net::RECEIVE_BUFFER;
use std::fmt::{self, Display, Formatter, Write};

/// Whether the system keeps fewer octets than a link asks for. Linux says twice what it gives: half of it is for its own books
/// (socket(7)).
pub(crate) fn is_small(octets: u32) -> bool {
    i64::from(octets) / 2 < i64::from(RECEIVE_BUFFER)
}

/// The line of the error output where it does.
#[derive(Clone, Copy)]
pub(crate) struct RoomText(pub u32);

impl Display for RoomText {
    fn fmt<W: Write>(&self, f: &mut Formatter<W>) -> fmt::Result {
        let octets = self.0;
        write!(
            f,
            "rist: receive buffer of {octets} octets: raise net.core.rmem_max"
        )
    }
}
