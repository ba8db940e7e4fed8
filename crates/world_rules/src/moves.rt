//! Moves.

use outside_net::Octets;

/// A move of a script of a simulated network: one sender, one receiver, up to sixteen links between them. Moments are
/// microseconds of one clock, links and places are counted from 0. A link that isn't there, a datagram that was never
/// put, a payload of more than 1,500 octets and a flow that isn't new do nothing.
#[derive(Drop)]
pub enum Move {
    /// At this moment a payload is sent.
    Send(u64, Octets),
    /// From this link the datagram at this place, counted over all that the sender ever put there, comes to the
    /// receiver at this moment.
    Carry(u8, u64, u64),
    /// From this link the datagram at this place, counted over all that the receiver ever put there, comes to the
    /// sender at this moment.
    CarryBack(u8, u64, u64),
    /// The sender's clock ticks.
    SenderTick(u64),
    /// The receiver's clock ticks for this link.
    Tick(u8, u64),
    /// The stream ends at the receiver.
    End(u64),
    /// Another flow begins: its SSRC and its first number.
    Renew(u32, u32),
}
