use crate::bad::WireBad;
use crate::media::Media;
use crate::reading::item_in;
use gre_tunnel::Tunnel;
use keepalive_msg::Keepalive;
use rtcp_compound::Compound;

/// What a datagram says, a view of its octets.
#[derive(Debug, Drop)]
pub enum Item<'a> {
    /// An RTP packet of a flow (RFC 3550, section 5.1).
    Media(Media<'a>),
    /// An RTCP compound (RFC 3550, section 6.1).
    Control(Compound<'a>),
    /// A keepalive of the tunnel (this profile).
    Keepalive(Keepalive),
}

/// What follows a datagram's headers.
#[derive(Clone, Copy, Debug, PartialEq, Eq)]
pub enum Kind {
    /// An RTP packet (RFC 3550, section 5.1).
    Media,
    /// An RTCP compound (RFC 3550, section 6.1).
    Control,
    /// A keepalive message (this profile).
    Keepalive,
}

/// Where the message of a datagram lies: behind its headers.
#[derive(Clone, Copy, Debug, PartialEq, Eq)]
pub struct Part {
    /// What the message is.
    pub kind: Kind,
    /// The offset of its first octet in the datagram.
    pub from: usize,
    /// The offset behind its last octet.
    pub end: usize,
}

impl Part {
    ghost use Rattle.std.specs.Prelude.{◌≡◌, ◌-◌, take, drop};
    ghost use Rattle.rist_wire.specs.Tunnel.{LiesIn};
    ghost use Rattle.rist_wire.specs.Messages.{item_by};

    /// The item that the message of this datagram says in this tunnel, or the first test that fails.
    pub fn item<'a>(&self, tunnel: Tunnel, octets: &'a [u8]) -> Result<Item<'a>, WireBad>
        requires within { LiesIn self.now octets.now }
        ensures value { result
            ≡ item_by tunnel self.now.kind (take (self.now.end - self.now.from) (drop self.now.from octets.now)) }
    {
        item_in(tunnel, self.kind, &octets[self.from..self.end])
    }
}
