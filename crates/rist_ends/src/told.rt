use receiver_rules::Arrival;
use rtcp_compound::Compound;

/// What a receiver is told: an item, a tick of its clock or the end, on one of its links.
#[derive(Clone, Copy)]
pub struct Told<'a> {
    /// The link's place, below 16.
    pub link: u8,
    /// The moment in microseconds. It may go back.
    pub us: u64,
    /// What comes with it.
    pub what: What<'a>,
}

/// What comes with a step.
#[derive(Clone, Copy)]
pub enum What<'a> {
    /// A media packet, its null packets restored.
    Media(Arrival<'a>),
    /// An RTCP compound.
    Control(&'a Compound<'a>),
    /// A keepalive.
    Keepalive,
    /// A datagram that is no item of the session.
    Refused,
    /// A tick of the receiver's own clock.
    Tick,
    /// The end of the stream.
    End,
}
