//! What the plain program is told.
use receiver_rules::Arrival;

/// What comes with a step.
#[derive(Clone, Copy)]
pub enum Input<'a> {
    /// A media packet.
    Media(Arrival<'a>),
    /// A compound, with the sample of the round-trip time that it gives, in microseconds.
    Control(Option<u64>),
    /// A keepalive, or a datagram that was refused.
    Other,
    /// A tick of the clock.
    Tick,
    /// The end of the stream.
    End,
}

/// One step of a history.
#[derive(Clone, Copy)]
pub struct Step<'a> {
    /// The link that it came on.
    pub link: u64,
    /// In ticks of 1/90,000 s, below 2^61. A clock may go back.
    pub tick: u64,
    /// What comes with it.
    pub input: Input<'a>,
}
