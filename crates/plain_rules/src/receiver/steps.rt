//! What the plain programs are told.
use receiver_rules::Arrival;

/// What comes with a step.
#[derive(Clone, Copy)]
pub enum Event<'a> {
    /// A media packet.
    Media(Arrival<'a>),
    /// Nothing that concerns the buffer: only time passes.
    TimeOnly,
    /// The end of the stream.
    End,
}

/// One step of a history.
#[derive(Clone, Copy)]
pub struct Step<'a> {
    /// In ticks of 1/90,000 s, below 2^61. A clock may go back.
    pub tick: u64,
    /// What comes with it.
    pub event: Event<'a>,
}
