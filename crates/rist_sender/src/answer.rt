//! What became of a datagram.
ghost use Rattle.std.specs.Prelude.{◌≡◌};
ghost use Rattle.rist_sender.specs.Links.{is_failed};

/// What became of a datagram that was written on a link.
#[derive(Clone, Copy, Debug, PartialEq, Eq)]
pub enum Answer {
    /// The link took the datagram.
    Took,
    /// The link knows no peer yet, and took nothing.
    NoPeer,
    /// The write failed, and nothing was taken. The link is down from then on.
    Failed,
}

/// Whether a write failed.
pub(crate) fn is_failed(answer: Answer) -> bool
    ensures value { result ≡ is_failed answer }
{
    match answer {
        Answer::Took => false,
        Answer::NoPeer => false,
        Answer::Failed => true,
    }
}
