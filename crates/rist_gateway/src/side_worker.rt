//! What looks at one link that is sent on, and why it ends.
use sender_rules::SendBad;

/// Why a side worker ended.
#[derive(Clone, Copy, Debug, PartialEq, Eq)]
pub enum SideEnded {
    /// Its link has nothing more to give, or isn't there.
    End,
    /// Its turns are made.
    Turns,
    /// For the stated time the sink was put to no more.
    Idle,
    /// A read of its link failed.
    Failed,
    /// What was to be sent is refused.
    Bad(SendBad),
}

/// What looks at one link of the sending end, turn by turn.
#[derive(Drop)]
pub struct SideWorker<C, P> {
    /// The place of its link.
    pub link: u8,
    pub clock: C,
    /// Its right to look at the link: a pass, where what is shared gives passes.
    pub pass: P,
    /// Why it ended, once it has.
    pub end: Option<SideEnded>,
}
