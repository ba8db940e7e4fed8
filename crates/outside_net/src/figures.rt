/// The figures of a receiver up to a moment: what became of the media packets that came, how many wait, how many were
/// asked for and how many were lost. No count passes 2^64 - 1.
#[derive(Clone, Copy, Debug, Default, PartialEq, Eq)]
pub struct ReceiverFigures {
    /// Packets that were accepted.
    pub kept: u64,
    /// Those of them that had been sent again.
    pub recovered: u64,
    /// Packets whose playout deadline had passed.
    pub late: u64,
    /// Packets behind what was played out.
    pub behind: u64,
    /// Packets too far ahead of their deadline.
    pub early: u64,
    /// Packets of a number that was kept before.
    pub twice: u64,
    /// Packets outside the buffer's span.
    pub span: u64,
    /// Packets of another flow.
    pub stranger: u64,
    /// Packets whose sequence number is used up.
    pub exhausted: u64,
    /// Items of datagrams that were refused.
    pub refused: u64,
    /// Packets that wait in the buffer now.
    pub held: u64,
    /// Sequence numbers that were asked for: one that is asked for again counts again.
    pub asked: u64,
    /// Sequence numbers that the playout has passed without a packet, from the lowest that was kept of each flow on.
    pub lost: u64,
    /// How far ahead the packet with the highest number is due now, in milliseconds, and 0 where nothing waits.
    pub fill: u64,
}
