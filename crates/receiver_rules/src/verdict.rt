/// What became of a media arrival. The variants but `Kept` stand in the order of their tests.
#[derive(Clone, Copy, Debug, PartialEq, Eq)]
pub enum Verdict {
    /// Accepted: none of the tests below fits.
    Kept,
    /// A packet of another flow than the epoch's. One that opens an epoch is none.
    Stranger,
    /// The sequence numbers are used up: its number would be 2^62 or more.
    Exhausted,
    /// Its playout deadline has passed.
    Late,
    /// A packet of the same or a higher number was already played out.
    Behind,
    /// Too far ahead of its deadline: more than twice the playout delay.
    Early,
    /// A duplicate: a kept packet has its number.
    Twice,
    /// Outside the buffer's span: a buffered number lies the capacity or more away.
    Span,
}

impl Verdict {
    ghost use Rattle.std.specs.Prelude.{◌≡◌, ◌&&◌, not};
    ghost use Rattle.receiver_rules.specs.Packets.{is_kept};

    /// Whether the packet was accepted.
    pub fn is_kept(self) -> bool
        ensures { result ≡ is_kept self }
    {
        matches!(self, Verdict::Kept)
    }

    /// Whether the packet counts for what deadlines count from: an original that was accepted.
    pub fn counts(self, again: bool) -> bool
        ensures { result ≡ (is_kept self && not again) }
    {
        self.is_kept() && !again
    }
}
