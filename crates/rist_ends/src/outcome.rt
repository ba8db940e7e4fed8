ghost use Rattle.std.specs.Prelude.{◌≡◌};
ghost use Rattle.rist_ends.specs.Outcome.{outcome_with};

use receiver_rules::Verdict;
use rist_reporter::Outs;

/// What a step of a receiver came to.
#[derive(Debug, Drop)]
pub enum Outcome {
    /// An earlier step was an end, or a write failed in it. Nothing was done.
    Stopped,
    /// A write failed in this step, and the receiver has ended.
    WriteFault,
    /// What became of a media packet.
    Verdict(Verdict),
    /// Fewer pairs are left than the datagrams that were due take. None was made; what was due to be played out was
    /// written.
    Spent,
    /// The datagrams that were made, for the link of the step.
    Made(Outs),
    /// The step was made, and there is nothing to say of it.
    Nothing,
}

/// What a step of a receiver came to, beside the datagrams that it made: these stand in memory of the caller's.
#[derive(Clone, Copy, Debug, PartialEq, Eq)]
pub enum Answer {
    /// An earlier step was an end, or a write failed in it. Nothing was done.
    Stopped,
    /// A write failed in this step, and the receiver has ended.
    WriteFault,
    /// What became of a media packet.
    Verdict(Verdict),
    /// Fewer pairs are left than the datagrams that were due take. None was made; what was due to be played out was
    /// written.
    Spent,
    /// Datagrams were made, for the link of the step.
    Made,
    /// The step was made, and there is nothing to say of it.
    Nothing,
}

/// An answer with what was made.
pub(crate) fn outcome_with(answer: Answer, outs: Outs) -> Outcome
    ensures value { result ≡ outcome_with answer outs }
{
    match answer {
        Answer::Stopped => Outcome::Stopped,
        Answer::WriteFault => Outcome::WriteFault,
        Answer::Verdict(verdict) => Outcome::Verdict(verdict),
        Answer::Spent => Outcome::Spent,
        Answer::Made => Outcome::Made(outs),
        Answer::Nothing => Outcome::Nothing,
    }
}
