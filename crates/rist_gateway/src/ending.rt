//! How a run of a gateway ends.
ghost use Rattle.std.specs.Prelude.{◌≡◌, true, None};
ghost use Rattle.desk_run.specs.Endings.{is_write_fault};
ghost use Rattle.rist_gateway.specs.Run.{EndsGate, looked_ending, refused_ending};

use desk_run::Ending;
use rist_compare::Tear;
use sender_rules::SendBad;

/// How a run ended: the first of these that fits. A put that was refused comes before all, and is one of `Spent` and
/// `LinksDown`.
#[derive(Drop, PartialEq, Eq)]
pub enum GateEnding {
    /// At one of both ends fewer pairs of nonce and sequence number were left than the datagrams that were due take.
    Spent,
    /// A trace was at its limit, and one more step came.
    TraceFull,
    /// The kept list and the workers' own lists differ there.
    Torn(Tear),
    /// Every link that is received on failed, or every link that is sent on is down.
    LinksDown,
    /// Each link that is received on came to its end, its turns or its idle time, or failed while another did not.
    Done,
}

/// A refusal of the sender.
fn refused_ending(bad: SendBad) -> GateEnding
    ensures value { result ≡ refused_ending bad }
{
    match bad {
        SendBad::Spent => GateEnding::Spent,
        SendBad::LinksDown => GateEnding::LinksDown,
    }
}

/// What comes first: the last refusal at a look, or this ending.
fn looked_ending(looked: Option<SendBad>, otherwise: GateEnding) -> GateEnding
    ensures value { result ≡ looked_ending looked otherwise }
{
    match (looked, otherwise) {
        (Some(SendBad::Spent), _) => GateEnding::Spent,
        (Some(SendBad::LinksDown), GateEnding::Done) => GateEnding::LinksDown,
        (_, otherwise) => otherwise,
    }
}

/// How a run ended, by how its receiving ended, and by the last refusals of a put and at a look.
pub(crate) fn ending_of(ended: Ending, put: Option<SendBad>, looked: Option<SendBad>) -> GateEnding
    requires told { is_write_fault ended ≡ true → put ≡ None → ⊥ }
    ensures ends { EndsGate ended put looked result }
{
    let otherwise = match ended {
        Ending::WriteFault => match put {
            Some(bad) => return refused_ending(bad),
            None => unreachable!(),
        },
        Ending::Spent => GateEnding::Spent,
        Ending::TraceFull => GateEnding::TraceFull,
        Ending::Torn(tear) => GateEnding::Torn(tear),
        Ending::LinksDown => GateEnding::LinksDown,
        Ending::Done => GateEnding::Done,
    };
    looked_ending(looked, otherwise)
}
