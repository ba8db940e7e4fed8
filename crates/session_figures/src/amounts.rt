//! What a step adds to the figures.
ghost use Rattle.std.specs.Prelude.{◌≡◌};
ghost use Rattle.session_figures.specs.Amounts.{is_too_late, media_amounts, nothing_passed, on_link, silent_amounts, used_before};

use crate::playout::Playout;
use receiver_rules::Verdict;

/// What a step adds, whatever came with it.
#[derive(Clone, Copy, Debug, PartialEq, Eq)]
pub struct Passed {
    /// Records: one, and none at the end.
    pub records: u64,
    /// Numbers that the playout passed without a packet.
    pub missing: u64,
    /// Epochs that were opened, but for the first.
    pub restarts: u64,
    /// What it tells of the playout.
    pub playout: Playout,
}

/// What a step adds.
#[derive(Clone, Copy, Debug, PartialEq, Eq)]
pub struct Amounts {
    /// The link that it came on.
    pub link: u8,
    /// The octets of a media packet's payload, whatever became of it.
    pub octets: u64,
    /// Those of a packet that was kept.
    pub kept: u64,
    /// Packets that were received first time.
    pub first: u64,
    /// Packets that a retransmission recovered.
    pub recovered: u64,
    /// Packets that came too late.
    pub late: u64,
    /// What the step adds beside that.
    pub passed: Passed,
}

impl Passed {
    /// Nothing.
    pub(crate) fn nothing() -> Passed
        ensures value { result ≡ nothing_passed }
    {
        Passed {
            records: 0,
            missing: 0,
            restarts: 0,
            playout: Playout {
                fill: 0,
                used: 0,
                later: 0,
                earlier: 0,
            },
        }
    }
}

impl Amounts {
    /// Of a media packet, by its link, its verdict, whether it is a retransmission, and the octets of its payload.
    pub(crate) fn media(link: u8, verdict: Verdict, again: bool, octets: u64) -> Amounts
        ensures value { result ≡ media_amounts link verdict again octets nothing_passed }
    {
        let kept = verdict.is_kept();
        Amounts {
            link,
            octets,
            kept: if kept { octets } else { 0 },
            first: u64::from(kept && !again),
            recovered: u64::from(kept && again),
            late: u64::from(is_too_late(verdict)),
            passed: Passed::nothing(),
        }
    }

    /// Of anything else.
    pub(crate) fn silent(link: u8) -> Amounts
        ensures value { result ≡ silent_amounts link nothing_passed }
    {
        Amounts {
            link,
            octets: 0,
            kept: 0,
            first: 0,
            recovered: 0,
            late: 0,
            passed: Passed::nothing(),
        }
    }
}

/// How much of the playout delay was used up before a packet that was kept, but for the first of each epoch.
pub fn used_before(amounts: &Amounts) -> u64
    ensures value { result ≡ used_before amounts.now }
{
    let kept = amounts.first > 0 || amounts.recovered > 0;
    if kept && amounts.passed.restarts == 0 {
        amounts.passed.playout.used
    } else {
        0
    }
}

/// What came on a link, of an amount that came on one.
pub fn on_link(link: usize, from: u8, amount: u64) -> u64
    ensures value { result ≡ on_link link from amount }
{
    if from as usize == link { amount } else { 0 }
}

// Whether a packet came after its deadline, or behind what was played out.
fn is_too_late(verdict: Verdict) -> bool
    ensures value { result ≡ is_too_late verdict }
{
    matches!(verdict, Verdict::Late | Verdict::Behind)
}
