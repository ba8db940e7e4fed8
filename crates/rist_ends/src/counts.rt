ghost use Rattle.std.specs.Prelude.{◌≡◌, ◌+◌};
ghost use Rattle.rist_ends.specs.Counts.{capped, recovered_with};

use crate::told::What;
use receiver_rules::Verdict;

/// How many media packets had each verdict, and how many items were refused. Each count stays at its greatest value.
#[derive(Clone, Copy, Debug, Default, PartialEq, Eq)]
pub struct Counts {
    pub kept: u64,
    pub stranger: u64,
    pub exhausted: u64,
    pub late: u64,
    pub behind: u64,
    pub early: u64,
    pub twice: u64,
    pub span: u64,
    /// Items that were refused.
    pub refused: u64,
}

impl Counts {
    ghost use Rattle.std.specs.Prelude.{◌≡◌};
    ghost use Rattle.rist_ends.specs.Counts.{no_counts, one_more, one_refused, counts_with};

    pub(crate) fn none() -> Counts
        ensures value { result ≡ no_counts }
    {
        Counts {
            kept: 0,
            stranger: 0,
            exhausted: 0,
            late: 0,
            behind: 0,
            early: 0,
            twice: 0,
            span: 0,
            refused: 0,
        }
    }

    /// Counts a verdict.
    pub(crate) fn add(&mut self, verdict: Verdict)
        ensures value { self.new ≡ one_more verdict self.old }
    {
        match verdict {
            Verdict::Kept => raise(&mut self.kept),
            Verdict::Stranger => raise(&mut self.stranger),
            Verdict::Exhausted => raise(&mut self.exhausted),
            Verdict::Late => raise(&mut self.late),
            Verdict::Behind => raise(&mut self.behind),
            Verdict::Early => raise(&mut self.early),
            Verdict::Twice => raise(&mut self.twice),
            Verdict::Span => raise(&mut self.span),
        }
    }

    /// Counts a step with its verdict, where it has one.
    pub(crate) fn count(&mut self, what: &What<'_>, verdict: Option<Verdict>)
        ensures value { self.new ≡ counts_with verdict what.now self.old }
    {
        match verdict {
            Some(verdict) => self.add(verdict),
            None => match what {
                What::Refused => self.refuse(),
                What::Media(_) | What::Control(_) | What::Keepalive | What::Tick | What::End => {}
            },
        }
    }

    /// Counts an item that was refused.
    pub(crate) fn refuse(&mut self)
        ensures value { self.new ≡ one_refused self.old }
    {
        raise(&mut self.refused);
    }
}

/// How many packets that had been sent again were kept, after a step with its verdict, where it has one.
pub(crate) fn recovered_with(verdict: Option<Verdict>, what: &What<'_>, recovered: u64) -> u64
    ensures value { result ≡ recovered_with verdict what.now recovered }
{
    match (verdict, what) {
        (Some(verdict), What::Media(arrival)) if verdict.is_kept() && arrival.again => {
            recovered.saturating_add(1)
        }
        _ => recovered,
    }
}

/// One more, up to the greatest value.
fn raise(count: &mut u64)
    ensures value { count.new ≡ capped (count.old + 1) }
{
    *count = count.saturating_add(1);
}
