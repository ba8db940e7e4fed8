//! The round-trip times, from all steps.
ghost use Rattle.std.specs.Prelude.{◌≡◌, ◌≤◌};
ghost use Rattle.std.specs.List.{All};
ghost use Rattle.std.specs.Option.{ForSome};
ghost use Rattle.request_rules.specs.Steps.{rtt_of, rtt_after, longer, longest_rtt};
ghost use Rattle.plain_rules.specs.Requests.Told.{IsFit, IsFitInput, input_of, history_of};

use crate::requests::steps::{Input, Step};

/// The greatest of the round-trip times of the links from 0 to 15.
pub fn longest_rtt(steps: &[Step<'_>]) -> u64
    requires fits { All IsFit steps.now }
    ensures value { result ≡ longest_rtt 16 (history_of steps.now) }
    ensures within { result ≤ 10000000 }
{
    let mut longest = 0;
    for link in 0..16 {
        longest = longer(rtt_of(steps, link), longest);
    }
    longest
}

/// The smoothed round-trip time of a link after some steps.
fn rtt_of(steps: &[Step<'_>], link: u64) -> Option<u64>
    requires fits { All IsFit steps.now }
    ensures value { result ≡ rtt_of link (history_of steps.now) }
    ensures within { ForSome result (λ rtt. rtt ≤ 10000000) }
{
    let mut rtt = None;
    for step in steps {
        if step.link == link {
            rtt = rtt_after(rtt, &step.input);
        }
    }
    rtt
}

fn rtt_after(rtt: Option<u64>, input: &Input<'_>) -> Option<u64>
    requires fits { IsFitInput input.now }
    requires within { ForSome rtt (λ r. r ≤ 10000000) }
    ensures value { result ≡ rtt_after rtt (input_of input.now) }
    ensures within { ForSome result (λ r. r ≤ 10000000) }
{
    match input {
        Input::Control(Some(sample)) => Some(match rtt {
            None => *sample,
            Some(rtt) => (7 * rtt + *sample) / 8,
        }),
        _ => rtt,
    }
}

fn longer(rtt: Option<u64>, longest: u64) -> u64
    requires within { ForSome rtt (λ r. r ≤ 10000000) }
    requires below { longest ≤ 10000000 }
    ensures value { result ≡ longer rtt longest }
    ensures within { result ≤ 10000000 }
{
    match rtt {
        None => longest,
        Some(rtt) => rtt.max(longest),
    }
}
