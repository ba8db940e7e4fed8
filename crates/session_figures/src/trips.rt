//! Round-trip times: what a response to a request of one's own says (VSF TR-06-1, section 5.2.6).
ghost use Rattle.std.specs.Prelude.{◌≡◌, ◌++◌, ℕ, List};
ghost use Rattle.rist_rtt.specs.Echo.{echo_seen};
ghost use Rattle.std.specs.Prelude.{Some};
ghost use Rattle.request_rules.specs.Steps.{sample_at};
ghost use Rattle.rist_ends.specs.Told.{input_of};
ghost use Rattle.value_histogram.specs.Ranks.{IsHistogramOf};
ghost use Rattle.session_figures.specs.Spreads.{trips_by};

use rist_ends::{Told, What};
use rist_rtt::{Echo, first_response};
use value_histogram::Histogram;

/// A response whose stamp lies further back, in microseconds, counts for nothing.
const OLDEST: u64 = 10_000_000;

/// Takes the round-trip time that a step tells, if it tells one.
pub fn take_trip(trips: &mut Histogram, told: &Told<'_>)
    ensures state { (values : List ℕ) → IsHistogramOf trips.old values
        → IsHistogramOf trips.new (trips_by (input_of told.now.us told.now.what) ++ values) }
{
    if let What::Control(compound) = &told.what {
        if let Some(response) = first_response(compound) {
            if let Some(sample) = sample(told.us, &response) {
                trips.add(sample / 1000);
            }
        }
    }
}

// The sample of a response that comes at a moment, in microseconds.
fn sample(us: u64, response: &Echo<'_>) -> Option<u64>
    ensures value { result ≡ sample_at us (Some (echo_seen response.now)) }
{
    if response.stamp > us || us - response.stamp > OLDEST {
        return None;
    }
    Some((us - response.stamp).saturating_sub(u64::from(response.delay)))
}
