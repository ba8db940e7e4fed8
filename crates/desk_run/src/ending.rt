//! How a run of receiving ends.
use rist_compare::Tear;

/// How a run ended: the first of these that fits.
#[derive(Drop, PartialEq, Eq)]
pub enum Ending {
    /// A write failed.
    WriteFault,
    /// Fewer pairs of nonce and sequence number were left than the datagrams that were due take.
    Spent,
    /// A trace was at its limit, and one more step came.
    TraceFull,
    /// The kept list and the workers' own lists differ there.
    Torn(Tear),
    /// Every link failed.
    LinksDown,
    /// Each link came to its end, its turns or its idle time, or failed while another did not.
    Done,
}
