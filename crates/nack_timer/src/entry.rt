/// A packet that is missing, and what was asked for it.
#[derive(Clone, Copy, Debug, PartialEq, Eq)]
pub struct Missing {
    /// Its number.
    pub number: u64,
    /// Since when it is known to be missing, in ticks of 1/90,000 s.
    pub found: u64,
    /// When it was last asked for, in ticks.
    pub last: Option<u64>,
    /// How often it was asked for.
    pub count: u64,
}
