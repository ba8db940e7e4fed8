/// How values are spread.
#[derive(Clone, Copy, Debug, PartialEq, Eq)]
pub struct Spread {
    /// How many there are.
    pub count: u64,
    /// The least of them.
    pub least: u64,
    /// The least that no more than half of them lie above.
    pub median: u64,
    /// The least that no more than one in a hundred lies above.
    pub high: u64,
    /// The greatest of them.
    pub greatest: u64,
}
