/// How many places a receiver's buffer has at most (this profile). Half of a cycle of the shortest sequence numbers is
/// twice that, so that no two packets in it have the same word.
pub const MAX_SPAN: u64 = 16_384;

/// The longest playout delay, in milliseconds (this profile).
pub const MAX_DELAY: u64 = 30_000;

/// How many originals a window has, after which the base of deadlines moves (this profile).
pub const DRIFT_WINDOW: u64 = 1_024;

/// By how many ticks it moves at most after a window (this profile).
pub const DRIFT_STEP: i64 = 9;

/// The longest restart time, in milliseconds (this profile).
pub const MAX_RESTART: u64 = 60_000;
