/// How many packets are stored at most (this profile). It is a cycle of the shortest sequence numbers, so that no
/// two stored packets have the same word.
pub const MAX_STORED: usize = 65_536;

/// How many of the sequence numbers that one compound asks for are looked at (this profile).
pub const MAX_LOOKED_AT: usize = 65_536;

/// How many packets are sent again for one compound (this profile).
pub const MAX_SENT_AGAIN: usize = 256;
