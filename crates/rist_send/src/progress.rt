//! How far a run has come.
use crate::settings::SendSettings;
use link_channels::MAX_LINKS;

/// What a source is at.
#[derive(Clone, Copy, Debug, PartialEq, Eq)]
pub(crate) enum Stage {
    /// The place of its next piece, from 0.
    Reading(u64),
    /// It came to its end, in the turn of this moment.
    Ended(u64),
}

/// How far a run has come.
#[derive(Clone, Copy, Debug, PartialEq, Eq)]
pub(crate) struct Progress {
    /// The moment of its first turn, in microseconds.
    pub start: Option<u64>,
    /// The moment of its latest turn.
    pub moment: u64,
    /// What its source is at.
    pub stage: Stage,
    /// Of each link, whether a read of it came to an end or failed.
    pub closed: [bool; MAX_LINKS],
}

impl Progress {
    ghost use Rattle.std.specs.Prelude.{◌≡◌, ◌≤◌, ◌<◌, ◌^◌, set, slice_index_or, true, false};
    ghost use Rattle.rist_send.specs.Run.{no_progress, begun_at, is_due, is_next_due, is_over, has_ended};
    ghost use Rattle.rist_send.specs.Inside.Moves.{IsPlace};

    /// No turn was made.
    pub fn new() -> Progress
        ensures value { result ≡ no_progress }
    {
        Progress {
            start: None,
            moment: 0,
            stage: Stage::Reading(0),
            closed: [false; MAX_LINKS],
        }
    }

    /// A turn begins: the first one's moment is the start.
    pub fn begin(&mut self, moment: u64)
        ensures state { self.new ≡ begun_at moment self.old }
    {
        if self.start.is_none() {
            self.start = Some(moment);
        }
        self.moment = moment;
    }

    /// Whether piece k is due: its time is the lead and k gaps after the start.
    pub fn is_due(&self, settings: &SendSettings, k: u64) -> bool
        requires gap { settings.now.gap ≤ 1000000 }
        requires place { k ≤ 2 ^ 40 }
        ensures value { result ≡ is_due settings.now self.now k }
    {
        let Some(start) = self.start else {
            return false;
        };
        if self.moment < start || self.moment - start < settings.lead {
            return false;
        }
        self.moment - start - settings.lead >= k * settings.gap
    }

    /// Whether the source's next piece is due, if it has one.
    pub fn is_next_due(&self, settings: &SendSettings) -> bool
        requires gap { settings.now.gap ≤ 1000000 }
        requires at { IsPlace self.now.stage }
        ensures value { result ≡ is_next_due settings.now self.now }
    {
        match self.stage {
            Stage::Reading(k) => self.is_due(settings, k),
            Stage::Ended(_) => false,
        }
    }

    /// Whether a run rests before its next turn: where the last one brought no piece, since that left the stage as it was, or the next piece
    /// isn't due.
    pub fn rests(&self, settings: &SendSettings, before: Stage) -> bool
        requires gap { settings.now.gap ≤ 1000000 }
        requires at { IsPlace self.now.stage }
        ensures idle { self.now.stage ≡ before → result ≡ true }
        ensures early { is_next_due settings.now self.now ≡ false → result ≡ true }
        ensures busy { (self.now.stage ≡ before → ⊥) → is_next_due settings.now self.now ≡ true → result ≡ false }
    {
        self.stage == before || !self.is_next_due(settings)
    }

    /// Whether the source has ended, and `linger` passed since.
    pub fn is_over(&self, linger: u64) -> bool
        ensures value { result ≡ is_over linger self.now }
    {
        match self.stage {
            Stage::Reading(_) => false,
            Stage::Ended(end) => self.moment >= end && self.moment - end >= linger,
        }
    }

    /// Whether the source has ended.
    pub fn has_ended(&self) -> bool
        ensures value { result ≡ has_ended self.now.stage }
    {
        match self.stage {
            Stage::Reading(_) => false,
            Stage::Ended(_) => true,
        }
    }

    /// Whether a read of a link came to an end or failed.
    pub fn is_closed(&self, link: u8) -> bool
        requires few { link < MAX_LINKS }
        ensures value { result ≡ slice_index_or self.now.closed link false }
    {
        self.closed[usize::from(link)]
    }

    /// A read of a link came to an end or failed.
    pub fn close(&mut self, link: u8)
        requires few { link < MAX_LINKS }
        ensures state { self.new ≡ record self.old { closed = set self.old.closed link true } }
    {
        self.closed[usize::from(link)] = true;
    }
}
