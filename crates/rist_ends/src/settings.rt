ghost use Rattle.std.specs.Prelude.{◌≡◌};
ghost use Rattle.rist_ends.specs.Settings.{timer_settings, muted_settings};

use nack_timer::Settings as TimerSettings;
use request_rules::NackKind;

/// What a receiver is set to.
#[derive(Clone, Copy, Debug, PartialEq, Eq)]
pub struct Settings {
    /// The playout delay in milliseconds, 1 to 30,000.
    pub delay: u64,
    /// How many packets there is room for, 1 to 16,384.
    pub span: u64,
    /// How long no packet must have been kept before another flow takes over, in milliseconds: at most 60,000. Where it
    /// is 0 none does.
    pub restart: u64,
    /// Whether deadlines follow a sender's clock that drifts.
    pub drift: bool,
    /// How long a packet may be missing before it is asked for, in milliseconds: at most 1,000.
    pub reorder: u64,
    /// The least time between two requests for one packet, in milliseconds: 5 to 1,000. A longer round-trip time counts
    /// in its place.
    pub least: u64,
    /// How often one packet is asked for: at most 32 times.
    pub tries: u64,
    /// How requests are written.
    pub nack: NackKind,
    /// The receiver's own SSRC.
    pub own: u32,
    /// Whether the receiver sends nothing back.
    pub muted: bool,
}

impl Settings {
    /// Those of a receiver that plays out and sends nothing back: its delay in milliseconds, its span in packets, its
    /// restart time in milliseconds, and whether deadlines follow a clock that drifts.
    pub fn muted(delay: u64, span: u64, restart: u64, drift: bool) -> Settings
        ensures value { result ≡ muted_settings delay span restart drift }
    {
        Settings {
            delay,
            span,
            restart,
            drift,
            reorder: 25,
            least: 50,
            tries: 0,
            nack: NackKind::Range,
            own: 7,
            muted: true,
        }
    }

    /// When missing packets are asked for.
    pub(crate) fn timer(&self) -> TimerSettings
        ensures value { result ≡ timer_settings self.now }
    {
        TimerSettings {
            reorder: self.reorder,
            least: self.least,
            tries: self.tries,
            nack: self.nack,
        }
    }
}
