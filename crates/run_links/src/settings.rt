//! The settings that a line speaks of.
ghost use Rattle.std.specs.Prelude.{◌≡◌, false};
ghost use Rattle.rist_words.specs.Shown.{shown_receiver};
ghost use Rattle.run_links.specs.Sessions.{settings_with};

use rist_ends::Settings;
use rist_words::ReceiverWords;

/// What the receiver of a line is set to.
pub fn settings_of(words: &ReceiverWords) -> Settings
    ensures value { result ≡ settings_with (shown_receiver words.now) }
{
    Settings {
        delay: words.delay,
        span: words.span,
        restart: words.restart,
        drift: words.drift,
        reorder: words.reorder,
        least: words.least,
        tries: words.tries,
        nack: words.nack,
        own: words.own,
        muted: false,
    }
}
