//! The session that a line speaks of.
ghost use Rattle.std.specs.Prelude.{◌≡◌, false};
ghost use Rattle.rist_words.specs.Shown.{shown_session};
ghost use Rattle.rist_words.specs.Ranges.{IsInSession};
ghost use Rattle.link_channels.specs.declared.profile.Profile.TheVariants.{Simple};
ghost use Rattle.rist_wire.specs.Session.{IsSession};
ghost use Rattle.run_parts.specs.Sessions.{session_with};

use psk_keys::Phrase;
use rist_wire::Session;
use rist_words::SessionWords;
use seq_unwrap::Width;

/// The session of a line whose datagrams are written with null packets deleted, or with numbers of 32 bits.
pub fn session_of(words: &SessionWords<'_>, nulls: bool, wide: bool) -> Session
    requires range { IsInSession (shown_session words.now) }
    requires nulls { words.now.profile ≡ Simple → nulls ≡ false }
    requires wide { words.now.profile ≡ Simple → wide ≡ false }
    ensures value { result ≡ session_with (shown_session words.now) nulls wide }
    ensures session { IsSession result }
{
    Session {
        profile: words.profile,
        port: words.port,
        pass: match words.pass {
            Some(pass) => Some(Phrase::of(pass.as_bytes())),
            None => None,
        },
        bits: words.bits,
        nulls,
        width: if wide { Width::W32 } else { Width::W16 },
        full: words.full,
        tunnel: words.tunnel,
        echo: words.echo,
    }
}
