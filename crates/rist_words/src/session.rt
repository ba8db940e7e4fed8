//! The sessions of a line, and its stream.
ghost use Rattle.std.specs.Prelude.{◌≡◌, false, option_map};
ghost use Rattle.clap.specs.Words.{found_of, rows_of};
ghost use Rattle.rist_words.specs.Commands.{incoming_names, session_names};
ghost use Rattle.rist_words.specs.CommandLine.{are_unset, firsts, incoming_of, session_named, session_of, stream_of, tunnel_session_of};
ghost use Rattle.rist_words.specs.Values.{echo_of};
ghost use Rattle.rist_words.specs.Shown.{shown_names, shown_session, shown_stream};

use crate::lines::{SessionWords, StreamWords};
use crate::values::{Numbers, flag, given, is_set, number, phrase, profile, tunnel};
use clap::ArgMatches;
use gre_tunnel::Tunnel;
use link_channels::Profile;

pub const PORT: Numbers = Numbers {
    default: 1968,
    least: 2,
    most: 65_534,
    multiple_of: 2,
};

pub const BITS: Numbers = Numbers {
    default: 128,
    least: 128,
    most: 256,
    multiple_of: 128,
};

/// The names of the options by which a session is given.
#[derive(Clone, Copy)]
pub struct SessionOptions {
    /// That of the profile.
    pub profile: &'static str,
    /// That of the UDP port of media.
    pub port: &'static str,
    /// That of the passphrase.
    pub pass: &'static str,
    /// That of the bits of the key.
    pub bits: &'static str,
    /// That of the flag of full datagrams.
    pub full: &'static str,
    /// That of the form of the tunnel.
    pub tunnel: &'static str,
}

/// Those of each command that speaks of a session.
pub const OWN: SessionOptions = SessionOptions {
    profile: "profile",
    port: "port",
    pass: "pass",
    bits: "bits",
    full: "full",
    tunnel: "tunnel",
};

/// Those of the links that a gateway receives on.
pub const INCOMING: SessionOptions = SessionOptions {
    profile: "in-profile",
    port: "in-port",
    pass: "in-pass",
    bits: "in-bits",
    full: "in-full",
    tunnel: "in-tunnel",
};

/// The session that a command's values speak of.
pub fn session<'a>(values: &ArgMatches<'a>) -> Option<SessionWords<'a>>
    ensures { option_map shown_session result ≡ session_of (rows_of (found_of values.now)) }
{
    session_named(values, OWN, is_set(values, "echo"))
}

/// The session of the links that a gateway receives on: that of the others where no profile is given for it.
pub fn incoming<'a>(values: &ArgMatches<'a>, others: SessionWords<'a>) -> Option<SessionWords<'a>>
    ensures { option_map shown_session result
        ≡ incoming_of (shown_session others.entry) (rows_of (found_of values.now)) }
{
    match given(values, INCOMING.profile) {
        Some(_) => session_named(values, INCOMING, false),
        None if are_unset(values, INCOMING) => Some(others),
        None => None,
    }
}

/// Whether none of these options is given, but perhaps the profile.
pub fn are_unset(values: &ArgMatches<'_>, names: SessionOptions) -> bool
    ensures { result ≡ are_unset (shown_names names) (rows_of (found_of values.now)) }
{
    given(values, names.port).is_none()
        && given(values, names.pass).is_none()
        && given(values, names.bits).is_none()
        && !is_set(values, names.full)
        && given(values, names.tunnel).is_none()
}

/// The session that options of these names give, and whether a sender's reports are to ask for the round-trip time.
fn session_named<'a>(
    values: &ArgMatches<'a>,
    names: SessionOptions,
    asks: bool,
) -> Option<SessionWords<'a>>
    ensures { option_map shown_session result
        ≡ session_named (shown_names names) asks (rows_of (found_of values.now)) }
{
    let profile = profile(values, names.profile)?;
    let port = number(values, names.port, PORT)? as u16;
    let pass = phrase(values, names.pass, profile)?;
    let bits = number(values, names.bits, BITS)? as u16;
    let full = flag(values, names.full, profile)?;
    let tunnel = tunnel(values, names.tunnel, profile)?;
    Some(SessionWords {
        profile,
        port,
        pass,
        bits,
        full,
        tunnel,
        echo: echo_of(tunnel, asks),
    })
}

/// The session of a command that is always in the Main Profile, at this port.
pub fn tunnel_session<'a>(values: &ArgMatches<'a>, port: u16) -> Option<SessionWords<'a>>
    ensures { option_map shown_session result ≡ tunnel_session_of port (rows_of (found_of values.now)) }
{
    let pass = phrase(values, OWN.pass, Profile::Main)?;
    let bits = number(values, OWN.bits, BITS)? as u16;
    let tunnel = tunnel(values, OWN.tunnel, Profile::Main)?;
    Some(SessionWords {
        profile: Profile::Main,
        port,
        pass,
        bits,
        full: is_set(values, OWN.full),
        tunnel,
        echo: echo_of(tunnel, false),
    })
}

/// Whether a sender asks for the round-trip time.
fn echo_of(tunnel: Tunnel, set: bool) -> bool
    ensures { result ≡ echo_of tunnel set }
{
    match tunnel {
        Tunnel::Own => set,
        Tunnel::Librist => true,
    }
}

pub const FLOW: Numbers = Numbers {
    default: 270_544_960,
    least: 0,
    most: 4_294_967_295,
    multiple_of: 2,
};

/// The stream that a command's values speak of.
pub fn stream(values: &ArgMatches<'_>, profile: Profile) -> Option<StreamWords>
    ensures { option_map shown_stream result ≡ stream_of profile (rows_of (found_of values.now)) }
{
    let nulls = flag(values, "nulls", profile)?;
    let wide = flag(values, "wide", profile)?;
    Some(StreamWords {
        nulls,
        wide,
        flow: number(values, "flow", FLOW)? as u32,
        first: number(values, "first", firsts(wide))? as u32,
    })
}

/// The numbers that can be the first: of 16 bits, or of 32 where they are wide.
pub fn firsts(wide: bool) -> Numbers
    ensures { result ≡ firsts wide }
{
    Numbers {
        default: 0,
        least: 0,
        most: if wide { 4_294_967_295 } else { 65_535 },
        multiple_of: 1,
    }
}
