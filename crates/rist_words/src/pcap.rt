//! The UDP port of a pcap file's datagrams.
ghost use Rattle.std.specs.Prelude.{◌≡◌};
ghost use Rattle.clap.specs.Words.{found_of, rows_of};
ghost use Rattle.rist_words.specs.CommandLine.{pcap_of};

use crate::links::link_ports;
use crate::values::{given, is_set, number_in};
use clap::ArgMatches;
use link_channels::Profile;

/// The UDP port of the datagrams, if the capture is said to be a pcap file.
pub fn pcap(values: &ArgMatches<'_>, profile: Profile) -> Option<Option<u16>>
    ensures { result ≡ pcap_of profile (rows_of (found_of values.now)) }
{
    match (is_set(values, "pcap"), given(values, "udp")) {
        (false, None) => Some(None),
        (true, Some(text)) => {
            let port = number_in(text, link_ports(profile))?;
            Some(Some(port as u16))
        }
        _ => None,
    }
}
