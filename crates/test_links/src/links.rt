//! What no clause says: that calls succeed, and what they answer.
ghost use Rattle.std.specs.Prelude.{◌≤◌, length};
ghost use Rattle.std.specs.List.{All};
ghost use Rattle.outside_net.specs.Scripts.{FitsDatagram};

use crate::asserts::{assert_got, assert_octets, assert_written};
use link_channels::{Channel, Profile};
use outside_io::Failed;
use outside_net::{
    Clock, Full, Got, Link, LinkSpec, ListTrace, Octets, ProcessClock, Role, ScriptClock,
    ScriptLink, ScriptRead, Trace, UdpLink,
};
use std::net::{IpAddr, Ipv4Addr};
use std::process::Abort;
use std::test::Fail;

/// The first datagram that was taken came on this channel with these octets, and there is no second one.
fn assert_one_taken(rt: &impl Abort, link: &ScriptLink, channel: Channel, octets: &[u8]) {
    match link.taken(0) {
        Some((on, taken)) => {
            assert!(rt; on == channel);
            assert!(rt; taken == octets);
        }
        None => assert!(rt; false, "none was taken"),
    }
    assert!(rt; link.taken(1).is_none());
}

#[test]
fn a_script_is_answered_and_then_ends(rt: HostRuntime) -> Result<(), Fail> {
    let alloc = rt.alloc();
    let mut script = Vec::new(alloc);
    script.push(ScriptRead::Quiet)?;
    script.push(ScriptRead::Datagram(Channel::Media, Octets::of(alloc, b"AB")?))?;
    let mut link = ScriptLink::with(alloc, script, false, 1, &[0], &[1])?;
    let mut block = [0; 2048];
    assert_written(&rt, &mut link, Channel::Media, b"X", Ok(false));
    assert_got(&rt, &mut link, &mut block, Got::Failed);
    assert_got(&rt, &mut link, &mut block, Got::Quiet);
    assert_got(&rt, &mut link, &mut block, Got::Datagram(Channel::Media, 2));
    assert_octets(&rt, &block[..2], b"AB");
    assert_got(&rt, &mut link, &mut block, Got::End);
    // The media channel's peer is known now, the control channel's isn't.
    assert_written(&rt, &mut link, Channel::Media, b"X", Err(Failed));
    assert_written(&rt, &mut link, Channel::Control, b"X", Ok(false));
    assert_written(&rt, &mut link, Channel::Media, b"XY", Ok(true));
    assert_written(&rt, &mut link, Channel::Media, b"Z", Err(Failed));
    assert_one_taken(&rt, &link, Channel::Media, b"XY");
    Ok(())
}

/// The next moment is this one.
fn assert_now<C: Clock>(rt: &impl Abort, clock: &mut C, moment: u64) {
    assert!(rt; clock.now() == moment);
}

#[test]
fn a_clock_gives_its_last_moment_again(rt: HostRuntime) -> Result<(), Fail> {
    let mut clock = ScriptClock::with(rt.alloc(), &[5, 9, 7])?;
    for moment in [5, 9, 7, 7, 7] {
        assert_now(&rt, &mut clock, moment);
    }
    let mut empty = ScriptClock::with(rt.alloc(), &[])?;
    assert_now(&rt, &mut empty, 0);
    Ok(())
}

#[test]
fn a_trace_keeps_up_to_its_limit(rt: HostRuntime) -> Result<(), Fail> {
    let mut kept = ListTrace::with(rt.alloc(), 2)?;
    for item in [3_u64, 4, 5] {
        if kept.room().is_ok() {
            kept.add(item);
        }
    }
    assert!(rt; kept.room() == Err(Full));
    assert!(rt; kept.kept() == [3, 4].as_slice());
    Ok(())
}

/// A datagram that is too long fails where the channel's peer is known.
fn assert_known(rt: &impl Abort, link: &mut ScriptLink, channel: Channel, known: bool) {
    assert!(rt; link.write(channel, &[1; 2049]).is_err() == known);
}

/// Reads a datagram, maybe refuses it, and then knows these peers.
fn assert_peers(rt: &impl Abort, link: &mut ScriptLink, refused: bool, media: bool, control: bool) {
    link.read(&mut [0; 2048]);
    if refused {
        link.refuse();
    }
    assert_known(rt, link, Channel::Media, media);
    assert_known(rt, link, Channel::Control, control);
}

#[test]
fn a_refused_datagram_leaves_the_peers(rt: HostRuntime) -> Result<(), Fail> {
    let alloc = rt.alloc();
    let mut script = Vec::new(alloc);
    script.push(ScriptRead::Datagram(Channel::Media, Octets::of(alloc, b"A")?))?;
    script.push(ScriptRead::Datagram(Channel::Control, Octets::of(alloc, b"B")?))?;
    script.push(ScriptRead::Datagram(Channel::Media, Octets::of(alloc, b"C")?))?;
    let mut link = ScriptLink::with(alloc, script, false, 1, &[], &[])?;
    assert_peers(&rt, &mut link, true, false, false);
    assert_peers(&rt, &mut link, false, false, true);
    assert_peers(&rt, &mut link, true, false, true);
    assert!(rt; link.has_peer(Channel::Control) && !link.has_peer(Channel::Media));
    Ok(())
}

/// A receiving link on a free port of this machine, and where it is.
fn bound(rt: &HostRuntime, profile: Profile) -> Result<(UdpLink, LinkSpec), Failed> {
    for step in 0..100_u16 {
        let spec = LinkSpec::at(IpAddr::V4(Ipv4Addr::LOCALHOST), 24_000 + 2 * step);
        if let Ok(receiving) = UdpLink::open(rt, &spec, Role::Receives, profile) {
            return Ok((receiving, spec));
        }
    }
    Err(Failed)
}

/// A receiving link on a free port of this machine, and a link that sends to it.
fn pair(rt: &HostRuntime, profile: Profile) -> Result<(UdpLink, UdpLink), Failed> {
    let (receiving, spec) = bound(rt, profile)?;
    Ok((receiving, UdpLink::open(rt, &spec, Role::Sends, profile)?))
}

/// The next answer that isn't Quiet, of a hundred reads.
fn next<L: Link>(link: &mut L, block: &mut [u8; 2048]) -> Got {
    for _ in 0..100 {
        let got = link.read(block);
        if got != Got::Quiet {
            return got;
        }
        link.rest(1);
    }
    Got::Quiet
}

/// The link's next answer that isn't Quiet is a datagram of so many octets on this channel.
fn assert_next<L: Link>(
    rt: &impl Abort,
    link: &mut L,
    block: &mut [u8; 2048],
    channel: Channel,
    length: usize,
) {
    assert!(rt; next(link, block) == Got::Datagram(channel, length));
}

/// No datagram comes.
fn assert_quiet(rt: &impl Abort, link: &mut UdpLink, block: &mut [u8; 2048]) {
    assert!(rt; next(link, block) == Got::Quiet);
}

#[test]
fn datagrams_go_both_ways_on_their_channels(rt: HostRuntime) -> Result<(), Failed> {
    let (mut receiving, mut sending) = pair(&rt, Profile::Simple)?;
    let mut block = [0; 2048];
    assert_written(&rt, &mut receiving, Channel::Control, b"X", Ok(false));
    assert_written(&rt, &mut sending, Channel::Tunnel, b"X", Ok(false));
    assert_written(&rt, &mut sending, Channel::Media, b"AB", Ok(true));
    assert_next(&rt, &mut receiving, &mut block, Channel::Media, 2);
    assert_octets(&rt, &block[..2], b"AB");
    assert_written(&rt, &mut receiving, Channel::Control, b"X", Ok(false));
    assert_written(&rt, &mut receiving, Channel::Media, b"C", Ok(true));
    assert_next(&rt, &mut sending, &mut block, Channel::Media, 1);
    assert_written(&rt, &mut sending, Channel::Control, b"", Ok(true));
    assert_next(&rt, &mut receiving, &mut block, Channel::Control, 0);
    assert_written(&rt, &mut receiving, Channel::Control, b"DEF", Ok(true));
    assert_next(&rt, &mut sending, &mut block, Channel::Control, 3);
    Ok(())
}

#[test]
fn a_tunnels_datagrams_go_on_its_channel(rt: HostRuntime) -> Result<(), Failed> {
    let (mut receiving, mut sending) = pair(&rt, Profile::Main)?;
    let mut block = [0; 2048];
    assert_written(&rt, &mut sending, Channel::Tunnel, b"GH", Ok(true));
    assert_next(&rt, &mut receiving, &mut block, Channel::Tunnel, 2);
    Ok(())
}

/// Takes the next datagram for a stranger's.
fn refuse_next<L: Link>(link: &mut L, block: &mut [u8; 2048]) {
    next(link, block);
    link.refuse();
}

/// The receiving link refuses what the stranger sends, and answers the sending one alone.
fn assert_answered<L: Link>(rt: &impl Abort, receiving: &mut L, sending: &mut L, stranger: &mut L) {
    let mut block = [0; 2048];
    assert_written(rt, stranger, Channel::Tunnel, b"S", Ok(true));
    refuse_next(receiving, &mut block);
    assert_written(rt, receiving, Channel::Tunnel, b"X", Ok(false));
    assert_written(rt, sending, Channel::Tunnel, b"A", Ok(true));
    next(receiving, &mut block);
    assert_written(rt, stranger, Channel::Tunnel, b"S", Ok(true));
    refuse_next(receiving, &mut block);
    assert_written(rt, receiving, Channel::Tunnel, b"Y", Ok(true));
    assert_next(rt, sending, &mut block, Channel::Tunnel, 1);
    assert_got(rt, stranger, &mut block, Got::Quiet);
}

#[test]
fn a_stranger_that_is_refused_draws_no_answer(rt: HostRuntime) -> Result<(), Failed> {
    let (mut receiving, spec) = bound(&rt, Profile::Main)?;
    let mut sending = UdpLink::open(&rt, &spec, Role::Sends, Profile::Main)?;
    let mut stranger = UdpLink::open(&rt, &spec, Role::Sends, Profile::Main)?;
    assert_answered(&rt, &mut receiving, &mut sending, &mut stranger);
    Ok(())
}

#[test]
fn a_datagram_that_is_too_long_is_dropped(rt: HostRuntime) -> Result<(), Failed> {
    let (mut receiving, mut sending) = pair(&rt, Profile::Simple)?;
    let mut block = [0; 2048];
    assert_written(&rt, &mut sending, Channel::Media, &[1; 2049], Ok(true));
    assert_quiet(&rt, &mut receiving, &mut block);
    assert_written(&rt, &mut receiving, Channel::Media, b"X", Ok(false));
    assert_written(&rt, &mut sending, Channel::Media, &[1; 2048], Ok(true));
    assert_next(&rt, &mut receiving, &mut block, Channel::Media, 2048);
    Ok(())
}

/// The least time of twenty reads, and of twenty rests of so many milliseconds, in microseconds.
fn least_times<C: Clock>(
    rt: &impl Abort,
    clock: &mut C,
    link: &mut UdpLink,
    limit: u8,
) -> (u64, u64) {
    let mut block = [0; 2048];
    let mut read = u64::MAX;
    let mut rest = u64::MAX;
    for _ in 0..20 {
        let before = clock.now();
        assert_got(rt, link, &mut block, Got::Quiet);
        let between = clock.now();
        link.rest(limit);
        read = read.min(between.saturating_sub(before));
        rest = rest.min(clock.now().saturating_sub(between));
    }
    (read, rest)
}

#[test]
fn a_link_reads_at_once_and_rests_so_many_milliseconds(rt: HostRuntime) -> Result<(), Failed> {
    let (mut receiving, mut sending) = pair(&rt, Profile::Simple)?;
    let mut clock = ProcessClock::start(&rt)?;
    let (read, rest) = least_times(&rt, &mut clock, &mut receiving, 5);
    assert!(rt; read < 500 && (4_500..=9_000).contains(&rest));
    let (read, rest) = least_times(&rt, &mut clock, &mut sending, 1);
    assert!(rt; read < 500 && (500..=3_000).contains(&rest));
    Ok(())
}

#[test]
fn a_rest_ends_where_a_datagram_is_there(rt: HostRuntime) -> Result<(), Failed> {
    let (mut receiving, mut sending) = pair(&rt, Profile::Main)?;
    let mut clock = ProcessClock::start(&rt)?;
    assert_written(&rt, &mut sending, Channel::Tunnel, b"A", Ok(true));
    let before = clock.now();
    receiving.rest(250);
    assert!(rt; clock.now().saturating_sub(before) < 200_000);
    Ok(())
}

/// The next datagram of the receiving link is for this flow, and is of one octet.
fn assign_next<L: Link>(rt: &impl Abort, receiving: &mut L, flow: u8) {
    let mut block = [0; 2048];
    assert_next(rt, receiving, &mut block, Channel::Tunnel, 1);
    receiving.assign(flow);
}

/// What is written for a flow comes to this link, and it is this octet.
fn assert_goes<L: Link>(rt: &impl Abort, receiving: &mut L, flow: u8, to: &mut L, octet: u8) {
    let mut block = [0; 2048];
    receiving.address(flow);
    assert_written(rt, receiving, Channel::Tunnel, &[octet], Ok(true));
    assert_next(rt, to, &mut block, Channel::Tunnel, 1);
    assert!(rt; block[0] == octet);
}

/// Two senders' flows are each answered where they came from, whoever sent last.
fn assert_flows_answered<L: Link>(rt: &impl Abort, receiving: &mut L, one: &mut L, other: &mut L) {
    assert_written(rt, one, Channel::Tunnel, b"A", Ok(true));
    assign_next(rt, receiving, 0);
    assert_written(rt, other, Channel::Tunnel, b"B", Ok(true));
    assign_next(rt, receiving, 7);
    assert_goes(rt, receiving, 0, one, b'a');
    assert_goes(rt, receiving, 7, other, b'b');
    // Nothing came of this flow: it goes to who sent last.
    assert_goes(rt, receiving, 3, other, b'c');
    // The first flow comes from the other sender now.
    assert_written(rt, other, Channel::Tunnel, b"D", Ok(true));
    assign_next(rt, receiving, 0);
    assert_goes(rt, receiving, 0, other, b'd');
    // A tunnel has no flow at such a place.
    receiving.assign(8);
    assert_goes(rt, receiving, 8, other, b'e');
}

#[test]
fn a_flow_is_answered_where_it_came_from(rt: HostRuntime) -> Result<(), Failed> {
    let (mut receiving, spec) = bound(&rt, Profile::Main)?;
    let mut one = UdpLink::open(&rt, &spec, Role::Sends, Profile::Main)?;
    let mut other = UdpLink::open(&rt, &spec, Role::Sends, Profile::Main)?;
    assert_flows_answered(&rt, &mut receiving, &mut one, &mut other);
    Ok(())
}

/// A sending link that listens on a free port of this machine, and a receiving one that calls it.
fn exchanged(rt: &HostRuntime) -> Result<(UdpLink, UdpLink), Failed> {
    for step in 0..100_u16 {
        let spec = LinkSpec::at(IpAddr::V4(Ipv4Addr::LOCALHOST), 24_400 + step);
        if let Ok(sending) = UdpLink::open(rt, &spec, Role::SendsListening, Profile::Main) {
            let receiving = UdpLink::open(rt, &spec, Role::ReceivesCalling, Profile::Main)?;
            return Ok((sending, receiving));
        }
    }
    Err(Failed)
}

#[test]
fn a_sender_that_listens_sends_to_who_calls(rt: HostRuntime) -> Result<(), Failed> {
    let (mut sending, mut receiving) = exchanged(&rt)?;
    assert_written(&rt, &mut sending, Channel::Tunnel, b"A", Ok(false));
    assert_sent(&rt, &mut receiving, &mut sending, b"HERE");
    assert_sent(&rt, &mut sending, &mut receiving, b"B");
    Ok(())
}

/// A receiving link on a free port of this machine, and a link that forwards to it.
fn hop(rt: &HostRuntime) -> Result<(UdpLink, UdpLink), Failed> {
    let (receiving, spec) = bound(rt, Profile::Main)?;
    let forwarding = UdpLink::open(rt, &spec, Role::Forwards, Profile::Main)?;
    Ok((receiving, forwarding))
}

/// The first link sends these octets to the second.
fn assert_sent<L: Link>(rt: &impl Abort, from: &mut L, to: &mut L, octets: &[u8]) {
    let mut block = [0; 2048];
    assert_written(rt, from, Channel::Tunnel, octets, Ok(true));
    assert_next(rt, to, &mut block, Channel::Tunnel, octets.len());
    assert!(rt; block.get(..octets.len()) == Some(octets));
}

#[test]
fn a_forwarding_link_sends_and_is_answered(rt: HostRuntime) -> Result<(), Failed> {
    let (mut receiving, mut forwarding) = hop(&rt)?;
    assert_sent(&rt, &mut forwarding, &mut receiving, b"AB");
    assert_sent(&rt, &mut receiving, &mut forwarding, b"C");
    Ok(())
}

#[test]
fn of_two_links_out_the_second_alone_is_asked(rt: HostRuntime) -> Result<(), Failed> {
    let (mut quiet, mut first) = hop(&rt)?;
    let (mut asking, mut second) = hop(&rt)?;
    assert_sent(&rt, &mut first, &mut quiet, b"A");
    assert_sent(&rt, &mut second, &mut asking, b"A");
    assert_sent(&rt, &mut asking, &mut second, b"Q");
    assert_quiet(&rt, &mut first, &mut [0; 2048]);
    Ok(())
}
