//! What no clause says: that calls succeed, and that files, streams, links and clocks do what they say.
use crate::asserts::{assert_got, assert_octets, assert_put, assert_read, assert_written};
use crate::filling::Filling;
use crate::heard::Heard;
use link_channels::{Channel, Profile};
use outside_host::{
    Count, CountsText, Host, HostBad, MemHost, MemParts, Opened, Place, RealHost, Slot,
};
use outside_io::{Bytes, Entropy, Failed, MemSource, NoMemory, RealEntropy, Store8, Words};
use outside_net::{Clock, Got, LinkSpec, Role, ScriptClock, ScriptLink};
use std::alloc::Global;
use std::fs;
use std::net::{IpAddr, Ipv4Addr};
use std::os::unix::fs::symlink;
use std::process::Abort;
use std::test::Fail;

/// A host of nothing whose listed calls are to fail.
fn parts_with(alloc: Global, failing: &[u64]) -> Result<MemParts, Fail> {
    Ok(MemParts {
        sources: Vec::new(alloc),
        sinks: Vec::new(alloc),
        entropies: Vec::new(alloc),
        links: Vec::new(alloc),
        clocks: Vec::new(alloc),
        failing: Vec::from_slice(alloc, failing)?,
    })
}

fn source_of<H: Host>(host: &mut H, name: &str) -> Result<H::Input, Fail> {
    match host.source(name) {
        Ok(source) => Ok(source),
        Err(_) => Err(Fail::new("no source")),
    }
}

fn sink_of<H: Host>(host: &mut H, name: &str) -> Result<H::Output, Fail> {
    match host.sink(name) {
        Ok(sink) => Ok(sink),
        Err(_) => Err(Fail::new("no sink")),
    }
}

fn entropy_of<H: Host>(host: &mut H) -> Result<H::Random, Fail> {
    match host.entropy() {
        Ok(entropy) => Ok(entropy),
        Err(_) => Err(Fail::new("no random words")),
    }
}

fn link_of<H: Host>(host: &mut H, spec: &LinkSpec, role: Role) -> Result<H::Wire, Fail> {
    match host.link(spec, role, Profile::Main) {
        Ok(link) => Ok(link),
        Err(_) => Err(Fail::new("no link")),
    }
}

fn clock_of<H: Host>(host: &mut H) -> Result<H::Time, Fail> {
    match host.clock() {
        Ok(clock) => Ok(clock),
        Err(_) => Err(Fail::new("no clock")),
    }
}

fn assert_no_source<H: Host>(rt: &impl Abort, host: &mut H, name: &str) {
    assert!(rt; host.source(name).err() == Some(HostBad::Failed), "{name}");
}

fn assert_no_sink<H: Host>(rt: &impl Abort, host: &mut H, name: &str) {
    assert!(rt; host.sink(name).err() == Some(HostBad::Failed), "{name}");
}

fn assert_no_entropy<H: Host>(rt: &impl Abort, host: &mut H) {
    assert!(rt; host.entropy().err() == Some(HostBad::Failed));
}

fn assert_no_link<H: Host>(rt: &impl Abort, host: &mut H, spec: &LinkSpec, role: Role) {
    assert!(rt; host.link(spec, role, Profile::Main).err() == Some(HostBad::Failed));
}

fn assert_no_clock<H: Host>(rt: &impl Abort, host: &mut H) {
    assert!(rt; host.clock().err() == Some(HostBad::Failed));
}

/// A host of the source `in` with the octets `AB`, and of the empty sink `out`. Its first call fails.
fn host_of_names(alloc: Global) -> Result<MemHost, Fail> {
    let mut parts = parts_with(alloc, &[0])?;
    parts.sources.push(Slot {
        name: String::from_str(alloc, "in")?,
        place: Place::Here(MemSource::Whole(Bytes::with(alloc, b"AB", &[])?)),
    })?;
    parts.sinks.push(Slot {
        name: String::from_str(alloc, "out")?,
        place: Place::Here(Store8::with(alloc, 4, &[])?),
    })?;
    Ok(MemHost::with(alloc, parts)?)
}

/// Gives both back, and finds them under their names.
fn assert_both_back(
    rt: &impl Abort,
    host: &mut MemHost,
    source: MemSource,
    sink: Store8,
) -> Result<(), Fail> {
    assert!(rt; host.returned_sink("out").is_none());
    host.back_source("in", source);
    host.back_sink("out", sink);
    assert!(rt; host.returned_source("in").is_some());
    let sink = host.returned_sink("out").ok_or("no sink came back")?;
    assert_octets(rt, sink.octets(), b"AB");
    Ok(())
}

/// The source is handed out once, after the first call has failed, and the sink takes two octets.
fn handed_out<H: Host>(rt: &impl Abort, host: &mut H) -> Result<(H::Input, H::Output), Fail> {
    assert_no_source(rt, host, "in");
    assert_no_source(rt, host, "other");
    let source = source_of(host, "in")?;
    assert_no_source(rt, host, "in");
    let mut sink = sink_of(host, "out")?;
    assert_put(rt, &mut sink, b"AB", Ok(()));
    Ok((source, sink))
}

#[test]
fn what_comes_back_stands_under_its_name(rt: HostRuntime) -> Result<(), Fail> {
    let mut host = host_of_names(rt.alloc())?;
    let (source, sink) = handed_out(&rt, &mut host)?;
    assert_both_back(&rt, &mut host, source, sink)
}

/// Writes both parts into a file.
fn write_file<H: Host>(
    rt: &impl Abort,
    host: &mut H,
    name: &str,
    first: &[u8],
    second: &[u8],
) -> Result<(), Fail> {
    let mut sink = sink_of(host, name)?;
    assert_put(rt, &mut sink, first, Ok(()));
    assert_put(rt, &mut sink, second, Ok(()));
    host.back_sink(name, sink);
    Ok(())
}

/// The whole file comes by one read, and then nothing.
fn assert_file<H: Host>(rt: &impl Abort, host: &mut H, name: &str) -> Result<(), Fail> {
    let mut source = source_of(host, name)?;
    let mut buf = [0; 8];
    assert_read(rt, &mut source, &mut buf, Ok(4));
    assert_octets(rt, &buf[..4], b"ABCD");
    assert_read(rt, &mut source, &mut buf, Ok(0));
    host.back_source(name, source);
    Ok(())
}

/// A file that is there is written anew, and none can be made in a folder that isn't there.
fn assert_files<H: Host>(rt: &impl Abort, host: &mut H) -> Result<(), Fail> {
    assert_no_source(rt, host, "no such file");
    write_file(rt, host, "taken.bin", b"ABC", b"D")?;
    assert_file(rt, host, "taken.bin")?;
    write_file(rt, host, "taken.bin", b"E", b"")?;
    assert_no_sink(rt, host, "no such folder/taken.bin");
    Ok(())
}

#[test]
fn a_file_gives_what_it_took(rt: HostRuntime) -> Result<(), Fail> {
    assert_files(&rt, &mut RealHost::new(&rt))?;
    assert_octets(&rt, fs::read(&rt, "taken.bin")?.as_slice(), b"E");
    fs::remove_file(&rt, "taken.bin")?;
    Ok(())
}

fn assert_opens<H: Host>(rt: &impl Abort, host: &mut H, source: &str, sink: &str) {
    assert!(rt; host.source(source).is_ok());
    assert!(rt; host.sink(sink).is_ok());
}

fn assert_sink<H: Host>(rt: &impl Abort, host: &mut H, name: &str) {
    assert!(rt; host.sink(name).is_ok());
}

/// A file of the octets `ABC` is opened as the source, and not as the sink until it was given back.
fn assert_not_over<H: Host>(rt: &impl Abort, host: &mut H) -> Result<(), Fail> {
    let mut source = source_of(host, "both.bin")?;
    assert_no_sink(rt, host, "both.bin");
    assert_no_sink(rt, host, "./both.bin");
    let mut buf = [0; 8];
    assert_read(rt, &mut source, &mut buf, Ok(3));
    assert_octets(rt, &buf[..3], b"ABC");
    // A stream isn't a file, and a file that was given back can be written.
    assert_sink(rt, host, "-");
    host.back_source("both.bin", source);
    assert_sink(rt, host, "both.bin");
    // What is no regular file can be read and written at once.
    assert_opens(rt, host, "/dev/null", "/dev/null");
    Ok(())
}

#[test]
fn a_file_is_not_written_over_while_it_is_read(rt: HostRuntime) -> Result<(), Fail> {
    fs::write(&rt, "both.bin", b"ABC")?;
    assert_not_over(&rt, &mut RealHost::new(&rt))?;
    fs::remove_file(&rt, "both.bin")?;
    Ok(())
}

/// A file under each of these names is opened as the source, and meanwhile under none of them as the sink.
fn assert_one_file<H: Host>(rt: &impl Abort, host: &mut H, names: &[&str]) -> Result<(), Fail> {
    for name in names {
        let source = source_of(host, name)?;
        for other in names {
            assert_no_sink(rt, host, other);
        }
        host.back_source(name, source);
    }
    Ok(())
}

#[test]
fn a_file_is_not_written_over_by_a_link_to_it(rt: HostRuntime) -> Result<(), Fail> {
    fs::write(&rt, "linked.bin", b"ABC")?;
    symlink(&rt, "linked.bin", "symbolic.bin")?;
    fs::hard_link(&rt, "linked.bin", "hard.bin")?;
    let names = ["linked.bin", "symbolic.bin", "hard.bin"];
    assert_one_file(&rt, &mut RealHost::new(&rt), &names)?;
    assert_octets(&rt, fs::read(&rt, "linked.bin")?.as_slice(), b"ABC");
    for name in names {
        fs::remove_file(&rt, name)?;
    }
    Ok(())
}

/// A file of the octets `ABC` is read as the source, and meanwhile another one that is there is written.
fn assert_other_written<H: Host>(rt: &impl Abort, host: &mut H) -> Result<(), Fail> {
    let mut source = source_of(host, "read.bin")?;
    write_file(rt, host, "other.bin", b"DE", b"F")?;
    let mut buf = [0; 8];
    assert_read(rt, &mut source, &mut buf, Ok(3));
    assert_octets(rt, &buf[..3], b"ABC");
    host.back_source("read.bin", source);
    Ok(())
}

#[test]
fn another_file_that_is_there_is_written_while_one_is_read(rt: HostRuntime) -> Result<(), Fail> {
    fs::write(&rt, "read.bin", b"ABC")?;
    fs::write(&rt, "other.bin", b"what was there")?;
    assert_other_written(&rt, &mut RealHost::new(&rt))?;
    assert_octets(&rt, fs::read(&rt, "other.bin")?.as_slice(), b"DEF");
    fs::remove_file(&rt, "read.bin")?;
    fs::remove_file(&rt, "other.bin")?;
    Ok(())
}

fn assert_recorded<H: Host>(rt: &impl Abort, host: &mut H, name: &str, want: Result<(), HostBad>) {
    assert!(rt; host.record(name) == want, "{name}");
}

#[test]
fn a_recording_begins_a_capture_and_never_over_what_is_read(rt: HostRuntime) -> Result<(), Fail> {
    fs::write(&rt, "source.bin", b"ABC")?;
    fs::write(&rt, "recording.bin", b"what was there")?;
    let mut host = RealHost::new(&rt);
    let source = source_of(&mut host, "source.bin")?;
    for (name, want) in [
        ("./source.bin", Err(HostBad::Failed)),
        ("no such folder/recording.bin", Err(HostBad::Failed)),
        ("recording.bin", Ok(())),
    ] {
        assert_recorded(&rt, &mut host, name, want);
    }
    host.back_source("source.bin", source);
    assert_octets(&rt, fs::read(&rt, "source.bin")?.as_slice(), b"ABC");
    assert_octets(&rt, fs::read(&rt, "recording.bin")?.as_slice(), b"RISTCAP1");
    let alloc = rt.alloc();
    let mut memory = MemHost::with(alloc, parts_with(alloc, &[0])?)?;
    assert_recorded(&rt, &mut memory, "recording.bin", Ok(()));
    fs::remove_file(&rt, "source.bin")?;
    fs::remove_file(&rt, "recording.bin")?;
    Ok(())
}

fn assert_word<E: Entropy>(rt: &impl Abort, entropy: &mut E, want: Result<u32, Failed>) {
    assert!(rt; entropy.word() == want);
}

/// A host of the words 7 and 8, behind each of which a draw fails, and of the word 9. Its second call fails.
fn host_of_words(alloc: Global) -> Result<MemHost, Fail> {
    let mut parts = parts_with(alloc, &[1])?;
    let first = Words::with(alloc, &[7, 8], &[1])?;
    let second = Words::with(alloc, &[9], &[])?;
    parts.entropies.push(Place::Here(first))?;
    parts.entropies.push(Place::Here(second))?;
    Ok(MemHost::with(alloc, parts)?)
}

/// The second random words, behind the first, which were drawn to their end, and a call that failed.
fn second_words<H: Host>(rt: &impl Abort, host: &mut H) -> Result<H::Random, Fail> {
    let mut first = entropy_of(host)?;
    assert_word(rt, &mut first, Ok(7));
    assert_word(rt, &mut first, Err(Failed));
    assert_word(rt, &mut first, Ok(8));
    assert_word(rt, &mut first, Err(Failed));
    // A call of the host that fails hands nothing out: place 1 comes next.
    assert_no_entropy(rt, host);
    let mut second = entropy_of(host)?;
    assert_word(rt, &mut second, Ok(9));
    assert_no_entropy(rt, host);
    Ok(second)
}

#[test]
fn random_words_are_handed_out_by_place(rt: HostRuntime) -> Result<(), Fail> {
    let mut host = host_of_words(rt.alloc())?;
    let second = second_words(&rt, &mut host)?;
    host.back_entropy(1, second);
    assert!(rt; host.returned_entropy(0).is_none() && host.returned_entropy(1).is_some());
    Ok(())
}

/// Of 64 words some bit is always 0, or always 1, once in 2^58 runs.
fn assert_random<E: Entropy>(rt: &impl Abort, entropy: &mut E) {
    let (mut ever, mut always) = (0, u32::MAX);
    for _ in 0..64 {
        let word = entropy.word();
        assert!(rt; word.is_ok());
        let word = word.unwrap_or(0);
        ever |= word;
        always &= word;
    }
    assert!(rt; (ever, always) == (u32::MAX, 0));
}

fn assert_random_host<H: Host>(rt: &impl Abort, host: &mut H) -> Result<(), Fail> {
    let mut entropy = entropy_of(host)?;
    assert_random(rt, &mut entropy);
    host.back_entropy(0, entropy);
    Ok(())
}

#[test]
fn the_system_gives_random_words(rt: HostRuntime) -> Result<(), Fail> {
    assert_random_host(&rt, &mut RealHost::new(&rt))
}

#[test]
fn a_random_word_is_made_of_four_octets_of_the_source(rt: HostRuntime) -> Result<(), Fail> {
    let source = Filling::new();
    let mut entropy = RealEntropy::new(&source);
    for want in [
        Ok(0x0102_0304),
        Ok(0x0506_0708),
        Err(Failed),
        Ok(0x0D0E_0F10),
    ] {
        assert_word(&rt, &mut entropy, want);
    }
    Ok(())
}

#[test]
fn each_failure_has_its_text(rt: HostRuntime) -> Result<(), Fail> {
    let shown = format!(in rt.alloc(); "{}, {}, {}", Failed, NoMemory, HostBad::Failed)?;
    assert!(rt; shown.as_str() == "call failed, out of memory, cannot open");
    Ok(())
}

#[test]
fn a_link_that_knows_no_peer_is_only_received_on(rt: HostRuntime) -> Result<(), Fail> {
    let alloc = rt.alloc();
    let mut parts = parts_with(alloc, &[])?;
    let link = ScriptLink::with(alloc, Vec::new(alloc), false, 1, &[], &[])?;
    parts.links.push(Place::Here(link))?;
    let mut host = MemHost::with(alloc, parts)?;
    let spec = LinkSpec::at(IpAddr::V4(Ipv4Addr::LOCALHOST), 5000);
    for role in [Role::Sends, Role::Forwards] {
        assert_no_link(&rt, &mut host, &spec, role);
    }
    link_of(&mut host, &spec, Role::Receives)?;
    Ok(())
}

/// A host of two links with room for one datagram and for two, and of a clock of the moments 5 and 6. Its third call fails.
fn host_of_places(alloc: Global) -> Result<MemHost, Fail> {
    let mut parts = parts_with(alloc, &[2])?;
    for room in [1, 2] {
        let link = ScriptLink::with(alloc, Vec::new(alloc), true, room, &[], &[])?;
        parts.links.push(Place::Here(link))?;
    }
    let clock = ScriptClock::with(alloc, &[5, 6])?;
    parts.clocks.push(Place::Here(clock))?;
    Ok(MemHost::with(alloc, parts)?)
}

fn assert_moments<C: Clock>(rt: &impl Abort, clock: &mut C, moments: (u64, u64, u64)) {
    assert!(rt; (clock.now(), clock.now(), clock.now()) == moments);
}

/// Gives both back, and finds the link at place 1, which was opened so.
fn assert_back_at_1(
    rt: &impl Abort,
    host: &mut MemHost,
    link: ScriptLink,
    clock: ScriptClock,
    want: Opened,
) {
    host.back_link(1, link);
    host.back_clock(0, clock);
    assert!(rt; host.returned_link(0).is_none() && host.returned_link(1).is_some());
    assert!(rt; (host.opened(1), host.opened(2)) == (Some(want), None));
}

/// The second link and the clock, behind the first link and a call that failed.
fn second_link<H: Host>(
    rt: &impl Abort,
    host: &mut H,
    spec: &LinkSpec,
) -> Result<(H::Wire, H::Time), Fail> {
    let mut first = link_of(host, spec, Role::Sends)?;
    assert_written(rt, &mut first, Channel::Tunnel, b"A", Ok(true));
    assert_written(rt, &mut first, Channel::Tunnel, b"B", Err(Failed));
    let mut clock = clock_of(host)?;
    assert_moments(rt, &mut clock, (5, 6, 6));
    // A call that fails hands nothing out: place 1 comes next.
    assert_no_link(rt, host, spec, Role::Sends);
    let mut second = link_of(host, spec, Role::Receives)?;
    assert_written(rt, &mut second, Channel::Tunnel, b"A", Ok(true));
    assert_written(rt, &mut second, Channel::Tunnel, b"B", Ok(true));
    assert_no_link(rt, host, spec, Role::Sends);
    assert_no_clock(rt, host);
    Ok((second, clock))
}

#[test]
fn links_and_clocks_are_handed_out_by_place(rt: HostRuntime) -> Result<(), Fail> {
    let mut host = host_of_places(rt.alloc())?;
    let spec = LinkSpec::at(IpAddr::V4(Ipv4Addr::LOCALHOST), 5000);
    let (second, clock) = second_link(&rt, &mut host, &spec)?;
    let want = Opened {
        spec,
        role: Role::Receives,
        profile: Profile::Main,
    };
    assert_back_at_1(&rt, &mut host, second, clock, want);
    Ok(())
}

/// A receiving link on a free port of this machine, and where it is.
fn bound<H: Host>(host: &mut H) -> Result<(H::Wire, LinkSpec), Fail> {
    for step in 0..100 {
        let spec = LinkSpec::at(IpAddr::V4(Ipv4Addr::LOCALHOST), 42_100 + step);
        if let Ok(link) = host.link(&spec, Role::Receives, Profile::Main) {
            return Ok((link, spec));
        }
    }
    Err(Fail::new("no free port"))
}

/// The moments of two clocks never fall, whichever is asked.
fn assert_one_start<C: Clock>(rt: &impl Abort, clock: &mut C, other: &mut C) {
    let before = clock.now();
    let between = other.now();
    assert!(rt; before <= between && between <= clock.now());
}

fn assert_links_and_clocks<H: Host>(rt: &impl Abort, host: &mut H) -> Result<(), Fail> {
    let (mut receiving, spec) = bound(host)?;
    assert_no_link(rt, host, &spec, Role::Receives);
    let mut sending = link_of(host, &spec, Role::Sends)?;
    let mut clock = clock_of(host)?;
    let mut other = clock_of(host)?;
    assert_written(rt, &mut sending, Channel::Tunnel, b"ABC", Ok(true));
    let mut block = [0; 2048];
    let want = Got::Datagram(Channel::Tunnel, 3);
    assert_got(rt, &mut receiving, &mut block, want);
    assert_one_start(rt, &mut clock, &mut other);
    Ok(())
}

#[test]
fn the_system_opens_links_and_its_clocks_have_one_start(rt: HostRuntime) -> Result<(), Fail> {
    assert_links_and_clocks(&rt, &mut RealHost::new(&rt))
}

fn assert_reported(rt: &impl Abort, host: &MemHost, want: Option<&[Count]>) {
    assert!(rt; host.reported() == want);
}

/// Two counts.
const COUNTED: [Count; 2] = [
    Count {
        name: "kept",
        count: 3,
    },
    Count {
        name: "twice",
        count: 1,
    },
];

#[test]
fn the_counts_that_came_last_are_kept(rt: HostRuntime) -> Result<(), Fail> {
    let alloc = rt.alloc();
    let mut host = MemHost::with(alloc, parts_with(alloc, &[])?)?;
    assert_reported(&rt, &host, None);
    let many = [COUNTED[1]; 17];
    host.report(&many);
    assert_reported(&rt, &host, Some(&many[..16]));
    host.report(&COUNTED);
    assert_reported(&rt, &host, Some(&COUNTED));
    Ok(())
}

#[test]
fn a_report_is_said_on_the_error_output(rt: HostRuntime) -> Result<(), Fail> {
    let heard = Heard::new(&rt, "rist: kept 3, twice 1");
    RealHost::new(&heard).report(&COUNTED);
    assert!(rt; heard.times() == 1);
    Ok(())
}

#[test]
fn counts_have_their_text(rt: HostRuntime) -> Result<(), Fail> {
    let line = format!(in rt.alloc(); "{}", CountsText(&COUNTED))?;
    assert!(rt; line.as_str() == "kept 3, twice 1");
    Ok(())
}
