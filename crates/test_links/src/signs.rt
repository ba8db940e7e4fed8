//! What no clause says of a sign that the program is to end: texts of status files, as Linux writes them, how often the system is
//! asked, and a link and a source that come to their end.
use crate::asserts::{assert_got, assert_octets, assert_read, assert_written};
use crate::told::Told;
use end_sign::{AskedAfter, EndSign, ProcessSign, Until, UntilSource, is_end_asked};
use link_channels::Channel;
use outside_io::{Bytes, Failed, MemSource};
use outside_net::{Got, Octets, ScriptLink, ScriptRead};
use std::fs;
use std::process::Abort;
use std::test::Fail;

#[test]
fn a_signal_that_waits_is_seen_in_the_status(rt: HostRuntime) -> Result<(), Fail> {
    for (mask, asked) in [
        ("0000000000000000", false),
        // SIGINT, SIGTERM, and both.
        ("0000000000000002", true),
        ("0000000000004000", true),
        ("0000000000004002", true),
        // SIGHUP; SIGHUP, SIGQUIT, SIGSEGV, SIGUSR2 and SIGPIPE; all but the two.
        ("0000000000000001", false),
        ("0000000000001c05", false),
        ("fffffffffffbbffd", false),
    ] {
        let text = format!(in rt.alloc();
            "Name:\trist\nSigPnd:\t0000000000004002\nShdPnd:\t{mask}\nSigBlk:\t0000000000004002\n"
        )?;
        assert_eq!(rt; is_end_asked(text.as_bytes()), asked, "at {mask}");
    }
    // A text that is cut off says nothing.
    assert!(rt; !is_end_asked(b""));
    assert!(rt; !is_end_asked(b"ShdPnd:\t0000000000"));
    Ok(())
}

fn assert_asked<S: EndSign>(rt: &impl Abort, sign: &mut S, want: &[bool]) {
    for answer in want {
        assert!(rt; sign.asked() == *answer);
    }
}

#[test]
fn a_sign_in_memory_says_yes_for_ever(rt: HostRuntime) {
    assert_asked(
        &rt,
        &mut AskedAfter::with(2),
        &[false, false, true, true, true],
    );
}

#[test]
fn the_system_is_asked_once_in_a_tenth_of_a_second(rt: HostRuntime) -> Result<(), Fail> {
    fs::write(&rt, "status.txt", b"ShdPnd:\t0000000000000000\n")?;
    let told = Told::new(&rt, "status.txt");
    let mut sign = ProcessSign::new(&told);
    assert_asked(&rt, &mut sign, &[false]);
    fs::write(&rt, "status.txt", b"ShdPnd:\t0000000000004000\n")?;
    // At 40 and 80 ms it isn't asked again. A yes lasts, whatever the file says then.
    assert_asked(&rt, &mut sign, &[false, false, true]);
    fs::remove_file(&rt, "status.txt")?;
    assert_asked(&rt, &mut sign, &[true, true, true, true]);
    assert!(rt; told.looks() == 2);
    Ok(())
}

#[test]
fn a_status_that_cannot_be_read_says_no(rt: HostRuntime) {
    let told = Told::new(&rt, "no such folder/status.txt");
    assert_asked(
        &rt,
        &mut ProcessSign::new(&told),
        &[false, false, false, false],
    );
    assert!(rt; told.looks() == 2);
    assert_asked(
        &rt,
        &mut ProcessSign::never(&told),
        &[false, false, false, false],
    );
    assert!(rt; told.looks() == 2);
}

#[test]
fn a_link_that_is_to_end_is_read_no_more_and_still_sends(rt: HostRuntime) -> Result<(), Fail> {
    let alloc = rt.alloc();
    let mut script = Vec::new(alloc);
    script.push(ScriptRead::Datagram(Channel::Media, Octets::of(alloc, b"AB")?))?;
    script.push(ScriptRead::Datagram(Channel::Media, Octets::of(alloc, b"CD")?))?;
    let behind = ScriptLink::with(alloc, script, false, 1, &[], &[])?;
    let mut link = Until::over(behind, AskedAfter::with(1));
    let mut block = [0; 2048];
    assert_got(&rt, &mut link, &mut block, Got::Datagram(Channel::Media, 2));
    assert_octets(&rt, &block[..2], b"AB");
    assert_got(&rt, &mut link, &mut block, Got::End);
    assert_got(&rt, &mut link, &mut block, Got::End);
    assert_written(&rt, &mut link, Channel::Media, b"X", Ok(true));
    // The link behind has its second datagram still to give.
    let mut behind = link.back();
    assert_got(
        &rt,
        &mut behind,
        &mut block,
        Got::Datagram(Channel::Media, 2),
    );
    assert_octets(&rt, &block[..2], b"CD");
    Ok(())
}

#[test]
fn a_source_that_is_to_end_is_read_no_more(rt: HostRuntime) -> Result<(), Fail> {
    let behind = MemSource::Whole(Bytes::with(rt.alloc(), b"ABCD", &[])?);
    let mut source = UntilSource::over(behind, AskedAfter::with(1));
    let mut buf = [0; 3];
    assert_read(&rt, &mut source, &mut buf, Ok(3));
    assert_octets(&rt, &buf, b"ABC");
    assert_read(&rt, &mut source, &mut buf, Ok(0));
    let mut behind = source.back();
    assert_read(&rt, &mut behind, &mut buf, Ok(1));
    assert_octets(&rt, &buf[..1], b"D");
    Ok(())
}

#[test]
fn a_fault_is_that_of_the_source_behind(rt: HostRuntime) -> Result<(), Fail> {
    let behind = MemSource::Whole(Bytes::with(rt.alloc(), b"ABCD", &[0])?);
    let mut source = UntilSource::over(behind, AskedAfter::with(1));
    let mut buf = [0; 3];
    assert_read(&rt, &mut source, &mut buf, Err(Failed));
    assert_read(&rt, &mut source, &mut buf, Ok(0));
    Ok(())
}
