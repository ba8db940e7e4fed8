//! What a link tells of how it does.
ghost use Rattle.std.specs.Prelude.{◌≤◌, length};
ghost use Rattle.std.specs.List.{All};
ghost use Rattle.outside_net.specs.Scripts.{FitsDatagram};

use crate::asserts::{assert_got, assert_octets, assert_written};
use link_channels::Channel;
use metered_link::{Event, Lines, LinkTotals, Metered, Telling, link_line, receiver_line};
use outside_io::Store8;
use outside_net::{Got, Link, Octets, ReceiverFigures, ScriptClock, ScriptLink, ScriptRead};
use std::test::Fail;

#[test]
fn a_line_is_one_object(rt: HostRuntime) -> Result<(), Fail> {
    let telling = Telling {
        event: Event::Interval,
        since: LinkTotals::default(),
        totals: LinkTotals {
            us: 2_000_000,
            datagrams: 1000,
            octets: 1_328_000,
            ..LinkTotals::default()
        },
    };
    let line = link_line(rt.alloc(), 3, &telling)?;
    let want =
        b"{\"at\":2000000,\"bits\":5312000,\"datagrams\":1000,\"dropped\":0,\"event\":\"interval\",\"failed\":0,\"link\":3,\"octets\":1328000,\"refused\":0,\"written\":0}\n";
    assert!(rt; line.as_slice() == want.as_slice());
    Ok(())
}

#[test]
fn a_receivers_line_is_one_object(rt: HostRuntime) -> Result<(), Fail> {
    let figures = ReceiverFigures {
        kept: 8000,
        recovered: 31,
        late: 2,
        behind: 3,
        early: 4,
        twice: 24_000,
        span: 5,
        stranger: 6,
        exhausted: 7,
        refused: 9,
        held: 120,
        asked: 39,
        lost: 8,
        fill: 979,
    };
    let line = receiver_line(rt.alloc(), 2_000_000, 1, &figures)?;
    let want =
        b"{\"asked\":39,\"at\":2000000,\"event\":\"receiver\",\"fill\":979,\"flow\":1,\"held\":120,\"lost\":8,\"packets\":{\"behind\":3,\"early\":4,\"exhausted\":7,\"kept\":8000,\"late\":2,\"recovered\":31,\"span\":5,\"stranger\":6,\"twice\":24000},\"refused\":9}\n";
    assert!(rt; line.as_slice() == want.as_slice());
    Ok(())
}

#[test]
fn the_first_link_alone_tells_of_the_receiver(rt: HostRuntime) -> Result<(), Fail> {
    let alloc = rt.alloc();
    for (place, want) in [(0, [false, true, false, true]), (1, [false; 4])] {
        let link = ScriptLink::with(alloc, Vec::new(alloc), false, 1, &[], &[])?;
        let clock = ScriptClock::with(alloc, &[])?;
        let lines = Lines::over(alloc, Store8::with(alloc, 400, &[])?);
        let mut link = Metered::over(link, clock, lines, place, 1_000);
        assert!(rt; link.wants(999) == want[0]);
        assert!(rt; link.wants(1_000) == want[1]);
        link.tell(1_000, 0, &ReceiverFigures::default());
        assert!(rt; link.wants(1_999) == want[2]);
        assert!(rt; link.wants(2_000) == want[3]);
    }
    Ok(())
}

#[test]
fn a_link_that_tells_is_the_link_behind(rt: HostRuntime) -> Result<(), Fail> {
    let alloc = rt.alloc();
    let mut script = Vec::new(alloc);
    script.push(ScriptRead::Datagram(Channel::Media, Octets::of(alloc, b"AB")?))?;
    let link = ScriptLink::with(alloc, script, false, 1, &[], &[])?;
    let clock = ScriptClock::with(alloc, &[5, 2_000_005])?;
    let lines = Lines::over(alloc, Store8::with(alloc, 400, &[])?);
    let mut link = Metered::over(link, clock, lines, 0, 60_000_000);
    let mut block = [0; 2048];
    assert_written(&rt, &mut link, Channel::Media, b"X", Ok(false));
    assert_got(&rt, &mut link, &mut block, Got::Datagram(Channel::Media, 2));
    assert_octets(&rt, &block[..2], b"AB");
    assert_written(&rt, &mut link, Channel::Media, b"X", Ok(true));
    assert_got(&rt, &mut link, &mut block, Got::End);
    Ok(())
}
