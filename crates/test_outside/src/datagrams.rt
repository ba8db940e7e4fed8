//! What datagrams carry of a stream, by RTP packets that were laid out by hand after RFC 3550, section 5.1; what a sink makes of its
//! pieces; and a stream over loopback.
ghost use Rattle.std.specs.Prelude.{◌≡◌};

use crate::asserts::{assert_given, assert_put, assert_read};
use datagram_ends::{DatagramOut, DatagramSink, UdpOut, UdpSource, media_of, payload_of};
use end_sign::{AskedAfter, EndSign};
use media_address::{Form, MediaAddress, address_of};
use outside_host::{Host, HostBad, RealHost};
use outside_io::{Failed, FailingCalls};
use outside_net::{Octets, ScriptClock};
use std::alloc::Global;
use std::process::Abort;
use std::test::Fail;

// Datagrams, and the octets of the stream that each carries as RTP.
static CARRIED: [(&[u8], &[u8]); 13] = [
    // Version 2, payload type 33, number 10, timestamp 0, a source.
    (
        b"\x80\x21\x00\x0a\x00\x00\x00\x00\x10\x20\x30\x40GAB",
        b"GAB",
    ),
    // The marker, and payload type 96.
    (b"\x80\xe0\x00\x0a\x00\x00\x00\x00\x10\x20\x30\x40G", b"G"),
    // One contributing source, and fifteen.
    (
        b"\x81\x21\x00\x0a\x00\x00\x00\x00\x10\x20\x30\x40abcdG",
        b"G",
    ),
    (
        b"\x8f\x21\x00\x0a\x00\x00\x00\x00\x10\x20\x30\x40abcdabcdabcdabcdabcdabcdabcdabcdabcdabcdabcdabcdabcdabcdabcdG",
        b"G",
    ),
    // An extension of no word, and of two.
    (
        b"\x90\x21\x00\x0a\x00\x00\x00\x00\x10\x20\x30\x40\xbe\xde\x00\x00G",
        b"G",
    ),
    (
        b"\x90\x21\x00\x0a\x00\x00\x00\x00\x10\x20\x30\x40\xbe\xde\x00\x02abcdefghG",
        b"G",
    ),
    // Padding of one octet, and of four.
    (
        b"\xa0\x21\x00\x0a\x00\x00\x00\x00\x10\x20\x30\x40G\x01",
        b"G",
    ),
    (
        b"\xa0\x21\x00\x0a\x00\x00\x00\x00\x10\x20\x30\x40G\x00\x00\x00\x04",
        b"G",
    ),
    // All three: two sources, an extension of one word, two octets of padding.
    (
        b"\xb2\x21\x00\x0a\x00\x00\x00\x00\x10\x20\x30\x40abcdabcd\xbe\xde\x00\x01abcdGH\x00\x02",
        b"GH",
    ),
    // No packet carries nothing: version 1, an RTCP report cut off, eleven octets, and a stream without a header.
    (b"\x40\x21\x00\x0a\x00\x00\x00\x00\x10\x20\x30\x40G", b""),
    (b"\x80\xc8\x00\x06", b""),
    (b"\x80\x21\x00\x0a\x00\x00\x00\x00\x10\x20\x30", b""),
    (b"G\x1f\xff\x10\xff\xff\xff\xff\xff\xff\xff\xff\xff", b""),
];

#[test]
fn of_rtp_the_payload_is_taken(rt: HostRuntime) {
    for (datagram, carried) in &CARRIED {
        assert!(rt; media_of(Form::Rtp, datagram) == *carried);
        assert!(rt; media_of(Form::Udp, datagram) == *datagram);
        assert!(rt; payload_of(Form::Rtp, datagram) == *carried);
    }
}

/// Keeps the datagrams that it sends. Listed calls fail.
#[derive(Drop)]
struct Kept {
    datagrams: Vec<Octets>,
    calls: FailingCalls,
    alloc: Global,
    lost: bool,
}

impl DatagramOut for Kept {
    ghost use Rattle.std.specs.Prelude.{None};

    ghost sent = { λ _. None };

    ghost faults = { λ kept. kept.calls.faults };

    fn send(&mut self, octets: &[u8]) -> Result<(), Failed> {
        if self.calls.next_fails() {
            self.calls.count_fault();
            return Err(Failed);
        }
        match Octets::of(self.alloc, octets) {
            Ok(datagram) => self.lost |= self.datagrams.push(datagram).is_err(),
            Err(_) => self.lost = true,
        }
        Ok(())
    }
}

impl Kept {
    fn with(alloc: Global, failing: &[u64]) -> Result<Kept, Fail> {
        Ok(Kept {
            datagrams: Vec::new(alloc),
            calls: FailingCalls::with(alloc, failing)?,
            alloc,
            lost: false,
        })
    }
}

/// These datagrams were sent, in this order.
fn assert_sent(rt: &impl Abort, kept: &Kept, want: &[&[u8]]) {
    assert!(rt; !kept.lost);
    assert!(rt; kept.datagrams.len() == want.len());
    for (datagram, octets) in kept.datagrams.iter().zip(want) {
        assert!(rt; datagram.as_slice() == *octets);
    }
}

#[test]
fn a_piece_is_a_datagram(rt: HostRuntime) -> Result<(), Fail> {
    let alloc = rt.alloc();
    let clock = ScriptClock::with(alloc, &[0])?;
    let mut sink = DatagramSink::over(Form::Udp, Kept::with(alloc, &[1])?, clock, 7, 8);
    for (piece, want) in [
        (b"GAB".as_slice(), Ok(())),
        (b"lost", Err(Failed)),
        (b"", Ok(())),
        (b"G", Ok(())),
    ] {
        assert_put(&rt, &mut sink, piece, want);
    }
    assert_sent(&rt, &sink.back(), &[b"GAB", b"G"]);
    Ok(())
}

#[test]
fn a_piece_is_an_rtp_packet(rt: HostRuntime) -> Result<(), Fail> {
    let alloc = rt.alloc();
    // 90,000 ticks a second: 9 each 100 us. The last moment is past 2^32 ticks by 8.
    let clock = ScriptClock::with(alloc, &[0, 1_000_000, 47_721_858_944])?;
    let mut sink = DatagramSink::over(
        Form::Rtp,
        Kept::with(alloc, &[])?,
        clock,
        65_535,
        0x10203040,
    );
    for piece in [b"GAB".as_slice(), b"", b"G", b"GH"] {
        assert_put(&rt, &mut sink, piece, Ok(()));
    }
    assert_sent(
        &rt,
        &sink.back(),
        &[
            b"\x80\x21\xff\xff\x00\x00\x00\x00\x10\x20\x30\x40GAB",
            b"\x80\x21\x00\x00\x00\x01\x5f\x90\x10\x20\x30\x40G",
            b"\x80\x21\x00\x01\x00\x00\x00\x08\x10\x20\x30\x40GH",
        ],
    );
    Ok(())
}

#[test]
fn a_long_piece_goes_in_several(rt: HostRuntime) -> Result<(), Fail> {
    let alloc = rt.alloc();
    let clock = ScriptClock::with(alloc, &[0])?;
    let mut piece = [b'a'; 3100];
    piece[1500] = b'b';
    piece[3000] = b'c';
    let mut sink = DatagramSink::over(Form::Udp, Kept::with(alloc, &[])?, clock, 0, 0);
    assert_put(&rt, &mut sink, &piece, Ok(()));
    assert_put(&rt, &mut sink, &piece[..1500], Ok(()));
    assert_put(&rt, &mut sink, &piece[..1501], Ok(()));
    let (first, second, third) = (&piece[..1500], &piece[1500..3000], &piece[3000..]);
    assert_sent(
        &rt,
        &sink.back(),
        &[first, second, third, first, first, &piece[1500..1501]],
    );
    Ok(())
}

/// The address that a word writes.
fn address_in(word: &str) -> Result<MediaAddress, Fail> {
    match address_of(word) {
        Ok(Some(address)) => Ok(address),
        _ => Err(Fail::new("no address")),
    }
}

#[test]
fn what_is_put_in_datagrams_is_read_of_them(rt: HostRuntime) -> Result<(), Fail> {
    let alloc = rt.alloc();
    for (word, form) in [
        ("udp://127.0.0.93:6801", Form::Udp),
        ("rtp://127.0.0.93:6802?ttl=3&from=127.0.0.94", Form::Rtp),
    ] {
        let address = address_in(word)?;
        assert!(rt; address.form == form);
        let mut source = UdpSource::open(&rt, &address, AskedAfter::with(5))?;
        let out = UdpOut::open(&rt, &address)?;
        let clock = ScriptClock::with(alloc, &[0])?;
        let mut sink = DatagramSink::over(form, out, clock, 0, 0);
        assert!(rt; !source.is_ready());
        assert_put(&rt, &mut sink, b"abcdef", Ok(()));
        assert_put(&rt, &mut sink, b"gh", Ok(()));
        assert!(rt; source.is_ready());
        let mut block = [0; 4];
        assert_given(&rt, &mut source, &mut block, b"abcd");
        assert_given(&rt, &mut source, &mut block, b"ef");
        assert_given(&rt, &mut source, &mut block, b"gh");
        // The sign says yes once it was asked five times, and then the source is at its end.
        assert_read(&rt, &mut source, &mut block, Ok(0));
        assert_read(&rt, &mut source, &mut block, Ok(0));
    }
    Ok(())
}

/// A datagram of so many octets, as they are.
fn send_raw(rt: &HostRuntime, word: &str, octets: &[u8]) -> Result<(), Fail> {
    let mut out = UdpOut::open(rt, &address_in(word)?)?;
    match out.send(octets) {
        Ok(()) => Ok(()),
        Err(_) => Err(Fail::new("not sent")),
    }
}

#[test]
fn what_is_no_stream_is_passed_over(rt: HostRuntime) -> Result<(), Fail> {
    let mut block = [0; 4096];
    let mut source = UdpSource::open(
        &rt,
        &address_in("rtp://127.0.0.93:6803")?,
        AskedAfter::with(9),
    )?;
    for octets in [
        b"".as_slice(),
        b"no RTP packet",
        b"\x80\x21\x00\x0a\x00\x00\x00\x00\x10\x20\x30\x40",
    ] {
        send_raw(&rt, "udp://127.0.0.93:6803", octets)?;
    }
    assert!(rt; !source.is_ready());
    send_raw(
        &rt,
        "udp://127.0.0.93:6803",
        b"\xb1\x21\x00\x0a\x00\x00\x00\x00\x10\x20\x30\x40abcd\xbe\xde\x00\x01abcdGAB\x01",
    )?;
    assert_given(&rt, &mut source, &mut block, b"GAB");
    let mut source = UdpSource::open(
        &rt,
        &address_in("udp://127.0.0.93:6804")?,
        AskedAfter::with(9),
    )?;
    // One of more than 1,500 octets is dropped.
    for count in [2049, 2048, 1501, 1500] {
        send_raw(&rt, "udp://127.0.0.93:6804", &block[..count])?;
    }
    assert_read(&rt, &mut source, &mut block, Ok(1500));
    Ok(())
}

/// The header of an RTP packet: version 2, payload type 33.
const HEADER: &[u8; 12] = b"\x80\x21\x00\x0a\x00\x00\x00\x00\x10\x20\x30\x40";

/// Lengths of payloads, the octet of which each is made, and whether it is given: an empty one is passed over, and one of more than 1,500
/// octets dropped.
const PAYLOADS: [(usize, u8, bool); 7] = [
    (188, 1, true),
    (1316, 2, true),
    (1328, 3, true),
    (1501, 4, false),
    (1500, 5, true),
    (0, 6, false),
    (1, 7, true),
];

/// The next payload is of so many of these octets.
fn assert_payload<E: EndSign>(
    rt: &impl Abort,
    source: &mut UdpSource<E>,
    block: &mut [u8; 1500],
    want: &[u8],
) {
    assert!(rt; source.read_payload(block) == Ok(want.len()));
    assert!(rt; block.get(..want.len()) == Some(want));
}

/// Sends these payloads to an address, each in a datagram of the address's form.
fn send_payloads(rt: &HostRuntime, address: &MediaAddress) -> Result<(), Fail> {
    let mut out = UdpOut::open(rt, address)?;
    for (count, octet, _) in &PAYLOADS {
        let mut datagram = [*octet; 1513];
        datagram[..12].copy_from_slice(HEADER);
        let end = 12 + (*count).min(1501);
        let start = match address.form {
            Form::Udp => 12,
            Form::Rtp => 0,
        };
        if out.send(&datagram[start..end]).is_err() {
            return Err(Fail::new("not sent"));
        }
    }
    Ok(())
}

#[test]
fn a_datagram_gives_its_payload_whole(rt: HostRuntime) -> Result<(), Fail> {
    for word in ["udp://127.0.0.93:6808", "rtp://127.0.0.93:6809"] {
        let address = address_in(word)?;
        let mut source = UdpSource::open(&rt, &address, AskedAfter::with(20))?;
        send_payloads(&rt, &address)?;
        let mut block = [0; 1500];
        for (count, octet, is_given) in &PAYLOADS {
            if *is_given {
                let payload = [*octet; 1500];
                assert_payload(&rt, &mut source, &mut block, &payload[..(*count).min(1500)]);
            }
        }
    }
    Ok(())
}

#[test]
fn to_nobody_is_no_fault(rt: HostRuntime) -> Result<(), Fail> {
    let mut out = UdpOut::open(&rt, &address_in("udp://127.0.0.93:6805")?)?;
    for _ in 0..3 {
        assert!(rt; out.send(b"nobody takes it").is_ok());
    }
    Ok(())
}

fn assert_refused<H: Host>(rt: &impl Abort, host: &mut H, name: &str) {
    assert!(rt; host.source(name).err() == Some(HostBad::Failed), "{name}");
    assert!(rt; host.sink(name).err() == Some(HostBad::Failed), "{name}");
}

#[test]
fn a_host_says_why_an_address_is_refused(rt: HostRuntime) -> Result<(), Fail> {
    let alloc = rt.alloc();
    let mut host = RealHost::with_memory(&rt, alloc);
    for (name, want) in [
        (
            "udp://localhost:80",
            "udp://localhost:80: no address a.b.c.d:port or [IPv6]:port",
        ),
        (
            "rtp://1.2.3.4:80?ttl=0",
            "rtp://1.2.3.4:80?ttl=0: behind ? stands neither from= with an address of the same kind nor \
             ttl=1..255 for IPv4, or one twice",
        ),
    ] {
        assert_refused(&rt, &mut host, name);
        let trouble = host.trouble().ok_or("trouble")?;
        assert!(rt; format!(in alloc; "{trouble}")?.as_str() == want);
    }
    Ok(())
}

fn assert_host_puts<H: Host>(
    rt: &impl Abort,
    host: &mut H,
    name: &str,
    pieces: &[&[u8]],
) -> Result<(), Fail> {
    let Ok(mut sink) = host.sink(name) else {
        return Err(Fail::new("no sink"));
    };
    for piece in pieces {
        assert_put(rt, &mut sink, piece, Ok(()));
    }
    host.back_sink(name, sink);
    Ok(())
}

#[test]
fn a_host_sends_to_an_address(rt: HostRuntime) -> Result<(), Fail> {
    let mut host = RealHost::new(&rt);
    for name in ["udp://127.0.0.93:6806", "rtp://127.0.0.93:6807?ttl=2"] {
        let mut source = UdpSource::open(&rt, &address_in(name)?, AskedAfter::with(9))?;
        assert_host_puts(&rt, &mut host, name, &[b"GAB", b"GH"])?;
        let mut block = [0; 2048];
        assert_given(&rt, &mut source, &mut block, b"GAB");
        assert_given(&rt, &mut source, &mut block, b"GH");
    }
    Ok(())
}
