use rist_rtt::{Echo, Rtt, Sample, echoes, put_answer, put_request};
use rtcp_compound::{Compound, CompoundOut, Full};
use std::process::Abort;
use std::test::Fail;

const RR: [u8; 8] = [0x80, 0xC9, 0, 1, 0, 0, 0, 7];

// A request at one second.
const REQUEST: [u8; 24] = [
    0x82, 0xCC, 0, 5, 0x10, 0x20, 0x30, 0x40, 0x52, 0x49, 0x53, 0x54, 0, 0, 0, 0, 0, 0x0F, 0x42,
    0x40, 0, 0, 0, 0,
];

fn echo_of(answer: bool, stamp: u64, delay: u32) -> Echo<'static> {
    Echo {
        answer,
        flow: 0x1020_3040,
        stamp,
        delay,
        more: &[],
    }
}

#[test]
fn a_request_and_its_answer_are_written_octet_for_octet(rt: HostRuntime) -> Result<(), Fail> {
    let mut out = CompoundOut::new();
    out.put_rr(7).ok().ok_or("a report")?;
    put_request(&mut out, 0x1020_3040, 1_000_000)
        .ok()
        .ok_or("a request")?;
    assert!(rt; out.octets().len() == 32 && out.octets()[8..] == REQUEST[..]);
    let mut back = CompoundOut::new();
    back.put_rr(7).ok().ok_or("a report")?;
    put_answer(&mut back, &echo_of(false, 1_000_000, 5), 0)
        .ok()
        .ok_or("an answer")?;
    assert!(rt;
        back.octets().len() == 32 && back.octets()[8] == 0x83 && back.octets()[9..] == REQUEST[1..]
    );
    Ok(())
}

#[test]
fn an_answer_copies_the_first_64_words(rt: HostRuntime) -> Result<(), Fail> {
    let more = [9; 300];
    let echo = Echo {
        answer: false,
        flow: 1,
        stamp: 1,
        delay: 0,
        more: &more,
    };
    let mut out = CompoundOut::new();
    out.put_rr(7).ok().ok_or("a report")?;
    put_answer(&mut out, &echo, 3).ok().ok_or("an answer")?;
    assert!(rt; out.octets().len() == 8 + 24 + 256);
    put_answer(&mut out, &echo, 3).ok().ok_or("an answer")?;
    put_answer(&mut out, &echo, 3).ok().ok_or("an answer")?;
    put_answer(&mut out, &echo, 3).ok().ok_or("an answer")?;
    assert!(rt; put_answer(&mut out, &echo, 3) == Err(Full));
    assert!(rt; out.octets().len() == 8 + 4 * 280);
    Ok(())
}

#[test]
fn echoes_are_read_and_shorter_bodies_skipped(rt: HostRuntime) -> Result<(), Fail> {
    let mut out = CompoundOut::new();
    out.put_rr(7).ok().ok_or("a report")?;
    // a body of eight octets, another name, another subtype
    out.put_app(2, 1, *b"RIST", &[0; 8]).ok().ok_or("a packet")?;
    out.put_app(2, 2, *b"RISU", &[0; 12])
        .ok()
        .ok_or("a packet")?;
    out.put_app(1, 3, *b"RIST", &[0; 12])
        .ok()
        .ok_or("a packet")?;
    put_request(&mut out, 4, 5).ok().ok_or("a request")?;
    put_answer(&mut out, &echo_of(false, 6, 0), 7)
        .ok()
        .ok_or("an answer")?;
    let compound = Compound::read(out.octets()).ok().ok_or("a compound")?;
    let mut found = echoes(&compound);
    let request = found.next().ok_or("a request")?;
    assert!(rt; !request.answer && request.flow == 4 && request.stamp == 5 && request.delay == 0);
    let answer = found.next().ok_or("an answer")?;
    assert!(rt;
        answer.answer && answer.flow == 0x1020_3040 && answer.stamp == 6 && answer.delay == 7
    );
    assert!(rt; found.next().is_none());
    Ok(())
}

// The moment of an answer, the stamp and the delay in it, what becomes of it, and the time after it.
fn assert_sample(
    rt: &impl Abort,
    rtt: &mut Rtt,
    moment: (u64, u64, u32),
    told: Sample,
    after: u64,
) {
    let (now, stamp, delay) = moment;
    assert!(rt; rtt.sample(now, &echo_of(true, stamp, delay)) == told);
    assert!(rt; rtt.value() == Some(after));
}

#[test]
fn samples_are_smoothed_and_stale_ones_left(rt: HostRuntime) {
    let mut rtt = Rtt::new();
    assert!(rt; rtt.value().is_none());
    assert_sample(&rt, &mut rtt, (8_000, 0, 0), Sample::Taken, 8_000);
    assert_sample(&rt, &mut rtt, (16_500, 0, 500), Sample::Taken, 9_000);
    assert_sample(&rt, &mut rtt, (4, 5, 0), Sample::Stale, 9_000);
    assert_sample(&rt, &mut rtt, (10_000_001, 0, 0), Sample::Stale, 9_000);
    let late = (10_000_000, 0, 10_000_001);
    assert_sample(&rt, &mut rtt, late, Sample::Taken, 7_875);
}
