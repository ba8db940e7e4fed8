//! Two links on one desk, in each order.
ghost use Rattle.std.specs.Prelude.{◌≡◌, None, Some};
ghost use Rattle.rist_wire.specs.Session.{IsSession};
ghost use Rattle.rist_desk.specs.Desk.{IsNew, state_of};
ghost use Rattle.rist_ends.specs.Told.{IsFit, IsNoEnd};

use link_channels::Profile;
use outside_io::{Failed, Sink, Store8};
use outside_net::{Full, ListTrace, Trace};
use receiver_rules::{Arrival, Verdict};
use rist_desk::{Beside, Desk, DeskOrigin, Mark, Side, Step, StepTrace};
use rist_ends::{Answer, Outs, Receiver, Settings, Told, What};
use rist_wire::{Session, Tunnel};
use seq_unwrap::Width;
use std::alloc::Global;
use std::marker::Brand;
use std::process::Abort;
use std::test::Fail;

const TWICE: Answer = Answer::Verdict(Verdict::Twice);

/// How many of the steps have this mark.
pub fn count_of(steps: &[Step], mark: Mark) -> u64 {
    let mut count: u64 = 0;
    for step in steps {
        if step.mark == mark {
            count = count.saturating_add(1);
        }
    }
    count
}

/// How often Twice was answered.
fn times_twice(answers: &[Result<Answer, Full>]) -> u64 {
    let mut count: u64 = 0;
    for answer in answers {
        if *answer == Ok(TWICE) {
            count = count.saturating_add(1);
        }
    }
    count
}

/// The session of RIST's Simple Profile.
pub fn simple() -> Session
    ensures session { IsSession result }
    ensures clear { result.pass ≡ None }
{
    Session {
        profile: Profile::Simple,
        port: 1968,
        pass: None,
        bits: 128,
        nulls: false,
        width: Width::W16,
        full: false,
        tunnel: Tunnel::Own,
        echo: false,
    }
}

/// What was answered in order, at the end, and what trace and sink hold.
#[derive(Drop)]
struct Run<T> {
    answers: Vec<Result<Answer, Full>>,
    last: Result<Answer, Full>,
    trace: T,
    sink: Store8,
}

/// A packet of one octet at 0 us.
fn told(link: u8, word: u16, octet: &[u8; 1]) -> Told<'_>
    ensures fits { IsFit result }
    ensures going { IsNoEnd result.what }
{
    Told {
        link: link % 16,
        us: 0,
        what: What::Media(Arrival {
            flow: 0x1020_3040,
            again: false,
            width: Width::W16,
            word: word as u32,
            stamp: (word as u32).saturating_sub(10) * 900,
            payload: octet,
        }),
    }
}

/// Brings a packet of one octet.
fn bring<N: DeskOrigin, T: StepTrace + Drop, K: Sink + Drop>(
    desk: &mut Desk<N, T, K>,
    link: u8,
    word: u16,
    outs: &mut Outs,
) -> Result<Answer, Full> {
    let octet = [b'A'.wrapping_add(((word % 256) as u8).wrapping_sub(10))];
    desk.step(&told(link, word, &octet), outs)
}

/// Link 0 brings 10 and 12, link 1 brings 11 and 12, in this order of links.
fn stepped<N: DeskOrigin, T: StepTrace + Drop>(
    alloc: Global,
    receiver: Receiver,
    trace: T,
    sink: Store8,
    order: &[u8; 4],
) -> Result<Run<T>, Fail>
    requires fresh { IsNew N.given
        (state_of receiver (T.list trace) (T.limit trace) (Some sink.contents) sink.calls.faults) }
{
    let mut desk: Desk<N, T, Store8> = Desk::with(receiver, trace, sink);
    let mut outs = Outs::none();
    let mut answers = Vec::new(alloc);
    let mut words = [10, 11];
    for link in order {
        if *link == 0 {
            answers.push(bring(&mut desk, 0, words[0], &mut outs))?;
            words[0] = 12;
        } else {
            answers.push(bring(&mut desk, 1, words[1], &mut outs))?;
            words[1] = 12;
        }
    }
    let (last, _receiver, trace, sink) = desk.finish(&mut outs);
    Ok(Run {
        answers,
        last,
        trace,
        sink,
    })
}

/// The same with a trace of so many steps, and a sink of which these writes fail.
fn kept(
    alloc: Global,
    limit: usize,
    failing: &[u64],
    order: &[u8; 4],
) -> Result<Run<ListTrace<Step>>, Fail> {
    let receiver = Receiver::with(alloc, &Settings::muted(1000, 8, 0, false), &simple(), None)?;
    let trace: ListTrace<Step> = ListTrace::with(alloc, limit)?;
    let sink = Store8::with(alloc, 64, failing)?;
    stepped::<Brand, ListTrace<Step>>(alloc, receiver, trace, sink, order)
}

/// All was written in order, and of five steps one packet came twice.
fn expect_merged(rt: &impl Abort, run: &Run<ListTrace<Step>>) {
    assert!(rt; run.sink.octets() == b"ABC".as_slice());
    assert!(rt; times_twice(run.answers.as_slice()) == 1);
    assert!(rt; run.last == Ok(Answer::Nothing));
    let steps = run.trace.kept();
    assert!(rt; steps.len() == 5);
    assert!(rt; count_of(steps, Mark::Verdict(Verdict::Twice)) == 1);
}

/// The steps came at 0 us from the links in this order.
fn expect_order(rt: &impl Abort, steps: &[Step], order: &[u8; 4]) {
    for (step, link) in steps.iter().zip(order.iter()) {
        assert!(rt; step.link == *link && step.at == 0 && step.made == 0);
    }
}

static ORDERS: [[u8; 4]; 6] = [
    [0, 0, 1, 1],
    [0, 1, 0, 1],
    [0, 1, 1, 0],
    [1, 0, 0, 1],
    [1, 0, 1, 0],
    [1, 1, 0, 0],
];

#[test]
fn two_links_are_merged_in_each_order(rt: HostRuntime) -> Result<(), Fail> {
    for order in &ORDERS {
        let run = kept(rt.alloc(), 64, &[], order)?;
        expect_merged(&rt, &run);
        expect_order(&rt, run.trace.kept(), order);
    }
    Ok(())
}

#[test]
fn a_full_trace_takes_no_step(rt: HostRuntime) -> Result<(), Fail> {
    let run = kept(rt.alloc(), 3, &[], &[0, 1, 0, 1])?;
    assert!(rt; run.answers.get(2) == Some(&Ok(Answer::Verdict(Verdict::Kept))));
    assert!(rt; run.answers.get(3) == Some(&Err(Full)));
    assert!(rt; run.last == Err(Full));
    assert!(rt; run.trace.kept().len() == 3);
    assert!(rt; run.sink.octets() == b"".as_slice());
    Ok(())
}

#[test]
fn a_third_write_that_fails_ends_the_desk(rt: HostRuntime) -> Result<(), Fail> {
    let run = kept(rt.alloc(), 64, &[2], &[0, 1, 0, 1])?;
    assert!(rt; run.answers.get(3) == Some(&Ok(TWICE)));
    assert!(rt; run.last == Ok(Answer::WriteFault));
    assert!(rt; run.sink.octets() == b"AB".as_slice());
    Ok(())
}

/// A sink that counts how often it was put to and looked at.
#[derive(Drop)]
struct Counting {
    inner: Store8,
    puts: u64,
    looks: u64,
}

impl Sink for Counting {
    ghost contents = { λ sink. Some sink.inner.contents };

    ghost faults = { λ sink. sink.inner.calls.faults };

    fn put(&mut self, piece: &[u8]) -> Result<(), Failed> {
        self.puts = self.puts.saturating_add(1);
        self.inner.put(piece)
    }
}

impl Beside for Counting {
    ghost use Rattle.rist_desk.specs.declared.beside.Side.TheVariants as Side;

    ghost looks = { λ old new us link side. side ≡ Side.Quiet old.puts };

    fn aside(&mut self, _us: u64, _link: u8) -> Side {
        self.looks = self.looks.saturating_add(1);
        Side::Quiet(self.puts)
    }
}

/// Looks before and after a packet, and then the end.
fn looked<N: DeskOrigin>(
    receiver: Receiver,
    trace: ListTrace<Step>,
    sink: Counting,
) -> (Side, Side, ListTrace<Step>, Counting)
    requires fresh { IsNew N.given
        (state_of receiver (Some trace.items) (Some trace.limit) (Some sink.inner.contents) sink.inner.calls.faults) }
{
    let mut desk: Desk<N, ListTrace<Step>, Counting> = Desk::with(receiver, trace, sink);
    let mut outs = Outs::none();
    let first = desk.aside(0, 0);
    let _ = bring(&mut desk, 0, 10, &mut outs);
    let second = desk.aside(0, 0);
    let (_last, _receiver, trace, sink) = desk.finish(&mut outs);
    (first, second, trace, sink)
}

/// The same in memory.
fn looking(alloc: Global) -> Result<(Side, Side, ListTrace<Step>, Counting), Fail> {
    let receiver = Receiver::with(alloc, &Settings::muted(1000, 8, 0, false), &simple(), None)?;
    let trace: ListTrace<Step> = ListTrace::with(alloc, 8)?;
    let sink = Counting {
        inner: Store8::with(alloc, 64, &[])?,
        puts: 0,
        looks: 0,
    };
    Ok(looked::<Brand>(receiver, trace, sink))
}

#[test]
fn an_aside_is_no_step(rt: HostRuntime) -> Result<(), Fail> {
    let (first, second, trace, sink) = looking(rt.alloc())?;
    assert!(rt; first == Side::Quiet(0) && second == Side::Quiet(0));
    assert!(rt; trace.kept().len() == 2);
    assert!(rt; sink.looks == 2 && sink.puts == 1 && sink.inner.octets() == b"A".as_slice());
    Ok(())
}
