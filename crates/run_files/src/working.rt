//! The work of each command over its source and its sink.
ghost use Rattle.std.specs.Prelude.{◌≡◌, ◌≢◌, ◌⊎◌, [], false, IsTrue};
ghost use Rattle.outside_io.specs.Causes.{HasReadCause, HasWriteCause, HasOpenCause};
ghost use Rattle.capture_walk.specs.Leaves.{passage as passed};
ghost use Rattle.rist_replay.specs.Counted.{counted};
ghost use Rattle.rist_replay.specs.Replay.{HasReplayed, released_so_far, replayed};
ghost use Rattle.rist_words.specs.Shown.{shown, shown_replay, shown_show, shown_count, shown_pack};
ghost use Rattle.rist_words.specs.Ranges.{IsInRange, IsInReplay, IsInShow, IsInCount, IsInPack};
ghost use Rattle.run_parts.specs.Causes.{fault_of};
ghost use Rattle.run_parts.specs.Frame.{draws_words};
ghost use Rattle.run_files.specs.Ready.{IsReady};
ghost use Rattle.run_files.specs.Works.{IsOverFiles, Works, Walks, Replays, Shows, ShowsAs, Counts, PacksAs};
ghost use Rattle.run_files.specs.Works.{form_of, pack_status};
ghost use Rattle.run_files.specs.Ends.{IsFilesEnd, IsPackEnd, IsWalkEnd};
ghost use Rattle.run_parts.specs.Objects.{passage};
ghost use Rattle.run_parts.specs.Sealing.{IsFreshFor, KeepsObjects, DrawnFirst, FailedAt};
ghost use Rattle.run_files.specs.Untouched.{IsShowing};
ghost use Rattle.run_files.specs.Inside.Answers.{IsOwn, IsUnbegun};

use crate::reporting::report_line;
use capture_file::{Reader, Writer};
use capture_walk::{PortReader, Records};
use outside_host::Host;
use outside_io::{Sink, Source};
use psk_seal::Sealer;
use rist_ends::Settings;
use rist_pack::{PackBad, PackSettings, pack};
use rist_replay::{Replayer, count, replay};
use rist_show::show;
use rist_words::{CountLine, Line, PackLine, ReplayLine, ShowLine};
use run_parts::{Status, Telling, sealer_for, session_of};
use std::alloc::Global;

/// A source and a sink after their work, and how it ended.
pub struct Worked<S, K> {
    /// What was read, with what is left in it.
    pub source: S,
    /// What was written to.
    pub sink: K,
    /// How the work ended.
    pub status: Status,
}

/// Replays a capture, or the datagrams in a pcap file. Its memory is taken before anything is read.
pub fn replay_line<S: Source, K: Sink>(
    alloc: Global,
    line: &ReplayLine<'_>,
    source: S,
    sink: K,
) -> Worked<S, K>
    requires range { IsInReplay (shown_replay line.now) }
    ensures line { IsOwn result.status }
    ensures ends { IsWalkEnd result.status }
    ensures work { result.status ≢ Status.Memory → Replays (shown_replay line.now)
        (passed (S.remaining source) (S.remaining result.source) (K.contents sink) (K.contents result.sink))
        result.status }
    ensures memory { result.status ≡ Status.Memory → (result.source ≡ source) × (result.sink ≡ sink) }
    ensures read { HasReadCause (fault_of result.status) (S.faults source) (S.faults result.source) }
    ensures write { HasWriteCause (fault_of result.status) (K.faults sink) (K.faults result.sink) }
{
    let session = session_of(&line.session, false, false);
    let settings = Settings::muted(line.delay, line.span, line.restart, line.drift);
    let Ok(replayer) = Replayer::with(alloc, &session, &settings) else {
        return Worked {
            source,
            sink,
            status: Status::Memory,
        };
    };
    replay_source(line, replayer, source, sink)
}

/// Replays a source, in the form that the line says.
#[tactic(auto, using(capture_walk::proofs::GoingLemmas::new_has_read))]
fn replay_source<S: Source, K: Sink>(
    line: &ReplayLine<'_>,
    replayer: Replayer,
    source: S,
    sink: K,
) -> Worked<S, K>
    requires range { IsInReplay (shown_replay line.now) }
    requires fresh { HasReplayed replayer.opener replayer.receiver [] }
    ensures line { IsOwn result.status }
    ensures ends { IsWalkEnd result.status }
    ensures work { Walks (form_of (shown_replay line.now).session (shown_replay line.now).pcap)
        (released_so_far replayer.opener replayer.receiver.buffer.limits)
        (replayed replayer.opener replayer.receiver.buffer.limits)
        (passed (S.remaining source) (S.remaining result.source) (K.contents sink) (K.contents result.sink))
        result.status }
    ensures memory { result.status ≢ Status.Memory }
    ensures read { HasReadCause (fault_of result.status) (S.faults source) (S.faults result.source) }
    ensures write { HasWriteCause (fault_of result.status) (K.faults sink) (K.faults result.sink) }
{
    match line.pcap {
        None => replay_records(replayer, Reader::over(source), sink),
        Some(port) => {
            let reader = PortReader::over(source, line.session.profile, port);
            replay_records(replayer, reader, sink)
        }
    }
}

/// Replays the records that a reader gives.
fn replay_records<R: Records, K: Sink>(
    replayer: Replayer,
    mut reader: R,
    mut sink: K,
) -> Worked<R::Input, K>
    requires fresh { HasReplayed replayer.opener replayer.receiver [] }
    requires start { R.has_read reader (R.remaining reader) [] }
    requires running { R.spent reader ≡ false }
    ensures line { IsOwn result.status }
    ensures ends { IsWalkEnd result.status }
    ensures work { Walks (R.form reader) (released_so_far replayer.opener replayer.receiver.buffer.limits)
        (replayed replayer.opener replayer.receiver.buffer.limits)
        (passed (R.remaining reader) (R.Input.remaining result.source) (K.contents sink) (K.contents result.sink))
        result.status }
    ensures memory { result.status ≢ Status.Memory }
    ensures read { HasReadCause (fault_of result.status) (R.faults reader) (R.Input.faults result.source) }
    ensures write { HasWriteCause (fault_of result.status) (K.faults sink) (K.faults result.sink) }
{
    let end = replay(replayer, &mut reader, &mut sink);
    Worked {
        source: reader.back(),
        sink,
        status: Status::from(end),
    }
}

/// Shows the records of a capture, or the datagrams in a pcap file.
#[tactic(auto, using(capture_walk::proofs::GoingLemmas::new_has_read))]
pub fn show_line<S: Source, K: Sink>(
    alloc: Global,
    line: &ShowLine<'_>,
    source: S,
    sink: K,
) -> Worked<S, K>
    requires range { IsInShow (shown_show line.now) }
    ensures line { IsOwn result.status }
    ensures ends { IsWalkEnd result.status }
    ensures work { Shows (shown_show line.now)
        (passed (S.remaining source) (S.remaining result.source) (K.contents sink) (K.contents result.sink))
        result.status }
    ensures read { HasReadCause (fault_of result.status) (S.faults source) (S.faults result.source) }
    ensures write { HasWriteCause (fault_of result.status) (K.faults sink) (K.faults result.sink) }
{
    match line.pcap {
        None => show_records(alloc, line, Reader::over(source), sink),
        Some(port) => {
            let reader = PortReader::over(source, line.session.profile, port);
            show_records(alloc, line, reader, sink)
        }
    }
}

/// Shows the records that a reader gives.
fn show_records<R: Records, K: Sink>(
    alloc: Global,
    line: &ShowLine<'_>,
    mut reader: R,
    mut sink: K,
) -> Worked<R::Input, K>
    requires range { IsInShow (shown_show line.now) }
    requires start { R.has_read reader (R.remaining reader) [] }
    requires running { R.spent reader ≡ false }
    ensures line { IsOwn result.status }
    ensures ends { IsWalkEnd result.status }
    ensures work { ShowsAs (R.form reader) (shown_show line.now)
        (passed (R.remaining reader) (R.Input.remaining result.source) (K.contents sink) (K.contents result.sink))
        result.status }
    ensures read { HasReadCause (fault_of result.status) (R.faults reader) (R.Input.faults result.source) }
    ensures write { HasWriteCause (fault_of result.status) (K.faults sink) (K.faults result.sink) }
{
    let session = session_of(&line.session, false, false);
    let end = show(alloc, &session, &mut reader, &mut sink);
    Worked {
        source: reader.back(),
        sink,
        status: Status::from(end),
    }
}

/// Counts what a receiver would make of the records of a capture, or of the datagrams in a pcap file. Its memory is taken
/// before anything is read.
pub fn count_line<S: Source, K: Sink>(
    alloc: Global,
    line: &CountLine<'_>,
    source: S,
    sink: K,
) -> Worked<S, K>
    requires range { IsInCount (shown_count line.now) }
    ensures line { IsOwn result.status }
    ensures ends { IsWalkEnd result.status }
    ensures work { result.status ≢ Status.Memory → Counts (shown_count line.now)
        (passed (S.remaining source) (S.remaining result.source) (K.contents sink) (K.contents result.sink))
        result.status }
    ensures memory { result.status ≡ Status.Memory → (result.source ≡ source) × (result.sink ≡ sink) }
    ensures read { HasReadCause (fault_of result.status) (S.faults source) (S.faults result.source) }
    ensures write { HasWriteCause (fault_of result.status) (K.faults sink) (K.faults result.sink) }
{
    let session = session_of(&line.session, false, false);
    let settings = Settings::muted(line.delay, line.span, line.restart, line.drift);
    let Ok(counter) = Replayer::with(alloc, &session, &settings) else {
        return Worked {
            source,
            sink,
            status: Status::Memory,
        };
    };
    count_source(line, counter, source, sink)
}

/// Counts what a receiver would make of a source, in the form that the line says.
#[tactic(auto, using(capture_walk::proofs::GoingLemmas::new_has_read))]
fn count_source<S: Source, K: Sink>(
    line: &CountLine<'_>,
    counter: Replayer,
    source: S,
    sink: K,
) -> Worked<S, K>
    requires range { IsInCount (shown_count line.now) }
    requires fresh { HasReplayed counter.opener counter.receiver [] }
    ensures line { IsOwn result.status }
    ensures ends { IsWalkEnd result.status }
    ensures work { Walks (form_of (shown_count line.now).session (shown_count line.now).pcap)
        (λ rs. []) (counted counter.opener counter.receiver.buffer.limits)
        (passed (S.remaining source) (S.remaining result.source) (K.contents sink) (K.contents result.sink))
        result.status }
    ensures memory { result.status ≢ Status.Memory }
    ensures read { HasReadCause (fault_of result.status) (S.faults source) (S.faults result.source) }
    ensures write { HasWriteCause (fault_of result.status) (K.faults sink) (K.faults result.sink) }
{
    match line.pcap {
        None => count_records(counter, Reader::over(source), sink),
        Some(port) => {
            let reader = PortReader::over(source, line.session.profile, port);
            count_records(counter, reader, sink)
        }
    }
}

/// Counts what a receiver would make of the records that a reader gives.
fn count_records<R: Records, K: Sink>(
    counter: Replayer,
    mut reader: R,
    mut sink: K,
) -> Worked<R::Input, K>
    requires fresh { HasReplayed counter.opener counter.receiver [] }
    requires start { R.has_read reader (R.remaining reader) [] }
    requires running { R.spent reader ≡ false }
    ensures line { IsOwn result.status }
    ensures ends { IsWalkEnd result.status }
    ensures work { Walks (R.form reader) (λ rs. []) (counted counter.opener counter.receiver.buffer.limits)
        (passed (R.remaining reader) (R.Input.remaining result.source) (K.contents sink) (K.contents result.sink))
        result.status }
    ensures memory { result.status ≢ Status.Memory }
    ensures read { HasReadCause (fault_of result.status) (R.faults reader) (R.Input.faults result.source) }
    ensures write { HasWriteCause (fault_of result.status) (K.faults sink) (K.faults result.sink) }
{
    let end = count(counter, &mut reader, &mut sink);
    Worked {
        source: reader.back(),
        sink,
        status: Status::from(end),
    }
}

// How a packing ended.
fn pack_status(end: Result<(), PackBad>) -> Status
    ensures value { result ≡ pack_status end }
{
    match end {
        Ok(()) => Status::Done,
        Err(PackBad::ReadFault) => Status::ReadFault,
        Err(PackBad::WriteFault) => Status::WriteFault,
        Err(PackBad::TooLong) => Status::TooLong,
    }
}

/// Packs a source.
pub fn pack_line<S: Source, K: Sink>(
    line: &PackLine<'_>,
    sealer: Option<Sealer>,
    mut source: S,
    sink: K,
) -> Worked<S, K>
    requires range { IsInPack (shown_pack line.now) }
    requires fresh { IsFreshFor (shown_pack line.now).session sealer }
    ensures line { IsOwn result.status }
    ensures ends { IsPackEnd (shown_pack line.now) result.status }
    ensures work { PacksAs (shown_pack line.now) sealer
        (passed (S.remaining source) (S.remaining result.source) (K.contents sink) (K.contents result.sink))
        result.status }
    ensures read { HasReadCause (fault_of result.status) (S.faults source) (S.faults result.source) }
    ensures write { HasWriteCause (fault_of result.status) (K.faults sink) (K.faults result.sink) }
{
    let session = session_of(&line.session, line.stream.nulls, line.stream.wide);
    let settings = PackSettings {
        flow: line.stream.flow,
        first: line.stream.first,
        gap: line.gap,
    };
    let mut capture = Writer::over(sink);
    let end = pack(&session, sealer, &settings, &mut source, &mut capture);
    Worked {
        source,
        sink: capture.back(),
        status: pack_status(end),
    }
}

/// Does a line over its source and its sink.
pub fn work<H: Host>(
    alloc: Global,
    host: &mut H,
    line: &Line<'_>,
    source: H::Input,
    sink: H::Output,
) -> Worked<H::Input, H::Output>
    requires range { IsInRange (shown line.now) }
    requires files { IsOverFiles (shown line.now) }
    ensures line { result.status ≢ Status.Usage }
    ensures ends { IsFilesEnd (shown line.now) result.status }
    ensures work { IsReady H.tells (H.shelf host.old) (shown line.now)
        → result.status ≢ Status.OpenFault → result.status ≢ Status.Memory
        → Works
        (DrawnFirst ⟦<H as Telling>⟧.objects (H.shelf host.old).entropies (H.shelf host.new).entropies)
        (shown line.now)
        (passage ⟦<H as Telling>⟧.objects source result.source sink result.sink) result.status }
    ensures read { HasReadCause (fault_of result.status) (H.Input.faults source) (H.Input.faults result.source) }
    ensures write { HasWriteCause (fault_of result.status) (H.Output.faults sink) (H.Output.faults result.sink) }
    ensures closed { IsTrue H.tells → result.status ≡ Status.OpenFault
        → IsUnbegun source result.source sink result.sink (H.shelf host.old) (H.shelf host.new) }
    ensures memory { IsReady H.tells (H.shelf host.old) (shown line.now) → result.status ≡ Status.Memory
        → IsUnbegun source result.source sink result.sink (H.shelf host.old) (H.shelf host.new)
        ⊎ (IsShowing (shown line.now) × Works
        (DrawnFirst ⟦<H as Telling>⟧.objects (H.shelf host.old).entropies (H.shelf host.new).entropies)
        (shown line.now)
        (passage ⟦<H as Telling>⟧.objects source result.source sink result.sink) result.status) }
    ensures others { IsTrue H.tells
        → KeepsObjects (H.shelf host.old) (H.shelf host.new) (draws_words (shown line.now)) }
    ensures opened { HasOpenCause (fault_of result.status) (H.faults host.old) (H.faults host.new) }
    ensures random { IsReady H.tells (H.shelf host.old) (shown line.now) → result.status ≡ Status.EntropyFault
        → FailedAt ⟦<H as Telling>⟧.objects (H.shelf host.old) (H.shelf host.new) }
{
    match line {
        Line::Replay(line) => replay_line(alloc, line, source, sink),
        Line::Show(line) => show_line(alloc, line, source, sink),
        Line::Count(line) => count_line(alloc, line, source, sink),
        Line::Report(line) => report_line(alloc, line, source, sink),
        Line::Pack(line) => match sealer_for(host, &line.session) {
            Ok(sealer) => pack_line(line, sealer, source, sink),
            Err(status) => Worked {
                source,
                sink,
                status,
            },
        },
        Line::Split(_)
        | Line::Send(_)
        | Line::Recv(_)
        | Line::Fan(_)
        | Line::Gate(_)
        | Line::Drill(_) => unreachable!(),
    }
}
