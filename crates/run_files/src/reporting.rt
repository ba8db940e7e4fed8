//! The work of a report over its source and its sink.
ghost use Rattle.std.specs.Prelude.{◌≡◌, ◌≢◌, [], false};
ghost use Rattle.outside_io.specs.Causes.{HasReadCause, HasWriteCause};
ghost use Rattle.capture_walk.specs.Leaves.{passage as passed};
ghost use Rattle.report_page.specs.Reported.{HasReported, reported};
ghost use Rattle.rist_words.specs.Shown.{shown_replay};
ghost use Rattle.rist_words.specs.Ranges.{IsInReplay};
ghost use Rattle.run_parts.specs.Causes.{fault_of};
ghost use Rattle.run_files.specs.Works.{Walks, Reports, form_of};
ghost use Rattle.run_files.specs.Ends.{IsWalkEnd};
ghost use Rattle.run_files.specs.Inside.Answers.{IsOwn};

use crate::working::Worked;
use capture_file::Reader;
use capture_walk::{PortReader, Records};
use outside_io::{Sink, Source};
use report_page::{PageWriter, report};
use rist_ends::Settings;
use rist_words::ReplayLine;
use run_parts::{Status, session_of};
use std::alloc::Global;

/// Reports what a receiver would make of the records of a capture, or of the datagrams in a pcap file, on a page. Its memory
/// is taken before anything is read.
pub fn report_line<S: Source, K: Sink>(
    alloc: Global,
    line: &ReplayLine<'_>,
    source: S,
    sink: K,
) -> Worked<S, K>
    requires range { IsInReplay (shown_replay line.now) }
    ensures line { IsOwn result.status }
    ensures ends { IsWalkEnd result.status }
    ensures work { result.status ≢ Status.Memory → Reports (shown_replay line.now)
        (passed (S.remaining source) (S.remaining result.source) (K.contents sink) (K.contents result.sink))
        result.status }
    ensures memory { result.status ≡ Status.Memory → (result.source ≡ source) × (result.sink ≡ sink) }
    ensures read { HasReadCause (fault_of result.status) (S.faults source) (S.faults result.source) }
    ensures write { HasWriteCause (fault_of result.status) (K.faults sink) (K.faults result.sink) }
{
    let session = session_of(&line.session, false, false);
    let settings = Settings::muted(line.delay, line.span, line.restart, line.drift);
    let Ok(writer) = PageWriter::with(alloc, &session, &settings) else {
        return Worked {
            source,
            sink,
            status: Status::Memory,
        };
    };
    report_source(line, writer, source, sink)
}

/// Reports a source, in the form that the line says.
#[tactic(auto, using(capture_walk::proofs::GoingLemmas::new_has_read))]
fn report_source<S: Source, K: Sink>(
    line: &ReplayLine<'_>,
    writer: PageWriter,
    source: S,
    sink: K,
) -> Worked<S, K>
    requires range { IsInReplay (shown_replay line.now) }
    requires fresh { HasReported writer.opener writer.counter [] }
    ensures line { IsOwn result.status }
    ensures ends { IsWalkEnd result.status }
    ensures work { Walks (form_of (shown_replay line.now).session (shown_replay line.now).pcap)
        (λ rs. []) (reported writer.opener writer.counter.buffer.limits)
        (passed (S.remaining source) (S.remaining result.source) (K.contents sink) (K.contents result.sink))
        result.status }
    ensures memory { result.status ≢ Status.Memory }
    ensures read { HasReadCause (fault_of result.status) (S.faults source) (S.faults result.source) }
    ensures write { HasWriteCause (fault_of result.status) (K.faults sink) (K.faults result.sink) }
{
    match line.pcap {
        None => report_records(writer, Reader::over(source), sink),
        Some(port) => {
            let reader = PortReader::over(source, line.session.profile, port);
            report_records(writer, reader, sink)
        }
    }
}

/// Reports the records that a reader gives.
fn report_records<R: Records, K: Sink>(
    writer: PageWriter,
    mut reader: R,
    mut sink: K,
) -> Worked<R::Input, K>
    requires fresh { HasReported writer.opener writer.counter [] }
    requires start { R.has_read reader (R.remaining reader) [] }
    requires running { R.spent reader ≡ false }
    ensures line { IsOwn result.status }
    ensures ends { IsWalkEnd result.status }
    ensures work { Walks (R.form reader) (λ rs. []) (reported writer.opener writer.counter.buffer.limits)
        (passed (R.remaining reader) (R.Input.remaining result.source) (K.contents sink) (K.contents result.sink))
        result.status }
    ensures memory { result.status ≢ Status.Memory }
    ensures read { HasReadCause (fault_of result.status) (R.faults reader) (R.Input.faults result.source) }
    ensures write { HasWriteCause (fault_of result.status) (K.faults sink) (K.faults result.sink) }
{
    let end = report(writer, &mut reader, &mut sink);
    Worked {
        source: reader.back(),
        sink,
        status: Status::from(end),
    }
}
