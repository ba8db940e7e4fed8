//! A split, from its objects to its status.
ghost use Rattle.std.specs.Prelude.{◌≡◌, ◌≢◌, [], false, length, IsTrue};
ghost use Rattle.outside_io.specs.Causes.{HasOpenCause};
ghost use Rattle.rist_split.specs.Outputs.{IsMade};
ghost use Rattle.rist_words.specs.Shown.{shown_split};
ghost use Rattle.rist_words.specs.Ranges.{IsInSplit};
ghost use Rattle.run_parts.specs.Causes.{CanRefuse, fault_of};
ghost use Rattle.run_split.specs.DoesSplit.{DoesSplit, IsSplitEnd, KeepsAroundSplit, OpensInOrder};
ghost use Rattle.run_parts.specs.Sessions.{session_read};
ghost use Rattle.run_split.specs.Splits.{split_limits, Splits, Unsplit};
ghost use Rattle.run_files.specs.Works.{form_of};
ghost use Rattle.run_files.specs.Inside.Answers.{IsOwn};
ghost use Rattle.run_split.specs.Inside.Splitting.{SplitsAs};

use capture_file::Reader;
use capture_walk::{PortReader, Records};
use outside_host::{Host, back_sinks, open_sinks};
use outside_io::{Sink, Source};
use rist_ends::Settings;
use rist_split::{SplitMemory, make, split_into};
use rist_words::SplitLine;
use run_parts::{Status, Telling, session_of};
use std::alloc::Global;

/// A source and the sinks of the outputs after their work, and how it ended.
struct Divided<S, K> {
    source: S,
    sinks: Vec<K>,
    status: Status,
}

// Splits the records that a reader gives.
fn split_records<R: Records, K: Sink + Drop>(
    line: &SplitLine<'_>,
    made: SplitMemory<K>,
    mut reader: R,
    mut sinks: Vec<K>,
) -> Divided<R::Input, K>
    requires range { IsInSplit (shown_split line.now) }
    requires session { made.opener ≡ session_read (shown_split line.now).session }
    requires made { IsMade (split_limits (shown_split line.now)) (length line.now.ports.items) made }
    requires places { length sinks.items ≡ length line.now.ports.items }
    requires start { R.has_read reader (R.remaining reader) [] }
    requires running { R.spent reader ≡ false }
    ensures work { SplitsAs (R.form reader) (shown_split line.now) K.contents K.faults
        (R.remaining reader) (R.Input.remaining result.source) (R.faults reader) (R.Input.faults result.source)
        sinks.items result.sinks.items result.status }
    ensures places { length result.sinks.items ≡ length sinks.items }
{
    let end = split_into(made, &line.ports, &mut reader, &mut sinks);
    Divided {
        source: reader.back(),
        sinks,
        status: Status::from(end),
    }
}

// Splits the records of a capture, or the datagrams in a pcap file.
#[tactic(auto, using(capture_walk::proofs::GoingLemmas::new_has_read))]
fn split_source<S: Source, K: Sink + Drop>(
    line: &SplitLine<'_>,
    made: SplitMemory<K>,
    source: S,
    sinks: Vec<K>,
) -> Divided<S, K>
    requires range { IsInSplit (shown_split line.now) }
    requires session { made.opener ≡ session_read (shown_split line.now).session }
    requires made { IsMade (split_limits (shown_split line.now)) (length line.now.ports.items) made }
    requires places { length sinks.items ≡ length line.now.ports.items }
    ensures work { SplitsAs (form_of (shown_split line.now).session (shown_split line.now).pcap)
        (shown_split line.now) K.contents K.faults
        (S.remaining source) (S.remaining result.source) (S.faults source) (S.faults result.source)
        sinks.items result.sinks.items result.status }
    ensures places { length result.sinks.items ≡ length sinks.items }
{
    match line.pcap {
        None => split_records(line, made, Reader::over(source), sinks),
        Some(port) => {
            let reader = PortReader::over(source, line.session.profile, port);
            split_records(line, made, reader, sinks)
        }
    }
}

// Takes the memory of a split, and splits its source.
fn split_over<S: Source, K: Sink + Drop>(
    alloc: Global,
    line: &SplitLine<'_>,
    source: S,
    sinks: Vec<K>,
) -> Divided<S, K>
    requires range { IsInSplit (shown_split line.now) }
    requires places { length sinks.items ≡ length line.now.ports.items }
    ensures work { result.status ≢ Status.Memory
        → SplitsAs (form_of (shown_split line.now).session (shown_split line.now).pcap)
        (shown_split line.now) K.contents K.faults
        (S.remaining source) (S.remaining result.source) (S.faults source) (S.faults result.source)
        sinks.items result.sinks.items result.status }
    ensures memory { result.status ≡ Status.Memory → (result.source ≡ source) × (result.sinks ≡ sinks) }
    ensures places { length result.sinks.items ≡ length sinks.items }
    ensures own { IsOwn result.status }
    ensures ends { IsSplitEnd result.status }
{
    let session = session_of(&line.session, false, false);
    let settings = Settings::muted(line.delay, line.span, line.restart, line.drift);
    match make(alloc, &session, &settings, line.ports.len()) {
        Ok(made) => split_source(line, made, source, sinks),
        Err(_) => Divided {
            source,
            sinks,
            status: Status::Memory,
        },
    }
}

// Splits the capture of a line. Each clause says a part of what that leaves.
fn split_into_sinks<H: Host>(alloc: Global, host: &mut H, line: &SplitLine<'_>) -> Status
    requires range { IsInSplit (shown_split line.now) }
    ensures ends { IsSplitEnd result }
    ensures splits { IsTrue H.tells → (CanRefuse result → ⊥)
        → Splits ⟦<H as Telling>⟧.objects (H.shelf host.old) (H.shelf host.new) (shown_split line.now) result }
    ensures unsplit { IsTrue H.tells → CanRefuse result
        → Unsplit (H.shelf host.old) (H.shelf host.new) (shown_split line.now) }
    ensures around { IsTrue H.tells
        → KeepsAroundSplit (H.shelf host.old) (H.shelf host.new) (shown_split line.now) }
    ensures order { IsTrue H.tells
        → OpensInOrder (H.shelf host.old) (H.shelf host.new) (shown_split line.now) }
    ensures opened { HasOpenCause (fault_of result) (H.faults host.old) (H.faults host.new) }
{
    let source = match host.source(line.capture) {
        Ok(source) => source,
        Err(bad) => return Status::from(bad),
    };
    let sinks = match open_sinks(alloc, host, &line.names) {
        Ok(sinks) => sinks,
        Err(bad) => {
            host.back_source(line.capture, source);
            return Status::from(bad);
        }
    };
    let Divided {
        source,
        sinks,
        status,
    } = split_over(alloc, line, source, sinks);
    host.back_source(line.capture, source);
    back_sinks(host, &line.names, sinks);
    status
}

/// Does the line of a split.
pub fn split_line<H: Host>(alloc: Global, host: &mut H, line: &SplitLine<'_>) -> Status
    requires range { IsInSplit (shown_split line.now) }
    ensures does { DoesSplit H.tells ⟦<H as Telling>⟧.objects (shown_split line.now)
        (H.faults host.old) (H.faults host.new) (H.shelf host.old) (H.shelf host.new) result }
    ensures line { result ≢ Status.Usage }
    ensures opened { HasOpenCause (fault_of result) (H.faults host.old) (H.faults host.new) }
{
    split_into_sinks(alloc, host, line)
}
