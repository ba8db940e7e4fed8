//! A line over a source and a sink, from its objects to its status.
ghost use Rattle.std.specs.Prelude.{◌≡◌, ◌≢◌, ◌⊎◌, IsTrue};
ghost use Rattle.outside_io.specs.Causes.{HasOpenCause};
ghost use Rattle.rist_words.specs.Shown.{shown};
ghost use Rattle.rist_words.specs.Ranges.{IsInRange};
ghost use Rattle.run_parts.specs.Causes.{fault_of};
ghost use Rattle.run_files.specs.Ready.{IsReady};
ghost use Rattle.run_files.specs.Works.{IsOverFiles};
ghost use Rattle.run_files.specs.Ends.{IsFilesEnd};
ghost use Rattle.run_files.specs.Ran.{Ran};
ghost use Rattle.run_parts.specs.Names.{source_name, sink_name};
ghost use Rattle.run_files.specs.Frame.{KeepsOthers, OpensSourceFirst};
ghost use Rattle.run_files.specs.Untouched.{IsShowing, Untouched};
ghost use Rattle.run_files.specs.DoesFiles.{DoesFiles};

use crate::working::{Worked, work};
use outside_host::Host;
use rist_words::Line;
use run_parts::{Status, Telling};
use std::alloc::Global;

/// Does a line over a source and a sink.
pub fn file_line<H: Host>(alloc: Global, host: &mut H, line: &Line<'_>) -> Status
    requires range { IsInRange (shown line.now) }
    requires files { IsOverFiles (shown line.now) }
    ensures does { DoesFiles H.tells ⟦<H as Telling>⟧.objects (shown line.now)
        (H.faults host.old) (H.faults host.new) (H.shelf host.old) (H.shelf host.new) result }
    ensures line { result ≢ Status.Usage }
    ensures opened { HasOpenCause (fault_of result) (H.faults host.old) (H.faults host.new) }
{
    work_over_files(alloc, host, line)
}

// Works on the source and the sink of a line. Each clause says a part of what that leaves.
fn work_over_files<H: Host>(alloc: Global, host: &mut H, line: &Line<'_>) -> Status
    requires range { IsInRange (shown line.now) }
    requires files { IsOverFiles (shown line.now) }
    ensures line { result ≢ Status.Usage }
    ensures ends { IsFilesEnd (shown line.now) result }
    ensures opened { HasOpenCause (fault_of result) (H.faults host.old) (H.faults host.new) }
    ensures others { IsReady H.tells (H.shelf host.old) (shown line.now)
        → KeepsOthers (H.shelf host.old) (H.shelf host.new) (shown line.now) }
    ensures order { IsTrue H.tells → OpensSourceFirst (H.shelf host.old) (H.shelf host.new) (shown line.now) }
    ensures ran { IsReady H.tells (H.shelf host.old) (shown line.now)
        → result ≢ Status.OpenFault → result ≢ Status.Memory
        → Ran ⟦<H as Telling>⟧.objects (H.shelf host.old) (H.shelf host.new) (shown line.now) result }
    ensures closed { IsTrue H.tells → result ≡ Status.OpenFault
        → Untouched (H.shelf host.old) (H.shelf host.new) (shown line.now) }
    ensures memory { IsReady H.tells (H.shelf host.old) (shown line.now) → result ≡ Status.Memory
        → Untouched (H.shelf host.old) (H.shelf host.new) (shown line.now)
        ⊎ (IsShowing (shown line.now)
        × Ran ⟦<H as Telling>⟧.objects (H.shelf host.old) (H.shelf host.new) (shown line.now) result) }
{
    let source = match host.source(source_name(line)) {
        Ok(source) => source,
        Err(bad) => return Status::from(bad),
    };
    let sink = match host.sink(sink_name(line)) {
        Ok(sink) => sink,
        Err(bad) => {
            host.back_source(source_name(line), source);
            return Status::from(bad);
        }
    };
    let Worked {
        source,
        sink,
        status,
    } = work(alloc, host, line, source, sink);
    host.back_source(source_name(line), source);
    host.back_sink(sink_name(line), sink);
    status
}

/// The name of a line's source; empty where it has none.
fn source_name<'a>(line: &Line<'a>) -> &'a str
    ensures value { result.now ≡ source_name (shown line.now) }
{
    match line {
        Line::Replay(line) => line.capture,
        Line::Show(line) => line.capture,
        Line::Count(line) => line.capture,
        Line::Report(line) => line.capture,
        Line::Pack(line) => line.source,
        Line::Split(line) => line.capture,
        Line::Send(line) => line.source,
        Line::Recv(_) | Line::Fan(_) | Line::Gate(_) | Line::Drill(_) => "",
    }
}

/// The name of the sink of a line that has one.
fn sink_name<'a>(line: &Line<'a>) -> &'a str
    requires files { IsOverFiles (shown line.now) }
    ensures value { result.now ≡ sink_name (shown line.now) }
{
    match line {
        Line::Replay(line) => line.out,
        Line::Show(_) | Line::Count(_) => "-",
        Line::Report(line) => line.out,
        Line::Pack(line) => line.capture,
        Line::Split(_)
        | Line::Send(_)
        | Line::Recv(_)
        | Line::Fan(_)
        | Line::Gate(_)
        | Line::Drill(_) => unreachable!(),
    }
}
