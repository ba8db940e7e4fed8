//! A simulated run, whose summary goes to the standard output.
ghost use Rattle.std.specs.Prelude.{◌≡◌, ◌≢◌, ◌≤◌, ◌⊎◌, IfOk, IsTrue, codes, take};
ghost use Rattle.outside_io.specs.Causes.{HasOpenCause, HasWriteCause};
ghost use Rattle.outside_io.specs.Told.{Appends, AppendsPart};
ghost use Rattle.outside_host.specs.Shelf.{ChangesSinks, Stays};
ghost use Rattle.rist_words.specs.Shown.{shown_drill};
ghost use Rattle.rist_words.specs.Ranges.{IsInDrill};
ghost use Rattle.run_parts.specs.Causes.{CanRefuse, fault_of};
ghost use Rattle.run_print.specs.DoesDrill.{DoesDrill, IsSummary, script_of};
ghost use Rattle.run_print.specs.Printing.{IsPrintEnd, Prints};

use outside_host::Host;
use outside_io::{NoMemory, Sink};
use rist_words::DrillLine;
use rist_world::{SUMMARY_LEN, drill_made, put_summary};
use run_parts::{Status, Telling};
use std::alloc::Global;

// Runs the script of a line, and puts its summary in the front of the block.
fn summarize(
    alloc: Global,
    line: &DrillLine,
    out: &mut [u8; SUMMARY_LEN],
) -> Result<usize, NoMemory>
    requires range { IsInDrill (shown_drill line.now) }
    ensures summary { IfOk result (λ length. IsSummary (script_of (shown_drill line.now)) (take length out.new)) }
    ensures within { IfOk result (λ length. length ≤ SUMMARY_LEN) }
{
    let report = drill_made(alloc, line.number, line.count, line.links, line.loss)?;
    Ok(put_summary(&report, out))
}

// Writes a text.
fn put_text<K: Sink>(sink: &mut K, text: &[u8]) -> Status
    ensures ends { (result ≡ Status.Done) ⊎ (result ≡ Status.WriteFault) }
    ensures whole { result ≡ Status.Done → Appends (K.contents sink.old) (K.contents sink.new) text.now }
    ensures part { result ≡ Status.WriteFault → AppendsPart (K.contents sink.old) (K.contents sink.new) text.now }
    ensures write { HasWriteCause (fault_of result) (K.faults sink.old) (K.faults sink.new) }
{
    match sink.put(text) {
        Ok(()) => Status::Done,
        Err(_) => Status::WriteFault,
    }
}

// Writes the summary of a line's run. Each clause says a part of what that leaves.
fn write_summary<H: Host>(alloc: Global, host: &mut H, line: &DrillLine) -> Status
    requires range { IsInDrill (shown_drill line.now) }
    ensures ends { IsPrintEnd result }
    ensures opened { HasOpenCause (fault_of result) (H.faults host.old) (H.faults host.new) }
    ensures printed { IsTrue H.tells → (CanRefuse result → ⊥) → Prints ⟦<H as Telling>⟧.objects
        (IsSummary (script_of (shown_drill line.now))) (H.shelf host.old) (H.shelf host.new) result }
    ensures unprinted { IsTrue H.tells → CanRefuse result → Stays (H.shelf host.old).sinks (H.shelf host.new).sinks }
    ensures around { IsTrue H.tells → ChangesSinks (H.shelf host.old) (H.shelf host.new) }
    ensures others { IsTrue H.tells → (n : _) → n ≢ codes "-"
        → (H.shelf host.new).sinks n ≡ (H.shelf host.old).sinks n }
{
    let mut text = [0; SUMMARY_LEN];
    let length = match summarize(alloc, line, &mut text) {
        Ok(length) => length,
        Err(NoMemory) => return Status::Memory,
    };
    let mut sink = match host.sink("-") {
        Ok(sink) => sink,
        Err(bad) => return Status::from(bad),
    };
    let status = put_text(&mut sink, &text[..length]);
    host.back_sink("-", sink);
    status
}

/// Does the line of a simulated run.
pub fn drill_line<H: Host>(alloc: Global, host: &mut H, line: &DrillLine) -> Status
    requires range { IsInDrill (shown_drill line.now) }
    ensures does { DoesDrill H.tells ⟦<H as Telling>⟧.objects (shown_drill line.now)
        (H.faults host.old) (H.faults host.new) (H.shelf host.old) (H.shelf host.new) result }
    ensures line { result ≢ Status.Usage }
    ensures opened { HasOpenCause (fault_of result) (H.faults host.old) (H.faults host.new) }
{
    write_summary(alloc, host, line)
}
