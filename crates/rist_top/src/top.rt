//! The top call: from words to a line, and from a line to its status.
ghost use Rattle.std.specs.Prelude.{◌≡◌, ◌≢◌, ◌⊎◌, Err, IfOk, IsTrue};
ghost use Rattle.outside_io.specs.Causes.{HasOpenCause};
ghost use Rattle.rist_words.specs.CommandLine.{Drill, DrillCommand, Fan, Gate, Recv, Send, SendCommand, Split};
ghost use Rattle.rist_words.specs.CommandLine.{SplitCommand};
ghost use Rattle.rist_words.specs.Shown.{shown, shown_fan, shown_gate, shown_recv};
ghost use Rattle.rist_words.specs.Ranges.{IsInRange};
ghost use Rattle.run_parts.specs.Causes.{fault_of};
ghost use Rattle.rist_top.specs.Lines.{AsksNothing, IfAsk, IfDrill, IfFan, IfFiles, IfGate, IfReceiving, IfSend};
ghost use Rattle.rist_top.specs.Lines.{IfSplit};
ghost use Rattle.rist_top.specs.Lines.{IsLine, IsNoLine, IsNoPlainLine, IsPlain};
ghost use Rattle.run_files.specs.Works.{IsOverFiles};
ghost use Rattle.run_print.specs.DoesAsk.{DoesAsk};
ghost use Rattle.run_files.specs.DoesFiles.{DoesFiles};
ghost use Rattle.run_split.specs.DoesSplit.{DoesSplit};
ghost use Rattle.run_send.specs.DoesSend.{DoesSend};
ghost use Rattle.run_receive.specs.DoesReceive.{DoesReceive};
ghost use Rattle.run_fan.specs.DoesFan.{DoesFan};
ghost use Rattle.run_gate.specs.DoesGate.{DoesGate};
ghost use Rattle.run_print.specs.DoesDrill.{DoesDrill};

use crate::asking::answer;
use outside_host::Host;
use rist_words::{FanLine, GateLine, Line, RecvLine, Refused, line};
use run_fan::fan_line;
use run_files::file_line;
use run_gate::gate_line;
use run_parts::{Status, Telling};
use run_print::drill_line;
use run_receive::receive_line;
use run_send::send_line;
use run_split::split_line;
use std::alloc::Global;
use std::sync::Wait;
use std::thread::Threads;

/// Does what the words of a command line say, the program's name first, with the objects of a host. A receiving, of one
/// flow or several, and a gateway wait for their links, each in a thread of its own; every other command returns as
/// [`plain`] does.
pub fn run<R: Threads + Wait + Sync, H: Host>(
    rt: &R,
    alloc: Global,
    words: &[String],
    host: &mut H,
) -> Status
    // The words are refused exactly where they are no line and ask for nothing, memory aside.
    ensures usage { result ≡ Status.Usage → IsNoLine words.now }
    ensures unasked { result ≡ Status.Usage → AsksNothing words.now }
    ensures refused { IsNoLine words.now → AsksNothing words.now
        → (result ≡ Status.Usage) ⊎ (result ≡ Status.Memory) }

    // A fault at opening comes exactly where a call of the host failed.
    ensures opened { HasOpenCause (fault_of result) (H.faults host.old) (H.faults host.new) }

    // What is no line and asks for nothing touches nothing.
    ensures same { IsTrue H.tells → IsNoLine words.now → AsksNothing words.now
        → H.shelf host.new ≡ H.shelf host.old }

    // The help and the version go to the standard output, where words ask for them.
    ensures asks { IfAsk words.now (λ ask. DoesAsk H.tells ⟦<H as Telling>⟧.objects ask
        (H.faults host.old) (H.faults host.new) (H.shelf host.old) (H.shelf host.new) result) }

    // What each command leaves, and how it ends.
    ensures files { IfFiles words.now (λ c. DoesFiles H.tells ⟦<H as Telling>⟧.objects c
        (H.faults host.old) (H.faults host.new) (H.shelf host.old) (H.shelf host.new) result) }
    ensures splits { IfSplit words.now (λ c. DoesSplit H.tells ⟦<H as Telling>⟧.objects c
        (H.faults host.old) (H.faults host.new) (H.shelf host.old) (H.shelf host.new) result) }
    ensures sends { IfSend words.now (λ c. DoesSend H.tells ⟦<H as Telling>⟧.objects ⟦<H as Telling>⟧.live c
        (H.faults host.old) (H.faults host.new) (H.shelf host.old) (H.shelf host.new) result) }
    ensures receives { IfReceiving words.now (λ c. DoesReceive H.tells
        ⟦<H as Telling>⟧.objects ⟦<H as Telling>⟧.live c
        (H.faults host.old) (H.faults host.new) (H.shelf host.old) (H.shelf host.new) result) }
    ensures fans { IfFan words.now (λ c. DoesFan H.tells ⟦<H as Telling>⟧.objects ⟦<H as Telling>⟧.live c
        (H.faults host.old) (H.faults host.new) (H.shelf host.old) (H.shelf host.new) result) }
    ensures gates { IfGate words.now (λ c. DoesGate H.tells ⟦<H as Telling>⟧.objects ⟦<H as Telling>⟧.live c
        (H.faults host.old) (H.faults host.new) (H.shelf host.old) (H.shelf host.new) result) }
    ensures drills { IfDrill words.now (λ c. DoesDrill H.tells ⟦<H as Telling>⟧.objects c
        (H.faults host.old) (H.faults host.new) (H.shelf host.old) (H.shelf host.new) result) }
{
    match read_line(alloc, words) {
        Read::Receive(line) => receive_line(rt, alloc, host, &line),
        Read::Fan(line) => fan_line(rt, alloc, host, &line),
        Read::Gate(line) => gate_line(rt, alloc, host, &line),
        Read::Plain(line) => run_line(alloc, host, &line),
        Read::NoLine => answer(words, host),
        Read::Memory => Status::Memory,
    }
}

/// What words are, by whether their command waits.
#[derive(Drop)]
enum Read<'a> {
    /// A receiving.
    Receive(RecvLine<'a>),
    /// A receiving of several flows.
    Fan(FanLine<'a>),
    /// A gateway.
    Gate(GateLine<'a>),
    /// A line whose command waits for nobody.
    Plain(Line<'a>),
    /// No line of a command.
    NoLine,
    /// Memory was refused.
    Memory,
}

/// What the words are.
fn read_line<'a>(alloc: Global, words: &'a [String]) -> Read<'a>
    ensures receive { (l : _) → result ≡ Read.Receive l → IsLine words.entry.now (Recv (shown_recv l)) }
    ensures fan { (l : _) → result ≡ Read.Fan l → IsLine words.entry.now (Fan (shown_fan l)) }
    ensures gate { (l : _) → result ≡ Read.Gate l → IsLine words.entry.now (Gate (shown_gate l)) }
    ensures line { (l : _) → result ≡ Read.Plain l → IsLine words.entry.now (shown l) }
    ensures plain { (l : _) → result ≡ Read.Plain l → IsPlain (shown l) }
    ensures none { result ≡ Read.NoLine → IsNoLine words.entry.now }
{
    match line(alloc, words) {
        Ok(Line::Recv(line)) => Read::Receive(line),
        Ok(Line::Fan(line)) => Read::Fan(line),
        Ok(Line::Gate(line)) => Read::Gate(line),
        Ok(line) => Read::Plain(line),
        Err(Refused::Usage) => Read::NoLine,
        Err(Refused::Memory) => Read::Memory,
    }
}

/// Does each command that waits for nobody, and answers what is asked for: all but a receiving, of one flow or several, and
/// a gateway, whose lines are none here. It always returns.
pub fn plain<H: Host>(alloc: Global, words: &[String], host: &mut H) -> Status
    // The words are refused exactly where they are no such line and ask for nothing, memory aside.
    ensures usage { result ≡ Status.Usage → IsNoPlainLine words.now }
    ensures unasked { result ≡ Status.Usage → AsksNothing words.now }
    ensures refused { IsNoPlainLine words.now → AsksNothing words.now
        → (result ≡ Status.Usage) ⊎ (result ≡ Status.Memory) }
    ensures opened { HasOpenCause (fault_of result) (H.faults host.old) (H.faults host.new) }
    ensures same { IsTrue H.tells → IsNoPlainLine words.now → AsksNothing words.now
        → H.shelf host.new ≡ H.shelf host.old }
    ensures asks { IfAsk words.now (λ ask. DoesAsk H.tells ⟦<H as Telling>⟧.objects ask
        (H.faults host.old) (H.faults host.new) (H.shelf host.old) (H.shelf host.new) result) }
    ensures files { IfFiles words.now (λ c. DoesFiles H.tells ⟦<H as Telling>⟧.objects c
        (H.faults host.old) (H.faults host.new) (H.shelf host.old) (H.shelf host.new) result) }
    ensures splits { IfSplit words.now (λ c. DoesSplit H.tells ⟦<H as Telling>⟧.objects c
        (H.faults host.old) (H.faults host.new) (H.shelf host.old) (H.shelf host.new) result) }
    ensures sends { IfSend words.now (λ c. DoesSend H.tells ⟦<H as Telling>⟧.objects ⟦<H as Telling>⟧.live c
        (H.faults host.old) (H.faults host.new) (H.shelf host.old) (H.shelf host.new) result) }
    ensures drills { IfDrill words.now (λ c. DoesDrill H.tells ⟦<H as Telling>⟧.objects c
        (H.faults host.old) (H.faults host.new) (H.shelf host.old) (H.shelf host.new) result) }
{
    match plain_line(alloc, words) {
        Ok(line) => run_line(alloc, host, &line),
        Err(Refused::Usage) => answer(words, host),
        Err(Refused::Memory) => Status::Memory,
    }
}

/// The line that the words are, if its command waits for nobody.
fn plain_line<'a>(alloc: Global, words: &'a [String]) -> Result<Line<'a>, Refused>
    ensures ok { IfOk result (λ l. IsLine words.entry.now (shown l)) }
    ensures plain { IfOk result (λ l. IsPlain (shown l)) }
    ensures usage { result ≡ Err Refused.Usage → IsNoPlainLine words.entry.now }
{
    match line(alloc, words)? {
        Line::Recv(_) | Line::Fan(_) | Line::Gate(_) => Err(Refused::Usage),
        line => Ok(line),
    }
}

/// Does a line.
fn run_line<H: Host>(alloc: Global, host: &mut H, line: &Line<'_>) -> Status
    requires range { IsInRange (shown line.now) }
    requires plain { IsPlain (shown line.now) }
    ensures line { result ≢ Status.Usage }
    ensures opened { HasOpenCause (fault_of result) (H.faults host.old) (H.faults host.new) }
    ensures files { IsOverFiles (shown line.now)
        → DoesFiles H.tells ⟦<H as Telling>⟧.objects (shown line.now)
        (H.faults host.old) (H.faults host.new) (H.shelf host.old) (H.shelf host.new) result }
    ensures splits { (c : SplitCommand) → shown line.now ≡ Split c
        → DoesSplit H.tells ⟦<H as Telling>⟧.objects c
        (H.faults host.old) (H.faults host.new) (H.shelf host.old) (H.shelf host.new) result }
    ensures sends { (c : SendCommand) → shown line.now ≡ Send c
        → DoesSend H.tells ⟦<H as Telling>⟧.objects ⟦<H as Telling>⟧.live c
        (H.faults host.old) (H.faults host.new) (H.shelf host.old) (H.shelf host.new) result }
    ensures drills { (c : DrillCommand) → shown line.now ≡ Drill c
        → DoesDrill H.tells ⟦<H as Telling>⟧.objects c
        (H.faults host.old) (H.faults host.new) (H.shelf host.old) (H.shelf host.new) result }
{
    match line {
        Line::Replay(_) => file_line(alloc, host, line),
        Line::Show(_) => file_line(alloc, host, line),
        Line::Count(_) => file_line(alloc, host, line),
        Line::Report(_) => file_line(alloc, host, line),
        Line::Pack(_) => file_line(alloc, host, line),
        Line::Split(line) => split_line(alloc, host, line),
        Line::Send(line) => send_line(alloc, host, line),
        Line::Drill(line) => drill_line(alloc, host, line),
        Line::Recv(_) | Line::Fan(_) | Line::Gate(_) => unreachable!(),
    }
}
