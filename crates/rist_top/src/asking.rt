//! Words that are no line of a command.
ghost use Rattle.std.specs.Prelude.{◌≡◌, IsTrue};
ghost use Rattle.outside_io.specs.Causes.{HasOpenCause};
ghost use Rattle.run_parts.specs.Causes.{fault_of};
ghost use Rattle.run_print.specs.DoesAsk.{DoesAsk};
ghost use Rattle.rist_top.specs.Lines.{AsksNothing, IfAsk};

use outside_host::Host;
use rist_help::what_is_asked;
use run_parts::{Status, Telling};
use run_print::tell;

/// Answers words that are no line of a command: with what they ask for, or Usage where they ask for nothing.
pub fn answer<H: Host>(words: &[String], host: &mut H) -> Status
    ensures unasked { result ≡ Status.Usage → AsksNothing words.now }
    ensures usage { AsksNothing words.now → result ≡ Status.Usage }
    ensures opened { HasOpenCause (fault_of result) (H.faults host.old) (H.faults host.new) }
    ensures same { IsTrue H.tells → AsksNothing words.now → H.shelf host.new ≡ H.shelf host.old }
    ensures asks { IfAsk words.now (λ ask. DoesAsk H.tells ⟦<H as Telling>⟧.objects ask
        (H.faults host.old) (H.faults host.new) (H.shelf host.old) (H.shelf host.new) result) }
{
    match what_is_asked(words) {
        Some(ask) => tell(host, ask),
        None => Status::Usage,
    }
}
