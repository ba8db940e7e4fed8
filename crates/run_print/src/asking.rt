//! Words that ask for help or the version, whose text goes to the standard output.
ghost use Rattle.std.specs.Prelude.{◌≡◌, ◌≢◌, ◌⊎◌, IsTrue, codes, map};
ghost use Rattle.std.specs.List.{concat};
ghost use Rattle.outside_io.specs.Causes.{HasOpenCause, HasWriteCause};
ghost use Rattle.outside_io.specs.Told.{Appends, AppendsPart};
ghost use Rattle.outside_host.specs.Shelf.{ChangesSinks, Stays};
ghost use Rattle.run_parts.specs.Causes.{CanRefuse, fault_of};
ghost use Rattle.run_print.specs.DoesAsk.{IsAnswer};
ghost use Rattle.run_print.specs.Printing.{IsPrintEnd, Prints};

use outside_host::Host;
use outside_io::Sink;
use rist_help::{Ask, pieces};
use run_parts::{Status, Telling};

/// Writes pieces of text, one behind another.
#[tactic(auto, using(crate::proofs::PieceLemmas::pieces_more, crate::proofs::PieceLemmas::pieces_whole, crate::proofs::PieceLemmas::part_of_pieces, outside_io::proofs::ToldLemmas::appends_both))]
fn put_pieces<K: Sink>(sink: &mut K, pieces: &[&str]) -> Status
    ensures ends { (result ≡ Status.Done) ⊎ (result ≡ Status.WriteFault) }
    ensures whole { result ≡ Status.Done
        → Appends (K.contents sink.old) (K.contents sink.new) (concat (map (λ piece. piece.now) pieces.now)) }
    ensures part { result ≡ Status.WriteFault
        → AppendsPart (K.contents sink.old) (K.contents sink.new) (concat (map (λ piece. piece.now) pieces.now)) }
    ensures write { HasWriteCause (fault_of result) (K.faults sink.old) (K.faults sink.new) }
{
    for piece in pieces {
        match sink.put(piece.as_bytes()) {
            Ok(()) => {}
            Err(_) => return Status::WriteFault,
        }
    }
    Status::Done
}

/// Writes the text that is asked for.
pub fn tell<H: Host>(host: &mut H, ask: Ask) -> Status
    ensures ends { IsPrintEnd result }
    ensures opened { HasOpenCause (fault_of result) (H.faults host.old) (H.faults host.new) }
    ensures printed { IsTrue H.tells → (CanRefuse result → ⊥)
        → Prints ⟦<H as Telling>⟧.objects (IsAnswer ask) (H.shelf host.old) (H.shelf host.new) result }
    ensures unprinted { IsTrue H.tells → CanRefuse result → Stays (H.shelf host.old).sinks (H.shelf host.new).sinks }
    ensures around { IsTrue H.tells → ChangesSinks (H.shelf host.old) (H.shelf host.new) }
    ensures others { IsTrue H.tells → (n : _) → n ≢ codes "-"
        → (H.shelf host.new).sinks n ≡ (H.shelf host.old).sinks n }
{
    let mut sink = match host.sink("-") {
        Ok(sink) => sink,
        Err(bad) => return Status::from(bad),
    };
    let status = put_pieces(&mut sink, pieces(ask));
    host.back_sink("-", sink);
    status
}
