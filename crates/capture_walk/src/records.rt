//! What gives the records of a file.
ghost use Rattle.std.specs.Prelude.{◌≡◌, ◌≤◌, ◌<◌, ◌^◌, ◌++◌, ◌∷◌, [], ℕ, List, Bool, Option, false, length, IfOk, IfSome, IsErrOf};
ghost use Rattle.outside_io.specs.Causes.{HasReadCause, fault_by};
ghost use Rattle.outside_io.specs.Told.{Takes};
ghost use Rattle.block_source.specs.Block.{most_ahead};
ghost use Rattle.block_source.specs.Lending.{TakesLent, ReturnsLent};
ghost use Rattle.capture_file.specs.Capture.{Record, Fits};
ghost use Rattle.capture_file.specs.Heads.{record_of};
ghost use Rattle.capture_walk.specs.Causes.{walk_fault};
ghost use Rattle.capture_walk.specs.Form.{Form};
ghost use Rattle.capture_walk.specs.Giving.{IfEnded, spent_by};
ghost use Rattle.capture_walk.specs.Leaves.{HasGiven, EndsAfter};
ghost use Rattle.capture_walk.specs.declared.walk_bad.WalkBad.TheVariants.{ReadFault, WriteFault, Memory};

use crate::walk_bad::WalkBad;
use capture_file::{Head, Reader};
use outside_io::Source;

/// Gives the records of a file, one after another, whatever way its source cuts the octets.
pub trait Records {
    /// What it reads.
    type Input: Source;

    /// The form of its file.
    ghost form: { Self → Form };

    /// The octets that it has still to read, where the source tells them.
    ghost remaining: { Self → Option (List ℕ) };

    /// Those of them that it took from the source ahead of need.
    ghost ahead: { Self → List ℕ };

    /// The source's count of faults.
    ghost faults: { Self → ℕ };

    /// Where in its file it stands.
    ghost at: { Self → ℕ };

    /// Whether it answered an error or the end.
    ghost spent: { Self → Bool };

    /// The octets of the record that was read last.
    ghost octets: { Self → List ℕ };

    /// Of a source that told these octets first, these records were read, and none behind them.
    ghost has_read: { Self → Option (List ℕ) → List Record → Type 0 };

    /// Reads the next record, whose octets then stand in the reader, or answers none at the end.
    fn next_record(&mut self) -> Result<Option<Head>, WalkBad>
        requires running { spent self.old ≡ false }
        ensures fits { IfOk result (λ o. IfSome o (λ head. Fits (record_of head (octets self.new)))) }
        ensures size { IfOk result (λ o. IfSome o (λ head. length (octets self.new) ≡ head.length)) }
        ensures on { IfOk result (λ o. IfSome o (λ head. (first : Option (List ℕ)) (done : List Record)
            → has_read self.old first done
            → has_read self.new first (done ++ record_of head (octets self.new) ∷ []))) }
        ensures given { IfOk result (λ o. IfSome o (λ head. (first : Option (List ℕ)) (done : List Record)
            → has_read self.old first done
            → IfSome first (λ b. HasGiven (form self.old) 0
            (done ++ record_of head (octets self.new) ∷ []) b (remaining self.new)))) }
        ensures end { IfEnded result (λ end. (first : Option (List ℕ)) (done : List Record)
            → has_read self.old first done
            → IfSome first (λ b. EndsAfter (form self.old) 0 b (remaining self.new) done end)) }
        ensures same { form self.new ≡ form self.old }
        ensures progress { IfOk result (λ o. IfSome o (λ head. (at self.old < at self.new)
            × (at self.new ≤ 2 ^ 40))) }
        ensures spent { spent self.new ≡ spent_by result }
        // Neither is the answer of a reader.
        ensures own { (IsErrOf result WriteFault → ⊥) × (IsErrOf result Memory → ⊥) }
        // At a fault all that was taken from the source was read.
        ensures ahead { IsErrOf result ReadFault → ahead self.new ≡ [] }
        ensures cause { HasReadCause (fault_by walk_fault result) (faults self.old) (faults self.new) };

    /// Lends the octets of the record that was read last to a call, which may change them where they stand.
    fn lend<A, B, R, F: FnOnce(&mut [u8], &mut A, &mut B) -> R>(
        &mut self,
        one: &mut A,
        other: &mut B,
        call: F,
    ) -> R
        requires call { TakesLent (F.pre call) (octets self.old) one.old other.old }
        ensures called { ReturnsLent (F.post call) (octets self.old) (octets self.new) one.old one.new
            other.old other.new result }
        // Nothing else changes.
        ensures read { (first : Option (List ℕ)) (done : List Record)
            → has_read self.old first done → has_read self.new first done }
        ensures form { form self.new ≡ form self.old }
        ensures place { (at self.new ≡ at self.old) × (spent self.new ≡ spent self.old) }
        ensures source { (remaining self.new ≡ remaining self.old) × (ahead self.new ≡ ahead self.old)
            × (faults self.new ≡ faults self.old) };

    /// Gives the source back. What was taken from it ahead of need is lost.
    fn back(self) -> Self::Input
        ensures value { Takes (remaining self) (Self.Input.remaining result) (ahead self) }
        // No more than a block is taken ahead.
        ensures within { length (ahead self) ≤ most_ahead }
        ensures same { Self.Input.faults result ≡ faults self };
}

impl<S: Source> Records for Reader<S> {
    ghost use Rattle.capture_walk.specs.Form.{Capture};
    ghost use Rattle.capture_walk.specs.Inside.Sofar.{HasRead};

    type Input = S;

    ghost form = { λ r. Capture };

    ghost remaining = { λ r. r.remaining };

    ghost ahead = { λ r. r.ahead };

    ghost faults = { λ r. r.faults };

    ghost at = { λ r. r.at };

    ghost spent = { λ r. r.spent };

    ghost octets = { λ r. r.octets };

    ghost has_read = { λ r first done. HasRead first r.remaining r.at done };

    fn next_record(&mut self) -> Result<Option<Head>, WalkBad> {
        match self.advance() {
            Ok(Some(head)) => Ok(Some(head)),
            Ok(None) => Ok(None),
            Err(bad) => Err(WalkBad::from(bad)),
        }
    }

    fn lend<A, B, R, F: FnOnce(&mut [u8], &mut A, &mut B) -> R>(
        &mut self,
        one: &mut A,
        other: &mut B,
        call: F,
    ) -> R {
        Reader::lend(self, one, other, call)
    }

    fn back(self) -> S {
        Reader::back(self)
    }
}
