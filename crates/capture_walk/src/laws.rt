//! Laws of a walk.
ghost use Rattle.std.specs.Prelude.{◌≡◌, ◌≤◌, ◌^◌, ℕ, List, Some, Result, Ok, Err, length};
ghost use Rattle.outside_io.specs.Told.{Passage, Appends};
ghost use Rattle.capture_file.specs.Capture.{Record};
ghost use Rattle.capture_walk.specs.Form.{Form, Capture, Fronts, IsFile};
ghost use Rattle.capture_walk.specs.Leaves.{Leaves};

use crate::walk_bad::WalkBad;

/// Octets have, as a capture file, one list of whole records at their front, so what is written of them is one list of octets.
pub fn one_front()
    ensures { (b : List ℕ) (rs ss : List Record) → Fronts Capture rs b → Fronts Capture ss b → rs ≡ ss }
{}

/// Octets are a file of one list of records.
pub fn one_list_of_records()
    ensures { (form : Form) (b : List ℕ) (rs ss : List Record) → IsFile form rs b → IsFile form ss b → rs ≡ ss }
{}

/// What a walk over a whole file leaves in a sink is what is written of its records, whatever the file's form: so a pcap file
/// leaves what the capture file of its datagrams leaves.
pub fn a_file_is_written_by_its_records()
    ensures { (form : Form) (so_far whole : List Record → List ℕ) (ahead : ℕ) (p : Passage)
        (b : List ℕ) (rs : List Record)
        → p.had ≡ Some b → IsFile form rs b → Leaves form so_far whole ahead p (Ok tt)
        → Appends p.held p.holds (whole rs) }
{}

/// A walk over a file of at most 2^40 octets, in which no read and no write failed and no memory was refused, came to
/// its end.
pub fn a_file_is_walked_to_its_end()
    ensures { (form : Form) (so_far whole : List Record → List ℕ) (ahead : ℕ) (p : Passage)
        (end : Result Unit WalkBad) (b : List ℕ) (rs : List Record)
        → p.had ≡ Some b → IsFile form rs b → length b ≤ 2 ^ 40
        → (end ≡ Err WalkBad.ReadFault → ⊥) → (end ≡ Err WalkBad.WriteFault → ⊥)
        → (end ≡ Err WalkBad.Memory → ⊥)
        → Leaves form so_far whole ahead p end → end ≡ Ok tt }
{}
