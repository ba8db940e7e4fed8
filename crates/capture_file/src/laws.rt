//! Laws of the format.
ghost use Rattle.std.specs.Prelude.{◌≡◌, ◌++◌, ℕ, List};
ghost use Rattle.capture_file.specs.Capture.{Record, Fits, spelling, IsFront, IsCapture};
ghost use Rattle.capture_file.specs.Tests.{BadAt};
ghost use Rattle.capture_file.specs.declared.reader.CapKind.{CapKind};
ghost use Rattle.capture_file.specs.declared.reader.CapKind.TheVariants.{TooLong};

/// No record's spelling is a proper prefix of another's.
pub fn one_spelling()
    ensures { (r s : Record) (x y : List ℕ) → Fits r → Fits s
        → spelling r ++ x ≡ spelling s ++ y → (r ≡ s) × (x ≡ y) }
{}

/// Octets have one list of whole records at their front.
pub fn one_reading()
    ensures { (b : List ℕ) (rs ss : List Record) → IsFront rs b → IsFront ss b → rs ≡ ss }
{}

/// Where a test but that of the greatest offset fails, the octets are no capture.
pub fn no_capture_at_fault()
    ensures { (b : List ℕ) (kind : CapKind) (at : ℕ) (rs : List Record)
        → BadAt b kind at → (kind ≡ TooLong → ⊥) → IsCapture rs b → ⊥ }
{}
