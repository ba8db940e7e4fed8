//! What a request says that was made number by number.
ghost use Rattle.std.specs.Prelude.{◌≡◌, ◌+◌, ◌≤◌, ℕ, List, [], ◌∷◌, ◌++◌};
ghost use Rattle.request_rules.specs.declared.policy.NackKind.{NackKind};
ghost use Rattle.request_rules.specs.Words.{words_for, IsRisingIn};
ghost use Rattle.request_rules.specs.Building.{with_number, IsAboveLast};

/// The words for rising numbers, with one more number behind them, are the words for all of these numbers; and where
/// they lie less than 65,536 apart each of the numbers may be added.
pub fn numbers_one_by_one_make_the_words_for_all()
    ensures words { (kind : NackKind) (low x : ℕ) (numbers : List ℕ) → IsRisingIn low x numbers
        → with_number kind 64 (words_for kind 64 numbers) x ≡ words_for kind 64 (numbers ++ x ∷ []) }
    ensures above { (kind : NackKind) (low x : ℕ) (numbers : List ℕ) → IsRisingIn low x numbers
        → x ≤ low + 65535 → IsAboveLast kind (words_for kind 64 numbers) x }
{}
