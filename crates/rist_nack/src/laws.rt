//! Laws of requests.
ghost use Rattle.std.specs.Prelude.{◌≡◌, ◌^◌, ◌<◌, ℕ, List, Bool, Option, Some};
ghost use Rattle.std.specs.List.{flat_map, AllByRecursion};
ghost use Rattle.rist_nack.specs.Requests.{flow_of, word_asks, words_asks, upper_in};
ghost use Rattle.rist_nack.specs.Written.{words_spelling, upper_spelling};
ghost use Rattle.rtcp_compound.specs.Compound.{application};
ghost use Rattle.rtcp_compound.specs.Name.{rist_name};

/// Words that are written ask for what they say.
pub fn written_words_ask()
    ensures { (is_mask : Bool) (upper : Option ℕ) (flow : ℕ) (words : List (ℕ × ℕ))
        → AllByRecursion (λ w. (w.0 < 2 ^ 16) × (w.1 < 2 ^ 16)) words
        → words_asks is_mask upper flow (words_spelling words)
        ≡ flat_map (λ w. word_asks is_mask upper flow w.0 w.1) words }
{}

/// A sequence extension that is written sets its upper half for its flow.
pub fn written_extensions_hold()
    ensures { (media upper : ℕ) → upper < 2 ^ 16
        → upper_in (flow_of media) (application 1 media rist_name (upper_spelling upper)) ≡ Some upper }
{}
