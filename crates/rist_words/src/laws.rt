//! Laws of the lines.
ghost use Rattle.std.specs.Prelude.{◌≡◌, List, Some};
ghost use Rattle.clap.specs.Words.{Text};
ghost use Rattle.rist_words.specs.CommandLine.{CommandLine, line_of};
ghost use Rattle.rist_words.specs.Ranges.{IsInRange};

/// The values of a line lie in their ranges and combinations. Of a link's address and port it says nothing.
pub fn lines_are_in_range()
    ensures { (words : List Text) (c : CommandLine) → line_of words ≡ Some c → IsInRange c }
{}
