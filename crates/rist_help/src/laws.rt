//! Laws of what words ask for, and of what is told.
ghost use Rattle.std.specs.Prelude.{◌≡◌, List, None, Some, map};
ghost use Rattle.clap.specs.Words.{Text};
ghost use Rattle.rist_words.specs.CommandLine.{line_of};
ghost use Rattle.rist_help.specs.Asks.{ask_of};
ghost use Rattle.rist_help.specs.Ranged.{numbers_in, named_ranges, named_bounds};
ghost use Rattle.rist_help.specs.declared.asking.Ask.{Ask};

/// Words that ask for something are no command's line.
pub fn what_asks_is_no_line()
    ensures { (words : List Text) (asked : Ask) → ask_of words ≡ Some asked → line_of words ≡ None }
{}

/// The help names the ranges and the defaults by which the words are taken: the numbers of an option's row are its least,
/// its most and its default, and no others but a 0 that stands for none.
pub fn the_help_names_the_ranges()
    ensures options { map (λ named. numbers_in named.row) named_ranges ≡ map (λ named. named.numbers) named_ranges }
    ensures bounds { map (λ named. numbers_in named.row) named_bounds ≡ map (λ named. named.numbers) named_bounds }
{}
