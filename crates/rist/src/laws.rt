//! Laws of the words that are links, and of the commands with a passphrase.
ghost use Rattle.std.specs.Prelude.{◌≡◌, true, codes, map};
ghost use Rattle.std.specs.List.{list_all};
ghost use Rattle.rist_words.specs.Commands.{rist_app};
ghost use Rattle.link_words.specs.Positions.{ahead_of};
ghost use Rattle.pass_words.specs.Options.{has_option};
ghost use Rattle.pass_words.specs.declared.options.PassOption.{PassOption};
ghost use Rattle.rist.specs.Parsed.{are_taken_so, has_named, positions_ahead};

/// Links are looked for where the parser takes them: behind as many positions of each command. And of a command with links
/// each flag is taken for one, and no option with a value is.
pub fn links_are_where_the_parser_takes_them()
    ensures ahead { map (λ c. ahead_of c.name) rist_app.subs ≡ map (λ c. positions_ahead c.rules) rist_app.subs }
    ensures flags { list_all are_taken_so rist_app.subs ≡ true }
{}

/// A passphrase is looked for where the parser takes one: in the commands that have its option.
pub fn passphrases_are_where_the_parser_takes_them()
    ensures own { map (λ c. has_option PassOption.Own c.name) rist_app.subs
        ≡ map (has_named (codes "pass")) rist_app.subs }
    ensures incoming { map (λ c. has_option PassOption.Incoming c.name) rist_app.subs
        ≡ map (has_named (codes "in-pass")) rist_app.subs }
{}
