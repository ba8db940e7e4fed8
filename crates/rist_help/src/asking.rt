//! What words ask for that are no command: help, or the version.
ghost use Rattle.std.specs.Prelude.{◌≡◌, map, string_bytes};
ghost use Rattle.rist_help.specs.Asks.{ask_of, asked_by_word, asked_of_command, topic_of};

/// A command, as a topic of the help.
#[derive(Clone, Copy, Debug, PartialEq, Eq)]
pub enum Topic {
    /// `replay`
    Replay,
    /// `show`
    Show,
    /// `count`
    Count,
    /// `report`
    Report,
    /// `pack`
    Pack,
    /// `split`
    Split,
    /// `send`
    Send,
    /// `recv`
    Recv,
    /// `fan`
    Fan,
    /// `gate`
    Gate,
    /// `drill`
    Drill,
}

/// What words ask for, to be written to the standard output.
#[derive(Clone, Copy, Debug, PartialEq, Eq)]
pub enum Ask {
    /// `--help`
    Help,
    /// A command and `--help`.
    HelpOf(Topic),
    /// `--version`
    Version,
}

/// What the words ask for, the program's name first, if they do.
pub fn what_is_asked(words: &[String]) -> Option<Ask>
    ensures { result ≡ ask_of (map string_bytes words.now) }
{
    match words {
        [_, word] => asked_by_word(word.as_str()),
        [_, command, word] => asked_of_command(command.as_str(), word.as_str()),
        _ => None,
    }
}

fn asked_by_word(word: &str) -> Option<Ask>
    ensures { result ≡ asked_by_word word.now }
{
    if word == "--help" {
        Some(Ask::Help)
    } else if word == "--version" {
        Some(Ask::Version)
    } else {
        None
    }
}

fn asked_of_command(command: &str, word: &str) -> Option<Ask>
    ensures { result ≡ asked_of_command command.now word.now }
{
    if word == "--help" {
        Some(Ask::HelpOf(topic_named(command)?))
    } else {
        None
    }
}

/// The command of this name.
pub fn topic_named(name: &str) -> Option<Topic>
    ensures { result ≡ topic_of name.now }
{
    if name == "replay" {
        Some(Topic::Replay)
    } else if name == "show" {
        Some(Topic::Show)
    } else if name == "count" {
        Some(Topic::Count)
    } else if name == "report" {
        Some(Topic::Report)
    } else if name == "pack" {
        Some(Topic::Pack)
    } else if name == "split" {
        Some(Topic::Split)
    } else if name == "send" {
        Some(Topic::Send)
    } else if name == "recv" {
        Some(Topic::Recv)
    } else if name == "fan" {
        Some(Topic::Fan)
    } else if name == "gate" {
        Some(Topic::Gate)
    } else if name == "drill" {
        Some(Topic::Drill)
    } else {
        None
    }
}
