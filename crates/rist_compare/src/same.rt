//! Whether two steps are the same.
ghost use Rattle.std.specs.Prelude.{◌≡◌, ◌↔◌, IsTrue};

use rist_desk::{AskedWords, Event, Step};

fn are_same_words(one: &AskedWords, other: &AskedWords) -> bool
    ensures value { IsTrue result ↔ (one.now ≡ other.now) }
{
    one == other
}

fn is_same_event(one: &Event, other: &Event) -> bool
    ensures value { IsTrue result ↔ (one.now ≡ other.now) }
{
    one == other
}

/// Whether two steps are the same.
pub fn is_same(one: &Step, other: &Step) -> bool
    ensures value { IsTrue result ↔ (one.now ≡ other.now) }
{
    one.link == other.link
        && one.at == other.at
        && one.mark == other.mark
        && one.made == other.made
        && is_same_event(&one.what, &other.what)
        && are_same_words(&one.asked, &other.asked)
}
