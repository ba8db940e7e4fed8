//! What came of a run, in numbers.
ghost use Rattle.std.specs.Prelude.{◌≡◌, ◌&&◌, length, is_some, not};
ghost use Rattle.std.specs.List.{sum_by, range_with_len};
ghost use Rattle.rist_ends.specs.Counts.{capped};
ghost use Rattle.world_rules.specs.World.{Setup, Course};
ghost use Rattle.rist_world.specs.World.{IsWorldAfter};
ghost use Rattle.rist_world.specs.Counted.{lost_at, resent_at, count_on, Counted};

use crate::tally::raise_if;
use crate::world::World;

/// What came of a run, in numbers. Each stays at its greatest value.
#[derive(Clone, Copy)]
pub(crate) struct Counts {
    /// How many payloads were sent.
    pub(crate) sent: u64,
    /// How often media came to the receiver.
    pub(crate) carried: u64,
    /// How many media datagrams never came to the receiver.
    pub(crate) lost: u64,
    /// How many numbers were asked for, each time counted.
    pub(crate) asked: u64,
    /// How many retransmissions were put on links.
    pub(crate) resent: u64,
    /// How many packets the receiver kept: after an end that many payloads were released, the empty ones too.
    pub(crate) released: u64,
}

// Media that never came is lost.
fn is_lost(media: Option<bool>, came: bool) -> bool
    ensures value { result ≡ (is_some media && not came) }
{
    media.is_some() && !came
}

// How many datagrams of a link are media that never came to the receiver, and how many are retransmissions.
fn count_on(world: &World, link: u8) -> (u64, u64)
    ensures lost { result.0 ≡ capped (count_on world.now (lost_at world.now) link) }
    ensures resent { result.1 ≡ capped (count_on world.now (resent_at world.now) link) }
{
    let mut lost = 0;
    let mut resent = 0;
    for place in 0..world.forward(link) {
        let media = world.media_at(link, place);
        let came = world.tally().came(link, place);
        raise_if(&mut lost, is_lost(media, came));
        raise_if(&mut resent, media.unwrap_or(false));
    }
    (lost, resent)
}

// How many media datagrams of all links were lost, and how many were retransmissions.
fn count_all(world: &World) -> (u64, u64)
    ensures lost { result.0 ≡ capped (sum_by (count_on world.now (lost_at world.now))
        (range_with_len 0 (length world.now.forward))) }
    ensures resent { result.1 ≡ capped (sum_by (count_on world.now (resent_at world.now))
        (range_with_len 0 (length world.now.forward))) }
{
    let mut lost = 0_u64;
    let mut resent = 0_u64;
    for link in 0..world.links() {
        let (more_lost, more_resent) = count_on(world, link);
        lost = lost.saturating_add(more_lost);
        resent = resent.saturating_add(more_resent);
    }
    (lost, resent)
}

/// What came of the moves that a world has made.
pub(crate) fn counts_of(world: &World) -> Counts
    ensures value { (setup : Setup) (course : Course) → IsWorldAfter setup world.now course
        → Counted setup course result }
{
    let (lost, resent) = count_all(world);
    Counts {
        sent: world.tally().sent(),
        carried: world.tally().carried(),
        lost,
        asked: world.asked(),
        resent,
        released: world.kept(),
    }
}
