//! What a receiver is told of a datagram.
ghost use Rattle.std.specs.Prelude.{◌≡◌, ◌≤◌, ◌<◌, ℕ, length};
ghost use Rattle.seq_unwrap.specs.Nearest.{cycle_of};
ghost use Rattle.receiver_rules.specs.Seen.{seen};
ghost use Rattle.rist_wire.specs.Media.{content_of};
ghost use Rattle.rist_ends.specs.Items.{arrival_of, input_read};
ghost use Rattle.rist_ends.specs.Told.{IsFitArrival, IsFitWhat, IsNoEnd, input_of};

use crate::told::What;
use link_channels::MAX_PAYLOAD;
use receiver_rules::Arrival;
use rist_wire::{Item, Media, WireBad};

// The payload with its null packets in their places: a view of the datagram, or of the block where some were deleted.
fn content_in<'a>(media: &Media<'a>, block: &'a mut [u8; MAX_PAYLOAD]) -> &'a [u8]
    ensures value { result.now ≡ content_of media.now }
    ensures within { length result.now ≤ MAX_PAYLOAD }
    // The bits of its number fit their width.
    ensures fits { media.now.word < cycle_of media.now.width }
{
    let payload = media.payload();
    if media.is_whole() {
        return payload;
    }
    let len = media.content(block);
    &block[..len]
}

fn arrival_in<'a>(media: &Media<'a>, block: &'a mut [u8; MAX_PAYLOAD]) -> Arrival<'a>
    ensures value { seen result ≡ arrival_of media.now }
    ensures fits { IsFitArrival result }
{
    Arrival {
        flow: media.flow,
        again: media.again,
        width: media.width,
        word: media.word,
        stamp: media.stamp,
        payload: content_in(media, block),
    }
}

/// What a receiver is told of a datagram: the item that it is, or that it is refused. A payload whose null packets were
/// deleted is put together in the block.
pub fn what_of<'a>(
    item: &'a Result<Item<'a>, WireBad>,
    block: &'a mut [u8; MAX_PAYLOAD],
) -> What<'a>
    ensures value { (us : ℕ) → input_of us result ≡ input_read us item.now }
    ensures fits { IsFitWhat result }
    ensures going { IsNoEnd result }
{
    match item {
        Ok(Item::Media(media)) => What::Media(arrival_in(media, block)),
        Ok(Item::Control(compound)) => What::Control(compound),
        Ok(Item::Keepalive(_)) => What::Keepalive,
        Err(_) => What::Refused,
    }
}
