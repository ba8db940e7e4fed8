//! A record's line.
ghost use Rattle.std.specs.Prelude.{◌≡◌, IfOk};
ghost use Rattle.rist_show.specs.Lines.{line_by};
ghost use Rattle.rist_show.specs.Origins.{origin_in};

use crate::objects::item_value;
use capture_file::Head;
use link_channels::MAX_PAYLOAD;
use rist_wire::{Item, WireBad};
use std::alloc::{AllocError, Global};

/// The line of a record with this head and this item. The block is scratch.
pub(crate) fn line(
    alloc: Global,
    head: &Head,
    item: &Result<Item<'_>, WireBad>,
    block: &mut [u8; MAX_PAYLOAD],
) -> Result<Vec<u8>, AllocError>
    ensures value { IfOk result (λ text. text.items ≡ line_by (origin_in head.now) item.now) }
{
    let value = item_value(alloc, head, item, block)?;
    let mut text = value.to_vec(alloc)?;
    text.push(b'\n')?;
    Ok(text)
}
