//! How full a buffer is.
ghost use Rattle.std.specs.Prelude.{◌≡◌, ◌/◌, []};
ghost use Rattle.reorder_buffer.specs.Fill.{fill_of};
ghost use Rattle.reorder_buffer.specs.declared.phase.Phase.TheVariants.{Failed};

use reorder_buffer::Buffer;

/// How far ahead the packet with the highest number is due, in milliseconds, rounded down, and 0 where nothing waits.
pub fn fill_now(buffer: &Buffer) -> u64
    requires dropped { buffer.now.phase ≡ Failed → buffer.now.held ≡ [] }
    ensures value { result ≡ fill_of buffer.now / 90 }
{
    if buffer.held() == 0 {
        0
    } else {
        buffer.fill() / 90
    }
}
