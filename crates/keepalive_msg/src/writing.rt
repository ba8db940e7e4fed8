ghost use Rattle.std.specs.Prelude.{◌≡◌, Ok};
ghost use Rattle.keepalive_msg.specs.Keepalive.{spelling};
ghost use Rattle.keepalive_msg.specs.Reading.{reading_of, value_of};
ghost use Rattle.keepalive_msg.specs.Writing.{message_of};

/// Writes the message of an end: the address `02 00` and the octets of the end's SSRC, no capabilities
/// and no text.
pub fn write(ssrc: u32, out: &mut [u8; 8])
    ensures octets { out.new ≡ spelling (message_of ssrc) }

    // What is written is read back as the value of that message.
    ensures read_back { reading_of out.new ≡ Ok (value_of (message_of ssrc)) }
{
    let [a, b, c, d] = ssrc.to_be_bytes();
    *out = [2, 0, a, b, c, d, 0, 0];
}
