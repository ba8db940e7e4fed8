//! What a datagram carries of a stream.
ghost use Rattle.std.specs.Prelude.{◌≡◌};
ghost use Rattle.datagram_ends.specs.Media.{media_of, payload_of};

use link_channels::MAX_PAYLOAD;
use media_address::Form;
use rtp_packet::Rtp;

/// The octets of the stream that a datagram carries: all, or the payload of an RTP packet. What should be one and isn't carries none.
pub fn media_of(form: Form, octets: &[u8]) -> &[u8]
    ensures value { result.now ≡ media_of form octets.now }
{
    match form {
        Form::Udp => octets,
        Form::Rtp => match Rtp::read(octets) {
            Ok(packet) => packet.payload(),
            Err(_) => &[],
        },
    }
}

/// The payload that a datagram gives a stream: the octets that it carries, all of them. One that carries more than 1,500 is dropped, and so
/// gives none.
pub fn payload_of(form: Form, octets: &[u8]) -> &[u8]
    ensures value { result.now ≡ payload_of form octets.now }
{
    let media = media_of(form, octets);
    if media.len() <= MAX_PAYLOAD {
        media
    } else {
        &[]
    }
}
