//! What the definitions of a capture that was packed mean.
ghost use Rattle.std.specs.Prelude.{◌≡◌, ◌+◌, ◌*◌, ◌%◌, ◌^◌, ◌<◌, ◌≤◌, ℕ, List, All, Option, None, Ok, true, IfSome, is_some, length, flat_map};
ghost use Rattle.link_channels.specs.declared.channel.Channel.TheVariants as channels;
ghost use Rattle.capture_file.specs.Capture.{IsCapture};
ghost use Rattle.rtp_packet.specs.Rtp as rtp;
ghost use Rattle.rtp_packet.specs.Writing.{packet_with};
ghost use Rattle.psk_seal.specs.Nonces.{AreNonces};
ghost use Rattle.link_channels.specs.declared.profile.Profile.TheVariants.{Simple};
ghost use Rattle.rist_wire.specs.declared.item.Item.TheVariants as items;
ghost use Rattle.rist_wire.specs.declared.session.Session.{Session};
ghost use Rattle.rist_wire.specs.Session.{IsSession};
ghost use Rattle.rist_wire.specs.Media.{content_of};
ghost use Rattle.rist_wire.specs.Item.{item_of};
ghost use Rattle.block_source.specs.Pieces.{pieces_of};
ghost use Rattle.rist_pack.specs.Capture.{stamp_of, taken_of, content_for, packed_record, records_of, capture_of};
ghost use Rattle.rist_pack.specs.declared.settings.PackSettings.{PackSettings};

/// Each datagram is taken in its session as media of the flow, with its own number and time, and its content is its
/// piece. The checksum of a full datagram counts octets, so there the piece has to be octets.
pub fn each_datagram_is_its_piece()
    ensures taken { (session : Session) (nonces : Option (List ℕ)) (settings : PackSettings) (k : ℕ)
        (piece : List ℕ)
        → IsSession session → IfSome nonces AreNonces → is_some nonces ≡ is_some session.pass
        → settings.flow % 2 ≡ 0 → settings.flow < 2 ^ 32 → k < 2 ^ 36 → length piece ≤ 1316
        → (session.full ≡ true → All (λ octet. octet < 256) piece)
        → item_of session (packed_record session nonces settings k piece).channel
        (packed_record session nonces settings k piece).octets
        ≡ Ok (items.Media (taken_of session settings k piece)) }
    ensures content { (session : Session) (settings : PackSettings) (k : ℕ) (piece : List ℕ)
        → content_of (taken_of session settings k piece) ≡ content_for session.nulls piece }
{}

/// In the Simple Profile a record is the RTP packet of its piece, on the channel of media.
pub fn a_record_of_the_simple_profile_is_its_packet()
    ensures { (session : Session) (settings : PackSettings) (k : ℕ) (piece : List ℕ)
        → IsSession session → session.profile ≡ Simple
        → packed_record session None settings k piece ≡ record {
          link = 0;
          channel = channels.Media;
          us = k * settings.gap;
          octets = rtp.spelling (packet_with (record {
            number = (settings.first + k) % 2 ^ 16;
            stamp = stamp_of settings k;
            ssrc = settings.flow;
          }) None piece) None;
        } }
{}

/// Without a passphrase the capture is that of the session, the settings and the source's octets alone.
pub fn without_a_passphrase_a_capture_is_one()
    ensures { (session : Session) (nonces : Option (List ℕ)) (settings : PackSettings) (b : List ℕ)
        → session.pass ≡ None → is_some nonces ≡ is_some session.pass
        → capture_of (packed_record session nonces settings) (pieces_of b)
        ≡ capture_of (packed_record session None settings) (pieces_of b) }
{}

/// What is written is a capture of these records.
pub fn what_is_packed_is_a_capture()
    ensures { (session : Session) (nonces : Option (List ℕ)) (settings : PackSettings) (b : List ℕ)
        → settings.gap ≤ 1000000 → length b ≤ 2 ^ 40
        → IsCapture (records_of (packed_record session nonces settings) 0 (pieces_of b))
        (capture_of (packed_record session nonces settings) (pieces_of b)) }
{}
