//! What the definitions of items and of datagrams mean.
ghost use Rattle.std.specs.Prelude.{◌≡◌, ◌≤◌, ◌<◌, ◌+◌, ◌≢◌, ◌⊎◌, ◌↔◌, ℕ, List, All, Option, Some, Ok, Err, true, false, is_some, length};
ghost use Rattle.aes_ctr.specs.Ctr.{counter_block};
ghost use Rattle.psk_seal.specs.declared.sealer.Pair.{Pair};
ghost use Rattle.psk_seal.specs.Nonces.{AreNonces};
ghost use Rattle.psk_seal.specs.Pairs.{pair_at};
ghost use Rattle.ts_nulls.specs.Nulls.{stripping_of, blanking_of};
ghost use Rattle.ts_nulls.specs.Shape.{Shape};
ghost use Rattle.link_channels.specs.declared.channel.Channel.{Channel};
ghost use Rattle.link_channels.specs.declared.channel.Channel.TheVariants.{Tunnel as OnTunnel};
ghost use Rattle.link_channels.specs.declared.profile.Profile.TheVariants.{Main};
ghost use Rattle.rist_wire.specs.declared.session.Session.{Session};
ghost use Rattle.rist_wire.specs.declared.bad.WireBad.{WireBad};
ghost use Rattle.rist_wire.specs.declared.bad.WireBad.TheVariants.{Port};
ghost use Rattle.rist_wire.specs.declared.item.Item.{Item};
ghost use Rattle.rist_wire.specs.declared.item.Item.TheVariants.{Media as MediaItem};
ghost use Rattle.rist_wire.specs.declared.item.Kind.{Kind};
ghost use Rattle.rist_wire.specs.Session.{IsSession};
ghost use Rattle.rist_wire.specs.Cipher.{first_counter_block};
ghost use Rattle.rist_wire.specs.Media.{can_restore, restored_payload};
ghost use Rattle.rist_wire.specs.Item.{item_of};
ghost use Rattle.rist_wire.specs.Among.{ArePorts, IsForAnother, item_among, session_at};
ghost use Rattle.rist_wire.specs.Writing.{IsPair, MediaOut};
ghost use Rattle.rist_wire.specs.Packets.{media_value};
ghost use Rattle.rist_wire.specs.Datagrams.{datagram_of};
ghost use Rattle.rist_wire.specs.Sent.{IsMediaOut, media_channel, media_datagram};

use psk_seal::MAX_PAIRS;

/// A payload whose null packets were deleted can be sent, and its content has them in their places.
pub fn what_was_stripped_can_be_restored()
    ensures sent { (payload kept : List ℕ) (shape : Shape) → stripping_of payload ≡ Some (shape, kept)
        → can_restore (Some shape) kept ≡ true }
    ensures content { (payload kept : List ℕ) (shape : Shape) → stripping_of payload ≡ Some (shape, kept)
        → restored_payload (Some shape) kept ≡ blanking_of payload }
{
    ts_nulls::laws::what_was_stripped_is_restored();
}

/// A datagram of media is taken as that media in its session, with a pair exactly where there is a passphrase. The checksum of
/// a full datagram counts octets, so there the payload has to be octets.
pub fn media_that_is_written_is_taken()
    ensures { (session : Session) (pair : Option Pair) (media : MediaOut)
        → IsSession session → (session.profile ≡ Main → IsPair pair)
        → is_some pair ≡ is_some session.pass → IsMediaOut media
        → (session.full ≡ true → All (λ octet. octet < 256) media.payload)
        → item_of session (media_channel session) (media_datagram session pair media)
        ≡ Ok (MediaItem (media_value session.width media)) }
{}

/// A message in a full datagram is the item that it is behind the four octets of ports.
pub fn both_forms_say_the_same()
    ensures { (session : Session) (pair : Option Pair) (kind : Kind) (message : List ℕ)
        → IsSession session → session.profile ≡ Main → IsPair pair → is_some pair ≡ is_some session.pass
        → length message ≤ 1560 → All (λ octet. octet < 256) message
        → item_of session OnTunnel (datagram_of (record session { full = true }) pair kind message)
        ≡ item_of session OnTunnel (datagram_of (record session { full = false }) pair kind message) }
{}

/// A datagram of media has at most 36 octets more than its payload, a full one at most 60.
pub fn media_has_few_octets_of_headers()
    ensures reduced { (session : Session) (pair : Option Pair) (media : MediaOut) → session.full ≡ false
        → length (media_datagram session pair media) ≤ length media.payload + 36 }
    ensures either { (session : Session) (pair : Option Pair) (media : MediaOut)
        → length (media_datagram session pair media) ≤ length media.payload + 60 }
{}

/// No counter block of the cipher is used twice under one nonce, by any two datagrams of one sealer: a datagram's text
/// has at most 2,048 octets, so 128 blocks.
pub fn no_counter_block_is_used_twice()
    ensures { (nonces : List ℕ) (p q j k : ℕ) → AreNonces nonces → p < MAX_PAIRS → q < MAX_PAIRS → j < 128
        → k < 128
        → (pair_at nonces p).nonce ≡ (pair_at nonces q).nonce
        → counter_block (first_counter_block (pair_at nonces p).sequence) j
        ≡ counter_block (first_counter_block (pair_at nonces q).sequence) k → (p ≡ q) × (j ≡ k) }
{}

/// Of several sessions in one tunnel the one whose port a datagram names takes it, and each other one refuses the port.
/// A keepalive, which names none, is told at the first place, and each session would take it. What is refused is refused
/// by each, and for its port exactly where each session refuses the port.
pub fn a_datagram_is_one_sessions()
    ensures own { (session : Session) (ports : List ℕ) (channel : Channel) (octets : List ℕ) (place : ℕ) (item : Item)
        → ArePorts ports → item_among ports session channel octets ≡ Ok (place, item)
        → (place < length ports) × (item_of (session_at ports place session) channel octets ≡ Ok item) }
    ensures others { (session : Session) (ports : List ℕ) (channel : Channel) (octets : List ℕ) (place v : ℕ)
        (item : Item) → ArePorts ports → session.profile ≡ Main → item_among ports session channel octets ≡ Ok (place, item)
        → v < length ports → v ≢ place
        → IsForAnother place item (item_of (session_at ports v session) channel octets) }
    ensures refused { (session : Session) (ports : List ℕ) (channel : Channel) (octets : List ℕ) (v : ℕ) (bad : WireBad)
        → ArePorts ports → session.profile ≡ Main → item_among ports session channel octets ≡ Err bad
        → v < length ports → (item_of (session_at ports v session) channel octets ≡ Err bad)
        ⊎ (item_of (session_at ports v session) channel octets ≡ Err Port) }
    ensures port { (session : Session) (ports : List ℕ) (channel : Channel) (octets : List ℕ)
        → ArePorts ports → session.profile ≡ Main → item_among ports session channel octets ≡ Err Port
        ↔ ((v : ℕ) → v < length ports → item_of (session_at ports v session) channel octets ≡ Err Port) }
{}
