//! What the definitions mean.
ghost use Rattle.std.specs.Prelude.{◌≡◌, ℕ, ◌+◌, ◌%◌, ◌<◌, ◌≤◌, ◌↔◌, List, length, slice_get, Some};
ghost use Rattle.std.specs.List.{sum};
ghost use Rattle.seq_unwrap.specs.declared.width.Width.{Width};
ghost use Rattle.seq_unwrap.specs.Nearest.{cycle_of};
ghost use Rattle.link_channels.specs.declared.bounds.TheConstants.{MAX_DATAGRAM, MAX_LINKS, MAX_PAYLOAD};
ghost use Rattle.sender_rules.specs.declared.bounds.TheConstants.{MAX_LOOKED_AT, MAX_SENT_AGAIN, MAX_STORED};
ghost use Rattle.sender_rules.specs.Bonding.{HasPlace, link_at};
ghost use Rattle.sender_rules.specs.Sendings.{Packet, Sending, sent_packets, AreNumbered};
ghost use Rattle.sender_rules.specs.Stored.{stored_packets, packet_for};

/// Each place below the sum of the weights has exactly one link, and it is the one that `link_at` computes.
pub fn one_link_has_each_place()
    ensures { (weights : List ℕ) (place link : ℕ) → place < sum weights
        → (HasPlace weights place link ↔ (link ≡ link_at weights place)) }
{}

/// Where sent numbers follow one another, a word finds a stored packet exactly where its number ends in the word: no
/// other stored packet's number does.
pub fn a_word_finds_one_packet()
    ensures { (history : List Sending) (size : ℕ) (width : Width) (place : ℕ) (packet : Packet)
        → AreNumbered (sent_packets history) → size ≤ MAX_STORED
        → slice_get (stored_packets size history) place ≡ Some packet
        → packet_for (stored_packets size history) width (packet.number % cycle_of width) ≡ Some packet }
{}

/// The bounds of a session and of a sender are these numbers (this profile).
pub fn bounds_are_these()
    ensures links { MAX_LINKS ≡ 16 }
    ensures datagram { MAX_DATAGRAM ≡ 2048 }
    ensures payload { MAX_PAYLOAD ≡ 1500 }
    ensures stored { MAX_STORED ≡ 65536 }
    ensures looked_at { MAX_LOOKED_AT ≡ 65536 }
    ensures again { MAX_SENT_AGAIN ≡ 256 }
{}
