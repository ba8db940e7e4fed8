//! What the definitions of a sender's datagrams mean at the other end, what links took of them, and what its history
//! means where flows follow one another.
ghost use Rattle.std.specs.Prelude.{◌≡◌, ◌%◌, ◌^◌, ◌-◌, ◌<◌, ◌≤◌, ℕ, Bool, true, false, List, [], ◌∷◌, ◌++◌, All};
ghost use Rattle.link_channels.specs.declared.bounds.TheConstants.{MAX_PAYLOAD};
ghost use Rattle.std.specs.Prelude.{Option, Ok, is_some};
ghost use Rattle.std.specs.Prelude.{length, if◌then◌else◌};
ghost use Rattle.ts_nulls.specs.Nulls.{blanking_of};
ghost use Rattle.seq_unwrap.specs.declared.width.Width.{Width};
ghost use Rattle.psk_seal.specs.declared.sealer.Pair.{Pair};
ghost use Rattle.link_channels.specs.declared.profile.Profile.TheVariants.{Main};
ghost use Rattle.rist_wire.specs.declared.session.Session.{Session};
ghost use Rattle.rist_wire.specs.declared.item.Item.TheVariants as items;
ghost use Rattle.rist_wire.specs.Session.{IsSession};
ghost use Rattle.rist_wire.specs.Media.{content_of};
ghost use Rattle.rist_wire.specs.Item.{item_of};
ghost use Rattle.rist_wire.specs.Writing.{IsPair};
ghost use Rattle.rist_wire.specs.Packets.{media_value};
ghost use Rattle.rtcp_compound.specs.Compound.{Content};
ghost use Rattle.rist_sender.specs.Messages.{Message, Original, Retransmission, media_of, message_channel};
ghost use Rattle.rist_sender.specs.Messages.{message_datagram};
ghost use Rattle.rist_sender.specs.History.{Event, Renewed, effective_time, sendings_of, is_down, last_time};
ghost use Rattle.rist_sender.specs.History.{tried_as, tried_on};
ghost use Rattle.rist_sender.specs.Links.{Tried, datagrams_given, datagrams_taken};
ghost use Rattle.rist_sender.specs.Served.{AreServed, IsServed, KnowsPeers};
ghost use Rattle.std.specs.List.{AllByRecursion};
ghost use Rattle.std.specs.Option.{option_map};
ghost use Rattle.std.specs.Prelude.{slice_index_or};
ghost use Rattle.rist_sender.specs.Calls.{Rules, packet_for, packets_again, status_at};

use outside_net::{Link, TellingLink};

/// In its session the datagram of a payload is taken as media of the flow with its packet's number and timestamp, as an
/// original or as a retransmission; and its content is the payload, each null packet that was deleted put back as the
/// one that stands for it. The checksum of a full datagram counts octets, so there the payload has to be octets.
pub fn each_payload_is_taken()
    ensures original { (session : Session) (pair : Option Pair) (flow number tick : ℕ) (payload : List ℕ)
        → IsSession session → (session.profile ≡ Main → IsPair pair) → is_some pair ≡ is_some session.pass
        → flow % 2 ≡ 0 → flow < 2 ^ 32 → length payload ≤ MAX_PAYLOAD
        → (session.full ≡ true → All (λ octet. octet < 256) payload)
        → item_of session (message_channel session (Original (packet_for session.nulls number tick payload)))
        (message_datagram flow session pair (Original (packet_for session.nulls number tick payload)))
        ≡ Ok (items.Media (media_value session.width
        (media_of flow false (packet_for session.nulls number tick payload)))) }
    ensures again { (session : Session) (pair : Option Pair) (flow number tick : ℕ) (payload : List ℕ)
        → IsSession session → (session.profile ≡ Main → IsPair pair) → is_some pair ≡ is_some session.pass
        → flow % 2 ≡ 0 → flow < 2 ^ 32 → length payload ≤ MAX_PAYLOAD
        → (session.full ≡ true → All (λ octet. octet < 256) payload)
        → item_of session (message_channel session (Retransmission (packet_for session.nulls number tick payload)))
        (message_datagram flow session pair (Retransmission (packet_for session.nulls number tick payload)))
        ≡ Ok (items.Media (media_value session.width
        (media_of flow true (packet_for session.nulls number tick payload)))) }
    ensures content { (width : Width) (nulls again : Bool) (flow number tick : ℕ) (payload : List ℕ)
        → content_of (media_value width (media_of flow again (packet_for nulls number tick payload)))
        ≡ (if nulls then blanking_of payload else payload) }
{}

/// A link that knew the peers of the channels at first, and of whose calls none failed (its count of faults, of 64 bits,
/// had room and stands), took each datagram that it was given, in order. So where a link knew each peer of the session,
/// it took just the datagrams that its sender's history says were written on it, behind what it had taken.
pub fn a_link_with_its_peers_takes_all<L: Link>()
    ensures one { (had has : List Tried) (was is : L)
        → (served : IsServed ⟦<L as TellingLink>⟧.tells had has was is) → L.faults was < 2 ^ 64 - 1
        → L.faults is ≡ L.faults was
        → AllByRecursion (λ tried. L.knows was tried.channel ≡ true) served.gained
        → datagrams_taken served.gained ≡ datagrams_given served.gained }
    ensures all { (flow : ℕ) (session : Session) (history : List Event) (were are : List L) (link : ℕ) (d : L)
        → AreServed ⟦<L as TellingLink>⟧.tells flow session [] history were are → link < length were
        → L.faults (slice_index_or were link d) < 2 ^ 64 - 1
        → L.faults (slice_index_or are link d) ≡ L.faults (slice_index_or were link d)
        → KnowsPeers session (L.knows (slice_index_or were link d))
        → L.taken (slice_index_or are link d)
        ≡ option_map (λ held. held ++ datagrams_given (tried_on (tried_as flow session) link history))
        (L.taken (slice_index_or were link d)) }
{}

/// Where a flow begins behind another, what is stored, sent again and counted in reports is that of its own packets,
/// whatever was sent before it. The effective time, the links that are down, and when a link last had a report or a
/// keepalive are those of both.
pub fn a_flow_begins_anew()
    ensures sendings { (flow first : ℕ) (since before : List Event)
        → sendings_of (since ++ Renewed flow first ∷ before) ≡ sendings_of since }
    ensures report { (flow first micros : ℕ) (since before : List Event)
        → status_at micros (since ++ Renewed flow first ∷ before) ≡ status_at micros since }
    ensures again { (rules : Rules) (compound : List Content) (flow first : ℕ) (before : List Event)
        → packets_again rules (Renewed flow first ∷ before) compound ≡ [] }
    ensures time { (flow first : ℕ) (since before : List Event)
        → effective_time (since ++ Renewed flow first ∷ before) ≡ effective_time (since ++ before) }
    ensures down { (flow first link : ℕ) (since before : List Event)
        → is_down (since ++ Renewed flow first ∷ before) link ≡ is_down (since ++ before) link }
    ensures last { (is_meant : Message → Bool) (flow first link : ℕ) (since before : List Event)
        → last_time is_meant (since ++ Renewed flow first ∷ before) link ≡ last_time is_meant (since ++ before) link }
{}
