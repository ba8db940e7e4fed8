//! What the links of a sending end took.
ghost use Rattle.std.specs.Prelude.{◌≡◌, ◌<◌, ◌^◌, ◌-◌, ◌++◌, ℕ, length, slice_index_or};
ghost use Rattle.std.specs.Option.{option_map};
ghost use Rattle.rist_sender.specs.History.{tried_as, tried_on};
ghost use Rattle.rist_sender.specs.Links.{datagrams_given};
ghost use Rattle.rist_sender.specs.Served.{KnowsPeers};
ghost use Rattle.rist_gateway.specs.Onward.{IsOnward, LinkState, OnwardState};

/// A link of a sending end that knew the peers of the session when that was made, and of whose calls none failed since
/// (its count of faults, of 64 bits, had room and stands), took each datagram that the sender's work says was written on
/// it, in order, behind what it had taken.
pub fn a_link_with_its_peers_takes_all()
    ensures taken { (first last : OnwardState) → (is : IsOnward first last) → (link : ℕ) (d : LinkState)
        → link < length first.links → (slice_index_or first.links link d).faults < 2 ^ 64 - 1
        → (slice_index_or last.links link d).faults ≡ (slice_index_or first.links link d).faults
        → KnowsPeers first.sender.session (slice_index_or first.links link d).knows
        → (slice_index_or last.links link d).taken
        ≡ option_map (λ held. held ++ datagrams_given
        (tried_on (tried_as first.sender.flow first.sender.session) link is.moved.to.work.history))
        (slice_index_or first.links link d).taken }
{}
