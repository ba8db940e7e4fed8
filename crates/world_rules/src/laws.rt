//! What a receiver plays out where all that comes was sent, and so over a simulated network.
ghost use Rattle.std.specs.Prelude.{◌≤◌, ◌∷◌, ℕ, List, Option, drop};
ghost use Rattle.psk_seal.specs.Sealer.{SealerState};
ghost use Rattle.seq_unwrap.specs.declared.width.Width.{Width};
ghost use Rattle.receiver_rules.specs.declared.limits.Limits.{Limits};
ghost use Rattle.receiver_rules.specs.Steps.{Step, end_step};
ghost use Rattle.receiver_rules.specs.History.{released_payloads};
ghost use Rattle.request_rules.specs.Steps.{buffer_history};
ghost use Rattle.world_rules.specs.SentFlows.{SentFlow, BringCopies, AreShortFlows};
ghost use Rattle.world_rules.specs.Reached.{PlaysReached};
ghost use Rattle.world_rules.specs.declared.moves.Move.{Move};
ghost use Rattle.world_rules.specs.Flows.{flows_of};
ghost use Rattle.world_rules.specs.Short.{IsShort};
ghost use Rattle.world_rules.specs.World.{Setup, Course, IsSetup, IsSealerOf, links_of, beginning, MakesAll};

/// Where each packet that comes is a copy of what was sent in some flow, and the flows are short, what is played out
/// in the end is exactly what was reached. Nothing is supposed of the order in which copies come, nor of which flow's
/// copies come when.
pub fn short_flows_are_played_as_reached()
    ensures { (limits : Limits) (width : Width) (low : ℕ) (sent : List SentFlow) (history : List Step)
        → 1 ≤ limits.playout_delay → AreShortFlows width low sent → BringCopies width sent history
        → PlaysReached limits width sent history (released_payloads limits (end_step ∷ history)) }
{}

/// Whatever a short script carries, loses, repeats, delays and exchanges, in both directions, the receiver has played
/// out in the end exactly what was reached: epoch after epoch, the payloads of the numbers of which a copy came in
/// time, by rising number. Nothing is supposed of what arrives: all that can be carried to the receiver is what the
/// sender wrote.
pub fn short_scripts_are_played_as_reached()
    ensures { (setup : Setup) (near far : Option SealerState) (script : List Move) (course : Course)
        → IsSetup setup → IsSealerOf setup.session near → IsShort setup.session.width script
        → MakesAll setup script (beginning near far (links_of setup)) course
        → PlaysReached setup.control.limits setup.session.width (flows_of setup.flow setup.first course.work.history)
        (drop 1 (buffer_history course.steps))
        (released_payloads setup.control.limits (buffer_history course.steps)) }
{}
