//! What octets come from without a wait.
ghost use Rattle.std.specs.Prelude.{◌≡◌, ◌≤◌, ◌<◌, ℕ, List, [], Bool, true, false, IsSome, None, IfOk, OnErr, take};
ghost use Rattle.std.specs.Option.{option_map};
ghost use Rattle.std.specs.declared.option.Option.{Option};
ghost use Rattle.link_channels.specs.declared.bounds.TheConstants.{MAX_PAYLOAD as max_payload};
ghost use Rattle.outside_io.specs.Causes.{HasCause};
ghost use Rattle.outside_io.specs.Told.{IsPrefix};
ghost use Rattle.outside_net.specs.Streams.{later, IsFirst};
ghost use Rattle.live_source.specs.Payloads.{TakesPayload, HasNone};

use link_channels::MAX_PAYLOAD;
use outside_io::{Failed, Source};

/// A source whose next octets can be gathered before they are read, so that the read of them doesn't wait. What it gives may come in
/// datagrams: then it is read payload by payload, and no bound between two of them is lost.
pub trait LiveSource: Source {
    /// Whether octets stand ready, as its next calls of `gather` answer, by the number of the call from the next one on, where it tells
    /// that. A read may change it.
    ghost ready: { Self → Option (ℕ → Bool) } = { λ _. None };

    /// The payloads that it has still to give, the next one first, where what it gives comes in datagrams and it tells them.
    ghost payloads: { Self → Option (List (List ℕ)) } = { λ _. None };

    /// So many octets stand ready, or all that are left, or a fault behind them, where it says that.
    ghost stands: { Self → ℕ → Type 0 } = { λ _ _. Unit {0} };

    /// Whether what it gives comes in datagrams, each of which is a piece of the stream by itself.
    fn is_in_datagrams(&self) -> bool
        // One that tells its octets has no bounds in them, and one that tells its payloads has.
        ensures octets { IsSome (Self.remaining self.now) → result ≡ false }
        ensures payloads { IsSome (payloads self.now) → result ≡ true };

    /// Takes in what is there, without a wait, and says whether so many octets stand ready, or all that are left: reads of these don't wait.
    /// Of a source in datagrams it says whether a payload does, whatever its length. A call that fails says yes, and the read that follows
    /// tells the fault.
    fn gather(&mut self, count: usize) -> bool
        ensures value { IsFirst (ready self.old) result }
        ensures ready { ready self.new ≡ option_map later (ready self.old) }
        // A source that tells its octets has them always.
        ensures told { IsSome (Self.remaining self.old) → result ≡ true }
        ensures stands { result ≡ true → stands self.new count }
        // Nothing is read, and what stands ahead stays in front.
        ensures same { Self.remaining self.new ≡ Self.remaining self.old }
        ensures payloads { payloads self.new ≡ payloads self.old }
        ensures ahead { IsPrefix (Self.ahead self.old) (Self.ahead self.new) }
        ensures faults { Self.faults self.new ≡ Self.faults self.old };

    /// Reads the next payload, whole, to the front of a block, and says how long it is. 0 is the end. A source that doesn't come in
    /// datagrams gives none.
    fn read_payload(&mut self, block: &mut [u8; MAX_PAYLOAD]) -> Result<usize, Failed>
        ensures within { IfOk result (λ count. count ≤ max_payload) }
        ensures ok { IfOk result (λ count. 0 < count
            → TakesPayload (payloads self.old) (payloads self.new) (take count block.new)) }
        ensures end { IfOk result (λ count. count ≡ 0 → HasNone (payloads self.old) (payloads self.new)) }
        ensures err { OnErr result (payloads self.new ≡ payloads self.old) }
        ensures same { Self.remaining self.new ≡ Self.remaining self.old }
        // It gives all that was taken ahead before it fails.
        ensures ahead { OnErr result (Self.ahead self.new ≡ []) }
        ensures cause { HasCause (Self.faults self.old) (Self.faults self.new) result };
}
