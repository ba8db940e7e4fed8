//! Receivers of several flows, and what they are told.
ghost use Rattle.std.specs.Prelude.{◌≡◌, ◌∷◌, [], ℕ, List, None, length};
ghost use Rattle.std.specs.Borrow.{sem};
ghost use Rattle.rist_ends.specs.Told.{IsFit, IsNoEnd};
ghost use Rattle.rist_desk.specs.Made.{end_told};
ghost use Rattle.rist_desk.specs.Desk.{Given};
ghost use Rattle.rist_fan.specs.Seen.{FanStep};
ghost use Rattle.rist_fan.specs.Fan.{AllAnswer, AllFigures, AllStep, AreNew, FanEnded, FanStands, flows_in, step_come};
ghost use Rattle.rist_fan.specs.Lends.{first_sink, lends_sink};

use crate::flow::{Came, Flow};
use crate::stepping::step_all;
use outside_io::Sink;
use rist_ends::{Told, What};

/// The receivers of several flows that come in one tunnel, each with a sink of its own. Each has a place: that of its port
/// among the ports of the flows. No call takes memory.
#[derive(Drop)]
pub struct Fan<K> {
    first: Flow<K>,
    more: Vec<Flow<K>>,
}

impl<K: Sink> Fan<K> {
    /// A fan of these flows, the first at place 0.
    pub fn with(first: Flow<K>, more: Vec<Flow<K>>) -> Fan<K>
        ensures flows { flows_in result ≡ first ∷ more.items }
        // Where no receiver has made a step, they stand for no steps.
        ensures stands { (given : ℕ → Given) → AreNew given K.contents K.faults (first ∷ more.items)
            → FanStands given K.contents K.faults (flows_in result) [] }
    {
        Fan { first, more }
    }

    /// Each receiver makes one step: the one at the place that of what is told, and each other one, or all where there is
    /// no such place, that of a datagram that was refused, at the same moment on the same link. A tick goes to all,
    /// whatever the place. What came of it stands in `came`, one for each place; a failed write ends its own place alone.
    /// The end is told by `finish`.
    pub fn step(&mut self, place: Option<u8>, told: &Told<'_>, came: &mut [Came])
        requires fits { IsFit told.now }
        requires going { IsNoEnd told.now.what }
        requires room { length came.old ≡ length (flows_in self.old) }
        ensures places { length (flows_in self.new) ≡ length (flows_in self.old) }
        ensures room { length came.new ≡ length came.old }
        ensures steps { AllStep K.contents K.faults place told.now (flows_in self.old) (flows_in self.new)
            came.old came.new }
        // Where each stood for what it saw of a history, each stands for what it sees of it and of this step.
        ensures stands { (given : ℕ → Given) (history : List FanStep)
            → FanStands given K.contents K.faults (flows_in self.old) history
            → FanStands given K.contents K.faults (flows_in self.new)
            (step_come place told.now came.new ∷ history) }
        // And each answered and made what the rules say of that.
        ensures answers { (given : ℕ → Given) (history : List FanStep)
            → FanStands given K.contents K.faults (flows_in self.old) history
            → AllAnswer given history place told.now came.old came.new }
        // And the figures of each are those of what it saw of the history with this step.
        ensures figures { (given : ℕ → Given) (history : List FanStep)
            → FanStands given K.contents K.faults (flows_in self.old) history
            → AllFigures given (step_come place told.now came.new ∷ history) came.new }
    {
        step_all(&mut self.first, &mut self.more, place, told, came);
    }

    /// Lends the sink at place 0, and changes no receiver.
    pub fn sink(&mut self) -> &mut K
        ensures* lends { sem 𝓛 (lends_sink K.row self.entry result) }
        ensures value { result.now ≡ first_sink self.old }
    {
        let first = &mut self.first;
        &mut first.sink
    }

    /// Its flows, where the end is not to be told.
    pub fn apart(self) -> (Flow<K>, Vec<Flow<K>>)
        ensures flows { flows_in self ≡ result.0 ∷ result.1.items }
    {
        let Fan { first, more } = self;
        (first, more)
    }

    /// Tells each receiver the end, in the order of their places, and gives the flows back: of each all that is held goes
    /// out to its sink. What came of it stands in `came`.
    pub fn finish(self, came: &mut [Came]) -> (Flow<K>, Vec<Flow<K>>)
        requires room { length came.old ≡ length (flows_in self) }
        ensures places { length (result.0 ∷ result.1.items) ≡ length (flows_in self) }
        ensures room { length came.new ≡ length came.old }
        ensures steps { AllStep K.contents K.faults None end_told (flows_in self) (result.0 ∷ result.1.items)
            came.old came.new }
        ensures ended { (given : ℕ → Given) (history : List FanStep)
            → FanStands given K.contents K.faults (flows_in self) history
            → FanEnded given K.contents K.faults (result.0 ∷ result.1.items) history came.new }
    {
        let Fan {
            mut first,
            mut more,
        } = self;
        let told = Told {
            link: 0,
            us: 0,
            what: What::End,
        };
        step_all(&mut first, &mut more, None, &told, came);
        (first, more)
    }
}
