//! What hands out sources and sinks by name, links, clocks and random words by place, and takes them back; and what takes
//! the counts of a run.
ghost use Rattle.std.specs.Prelude.{◌≡◌, ◌<◌, ◌+◌, ℕ, length, take, Bool, Some, IsTrue, IfOk, OnOk, OnErr};
ghost use Rattle.outside_io.specs.Told.{IsEmpty};
ghost use Rattle.outside_host.specs.Counts.{named};
ghost use Rattle.outside_host.specs.declared.counts.TheConstants.{MAX_COUNTS};
ghost use Rattle.outside_host.specs.Shelf.{Shelf, Stays, TakesBack, HasHostCause};
ghost use Rattle.outside_host.specs.Shelf.{HandsOutSource, HandsOutSink, HandsOutNext, HandsOutLink, HandsOutClock, KeepsLinks, IsUnwritten, KnowsStated};
ghost use Rattle.outside_host.specs.Shelf.{ChangesSources, ChangesSinks, ChangesEntropies, ChangesDrawing, ChangesLinks, ChangesOpening, ChangesClocks, ChangesTiming, ChangesReport};

use crate::Count;
use link_channels::Profile;
use live_source::LiveSource;
use outside_io::{Entropy, Sink};
use outside_net::{Clock, Link, LinkSpec, Role};
use std::fmt::{self, Display, Formatter, Write};

/// Why a host hands nothing out.
#[derive(Clone, Copy, Debug, PartialEq, Eq)]
pub enum HostBad {
    /// The call failed.
    Failed,
    /// Memory was refused.
    NoMemory,
}

impl Display for HostBad {
    ghost use Rattle.std.specs.Prelude.{Some};
    ghost use Rattle.outside_host.specs.Text.{host_text};

    ghost output = { λ bad. Some (host_text bad) };

    fn fmt<W: Write>(&self, f: &mut Formatter<W>) -> fmt::Result {
        f.write_str(match self {
            HostBad::Failed => "cannot open",
            HostBad::NoMemory => "out of memory",
        })
    }
}

/// What stands under a name or at a place.
#[derive(Drop)]
pub enum Place<T> {
    /// Nothing.
    Absent,
    /// An object to be handed out.
    Here(T),
    /// An object that was handed out.
    Out,
    /// An object that came back.
    Back(T),
}

/// How a link was opened.
#[derive(Clone, Copy, Debug, PartialEq, Eq)]
pub struct Opened {
    /// The address that it is bound to, or sends to.
    pub spec: LinkSpec,
    /// Which end of it this is.
    pub role: Role,
    /// Whether it has a port for media and one for control, or one for the tunnel.
    pub profile: Profile,
}

/// Hands out each object once, under its name or from its place, and takes it back there.
pub trait Host {
    /// What it hands out as a source.
    type Input: LiveSource + Drop;

    /// What it hands out as a sink. It can be shared by the threads of links.
    type Output: Sink + Drop + Send;

    /// What it hands out as a source of random words.
    type Random: Entropy + Drop;

    /// What it hands out as a link. A thread of its own can have it.
    type Wire: Link + Drop + Send;

    /// What it hands out as a clock. A thread of its own can have it.
    type Time: Clock + Drop + Send;

    /// Whether a host of this type tells what stands under its names and at its places.
    ghost tells: { Bool };

    /// What stands under each name and at each place.
    ghost shelf: { Self → Shelf Self.Input Self.Output Self.Random Self.Wire Self.Time };

    /// How many calls failed. It never falls.
    ghost faults: { Self → ℕ };

    /// Hands out the source of this name.
    fn source(&mut self, name: &str) -> Result<Self::Input, HostBad>
        ensures ok { IsTrue tells
            → IfOk result (λ object. HandsOutSource (shelf self.old) (shelf self.new) name.now object) }
        ensures err { IsTrue tells → OnErr result (Stays (shelf self.old).sources (shelf self.new).sources) }
        ensures same { IsTrue tells → ChangesSources (shelf self.old) (shelf self.new) }
        ensures cause { HasHostCause (faults self.old) (faults self.new) result };

    /// Hands out the sink of this name. Where it tells, it is empty.
    fn sink(&mut self, name: &str) -> Result<Self::Output, HostBad>
        ensures ok { IsTrue tells
            → IfOk result (λ object. HandsOutSink (shelf self.old) (shelf self.new) name.now object) }
        ensures fresh { IfOk result (λ object. IsEmpty (Self.Output.contents object)) }
        ensures err { IsTrue tells → OnErr result (Stays (shelf self.old).sinks (shelf self.new).sinks) }
        ensures same { IsTrue tells → ChangesSinks (shelf self.old) (shelf self.new) }
        ensures cause { HasHostCause (faults self.old) (faults self.new) result };

    /// Hands out the next source of random words: the first one asked for stands at place 0. One that tells
    /// hands out at most 256.
    fn entropy(&mut self) -> Result<Self::Random, HostBad>
        ensures ok { IsTrue tells → IfOk result (λ object. HandsOutNext (shelf self.old) (shelf self.new) object) }
        ensures next { IsTrue tells → OnOk result ((shelf self.new).next_entropy
            ≡ (shelf self.old).next_entropy + 1) }
        ensures within { IsTrue tells → OnOk result ((shelf self.old).next_entropy < 256) }
        ensures err { IsTrue tells → OnErr result (Stays (shelf self.old).entropies (shelf self.new).entropies) }
        ensures err_next { IsTrue tells
            → OnErr result ((shelf self.new).next_entropy ≡ (shelf self.old).next_entropy) }
        ensures same { IsTrue tells → ChangesDrawing (shelf self.old) (shelf self.new) }
        ensures cause { HasHostCause (faults self.old) (faults self.new) result };

    /// Hands out the next link, opened so: the first one asked for stands at place 0. Where it tells, it took nothing yet.
    /// In a role that sends it knows its peers. One that tells hands out at most 256.
    fn link(&mut self, spec: &LinkSpec, role: Role, profile: Profile) -> Result<Self::Wire, HostBad>
        ensures ok { IsTrue tells → IfOk result (λ object. HandsOutLink (shelf self.old) (shelf self.new)
            (record { spec = spec.now; role = role; profile = profile }) object) }
        ensures fresh { IfOk result (λ object. IsUnwritten (Self.Wire.taken object)) }
        ensures peers { IfOk result (λ object. KnowsStated (Self.Wire.knows object) role profile) }
        ensures within { IsTrue tells → OnOk result (length (shelf self.old).opened_links < 256) }
        ensures err { IsTrue tells → OnErr result (KeepsLinks (shelf self.old) (shelf self.new)) }
        ensures same { IsTrue tells → ChangesOpening (shelf self.old) (shelf self.new) }
        ensures cause { HasHostCause (faults self.old) (faults self.new) result };

    /// Says what is to be kept of a run beside its own output, before its links are handed out: what comes on these is
    /// recorded under this name, where the host can. In memory nothing is.
    fn record(&mut self, name: &str) -> Result<(), HostBad>
        ensures same { IsTrue tells → shelf self.new ≡ shelf self.old }
        ensures cause { HasHostCause (faults self.old) (faults self.new) result };

    /// Says that the links which it hands out later are to tell how they do, each `every` milliseconds and where one comes up
    /// or goes down: to a file of this name, or else to the error output, where the host can. In memory none tells.
    fn statistics(&mut self, every: u64, name: Option<&str>) -> Result<(), HostBad>
        ensures same { IsTrue tells → shelf self.new ≡ shelf self.old }
        ensures cause { HasHostCause (faults self.old) (faults self.new) result };

    /// Hands out the next clock: the first one asked for stands at place 0. One that tells hands out at most 256.
    fn clock(&mut self) -> Result<Self::Time, HostBad>
        ensures ok { IsTrue tells → IfOk result (λ object. HandsOutClock (shelf self.old) (shelf self.new) object) }
        ensures next { IsTrue tells → OnOk result ((shelf self.new).next_clock ≡ (shelf self.old).next_clock + 1) }
        ensures within { IsTrue tells → OnOk result ((shelf self.old).next_clock < 256) }
        ensures err { IsTrue tells → OnErr result (Stays (shelf self.old).clocks (shelf self.new).clocks) }
        ensures err_next { IsTrue tells → OnErr result ((shelf self.new).next_clock ≡ (shelf self.old).next_clock) }
        ensures same { IsTrue tells → ChangesTiming (shelf self.old) (shelf self.new) }
        ensures cause { HasHostCause (faults self.old) (faults self.new) result };

    /// Takes back the source of this name. Under a name that isn't out it lets the source go.
    fn back_source(&mut self, name: &str, object: Self::Input)
        ensures state { IsTrue tells → TakesBack (shelf self.old).sources (shelf self.new).sources name.now object }
        ensures same { IsTrue tells → ChangesSources (shelf self.old) (shelf self.new) }
        ensures cause { faults self.new ≡ faults self.old };

    /// Takes back the sink of this name. Under a name that isn't out it lets the sink go.
    fn back_sink(&mut self, name: &str, object: Self::Output)
        ensures state { IsTrue tells → TakesBack (shelf self.old).sinks (shelf self.new).sinks name.now object }
        ensures same { IsTrue tells → ChangesSinks (shelf self.old) (shelf self.new) }
        ensures cause { faults self.new ≡ faults self.old };

    /// Takes back the source of random words of this place. At a place that isn't out it lets the source go.
    fn back_entropy(&mut self, place: u8, object: Self::Random)
        ensures state { IsTrue tells → TakesBack (shelf self.old).entropies (shelf self.new).entropies place object }
        ensures same { IsTrue tells → ChangesEntropies (shelf self.old) (shelf self.new) }
        ensures cause { faults self.new ≡ faults self.old };

    /// Takes back the link of this place. At a place that isn't out it lets the link go.
    fn back_link(&mut self, place: u8, object: Self::Wire)
        ensures state { IsTrue tells → TakesBack (shelf self.old).links (shelf self.new).links place object }
        ensures same { IsTrue tells → ChangesLinks (shelf self.old) (shelf self.new) }
        ensures cause { faults self.new ≡ faults self.old };

    /// Takes back the clock of this place. At a place that isn't out it lets the clock go.
    fn back_clock(&mut self, place: u8, object: Self::Time)
        ensures state { IsTrue tells → TakesBack (shelf self.old).clocks (shelf self.new).clocks place object }
        ensures same { IsTrue tells → ChangesClocks (shelf self.old) (shelf self.new) }
        ensures cause { faults self.new ≡ faults self.old };

    /// Takes the counts of a run at its end. One that tells keeps the first sixteen of those that came last.
    fn report(&mut self, counts: &[Count])
        ensures state { IsTrue tells → (shelf self.new).report ≡ Some (named (take MAX_COUNTS counts.now)) }
        ensures same { IsTrue tells → ChangesReport (shelf self.old) (shelf self.new) }
        ensures cause { faults self.new ≡ faults self.old };
}
