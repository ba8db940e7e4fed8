//! A host in memory.
ghost use Rattle.std.specs.Prelude.{◌≡◌, ◌<◌, ◌+◌, ◌⊎◌, [], length, take, slice_get, true, Some, None, IfSome, IfNone, IfOk, IfErr, IsOk, IsTrue, OnOk, OnErr};
ghost use Rattle.outside_io.specs.Calls.{no_calls, FailsNext, CountsCall};
ghost use Rattle.outside_io.specs.Told.{IsEmpty};
ghost use Rattle.outside_host.specs.Counts.{named};
ghost use Rattle.outside_host.specs.declared.counts.TheConstants.{MAX_COUNTS};
ghost use Rattle.outside_host.specs.Shelf.{Stays, TakesBack, IsAway, HasHostCause};
ghost use Rattle.outside_host.specs.Shelf.{HandsOutSource, HandsOutSink, HandsOutNext, HandsOutLink, HandsOutClock, KeepsLinks, IsUnwritten, KnowsStated};
ghost use Rattle.outside_net.specs.Scripts.{knows_in};
ghost use Rattle.outside_host.specs.Shelf.{ChangesSources, ChangesSinks, ChangesEntropies, ChangesDrawing, ChangesLinks, ChangesOpening, ChangesClocks, ChangesTiming, ChangesReport};
ghost use Rattle.outside_host.specs.declared.host.HostBad.TheVariants.{Failed};
ghost use Rattle.outside_host.specs.ByPlace.{object_at};
ghost use Rattle.outside_host.specs.Slots.{place_of};
ghost use Rattle.outside_host.specs.MemHost.{mem_shelf, mem_calls, IsRefused, HasNoEmptySink, HasNoNextEntropy, HasNoNextLink, HasNoNextClock, shelf_of};
ghost use Rattle.outside_host.specs.declared.host.Place.TheVariants.{Back};

use crate::by_place::{holds_link_for, put_place, returned_place, take_place};
use crate::openings::Openings;
use crate::report::Report;
use crate::slots::{is_fresh, put_back, returned, take_out};
use crate::{Count, Host, HostBad, Opened, Place, Slot};
use link_channels::Profile;
use outside_io::{FailingCalls, MemSource, NoMemory, Store8, Words};
use outside_net::{LinkSpec, Role, ScriptClock, ScriptLink};
use std::alloc::Global;

/// What a host in memory is made of.
#[derive(Drop)]
pub struct MemParts {
    /// The sources by their names.
    pub sources: Vec<Slot<MemSource>>,
    /// The sinks by their names.
    pub sinks: Vec<Slot<Store8>>,
    /// The sources of random words in the order in which they are handed out.
    pub entropies: Vec<Place<Words>>,
    /// The links in the order in which they are handed out.
    pub links: Vec<Place<ScriptLink>>,
    /// The clocks in the order in which they are handed out.
    pub clocks: Vec<Place<ScriptClock>>,
    /// The calls that are to fail, by their places from 0.
    pub failing: Vec<u64>,
}

/// A host that hands out objects in memory, and keeps those that come back. Of an absent name or place, of one that was
/// handed out, of a sink that isn't empty, and of a link that took a datagram or lacks a peer of its role the call fails.
#[derive(Drop)]
pub struct MemHost {
    sources: Vec<Slot<MemSource>>,
    sinks: Vec<Slot<Store8>>,
    entropies: Vec<Place<Words>>,
    next_entropy: usize,
    links: Vec<Place<ScriptLink>>,
    opened: Openings,
    clocks: Vec<Place<ScriptClock>>,
    next_clock: usize,
    report: Option<Report>,
    calls: FailingCalls,
}

impl MemHost {
    /// The first slot of a name counts.
    pub fn with(alloc: Global, parts: MemParts) -> Result<MemHost, NoMemory>
        ensures shelf { IfOk result (λ host. mem_shelf host ≡ shelf_of parts) }
        ensures calls { IfOk result (λ host. mem_calls host ≡ no_calls parts.failing.items) }
    {
        Ok(MemHost {
            sources: parts.sources,
            sinks: parts.sinks,
            entropies: parts.entropies,
            next_entropy: 0,
            links: parts.links,
            opened: Openings::with(alloc)?,
            clocks: parts.clocks,
            next_clock: 0,
            report: None,
            calls: FailingCalls::of(parts.failing),
        })
    }

    /// The source that came back under this name.
    pub fn returned_source(&self, name: &str) -> Option<&MemSource>
        ensures some { IfSome result (λ object. (mem_shelf self.now).sources name.now ≡ Back object.now) }
        ensures none { IfNone result ((object : _) → (mem_shelf self.now).sources name.now ≡ Back object
            → ⊥) }
    {
        returned(&self.sources, name)
    }

    /// The sink that came back under this name.
    pub fn returned_sink(&self, name: &str) -> Option<&Store8>
        ensures some { IfSome result (λ object. (mem_shelf self.now).sinks name.now ≡ Back object.now) }
        ensures none { IfNone result ((object : _) → (mem_shelf self.now).sinks name.now ≡ Back object → ⊥) }
    {
        returned(&self.sinks, name)
    }

    /// The random words that came back at this place.
    pub fn returned_entropy(&self, place: u8) -> Option<&Words>
        ensures some { IfSome result (λ object. (mem_shelf self.now).entropies place ≡ Back object.now) }
        ensures none { IfNone result ((object : _) → (mem_shelf self.now).entropies place ≡ Back object → ⊥) }
    {
        returned_place(&self.entropies, place as usize)
    }

    /// The link that came back at this place.
    pub fn returned_link(&self, place: u8) -> Option<&ScriptLink>
        ensures some { IfSome result (λ object. (mem_shelf self.now).links place ≡ Back object.now) }
        ensures none { IfNone result ((object : _) → (mem_shelf self.now).links place ≡ Back object → ⊥) }
    {
        returned_place(&self.links, place as usize)
    }

    /// How the link of this place was opened, where it was handed out.
    pub fn opened(&self, place: u8) -> Option<Opened>
        ensures value { result ≡ slice_get (mem_shelf self.now).opened_links place }
    {
        self.opened.get(place as usize)
    }

    /// The counts that came last, where some did.
    pub fn reported(&self) -> Option<&[Count]>
        ensures some { IfSome result (λ counts. (mem_shelf self.now).report ≡ Some (named counts.now)) }
        ensures none { IfNone result ((mem_shelf self.now).report ≡ None) }
    {
        match &self.report {
            Some(report) => Some(report.rows()),
            None => None,
        }
    }
}

impl Host for MemHost {
    type Input = MemSource;

    type Output = Store8;

    type Random = Words;

    type Wire = ScriptLink;

    type Time = ScriptClock;

    ghost tells = { true };

    ghost shelf = { mem_shelf };

    ghost faults = { λ host. host.calls.faults };

    fn source(&mut self, name: &str) -> Result<MemSource, HostBad>
        ensures ok { IsTrue true
            → IfOk result (λ object. HandsOutSource (mem_shelf self.old) (mem_shelf self.new) name.now object) }
        ensures err { IsTrue true → OnErr result (Stays (mem_shelf self.old).sources (mem_shelf self.new).sources) }
        ensures same { IsTrue true → ChangesSources (mem_shelf self.old) (mem_shelf self.new) }
        ensures cause { HasHostCause (mem_calls self.old).faults (mem_calls self.new).faults result }
        // It fails exactly where the call is to fail or nothing stands under the name to be handed out.
        ensures refused { IfErr result (λ bad.
            IsRefused bad (mem_calls self.old) (IsAway ((mem_shelf self.old).sources name.now))) }
        ensures complete { OnOk result (FailsNext (mem_calls self.old) → ⊥) }
        ensures calls { CountsCall (mem_calls self.old) (mem_calls self.new) result }
    {
        if self.calls.next_fails() {
            self.calls.count_fault();
            return Err(HostBad::Failed);
        }
        match take_out(&mut self.sources, name) {
            Some(object) => Ok(object),
            None => {
                self.calls.count_fault();
                Err(HostBad::Failed)
            }
        }
    }

    fn sink(&mut self, name: &str) -> Result<Store8, HostBad>
        ensures ok { IsTrue true
            → IfOk result (λ object. HandsOutSink (mem_shelf self.old) (mem_shelf self.new) name.now object) }
        ensures fresh { IfOk result (λ object. IsEmpty (Some object.contents)) }
        ensures err { IsTrue true → OnErr result (Stays (mem_shelf self.old).sinks (mem_shelf self.new).sinks) }
        ensures same { IsTrue true → ChangesSinks (mem_shelf self.old) (mem_shelf self.new) }
        ensures cause { HasHostCause (mem_calls self.old).faults (mem_calls self.new).faults result }
        // It fails exactly where the call is to fail or no empty sink stands under the name to be handed out.
        ensures refused { IfErr result (λ bad.
            IsRefused bad (mem_calls self.old) (HasNoEmptySink ((mem_shelf self.old).sinks name.now))) }
        ensures complete { OnOk result (FailsNext (mem_calls self.old) → ⊥) }
        ensures calls { CountsCall (mem_calls self.old) (mem_calls self.new) result }
    {
        if self.calls.next_fails() || !is_fresh(&self.sinks, name) {
            self.calls.count_fault();
            return Err(HostBad::Failed);
        }
        match take_out(&mut self.sinks, name) {
            Some(object) => Ok(object),
            None => {
                self.calls.count_fault();
                Err(HostBad::Failed)
            }
        }
    }

    fn entropy(&mut self) -> Result<Words, HostBad>
        ensures ok { IsTrue true
            → IfOk result (λ object. HandsOutNext (mem_shelf self.old) (mem_shelf self.new) object) }
        ensures next { IsTrue true → OnOk result ((mem_shelf self.new).next_entropy
            ≡ (mem_shelf self.old).next_entropy + 1) }
        ensures within { IsTrue true → OnOk result ((mem_shelf self.old).next_entropy < 256) }
        ensures err { IsTrue true → OnErr result (Stays (mem_shelf self.old).entropies (mem_shelf self.new).entropies) }
        ensures err_next { IsTrue true → OnErr result ((mem_shelf self.new).next_entropy
            ≡ (mem_shelf self.old).next_entropy) }
        ensures same { IsTrue true → ChangesDrawing (mem_shelf self.old) (mem_shelf self.new) }
        ensures cause { HasHostCause (mem_calls self.old).faults (mem_calls self.new).faults result }
        // It fails exactly where the call is to fail or 256 were handed out, or nothing stands at the place.
        ensures refused { IfErr result (λ bad.
            IsRefused bad (mem_calls self.old) (HasNoNextEntropy (mem_shelf self.old))) }
        ensures complete { OnOk result (FailsNext (mem_calls self.old) → ⊥) }
        ensures calls { CountsCall (mem_calls self.old) (mem_calls self.new) result }
    {
        if self.calls.next_fails() || self.next_entropy > 255 {
            self.calls.count_fault();
            return Err(HostBad::Failed);
        }
        match take_place(&mut self.entropies, self.next_entropy) {
            Some(object) => {
                self.next_entropy += 1;
                Ok(object)
            }
            None => {
                self.calls.count_fault();
                Err(HostBad::Failed)
            }
        }
    }

    fn link(&mut self, spec: &LinkSpec, role: Role, profile: Profile) -> Result<ScriptLink, HostBad>
        ensures ok { IsTrue true → IfOk result (λ object. HandsOutLink (mem_shelf self.old) (mem_shelf self.new)
            (record { spec = spec.now; role = role; profile = profile }) object) }
        ensures fresh { IfOk result (λ object. IsUnwritten (Some object.taken)) }
        ensures peers { IfOk result (λ object. KnowsStated (knows_in object.known) role profile) }
        ensures within { IsTrue true → OnOk result (length (mem_shelf self.old).opened_links < 256) }
        ensures err { IsTrue true → OnErr result (KeepsLinks (mem_shelf self.old) (mem_shelf self.new)) }
        ensures same { IsTrue true → ChangesOpening (mem_shelf self.old) (mem_shelf self.new) }
        ensures cause { HasHostCause (mem_calls self.old).faults (mem_calls self.new).faults result }
        // It fails exactly where the call is to fail or 256 were handed out, or no unused one that knows the peers of its
        // role stands at the place.
        ensures refused { IfErr result (λ bad.
            IsRefused bad (mem_calls self.old) (HasNoNextLink (mem_shelf self.old) role profile)) }
        ensures complete { OnOk result (FailsNext (mem_calls self.old) → ⊥) }
        ensures calls { CountsCall (mem_calls self.old) (mem_calls self.new) result }
    {
        let place = self.opened.len();
        if self.calls.next_fails()
            || place > 255
            || !holds_link_for(&self.links, place, role, profile)
        {
            self.calls.count_fault();
            return Err(HostBad::Failed);
        }
        match take_place(&mut self.links, place) {
            Some(object) => {
                self.opened.add(Opened {
                    spec: *spec,
                    role,
                    profile,
                });
                Ok(object)
            }
            None => {
                self.calls.count_fault();
                Err(HostBad::Failed)
            }
        }
    }

    fn record(&mut self, _name: &str) -> Result<(), HostBad>
        ensures same { IsTrue true → mem_shelf self.new ≡ mem_shelf self.old }
        ensures cause { HasHostCause (mem_calls self.old).faults (mem_calls self.new).faults result }
        // It changes nothing, and counts as no call.
        ensures complete { IsOk result }
        ensures calls { mem_calls self.new ≡ mem_calls self.old }
    {
        Ok(())
    }

    fn statistics(&mut self, _every: u64, _name: Option<&str>) -> Result<(), HostBad>
        ensures same { IsTrue true → mem_shelf self.new ≡ mem_shelf self.old }
        ensures cause { HasHostCause (mem_calls self.old).faults (mem_calls self.new).faults result }
        // It changes nothing, and counts as no call.
        ensures complete { IsOk result }
        ensures calls { mem_calls self.new ≡ mem_calls self.old }
    {
        Ok(())
    }

    fn clock(&mut self) -> Result<ScriptClock, HostBad>
        ensures ok { IsTrue true
            → IfOk result (λ object. HandsOutClock (mem_shelf self.old) (mem_shelf self.new) object) }
        ensures next { IsTrue true → OnOk result ((mem_shelf self.new).next_clock
            ≡ (mem_shelf self.old).next_clock + 1) }
        ensures within { IsTrue true → OnOk result ((mem_shelf self.old).next_clock < 256) }
        ensures err { IsTrue true → OnErr result (Stays (mem_shelf self.old).clocks (mem_shelf self.new).clocks) }
        ensures err_next { IsTrue true → OnErr result ((mem_shelf self.new).next_clock
            ≡ (mem_shelf self.old).next_clock) }
        ensures same { IsTrue true → ChangesTiming (mem_shelf self.old) (mem_shelf self.new) }
        ensures cause { HasHostCause (mem_calls self.old).faults (mem_calls self.new).faults result }
        // It fails exactly where the call is to fail or 256 were handed out, or nothing stands at the place.
        ensures refused { IfErr result (λ bad.
            IsRefused bad (mem_calls self.old) (HasNoNextClock (mem_shelf self.old))) }
        ensures complete { OnOk result (FailsNext (mem_calls self.old) → ⊥) }
        ensures calls { CountsCall (mem_calls self.old) (mem_calls self.new) result }
    {
        if self.calls.next_fails() || self.next_clock > 255 {
            self.calls.count_fault();
            return Err(HostBad::Failed);
        }
        match take_place(&mut self.clocks, self.next_clock) {
            Some(object) => {
                self.next_clock += 1;
                Ok(object)
            }
            None => {
                self.calls.count_fault();
                Err(HostBad::Failed)
            }
        }
    }

    fn back_source(&mut self, name: &str, object: MemSource)
        ensures state { IsTrue true
            → TakesBack (mem_shelf self.old).sources (mem_shelf self.new).sources name.now object }
        ensures same { IsTrue true → ChangesSources (mem_shelf self.old) (mem_shelf self.new) }
        ensures cause { (mem_calls self.new).faults ≡ (mem_calls self.old).faults }
        // It counts as no call.
        ensures calls { mem_calls self.new ≡ mem_calls self.old }
    {
        put_back(&mut self.sources, name, object);
    }

    fn back_sink(&mut self, name: &str, object: Store8)
        ensures state { IsTrue true → TakesBack (mem_shelf self.old).sinks (mem_shelf self.new).sinks name.now object }
        ensures same { IsTrue true → ChangesSinks (mem_shelf self.old) (mem_shelf self.new) }
        ensures cause { (mem_calls self.new).faults ≡ (mem_calls self.old).faults }
        // It counts as no call.
        ensures calls { mem_calls self.new ≡ mem_calls self.old }
    {
        put_back(&mut self.sinks, name, object);
    }

    fn back_entropy(&mut self, place: u8, object: Words)
        ensures state { IsTrue true
            → TakesBack (mem_shelf self.old).entropies (mem_shelf self.new).entropies place object }
        ensures same { IsTrue true → ChangesEntropies (mem_shelf self.old) (mem_shelf self.new) }
        ensures cause { (mem_calls self.new).faults ≡ (mem_calls self.old).faults }
        // It counts as no call.
        ensures calls { mem_calls self.new ≡ mem_calls self.old }
    {
        put_place(&mut self.entropies, place as usize, object);
    }

    fn back_link(&mut self, place: u8, object: ScriptLink)
        ensures state { IsTrue true → TakesBack (mem_shelf self.old).links (mem_shelf self.new).links place object }
        ensures same { IsTrue true → ChangesLinks (mem_shelf self.old) (mem_shelf self.new) }
        ensures cause { (mem_calls self.new).faults ≡ (mem_calls self.old).faults }
        // It counts as no call.
        ensures calls { mem_calls self.new ≡ mem_calls self.old }
    {
        put_place(&mut self.links, place as usize, object);
    }

    fn back_clock(&mut self, place: u8, object: ScriptClock)
        ensures state { IsTrue true → TakesBack (mem_shelf self.old).clocks (mem_shelf self.new).clocks place object }
        ensures same { IsTrue true → ChangesClocks (mem_shelf self.old) (mem_shelf self.new) }
        ensures cause { (mem_calls self.new).faults ≡ (mem_calls self.old).faults }
        // It counts as no call.
        ensures calls { mem_calls self.new ≡ mem_calls self.old }
    {
        put_place(&mut self.clocks, place as usize, object);
    }

    fn report(&mut self, counts: &[Count])
        ensures state { IsTrue true
            → (mem_shelf self.new).report ≡ Some (named (take MAX_COUNTS counts.now)) }
        ensures same { IsTrue true → ChangesReport (mem_shelf self.old) (mem_shelf self.new) }
        ensures cause { (mem_calls self.new).faults ≡ (mem_calls self.old).faults }
        // It counts as no call.
        ensures calls { mem_calls self.new ≡ mem_calls self.old }
    {
        self.report = Some(Report::of(counts));
    }
}
