//! A counting of figures as a visitor of a capture's records, which writes their page at the end.
ghost use Rattle.std.specs.Prelude.{◌≡◌, vec_len};
ghost use Rattle.report_page.specs.declared.page.TheConstants.{PAGE_LEN};

use crate::page::{PAGE_LEN, put_page};
use capture_file::Head;
use capture_walk::{VisitBad, Visitor};
use link_channels::MAX_PAYLOAD;
use outside_io::{Failed, NoMemory, Sink};
use rist_ends::{Settings, Told, what_of};
use rist_wire::{Opener, Session};
use session_figures::Counter;
use std::alloc::Global;

/// Opens a session's datagrams, counts the steps of their items, and writes the page of their figures at the end.
#[derive(Drop)]
pub struct PageWriter {
    /// Takes the datagrams of the session.
    pub opener: Opener,
    /// Is told their items.
    pub counter: Counter,
    /// Where a payload is put whose null packets were deleted.
    pub block: [u8; MAX_PAYLOAD],
    /// Where the page is put.
    pub page: Vec<u8>,
    ghost sized: { vec_len page ≡ PAGE_LEN },
}

impl PageWriter {
    ghost use Rattle.std.specs.Prelude.{◌≡◌, [], IfOk};
    ghost use Rattle.rist_wire.specs.Session.{IsSession};
    ghost use Rattle.rist_ends.specs.Settings.{IsInRange, limits_of};
    ghost use Rattle.report_page.specs.Reported.{HasReported};

    /// One in a session, with the limits of these settings, that was told nothing. All memory of a report is taken
    /// here.
    pub fn with(
        alloc: Global,
        session: &Session,
        settings: &Settings,
    ) -> Result<PageWriter, NoMemory>
        requires session { IsSession session.now }
        requires settings { IsInRange settings.now }
        ensures session { IfOk result (λ w. w.opener ≡ session.now) }
        ensures limits { IfOk result (λ w. w.counter.buffer.limits ≡ limits_of settings.now) }
        ensures start { IfOk result (λ w. HasReported w.opener w.counter []) }
    {
        let opener = Opener::with(alloc, session)?;
        let counter = Counter::with(alloc, settings)?;
        let mut page = Vec::with_capacity(alloc, PAGE_LEN)?;
        page.resize(PAGE_LEN, 0)?;
        Ok(PageWriter {
            opener,
            counter,
            block: [0; MAX_PAYLOAD],
            page,
        })
    }
}

impl Visitor for PageWriter {
    ghost use Rattle.std.specs.Prelude.{◌≡◌, ◌++◌, ◌∷◌, [], List, OnOk, OnErr, IsErrOf, IsTrue, false};
    ghost use Rattle.capture_file.specs.Capture.{Record, Fits};
    ghost use Rattle.capture_file.specs.Heads.{record_of};
    ghost use Rattle.outside_io.specs.Causes.{HasCause, HasWriteCause, fault_by};
    ghost use Rattle.outside_io.specs.Told.{Writes, WritesPart};
    ghost use Rattle.capture_walk.specs.Causes.{visit_fault};
    ghost use Rattle.capture_walk.specs.declared.visitor.VisitBad.TheVariants.{Memory};
    ghost use Rattle.report_page.specs.Reported.{HasReported, reported};

    ghost so_far = { λ w rs. [] };

    ghost whole = { λ w. reported w.opener w.counter.buffer.limits };

    ghost has_seen = { λ w rs. HasReported w.opener w.counter rs };

    // Nothing is said of a counting that was told the end.
    ghost has_ended = { λ w rs. Unit {0} };

    ghost wants_memory = { false };

    fn record<K: Sink>(
        &mut self,
        head: &Head,
        octets: &mut [u8],
        _sink: &mut K,
    ) -> Result<(), VisitBad> {
        let item = self.opener.take(head.channel, octets);
        let told = Told {
            link: head.link,
            us: head.us,
            what: what_of(&item, &mut self.block),
        };
        self.counter.step(&told);
        Ok(())
    }

    fn finish<K: Sink>(&mut self, sink: &mut K) -> Result<(), Failed> {
        self.counter.finish();
        let end = put_page(&self.counter.figures(), &mut self.page);
        sink.put(&self.page[..end])
    }
}
