//! A visitor that writes the line of each record.
ghost use Rattle.std.specs.Prelude.{OnOk, OnErr, IsOkUnless};
ghost use Rattle.outside_io.specs.Told.{Appends, AppendsPart};
ghost use Rattle.outside_io.specs.Causes.{HasWriteCause, fault_by};
ghost use Rattle.capture_walk.specs.Causes.{visit_fault};
ghost use Rattle.capture_walk.specs.declared.visitor.VisitBad.TheVariants.{WriteFault};

use crate::line::line;
use capture_file::Head;
use capture_walk::{VisitBad, Visitor};
use link_channels::MAX_PAYLOAD;
use outside_io::{Failed, Sink};
use rist_wire::Opener;
use std::alloc::Global;

// Writes a line at once. Only a failed write is answered.
fn put_line<K: Sink>(text: &[u8], sink: &mut K) -> Result<(), VisitBad>
    ensures ok { OnOk result (Appends (K.contents sink.old) (K.contents sink.new) text.now) }
    ensures err { OnErr result (AppendsPart (K.contents sink.old) (K.contents sink.new) text.now) }
    ensures only { IsOkUnless result WriteFault }
    ensures cause { HasWriteCause (fault_by visit_fault result) (K.faults sink.old) (K.faults sink.new) }
{
    match sink.put(text) {
        Ok(()) => Ok(()),
        Err(_) => Err(VisitBad::WriteFault),
    }
}

/// Opens a session's datagrams, and writes a line for each.
#[derive(Drop)]
pub(crate) struct Printer {
    pub(crate) alloc: Global,
    pub(crate) opener: Opener,
    /// Where a payload is put whose null packets were deleted.
    pub(crate) block: [u8; MAX_PAYLOAD],
}

impl Visitor for Printer {
    ghost use Rattle.std.specs.Prelude.{true};
    ghost use Rattle.rist_show.specs.Lines.{lines};

    ghost so_far = { λ p. lines p.opener };

    ghost whole = { λ p. lines p.opener };

    ghost has_seen = { λ p rs. Unit {0} };

    ghost has_ended = { λ p rs. Unit {0} };

    ghost wants_memory = { true };

    fn record<K: Sink>(
        &mut self,
        head: &Head,
        octets: &mut [u8],
        sink: &mut K,
    ) -> Result<(), VisitBad> {
        let item = self.opener.take(head.channel, octets);
        match line(self.alloc, head, &item, &mut self.block) {
            Ok(text) => put_line(text.as_slice(), sink),
            Err(_) => Err(VisitBad::Memory),
        }
    }

    fn finish<K: Sink>(&mut self, sink: &mut K) -> Result<(), Failed> {
        let _ = sink;
        Ok(())
    }
}
