//! A link that ends where the program is to end.
ghost use Rattle.std.specs.Prelude.{◌≡◌, ℕ, Bool, true, false, Some};
ghost use Rattle.std.specs.Option.{option_map};
ghost use Rattle.outside_io.specs.Causes.{RoseWhere};
ghost use Rattle.outside_net.specs.Links.{IsWithin, KnowsAfter, IsBefore, answer_of, has_read_failed, has_come_to_end};
ghost use Rattle.outside_net.specs.Streams.{later, IsFirst};
ghost use Rattle.end_sign.specs.Until.{ends_with};

use crate::EndSign;
use link_channels::{Channel, MAX_DATAGRAM};
use outside_io::Failed;
use outside_net::{Got, Link, ReceiverFigures};

/// A link whose reads answer that none will come any more once a sign says that the program is to end. Before that they are the
/// reads of the link behind, and its writes, its peers and its faults are that link's always. What the reads have still to give is
/// not told.
#[derive(Drop)]
pub struct Until<L, S> {
    link: L,
    sign: S,
    /// How many reads came to an end by the sign.
    ends: u64,
}

impl<L, S> Until<L, S> {
    /// No read has come to an end by the sign.
    pub fn over(link: L, sign: S) -> Until<L, S>
        ensures link { result.link ≡ link }
        ensures sign { result.sign ≡ sign }
        ensures fresh { result.ends ≡ 0 }
    {
        Until {
            link,
            sign,
            ends: 0,
        }
    }
}

impl<L, S: Drop> Until<L, S> {
    /// The link behind.
    pub fn back(self) -> L
        ensures link { result ≡ self.link }
    {
        self.link
    }
}

impl<L: Link, S: EndSign> Link for Until<L, S> {
    ghost use Rattle.std.specs.Prelude.{None};
    ghost use Rattle.end_sign.specs.Until.{ends_with};

    ghost reads = { λ _. None };

    ghost taken = { λ until. L.taken until.link };

    ghost knows = { λ until. L.knows until.link };

    ghost knew = { λ until. L.knew until.link };

    ghost faults = { λ until. L.faults until.link };

    ghost ends = { λ until. ends_with (L.ends until.link) until.ends };

    /// Reads the link behind, unless the program is to end: then none comes any more, and the link isn't read.
    fn read(&mut self, buf: &mut [u8; MAX_DATAGRAM]) -> Got
        ensures within { IsWithin result }
        ensures ended { (s : ℕ → Bool) → S.answers self.old.sign ≡ Some s → s 0 ≡ true → result ≡ Got.End }
        ensures unread { (s : ℕ → Bool) → S.answers self.old.sign ≡ Some s → s 0 ≡ true
            → self.new.link ≡ self.old.link }
        ensures given { (s : ℕ → Bool) → S.answers self.old.sign ≡ Some s → s 0 ≡ false
            → IsFirst (L.reads self.old.link) (answer_of result buf.new) }
        ensures asked { S.answers self.new.sign ≡ option_map later (S.answers self.old.sign) }
        ensures peer { KnowsAfter (L.knows self.old.link) (L.knows self.new.link) result }
        ensures before { IsBefore (L.knows self.old.link) (L.knew self.new.link) result }
        ensures same { L.taken self.new.link ≡ L.taken self.old.link }
        ensures cause { RoseWhere (has_read_failed result) (L.faults self.old.link) (L.faults self.new.link) }
        ensures end { RoseWhere (has_come_to_end result)
            (ends_with (L.ends self.old.link) self.old.ends) (ends_with (L.ends self.new.link) self.new.ends) }
    {
        if self.sign.asked() {
            self.ends = self.ends.saturating_add(1);
            return Got::End;
        }
        self.link.read(buf)
    }

    fn refuse(&mut self) {
        self.link.refuse();
    }

    fn write(&mut self, channel: Channel, octets: &[u8]) -> Result<bool, Failed> {
        self.link.write(channel, octets)
    }

    fn assign(&mut self, flow: u8) {
        self.link.assign(flow);
    }

    fn address(&mut self, flow: u8) {
        self.link.address(flow);
    }

    fn wants(&self, us: u64) -> bool {
        self.link.wants(us)
    }

    fn tell(&mut self, us: u64, flow: u8, figures: &ReceiverFigures) {
        self.link.tell(us, flow, figures);
    }

    fn rest(&self, limit: u8) {
        self.link.rest(limit);
    }
}
