//! What a receiver keeps of its links: round-trip times, and when it reported and said that it is there.
ghost use Rattle.std.specs.Prelude.{◌≡◌, ◌<◌, ◌^◌, [], None};
ghost use Rattle.rist_rtt.specs.Echo.{echo_seen};
ghost use Rattle.request_rules.specs.Steps.{longer};
ghost use Rattle.link_channels.specs.Intervals.{has_passed_since as passed_since};
ghost use Rattle.link_channels.specs.Intervals.{report_interval};
ghost use Rattle.link_channels.specs.Intervals.{keepalive_interval};
ghost use Rattle.rist_reporter.specs.Links.{entry_at, longest_of};
ghost use Rattle.rist_reporter.specs.Inside.Noted.{noted, sampled};

use link_channels::{KEEPALIVE_INTERVAL, MAX_LINKS, REPORT_INTERVAL, has_passed_since};
use rist_rtt::{Echo, Rtt};
use std::marker::Model;

/// The entries of sixteen links: the smoothed round-trip time of each, and the times of its last report and keepalive.
#[derive(Drop)]
pub struct Links {
    rtts: [Rtt; MAX_LINKS],
    reports: [Option<u64>; MAX_LINKS],
    keepalives: [Option<u64>; MAX_LINKS],
}

impl Model for Links {
    ghost use Rattle.rist_reporter.specs.Links.{LinksState};

    ghost Value = { LinksState };

    ghost view = { λ l. record { rtts = l.rtts; reports = l.reports; keepalives = l.keepalives } };
}

/// Notes a tick of a link where the interval has passed.
fn note(entries: &mut [Option<u64>; MAX_LINKS], interval: u64, at: u64, link: u8)
    requires link { link < MAX_LINKS }
    requires time { at < 2 ^ 61 }
    ensures value { entries.new ≡ noted interval at link entries.old }
{
    if has_passed_since(interval, at, entries[link as usize]) {
        entries[link as usize] = Some(at);
    }
}

/// The greater of a round-trip time, if it is known, and another.
fn longer(rtt: &Rtt, longest: u64) -> u64
    ensures value { result ≡ longer rtt.now longest }
{
    match rtt.value() {
        None => longest,
        Some(micros) => micros.max(longest),
    }
}

impl Links {
    ghost use Rattle.rist_reporter.specs.Links.{AreLinksAfter};

    /// Nothing came yet.
    pub(crate) fn new() -> Links
        ensures state { AreLinksAfter result [] }
    {
        Links {
            rtts: [Rtt::new(); MAX_LINKS],
            reports: [None; MAX_LINKS],
            keepalives: [None; MAX_LINKS],
        }
    }

    /// The greatest round-trip time of all links in microseconds, and 0 where none is known.
    pub(crate) fn longest(&self) -> u64
        ensures value { result ≡ longest_of 16 self.now.rtts }
    {
        let mut longest = 0;
        for link in 0..MAX_LINKS {
            longest = longer(&self.rtts[link], longest);
        }
        longest
    }

    /// Whether a tick of a link at a time makes a report.
    pub(crate) fn is_report_due(&self, link: u8, at: u64) -> bool
        requires link { link < MAX_LINKS }
        requires time { at < 2 ^ 61 }
        ensures value { result ≡ passed_since report_interval at (entry_at self.now.reports link) }
    {
        has_passed_since(REPORT_INTERVAL, at, self.reports[link as usize])
    }

    /// Whether it makes a keepalive.
    pub(crate) fn is_keepalive_due(&self, link: u8, at: u64) -> bool
        requires link { link < MAX_LINKS }
        requires time { at < 2 ^ 61 }
        ensures value { result ≡ passed_since keepalive_interval at (entry_at self.now.keepalives link) }
    {
        has_passed_since(KEEPALIVE_INTERVAL, at, self.keepalives[link as usize])
    }

    /// A tick of a link at a time.
    pub(crate) fn tick(&mut self, link: u8, at: u64)
        requires link { link < MAX_LINKS }
        requires time { at < 2 ^ 61 }
        ensures value { self.new ≡ record self.old {
          reports = noted report_interval at link self.old.reports;
          keepalives = noted keepalive_interval at link self.old.keepalives;
        } }
    {
        note(&mut self.reports, REPORT_INTERVAL, at, link);
        note(&mut self.keepalives, KEEPALIVE_INTERVAL, at, link);
    }

    /// A link's response to an RTT request, which came at a moment in microseconds.
    pub(crate) fn sample(&mut self, link: u8, us: u64, response: &Echo<'_>)
        requires link { link < MAX_LINKS }
        ensures value { self.new ≡ record self.old {
          rtts = sampled link us (echo_seen response.now) self.old.rtts;
        } }
    {
        self.rtts[link as usize].sample(us, response);
    }
}
