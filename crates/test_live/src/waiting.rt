//! A host in memory whose links wait: those that are sent on until they took so many packets, and the first two that are
//! received on for one another.
ghost use Rattle.std.specs.Prelude.{◌≡◌};

use link_channels::{Channel, Profile};
use outside_host::{Count, Host, HostBad, MemHost};
use outside_io::{Failed, MemSource, Store8, Words};
use outside_net::{Got, Link, LinkSpec, Role, ScriptClock, ScriptLink};
use std::alloc::Global;
use std::sync::Arc;
use std::sync::atomic::{AtomicU64, Ordering};
use std::test::Fail;

/// How often a read looks for the other link's.
const LOOKS: u64 = 1_000_000_000;

/// Where two links tell one another that their second reads were entered.
#[derive(Drop)]
pub struct Meeting {
    reads: u64,
    own: Arc<AtomicU64, Global>,
    other: Arc<AtomicU64, Global>,
    /// It waited in vain.
    missed: bool,
}

/// The meetings of two links, that of the second one first.
pub fn meetings(alloc: Global) -> Result<Vec<Meeting>, Fail> {
    let first = Arc::new(alloc, AtomicU64::new(0))?;
    let second = Arc::new(alloc, AtomicU64::new(0))?;
    let mut meetings = Vec::new(alloc);
    meetings.push(Meeting {
        reads: 0,
        own: Arc::try_clone(&second)?,
        other: Arc::try_clone(&first)?,
        missed: false,
    })?;
    meetings.push(Meeting {
        reads: 0,
        own: first,
        other: second,
        missed: false,
    })?;
    Ok(meetings)
}

/// Whether the other's second read is entered, before the looks are spent.
fn is_entered(other: &AtomicU64) -> bool {
    for _ in 0..LOOKS {
        if other.load(Ordering::SeqCst) != 0 {
            return true;
        }
    }
    false
}

impl Meeting {
    /// One more read is entered; the second one waits for the other link's second read.
    fn enter(&mut self) {
        self.reads = self.reads.saturating_add(1);
        if self.reads == 2 {
            self.own.store(1, Ordering::SeqCst);
            self.missed = !is_entered(&self.other);
        }
    }
}

/// What stands behind this head in the datagram of this place, from 0, among those with that head that a link took as media
/// or in a tunnel.
pub fn packet_taken<'a>(link: &'a ScriptLink, head: &[u8], place: usize) -> Option<&'a [u8]> {
    let mut left = place;
    for at in 0..64 {
        match link.taken(at) {
            Some((Channel::Media | Channel::Tunnel, octets)) => {
                if let Some(packet) = octets.strip_prefix(head) {
                    if left == 0 {
                        return Some(packet);
                    }
                    left -= 1;
                }
            }
            Some(_) => {}
            None => return None,
        }
    }
    None
}

/// A link that answers no read before it took so many packets, and none before a meeting where it has one.
#[derive(Drop)]
pub struct WaitingLink {
    link: ScriptLink,
    packets: usize,
    meeting: Option<Meeting>,
}

impl Link for WaitingLink {
    ghost use Rattle.std.specs.Prelude.{None, Some};
    ghost use Rattle.outside_net.specs.Scripts.{knows_in};

    ghost reads = { λ waiting. None };

    ghost taken = { λ waiting. Some waiting.link.taken };

    ghost knows = { λ waiting. knows_in waiting.link.known };

    ghost knew = { λ waiting. knows_in waiting.link.before };

    ghost faults = { λ waiting. waiting.link.faults };

    ghost ends = { λ waiting. waiting.link.ends };

    fn read(&mut self, buf: &mut [u8; 2048]) -> Got {
        if self.packets > 0 && packet_taken(&self.link, b"", self.packets - 1).is_none() {
            return Got::Quiet;
        }
        if let Some(meeting) = &mut self.meeting {
            meeting.enter();
        }
        self.link.read(buf)
    }

    fn refuse(&mut self) {
        self.link.refuse();
    }

    fn write(&mut self, channel: Channel, octets: &[u8]) -> Result<bool, Failed> {
        self.link.write(channel, octets)
    }
}

/// A host of such links: those that are sent on wait for so many packets, and the others for none, but have the last of
/// these meetings each while there are any. It doesn't tell.
#[derive(Drop)]
pub struct WaitingHost {
    host: MemHost,
    packets: usize,
    meetings: Vec<Meeting>,
    /// A link waited for another in vain.
    has_missed: bool,
}

impl WaitingHost {
    /// Over a host in memory.
    pub fn over(host: MemHost, packets: usize, meetings: Vec<Meeting>) -> WaitingHost {
        WaitingHost {
            host,
            packets,
            meetings,
            has_missed: false,
        }
    }

    /// Whether each meeting was handed out, and no link waited for another in vain.
    pub fn all_met(&self) -> bool {
        self.meetings.is_empty() && !self.has_missed
    }

    /// The link that came back at this place.
    pub fn returned_link(&self, place: u8) -> Option<&ScriptLink> {
        self.host.returned_link(place)
    }

    /// The sink that came back under this name.
    pub fn returned_sink(&self, name: &str) -> Option<&Store8> {
        self.host.returned_sink(name)
    }
}

impl Host for WaitingHost {
    ghost use Rattle.std.specs.Prelude.{false};
    ghost use Rattle.outside_host.specs.Shelf.{nowhere};
    ghost use Rattle.outside_host.specs.MemHost.{mem_calls};

    type Input = MemSource;

    type Output = Store8;

    type Random = Words;

    type Wire = WaitingLink;

    type Time = ScriptClock;

    ghost tells = { false };

    ghost shelf = { λ waiting. nowhere };

    ghost faults = { λ waiting. (mem_calls waiting.host).faults };

    fn source(&mut self, name: &str) -> Result<MemSource, HostBad> {
        self.host.source(name)
    }

    fn sink(&mut self, name: &str) -> Result<Store8, HostBad> {
        self.host.sink(name)
    }

    fn entropy(&mut self) -> Result<Words, HostBad> {
        self.host.entropy()
    }

    fn link(
        &mut self,
        spec: &LinkSpec,
        role: Role,
        profile: Profile,
    ) -> Result<WaitingLink, HostBad> {
        let link = match self.host.link(spec, role, profile) {
            Ok(link) => link,
            Err(bad) => return Err(bad),
        };
        let (packets, meeting) = match role {
            Role::Forwards => (self.packets, None),
            Role::Receives | Role::ReceivesCalling | Role::Sends | Role::SendsListening => {
                (0, self.meetings.pop())
            }
        };
        Ok(WaitingLink {
            link,
            packets,
            meeting,
        })
    }

    fn record(&mut self, name: &str) -> Result<(), HostBad> {
        self.host.record(name)
    }

    fn statistics(&mut self, every: u64, name: Option<&str>) -> Result<(), HostBad> {
        self.host.statistics(every, name)
    }

    fn clock(&mut self) -> Result<ScriptClock, HostBad> {
        self.host.clock()
    }

    fn back_source(&mut self, name: &str, object: MemSource) {
        self.host.back_source(name, object);
    }

    fn back_sink(&mut self, name: &str, object: Store8) {
        self.host.back_sink(name, object);
    }

    fn back_entropy(&mut self, place: u8, object: Words) {
        self.host.back_entropy(place, object);
    }

    fn back_link(&mut self, place: u8, object: WaitingLink) {
        let WaitingLink { link, meeting, .. } = object;
        if let Some(meeting) = meeting {
            self.has_missed = self.has_missed || meeting.missed;
        }
        self.host.back_link(place, link);
    }

    fn back_clock(&mut self, place: u8, object: ScriptClock) {
        self.host.back_clock(place, object);
    }

    fn report(&mut self, counts: &[Count]) {
        self.host.report(counts);
    }
}
