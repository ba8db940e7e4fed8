//! What a host is told to record and to tell of a run.
use crate::fixtures::words;
use link_channels::Profile;
use outside_host::{Count, Host, HostBad, MemHost, MemParts, Place, Slot};
use outside_io::{MemSource, Pieces, Store8, Words};
use outside_net::{LinkSpec, Role, ScriptClock, ScriptLink};
use rist_top::{Status, run};
use std::alloc::Global;
use std::sync::Wait;
use std::test::Fail;
use std::thread::Threads;

/// A command line, the name of the record that is asked for, and the interval of the statistics that are, with their file.
#[derive(Clone, Copy)]
struct Row<'a> {
    line: &'a str,
    record: Option<&'a str>,
    statistics: Option<(u64, Option<&'a str>)>,
}

/// What each command is told, and of each one that asks for nothing.
static ROWS: [Row<'static>; 11] = [
    Row {
        line: "rist send - 127.0.0.1:5000 --linger 0",
        record: None,
        statistics: None,
    },
    Row {
        line: "rist send - 127.0.0.1:5000 --linger 0 --stats 3600000",
        record: None,
        statistics: Some((3_600_000, None)),
    },
    Row {
        line: "rist send - 127.0.0.1:5000 --linger 0 --stats 100 --stats-file s",
        record: None,
        statistics: Some((100, Some("s"))),
    },
    Row {
        line: "rist recv a 127.0.0.1:5000",
        record: None,
        statistics: None,
    },
    Row {
        line: "rist recv a 127.0.0.1:5000 --record r",
        record: Some("r"),
        statistics: None,
    },
    Row {
        line: "rist recv a 127.0.0.1:5000 --stats 100",
        record: None,
        statistics: Some((100, None)),
    },
    Row {
        line: "rist recv a 127.0.0.1:5000 --record r --stats 200 --stats-file s --keep 64",
        record: Some("r"),
        statistics: Some((200, Some("s"))),
    },
    Row {
        line: "rist fan 1968=a,1970=b 127.0.0.1:5000",
        record: None,
        statistics: None,
    },
    Row {
        line: "rist fan 1968=a,1970=b 127.0.0.1:5000 --record r --stats 100 --stats-file s",
        record: Some("r"),
        statistics: Some((100, Some("s"))),
    },
    Row {
        line: "rist gate 127.0.0.1:5000 127.0.0.1:5002",
        record: None,
        statistics: None,
    },
    Row {
        line: "rist gate 127.0.0.1:5000 127.0.0.1:5002 --record r --stats 100 --stats-file s",
        record: Some("r"),
        statistics: Some((100, Some("s"))),
    },
];

/// A host in memory that counts what it is told as its row says, before a link is handed out, and what else. It doesn't
/// tell.
#[derive(Drop)]
struct HearingHost<'a> {
    host: MemHost,
    row: Row<'a>,
    links: u64,
    records: u64,
    statistics: u64,
    others: u64,
}

impl<'a> HearingHost<'a> {
    fn over(host: MemHost, row: Row<'a>) -> HearingHost<'a> {
        HearingHost {
            host,
            row,
            links: 0,
            records: 0,
            statistics: 0,
            others: 0,
        }
    }

    /// Whether it was told once what its row says, and nothing else, and a link was handed out.
    fn has_heard(&self) -> bool {
        let records = if self.row.record.is_some() { 1 } else { 0 };
        let statistics = if self.row.statistics.is_some() { 1 } else { 0 };
        (self.records, self.statistics, self.others) == (records, statistics, 0) && self.links > 0
    }
}

impl<'a> Host for HearingHost<'a> {
    ghost use Rattle.std.specs.Prelude.{false};
    ghost use Rattle.outside_host.specs.Shelf.{nowhere};
    ghost use Rattle.outside_host.specs.MemHost.{mem_calls};

    type Input = MemSource;

    type Output = Store8;

    type Random = Words;

    type Wire = ScriptLink;

    type Time = ScriptClock;

    ghost tells = { false };

    ghost shelf = { λ hearing. nowhere };

    ghost faults = { λ hearing. (mem_calls hearing.host).faults };

    fn source(&mut self, name: &str) -> Result<MemSource, HostBad> {
        self.host.source(name)
    }

    fn sink(&mut self, name: &str) -> Result<Store8, HostBad> {
        self.host.sink(name)
    }

    fn entropy(&mut self) -> Result<Words, HostBad> {
        self.host.entropy()
    }

    fn link(
        &mut self,
        spec: &LinkSpec,
        role: Role,
        profile: Profile,
    ) -> Result<ScriptLink, HostBad> {
        self.links = self.links.saturating_add(1);
        self.host.link(spec, role, profile)
    }

    fn record(&mut self, name: &str) -> Result<(), HostBad> {
        if self.links == 0 && self.row.record == Some(name) {
            self.records = self.records.saturating_add(1);
        } else {
            self.others = self.others.saturating_add(1);
        }
        self.host.record(name)
    }

    fn statistics(&mut self, every: u64, name: Option<&str>) -> Result<(), HostBad> {
        if self.links == 0 && self.row.statistics == Some((every, name)) {
            self.statistics = self.statistics.saturating_add(1);
        } else {
            self.others = self.others.saturating_add(1);
        }
        self.host.statistics(every, name)
    }

    fn clock(&mut self) -> Result<ScriptClock, HostBad> {
        self.host.clock()
    }

    fn back_source(&mut self, name: &str, object: MemSource) {
        self.host.back_source(name, object);
    }

    fn back_sink(&mut self, name: &str, object: Store8) {
        self.host.back_sink(name, object);
    }

    fn back_entropy(&mut self, place: u8, object: Words) {
        self.host.back_entropy(place, object);
    }

    fn back_link(&mut self, place: u8, object: ScriptLink) {
        self.host.back_link(place, object);
    }

    fn back_clock(&mut self, place: u8, object: ScriptClock) {
        self.host.back_clock(place, object);
    }

    fn report(&mut self, counts: &[Count]) {
        self.host.report(counts);
    }
}

/// A host with an empty source under `-`, sinks under `a` and `b`, links that bring nothing, and clocks that stand at 0.
fn host(alloc: Global) -> Result<MemHost, Fail> {
    let mut sources = Vec::new(alloc);
    sources.push(Slot {
        name: String::from_str(alloc, "-")?,
        place: Place::Here(MemSource::Cut(Pieces::with(alloc, b"", &[], &[])?)),
    })?;
    let mut sinks = Vec::new(alloc);
    for name in ["a", "b"] {
        sinks.push(Slot {
            name: String::from_str(alloc, name)?,
            place: Place::Here(Store8::with(alloc, 64, &[])?),
        })?;
    }
    let mut links = Vec::new(alloc);
    let mut clocks = Vec::new(alloc);
    for _ in 0..4 {
        links.push(Place::Here(ScriptLink::with(alloc, Vec::new(alloc), true, 64, &[], &[])?))?;
        clocks.push(Place::Here(ScriptClock::with(alloc, &[])?))?;
    }
    Ok(MemHost::with(
        alloc,
        MemParts {
            sources,
            sinks,
            entropies: Vec::new(alloc),
            links,
            clocks,
            failing: Vec::new(alloc),
        },
    )?)
}

/// Whether a run is done, and its host was told as its row says.
fn is_as_told<R: Threads + Wait + Sync>(
    rt: &R,
    alloc: Global,
    row: &Row<'_>,
) -> Result<bool, Fail> {
    let words = words(alloc, row.line)?;
    let mut host = HearingHost::over(host(alloc)?, *row);
    let status = run(rt, alloc, words.as_slice(), &mut host);
    if status == Status::Memory {
        return Err(Fail::new("out of memory"));
    }
    Ok(status == Status::Done && host.has_heard())
}

#[test]
fn a_host_is_told_what_to_keep_and_to_tell_of_a_run(rt: HostRuntime) -> Result<(), Fail> {
    let alloc = rt.alloc();
    for row in &ROWS {
        assert!(rt; is_as_told(&rt, alloc, row)?, "{}", row.line);
    }
    Ok(())
}
