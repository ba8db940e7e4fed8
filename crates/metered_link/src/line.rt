//! The text of a line.
ghost use Rattle.std.specs.Prelude.{◌≡◌, IfOk};
ghost use Rattle.serde_json.specs.View.{view};
ghost use Rattle.metered_link.specs.Lines.{event_name, link_data, link_line, rate};

use crate::{Event, LinkTotals, Telling};
use serde_json::{Value, json};
use std::alloc::{AllocError, Global};

/// The most octets that a rate counts.
const MOST: u64 = 1 << 40;

/// The bits a second between two totals.
fn rate(before: &LinkTotals, now: &LinkTotals) -> u64
    ensures value { result ≡ rate before.now now.now }
{
    let octets = now.octets.saturating_sub(before.octets).min(MOST);
    let us = now.us.saturating_sub(before.us).max(1);
    octets * 8_000_000 / us
}

fn event_name(event: Event) -> &'static str
    ensures value { result.now ≡ event_name event }
{
    match event {
        Event::Interval => "interval",
        Event::Up => "up",
        Event::Down => "down",
    }
}

fn link_value(alloc: Global, place: u8, telling: &Telling) -> Result<Value, AllocError>
    ensures value { IfOk result (λ v. view v ≡ link_data place telling.now) }
{
    let now = &telling.totals;
    let bits = rate(&telling.since, now);
    json!(in alloc; {
        "at": now.us,
        "bits": bits,
        "datagrams": now.datagrams,
        "dropped": now.dropped,
        "event": event_name(telling.event),
        "failed": now.failed,
        "link": place,
        "octets": now.octets,
        "refused": now.refused,
        "written": now.written
    })
}

/// The line of the link at a place. Memory may be refused.
pub fn link_line(alloc: Global, place: u8, telling: &Telling) -> Result<Vec<u8>, AllocError>
    ensures value { IfOk result (λ text. text.items ≡ link_line place telling.now) }
{
    let value = link_value(alloc, place, telling)?;
    let mut text = value.to_vec(alloc)?;
    text.push(b'\n')?;
    Ok(text)
}
