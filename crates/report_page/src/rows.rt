//! The rows of the page's table.
ghost use Rattle.std.specs.Prelude.{◌≡◌, ◌≤◌, ◌+◌, length, take};
ghost use Rattle.time_series.specs.Points.{shown_points};
ghost use Rattle.session_figures.specs.Counting.{figures_seen};
ghost use Rattle.report_page.specs.Page.{rate_of, with_buffer_rows, with_drift_rows, with_some_row, with_jitter_rows, with_trip_rows, with_sent_rows, with_came_rows, with_last_rows, with_packets, with_table};

use html_parts::{FOOT_LEN, greatest, put_row, put_table_end, put_tenths_row, total};
use session_figures::Figures;
use time_series::Series;
use value_histogram::Spread;

/// How many octets rows of each of seven kinds have at most.
const ROWS_LEN: usize = 1000;

/// How many octets the table has at most.
pub const TABLE_LEN: usize = 7 * ROWS_LEN + FOOT_LEN;

// Puts what a manager asks first: how long it took, and what was sent.
fn put_sent_rows(out: &mut [u8], at: usize, figures: &Figures<'_>) -> usize
    requires room { at + ROWS_LEN ≤ length out.old }
    ensures octets { take result out.new
        ≡ with_sent_rows (take at out.old) (figures_seen figures.now) }
    ensures within { result ≤ at + ROWS_LEN }
{
    let ticks = figures.ticks;
    let kept = total(figures.table.kept.points());
    let at = put_row(
        out,
        at,
        "Length",
        ticks / 90_000,
        "s",
        "from the first record to the last",
    );
    let at = put_row(
        out,
        at,
        "Rate",
        rate_of(kept, ticks),
        "kbit/s",
        "octets written, over the length",
    );
    let at = put_row(
        out,
        at,
        "Written",
        kept,
        "octets",
        "payloads kept, null packets restored",
    );
    put_row(
        out,
        at,
        "Sent",
        figures.sent,
        "packets",
        "numbers from the lowest kept to the highest, flow by flow",
    )
}

// Puts what became of it.
fn put_came_rows(out: &mut [u8], at: usize, figures: &Figures<'_>) -> usize
    requires room { at + ROWS_LEN ≤ length out.old }
    ensures octets { take result out.new
        ≡ with_came_rows (take at out.old) (figures_seen figures.now) }
    ensures within { result ≤ at + ROWS_LEN }
{
    let table = figures.table;
    let at = put_packets(
        out,
        at,
        "First time",
        &table.first,
        "kept, and no retransmission",
    );
    let at = put_packets(
        out,
        at,
        "Recovered",
        &table.recovered,
        "kept, and a retransmission",
    );
    put_packets(
        out,
        at,
        "Never written",
        &table.missing,
        "numbers passed without a packet",
    )
}

// Puts what came in vain, how often the flow restarted, and how wide a bucket of the charts is.
fn put_last_rows(out: &mut [u8], at: usize, figures: &Figures<'_>) -> usize
    requires room { at + ROWS_LEN ≤ length out.old }
    ensures octets { take result out.new
        ≡ with_last_rows (take at out.old) (figures_seen figures.now) }
    ensures within { result ≤ at + ROWS_LEN }
{
    let table = figures.table;
    let width = table.kept.width();
    let at = put_packets(
        out,
        at,
        "Late",
        &table.late,
        "came after their deadline or the playout",
    );
    let at = put_row(
        out,
        at,
        "Restarts",
        total(table.restarts.points()),
        "restarts",
        "another flow took the place of the one before",
    );
    put_row(
        out,
        at,
        "Bucket",
        width,
        "s",
        "of the charts below: 1 s, doubled until 4,096 are enough",
    )
}

// Puts how the jitter of packets is spread.
fn put_jitter_rows(out: &mut [u8], at: usize, jitter: &Spread) -> usize
    requires room { at + ROWS_LEN ≤ length out.old }
    ensures octets { take result out.new ≡ with_jitter_rows (take at out.old) jitter.now }
    ensures within { result ≤ at + ROWS_LEN }
{
    let at = put_tenths_row(
        out,
        at,
        "Jitter, least",
        jitter.least,
        "ms",
        "time between two first-time packets, against that between their timestamps",
    );
    let at = put_tenths_row(
        out,
        at,
        "Jitter, median",
        jitter.median,
        "ms",
        "at most half are greater",
    );
    put_tenths_row(
        out,
        at,
        "Jitter, 99%",
        jitter.high,
        "ms",
        "at most one in a hundred is greater",
    )
}

// Puts how round-trip times are spread, if there is any.
fn put_trip_rows(out: &mut [u8], at: usize, trips: &Spread) -> usize
    requires room { at + ROWS_LEN ≤ length out.old }
    ensures octets { take result out.new ≡ with_trip_rows (take at out.old) trips.now }
    ensures within { result ≤ at + ROWS_LEN }
{
    if trips.count == 0 {
        return at;
    }
    let at = put_row(
        out,
        at,
        "Round trips",
        trips.count,
        "samples",
        "responses to requests of at most ten seconds before",
    );
    let at = put_row(
        out,
        at,
        "Round trip, least",
        trips.least,
        "ms",
        "from the moment in the response to its coming, less its delay",
    );
    let at = put_row(
        out,
        at,
        "Round trip, median",
        trips.median,
        "ms",
        "at most half are greater",
    );
    put_row(
        out,
        at,
        "Round trip, most",
        trips.greatest,
        "ms",
        "none is greater",
    )
}

// Puts the rows of the playout buffer.
fn put_buffer_rows(out: &mut [u8], at: usize, figures: &Figures<'_>) -> usize
    requires room { at + ROWS_LEN ≤ length out.old }
    ensures octets { take result out.new
        ≡ with_buffer_rows (take at out.old) (figures_seen figures.now) }
    ensures within { result ≤ at + ROWS_LEN }
{
    let table = figures.table;
    let at = put_row(
        out,
        at,
        "Buffer, most",
        greatest(table.fill.points()),
        "ms",
        "how far ahead the packet with the highest number was due",
    );
    put_row(
        out,
        at,
        "Delay used, most",
        greatest(table.used.points()),
        "ms",
        "of the playout delay: what the buffer lacked of it before a packet that was kept",
    )
}

// Puts how the base of deadlines drifted, if it moved.
fn put_drift_rows(out: &mut [u8], at: usize, figures: &Figures<'_>) -> usize
    requires room { at + ROWS_LEN ≤ length out.old }
    ensures octets { take result out.new
        ≡ with_drift_rows (take at out.old) (figures_seen figures.now) }
    ensures within { result ≤ at + ROWS_LEN }
{
    let table = figures.table;
    let at = put_some(
        out,
        at,
        "Drift to later",
        &table.later,
        "ticks",
        "of 1/90,000 s: deadlines moved so, as where the sender's clock is slow",
    );
    put_some(
        out,
        at,
        "Drift to earlier",
        &table.earlier,
        "ticks",
        "of 1/90,000 s: as where it is fast",
    )
}

// A row of what a series sums up to, if any of its points isn't 0.
fn put_some(out: &mut [u8], at: usize, name: &str, series: &Series, unit: &str, rule: &str) -> usize
    requires short { length name.now + length unit.now + length rule.now ≤ 150 }
    requires room { at + 260 ≤ length out.old }
    ensures octets { take result out.new
        ≡ with_some_row (take at out.old) name.now (shown_points series.now) unit.now rule.now }
    ensures within { result ≤ at + 260 }
{
    let sum = total(series.points());
    if sum == 0 {
        return at;
    }
    put_row(out, at, name, sum, unit, rule)
}

/// Puts the table of all that.
pub fn put_table(out: &mut [u8], at: usize, figures: &Figures<'_>) -> usize
    requires room { at + TABLE_LEN ≤ length out.old }
    ensures octets { take result out.new
        ≡ with_table (take at out.old) (figures_seen figures.now) }
    ensures within { result ≤ at + TABLE_LEN }
{
    let at = put_sent_rows(out, at, figures);
    let at = put_came_rows(out, at, figures);
    let at = put_jitter_rows(out, at, &figures.jitter);
    let at = put_trip_rows(out, at, &figures.trips);
    let at = put_buffer_rows(out, at, figures);
    let at = put_drift_rows(out, at, figures);
    let at = put_last_rows(out, at, figures);
    put_table_end(out, at)
}

// A row of how many packets a series counts.
fn put_packets(out: &mut [u8], at: usize, name: &str, series: &Series, rule: &str) -> usize
    requires short { length name.now + length rule.now ≤ 150 }
    requires room { at + 270 ≤ length out.old }
    ensures octets { take result out.new ≡ with_packets (take at out.old) name.now (shown_points series.now) rule.now }
    ensures within { result ≤ at + 270 }
{
    put_row(out, at, name, total(series.points()), "packets", rule)
}

// Kilobits in a second.
fn rate_of(octets: u64, ticks: u64) -> u64
    ensures value { result ≡ rate_of octets ticks }
{
    if ticks == 0 {
        0
    } else {
        octets.saturating_mul(720) / ticks
    }
}
