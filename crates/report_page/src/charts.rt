//! The charts of the page.
ghost use Rattle.std.specs.Prelude.{◌≡◌, ◌≤◌, ◌+◌, ◌*◌, length, take, map};
ghost use Rattle.time_series.specs.Points.{shown_points};
ghost use Rattle.session_figures.specs.Counting.{figures_seen};
ghost use Rattle.report_page.specs.Page.{with_buffer_charts, with_came_charts, with_drift_charts, with_lost_charts, with_link, with_links, with_some_chart, with_titled_chart};

use html_parts::{CHART_LEN, put_chart, put_numbered_title, put_title, total};
use session_figures::Figures;
use time_series::{Peaks, Series};

/// How many octets a chart with its title has at most.
pub const TITLED_LEN: usize = CHART_LEN + 100;

/// Puts the charts of what was written, and of how it came.
pub fn put_came_charts(out: &mut [u8], at: usize, figures: &Figures<'_>) -> usize
    requires room { at + 3 * TITLED_LEN ≤ length out.old }
    ensures octets { take result out.new
        ≡ with_came_charts (take at out.old) (figures_seen figures.now) }
    ensures within { result ≤ at + 3 * TITLED_LEN }
{
    let table = figures.table;
    let width = table.kept.width();
    let at = put_titled(out, at, "Written", "octets", width, &table.kept);
    let at = put_titled(out, at, "First time", "packets", width, &table.first);
    put_titled(out, at, "Recovered", "packets", width, &table.recovered)
}

/// Puts the charts of what was not, of what came in vain, and of restarts, if there was any.
pub fn put_lost_charts(out: &mut [u8], at: usize, figures: &Figures<'_>) -> usize
    requires room { at + 3 * TITLED_LEN ≤ length out.old }
    ensures octets { take result out.new
        ≡ with_lost_charts (take at out.old) (figures_seen figures.now) }
    ensures within { result ≤ at + 3 * TITLED_LEN }
{
    let table = figures.table;
    let width = table.kept.width();
    let at = put_titled(out, at, "Never written", "packets", width, &table.missing);
    let at = put_titled(out, at, "Late", "packets", width, &table.late);
    put_some(out, at, "Restarts", "restarts", width, &table.restarts)
}

/// Puts the charts of the playout buffer.
pub fn put_buffer_charts(out: &mut [u8], at: usize, figures: &Figures<'_>) -> usize
    requires room { at + 2 * TITLED_LEN ≤ length out.old }
    ensures octets { take result out.new
        ≡ with_buffer_charts (take at out.old) (figures_seen figures.now) }
    ensures within { result ≤ at + 2 * TITLED_LEN }
{
    let table = figures.table;
    let width = table.kept.width();
    let at = put_peaks(out, at, "Buffer", "ms", width, &table.fill);
    put_peaks(out, at, "Delay used", "ms", width, &table.used)
}

/// Puts the charts of where the base of deadlines moved, if it did.
pub fn put_drift_charts(out: &mut [u8], at: usize, figures: &Figures<'_>) -> usize
    requires room { at + 2 * TITLED_LEN ≤ length out.old }
    ensures octets { take result out.new
        ≡ with_drift_charts (take at out.old) (figures_seen figures.now) }
    ensures within { result ≤ at + 2 * TITLED_LEN }
{
    let table = figures.table;
    let width = table.kept.width();
    let at = put_some(out, at, "Drift to later", "ticks", width, &table.later);
    put_some(out, at, "Drift to earlier", "ticks", width, &table.earlier)
}

/// Puts the charts of an amount that came on links, of each link on which any came.
pub fn put_links(
    out: &mut [u8],
    at: usize,
    name: &str,
    unit: &str,
    width: u64,
    links: &[Series],
) -> usize
    requires short { length name.now + length unit.now ≤ 40 }
    requires room { at + TITLED_LEN * length links.now ≤ length out.old }
    ensures octets { take result out.new
        ≡ with_links (take at out.old) name.now unit.now width 0 (map shown_points links.now) }
    ensures within { result ≤ at + TITLED_LEN * length links.now }
{
    let mut end = at;
    for (link, series) in links.iter().enumerate() {
        end = put_link(out, end, name, unit, width, link as u64, series);
    }
    end
}

// A chart with its title.
fn put_titled(
    out: &mut [u8],
    at: usize,
    name: &str,
    unit: &str,
    width: u64,
    series: &Series,
) -> usize
    requires short { length name.now + length unit.now ≤ 40 }
    requires room { at + TITLED_LEN ≤ length out.old }
    ensures octets { take result out.new
        ≡ with_titled_chart (take at out.old) name.now unit.now width (shown_points series.now) }
    ensures within { result ≤ at + TITLED_LEN }
{
    let at = put_title(out, at, name);
    put_chart(out, at, unit, width, series.points())
}

// A chart of the greatest amounts, with its title.
fn put_peaks(out: &mut [u8], at: usize, name: &str, unit: &str, width: u64, peaks: &Peaks) -> usize
    requires short { length name.now + length unit.now ≤ 40 }
    requires room { at + TITLED_LEN ≤ length out.old }
    ensures octets { take result out.new
        ≡ with_titled_chart (take at out.old) name.now unit.now width (shown_points peaks.now) }
    ensures within { result ≤ at + TITLED_LEN }
{
    let at = put_title(out, at, name);
    put_chart(out, at, unit, width, peaks.points())
}

// A chart with its title, if any of its points isn't 0.
fn put_some(out: &mut [u8], at: usize, name: &str, unit: &str, width: u64, series: &Series) -> usize
    requires short { length name.now + length unit.now ≤ 40 }
    requires room { at + TITLED_LEN ≤ length out.old }
    ensures octets { take result out.new
        ≡ with_some_chart (take at out.old) name.now unit.now width (shown_points series.now) }
    ensures within { result ≤ at + TITLED_LEN }
{
    if total(series.points()) == 0 {
        return at;
    }
    put_titled(out, at, name, unit, width, series)
}

// The chart of a link, if any of its points isn't 0.
fn put_link(
    out: &mut [u8],
    at: usize,
    name: &str,
    unit: &str,
    width: u64,
    link: u64,
    series: &Series,
) -> usize
    requires short { length name.now + length unit.now ≤ 40 }
    requires room { at + TITLED_LEN ≤ length out.old }
    ensures octets { take result out.new
        ≡ with_link (take at out.old) name.now unit.now width link (shown_points series.now) }
    ensures within { result ≤ at + TITLED_LEN }
{
    let points = series.points();
    if total(points) == 0 {
        return at;
    }
    let at = put_numbered_title(out, at, name, link);
    put_chart(out, at, unit, width, points)
}
