//! A chart of points.
ghost use Rattle.std.specs.Prelude.{◌≡◌, ◌≤◌, ◌+◌, ◌*◌, length, take};
ghost use Rattle.html_parts.specs.Chart.{with_title, with_numbered_title, with_most, with_caption, with_label, with_frame, with_point, with_points, with_chart};

use crate::digits::{put_grouped, put_number};
use crate::points::greatest;
use octet_fields::put_at;

/// The most points of a chart.
pub const MAX_POINTS: usize = 4096;

/// How many octets a point has at most.
const POINT_LEN: usize = 42;

/// How many octets a chart has at most beside its name.
pub const CHART_LEN: usize = 600 + MAX_POINTS * POINT_LEN;

/// How many octets a title has at most beside its name.
pub const TITLE_LEN: usize = 40;

/// Puts the title of a chart to its place, in front of the chart: a name.
pub fn put_title(out: &mut [u8], at: usize, name: &str) -> usize
    requires room { at + length name.now + TITLE_LEN ≤ length out.old }
    ensures octets { take result out.new ≡ with_title (take at out.old) name.now }
    ensures within { result ≤ at + length name.now + 13 }
{
    let at = put_at(out, at, b"<section><h2>");
    put_at(out, at, name.as_bytes())
}

/// Puts a title of a name and a number.
pub fn put_numbered_title(out: &mut [u8], at: usize, name: &str, number: u64) -> usize
    requires room { at + length name.now + TITLE_LEN ≤ length out.old }
    ensures octets { take result out.new ≡ with_numbered_title (take at out.old) name.now number }
    ensures within { result ≤ at + length name.now + TITLE_LEN }
{
    let at = put_title(out, at, name);
    put_number(out, at, number)
}

/// Puts a chart behind its title: the greatest of its points with their unit, how many seconds wide each bucket is, and
/// a step for each point, as wide as a bucket, the first at the left.
pub fn put_chart(out: &mut [u8], at: usize, unit: &str, width: u64, points: &[u64]) -> usize
    requires few { length points.now ≤ MAX_POINTS }
    requires short { length unit.now ≤ 40 }
    requires room { at + CHART_LEN ≤ length out.old }
    ensures octets { take result out.new ≡ with_chart (take at out.old) unit.now width points.now }
    ensures within { result ≤ at + CHART_LEN }
{
    let most = greatest(points);
    let at = put_caption(out, at, unit, width, most);
    let at = put_label(out, at, unit, width, most);
    let at = put_frame(out, at, points.len() as u64, most.max(1));
    let at = put_points(out, at, points);
    put_at(out, at, b"'/></svg></section>\n")
}

// What stands above a chart.
fn put_caption(out: &mut [u8], at: usize, unit: &str, width: u64, most: u64) -> usize
    requires room { at + length unit.now + 110 ≤ length out.old }
    ensures octets { take result out.new ≡ with_caption (take at out.old) unit.now width most }
    ensures within { result ≤ at + length unit.now + 110 }
{
    let at = put_at(out, at, b"</h2><p>");
    let at = put_most(out, at, unit, width, most);
    put_at(out, at, b"</p>\n")
}

// What a chart is called where it isn't seen.
fn put_label(out: &mut [u8], at: usize, unit: &str, width: u64, most: u64) -> usize
    requires room { at + length unit.now + 110 ≤ length out.old }
    ensures octets { take result out.new ≡ with_label (take at out.old) unit.now width most }
    ensures within { result ≤ at + length unit.now + 110 }
{
    let at = put_at(out, at, b"<svg role=img aria-label='");
    put_most(out, at, unit, width, most)
}

// The greatest of some points.
fn put_most(out: &mut [u8], at: usize, unit: &str, width: u64, most: u64) -> usize
    requires room { at + length unit.now + 75 ≤ length out.old }
    ensures octets { take result out.new ≡ with_most (take at out.old) unit.now width most }
    ensures within { result ≤ at + length unit.now + 75 }
{
    let at = put_at(out, at, b"Most ");
    let at = put_at(out, at, unit.as_bytes());
    let at = put_at(out, at, b" in ");
    let at = put_number(out, at, width);
    let at = put_at(out, at, b" s: ");
    put_grouped(out, at, most)
}

// How the line is drawn: a unit of the frame is a bucket to the right, and one of what is counted upwards.
fn put_frame(out: &mut [u8], at: usize, count: u64, high: u64) -> usize
    requires room { at + 200 ≤ length out.old }
    ensures octets { take result out.new ≡ with_frame (take at out.old) count high }
    ensures within { result ≤ at + 200 }
{
    let at = put_at(out, at, b"' preserveAspectRatio=none viewBox='0 0 ");
    let at = put_number(out, at, count);
    let at = put_at(out, at, b" ");
    let at = put_number(out, at, high);
    let at = put_at(out, at, b"'><path transform='matrix(1 0 0 -1 0 ");
    let at = put_number(out, at, high);
    put_at(out, at, b")' d='M0 0")
}

// The points, each with its place.
fn put_points(out: &mut [u8], at: usize, points: &[u64]) -> usize
    requires few { length points.now ≤ MAX_POINTS }
    requires room { at + POINT_LEN * length points.now ≤ length out.old }
    ensures octets { take result out.new ≡ with_points (take at out.old) 0 points.now }
    ensures within { result ≤ at + POINT_LEN * length points.now }
{
    let mut end = at;
    for (place, point) in points.iter().enumerate() {
        end = put_point(out, end, place as u64 + 1, *point);
    }
    end
}

// A step: upwards or down to a point, and to the right.
fn put_point(out: &mut [u8], at: usize, right: u64, point: u64) -> usize
    requires room { at + POINT_LEN ≤ length out.old }
    ensures octets { take result out.new ≡ with_point (take at out.old) right point }
    ensures within { result ≤ at + POINT_LEN }
{
    let at = put_at(out, at, b"V");
    let at = put_number(out, at, point);
    let at = put_at(out, at, b"H");
    put_number(out, at, right)
}
