//! The table of links.
ghost use Rattle.std.specs.Prelude.{◌≡◌, ◌≤◌, ◌+◌, ◌*◌, length, take, map};
ghost use Rattle.link_channels.specs.declared.bounds.TheConstants.{MAX_LINKS};
ghost use Rattle.time_series.specs.Points.{shown_points};
ghost use Rattle.report_page.specs.Page.{HasAllLinks, total_on, with_link_row, with_link_rows, with_link_table};

use html_parts::{FOOT_LEN, NUMBERS_LEN, put_columns, put_note, put_numbers, put_table_end, total};
use link_channels::MAX_LINKS;
use session_figures::Table;
use time_series::Series;

/// How many octets the table of links has at most, with what is said behind it.
pub const LINK_TABLE_LEN: usize = 400 + MAX_LINKS * NUMBERS_LEN + FOOT_LEN;

/// Puts a table of what came on each link on which any octet came, and how the charts below it are to be read.
pub fn put_link_table(out: &mut [u8], at: usize, ticks: u64, table: &Table) -> usize
    requires room { at + LINK_TABLE_LEN ≤ length out.old }
    ensures octets { HasAllLinks table.now → take result out.new ≡ with_link_table (take at out.old) ticks
        (map shown_points table.now.links.items) (map shown_points table.now.first_links.items)
        (map shown_points table.now.recovered_links.items) }
    ensures within { result ≤ at + LINK_TABLE_LEN }
{
    let at = put_columns(out, at, "Link", "Octets", "First time", "Recovered");
    let at = put_link_rows(
        out,
        at,
        all_links(&table.links),
        all_links(&table.first_links),
        all_links(&table.recovered_links),
    );
    let at = put_table_end(out, at);
    put_note(
        out,
        at,
        "Each chart runs from 0 s to the end after ",
        ticks / 90_000,
        " s, and its lower edge is 0. Its last bucket is cut short by the end.",
    )
}

/// The links that there may be.
pub fn all_links(links: &[Series]) -> &[Series]
    ensures value { result.now ≡ take MAX_LINKS links.now }
    ensures within { length result.now ≤ MAX_LINKS }
{
    &links[..links.len().min(MAX_LINKS)]
}

// A row for each link.
fn put_link_rows(
    out: &mut [u8],
    at: usize,
    links: &[Series],
    firsts: &[Series],
    recovered: &[Series],
) -> usize
    requires few { length links.now ≤ MAX_LINKS }
    requires room { at + MAX_LINKS * NUMBERS_LEN ≤ length out.old }
    ensures octets { take result out.new ≡ with_link_rows (take at out.old) (length links.now)
        (map shown_points links.now) (map shown_points firsts.now) (map shown_points recovered.now) }
    ensures within { result ≤ at + MAX_LINKS * NUMBERS_LEN }
{
    let mut end = at;
    for link in 0..links.len() {
        let octets = total_at(links, link);
        let first = total_at(firsts, link);
        let again = total_at(recovered, link);
        end = put_link_row(out, end, link as u64, octets, first, again);
    }
    end
}

// The row of a link, if any octet came on it.
fn put_link_row(
    out: &mut [u8],
    at: usize,
    link: u64,
    octets: u64,
    first: u64,
    recovered: u64,
) -> usize
    requires room { at + NUMBERS_LEN ≤ length out.old }
    ensures octets { take result out.new ≡ with_link_row (take at out.old) link octets first recovered }
    ensures within { result ≤ at + NUMBERS_LEN }
{
    if octets == 0 {
        return at;
    }
    put_numbers(out, at, link, octets, first, recovered)
}

// The sum of a link's series, and 0 where there is none.
fn total_at(links: &[Series], link: usize) -> u64
    ensures value { result ≡ total_on link (map shown_points links.now) }
{
    match links.get(link) {
        Some(series) => total(series.points()),
        None => 0,
    }
}
