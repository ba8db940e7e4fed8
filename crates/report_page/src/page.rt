//! The page of figures.
ghost use Rattle.std.specs.Prelude.{◌≡◌, ◌≤◌, ◌+◌, ◌*◌, length, take};
ghost use Rattle.link_channels.specs.declared.bounds.TheConstants.{MAX_LINKS};
ghost use Rattle.session_figures.specs.Counting.{figures_seen};
ghost use Rattle.report_page.specs.Page.{HasAllLinks, front_of, page_of, with_link_charts};

use crate::charts::{
    TITLED_LEN, put_buffer_charts, put_came_charts, put_drift_charts, put_links, put_lost_charts,
};
use crate::link_table::{LINK_TABLE_LEN, all_links, put_link_table};
use crate::rows::{TABLE_LEN, put_table};
use html_parts::{FOOT_LEN, HEAD_LEN, put_foot, put_head};
use link_channels::MAX_LINKS;
use session_figures::Figures;

/// How many octets a page has at most in front of the charts of links.
const FRONT_LEN: usize = HEAD_LEN + TABLE_LEN + LINK_TABLE_LEN + 10 * TITLED_LEN;

/// How many octets a page has at most.
pub const PAGE_LEN: usize = FRONT_LEN + 3 * MAX_LINKS * TITLED_LEN + FOOT_LEN;

/// Puts the page of figures into the front of the block, and says how long it is.
pub fn put_page(figures: &Figures<'_>, out: &mut [u8]) -> usize
    requires room { length out.old ≡ PAGE_LEN }
    // A table has three series for each link that there may be.
    ensures octets { HasAllLinks figures.now.table.now → take result out.new ≡ page_of (figures_seen figures.now) }
    ensures within { result ≤ PAGE_LEN }
{
    let at = put_front(figures, out);
    let at = put_link_charts(figures, out, at);
    put_foot(out, at)
}

// Puts the page up to where the charts of links begin.
fn put_front(figures: &Figures<'_>, out: &mut [u8]) -> usize
    requires room { length out.old ≡ PAGE_LEN }
    ensures octets { HasAllLinks figures.now.table.now → take result out.new ≡ front_of (figures_seen figures.now) }
    ensures within { result ≤ FRONT_LEN }
{
    let at = put_head(out, 0);
    let at = put_table(out, at, figures);
    let at = put_link_table(out, at, figures.ticks, figures.table);
    let at = put_came_charts(out, at, figures);
    let at = put_lost_charts(out, at, figures);
    let at = put_buffer_charts(out, at, figures);
    put_drift_charts(out, at, figures)
}

// Puts the charts of links.
fn put_link_charts(figures: &Figures<'_>, out: &mut [u8], at: usize) -> usize
    requires room { at + 3 * MAX_LINKS * TITLED_LEN ≤ length out.old }
    ensures octets { HasAllLinks figures.now.table.now → take result out.new
        ≡ with_link_charts (take at out.old) (figures_seen figures.now) }
    ensures within { result ≤ at + 3 * MAX_LINKS * TITLED_LEN }
{
    let width = figures.table.kept.width();
    let at = put_links(
        out,
        at,
        "Link ",
        "octets",
        width,
        all_links(&figures.table.links),
    );
    let at = put_links(
        out,
        at,
        "First time, link ",
        "packets",
        width,
        all_links(&figures.table.first_links),
    );
    put_links(
        out,
        at,
        "Recovered, link ",
        "packets",
        width,
        all_links(&figures.table.recovered_links),
    )
}
