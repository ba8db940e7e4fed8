//! The series of a session.
ghost use Rattle.std.specs.Prelude.{◌≡◌, ◌≢◌, ◌<◌, ℕ, List, [], ◌∷◌, length, slice_index_or, IfOk};
ghost use Rattle.link_channels.specs.declared.bounds.TheConstants.{MAX_LINKS};
ghost use Rattle.time_series.specs.Points.{Mark, SeriesState, IsSeriesOf};
ghost use Rattle.session_figures.specs.Amounts.{on_link};
ghost use Rattle.session_figures.specs.Figures.{Entry};
ghost use Rattle.session_figures.specs.Counting.{AreSeriesOf};

use crate::amounts::{Amounts, on_link, used_before};
use link_channels::MAX_LINKS;
use std::alloc::{AllocError, Global};
use time_series::{Peaks, Series};

/// Three series for each link, and one for each thing that is counted.
#[derive(Drop)]
pub struct Table {
    /// The octets of payloads that came on each link.
    pub links: Vec<Series>,
    /// The packets that were received first time on each link.
    pub first_links: Vec<Series>,
    /// The packets that a retransmission on each link recovered.
    pub recovered_links: Vec<Series>,
    /// The octets of packets that were kept.
    pub kept: Series,
    /// The packets that were received first time.
    pub first: Series,
    /// The packets that a retransmission recovered.
    pub recovered: Series,
    /// The numbers that the playout passed without a packet.
    pub missing: Series,
    /// The packets that came too late.
    pub late: Series,
    /// How often the flow restarted.
    pub restarts: Series,
    /// The greatest fill of the buffer, in milliseconds.
    pub fill: Peaks,
    /// The most of the playout delay that was used up before a packet that was kept, in milliseconds.
    pub used: Peaks,
    /// By how many ticks the base of deadlines moved to later.
    pub later: Series,
    /// By how many it moved to earlier.
    pub earlier: Series,
}

impl Table {
    /// Nothing was counted. All memory of a counting but the buffer's is taken here.
    pub(crate) fn new(alloc: Global) -> Result<Table, AllocError>
        ensures state { IfOk result (λ t. AreSeriesOf t []) }
    {
        Ok(Table {
            links: new_links(alloc)?,
            first_links: new_links(alloc)?,
            recovered_links: new_links(alloc)?,
            kept: Series::new(alloc)?,
            first: Series::new(alloc)?,
            recovered: Series::new(alloc)?,
            missing: Series::new(alloc)?,
            late: Series::new(alloc)?,
            restarts: Series::new(alloc)?,
            fill: Peaks::new(alloc)?,
            used: Peaks::new(alloc)?,
            later: Series::new(alloc)?,
            earlier: Series::new(alloc)?,
        })
    }

    /// Adds what a step added in a second.
    pub(crate) fn add(&mut self, second: u64, amounts: &Amounts)
        ensures series { (entries : List Entry) → AreSeriesOf self.old entries
            → AreSeriesOf self.new (record { second = second; amounts = amounts.now } ∷ entries) }
    {
        let link = amounts.link;
        add_to_all(&mut self.links, second, link, amounts.octets);
        add_to_all(&mut self.first_links, second, link, amounts.first);
        add_to_all(&mut self.recovered_links, second, link, amounts.recovered);
        self.kept.add(second, amounts.kept);
        self.first.add(second, amounts.first);
        self.recovered.add(second, amounts.recovered);
        self.missing.add(second, amounts.passed.missing);
        self.late.add(second, amounts.late);
        self.restarts.add(second, amounts.passed.restarts);
        let playout = amounts.passed.playout;
        self.fill.add(second, playout.fill);
        self.used.add(second, used_before(amounts));
        self.later.add(second, playout.later);
        self.earlier.add(second, playout.earlier);
    }
}

// A series of nothing for each link.
fn new_links(alloc: Global) -> Result<Vec<Series>, AllocError>
    ensures count { IfOk result (λ v. length v.items ≡ MAX_LINKS) }
    ensures each { IfOk result (λ v. (link : ℕ) (d : SeriesState) → link < MAX_LINKS
        → IsSeriesOf (slice_index_or v.items link d) []) }
{
    let mut links = Vec::with_capacity(alloc, MAX_LINKS)?;
    for _ in 0..MAX_LINKS {
        links.push(Series::new(alloc)?)?;
    }
    Ok(links)
}

// Adds an amount to the series of the link that it came on, of all links.
fn add_to_all(links: &mut Vec<Series>, second: u64, from: u8, amount: u64)
    ensures count { length links.new.items ≡ length links.old.items }
    ensures each { (link : ℕ) (d : SeriesState) (marks : List Mark) → link < length links.old.items
        → IsSeriesOf (slice_index_or links.old.items link d) marks
        → IsSeriesOf (slice_index_or links.new.items link d)
        (record { second = second; amount = on_link link from amount } ∷ marks) }
{
    add_to_links(links, second, from, amount);
}

// Adds an amount to the series of the link that it came on, and none to each other.
fn add_to_links(links: &mut [Series], second: u64, from: u8, amount: u64)
    ensures count { length links.new ≡ length links.old }
    ensures each { (link : ℕ) (d : SeriesState) (marks : List Mark) → link < length links.old
        → IsSeriesOf (slice_index_or links.old link d) marks
        → IsSeriesOf (slice_index_or links.new link d)
        (record { second = second; amount = on_link link from amount } ∷ marks) }
{
    for link in 0..links.len() {
        add_at(links, link, second, on_link(link, from, amount));
    }
}

// Adds an amount to the series of one link.
fn add_at(links: &mut [Series], link: usize, second: u64, amount: u64)
    requires among { link < length links.old }
    ensures count { length links.new ≡ length links.old }
    ensures added { (d : SeriesState) (marks : List Mark) → IsSeriesOf (slice_index_or links.old link d) marks
        → IsSeriesOf (slice_index_or links.new link d) (record { second = second; amount = amount } ∷ marks) }
    ensures others { (w : ℕ) (d : SeriesState) → w ≢ link
        → slice_index_or links.new w d ≡ slice_index_or links.old w d }
{
    links[link].add(second, amount);
}
