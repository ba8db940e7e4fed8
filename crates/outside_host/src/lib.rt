//! What hands out the objects of the outside, sources and sinks by name, links, clocks and random words by place, and takes
//! them back; and calls that take several links, clocks or sinks from a host, all of them or none. A contract sees what
//! stands under each name and at each place, where a host tells it, and a count of its faults.
#![tactic(auto)]

mod by_place;
mod clocks;
mod counts;
mod host;
mod links;
mod mem_host;
mod openings;
mod real_host;
mod real_input;
mod real_output;
mod record;
mod report;
mod room;
mod sinks;
mod slots;
mod terminal;
mod trouble;

pub use clocks::{back_clocks, open_clocks};
pub use counts::{Count, CountsText, MAX_COUNTS};
pub use host::{Host, HostBad, Opened, Place};
pub use links::{back_links, open_both, open_links};
pub use mem_host::{MemHost, MemParts};
pub use real_host::RealHost;
pub use real_input::{NamedInput, NetworkInput, RealInput};
pub use real_output::RealOutput;
pub use record::RecordFile;
pub use sinks::{back_sinks, open_sinks};
pub use slots::Slot;
pub use terminal::{ShownLine, StandingLine};
pub use trouble::Trouble;
