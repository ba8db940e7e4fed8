//! The commands over a source and a sink: a replay, a showing, a counting, a report and a packing. A contract sees what both
//! tell before and after.
#![tactic(auto)]

mod filing;
mod reporting;
mod working;

pub use filing::file_line;
