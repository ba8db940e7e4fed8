//! A run of receiving several flows that come in one tunnel, in turns: the links are served, and each place is told the end.
#![tactic(auto)]

mod closing;
mod passes;
mod run;
mod running;

pub use run::FlowsRun;
pub use running::receive_flows;
