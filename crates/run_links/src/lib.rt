//! What a receiving and a gateway share: what the receiver of a line is set to, and what it counted. A contract sees what
//! the links of a run brought.
#![tactic(auto)]

mod reporting;
mod settings;

pub use reporting::report;
pub use settings::settings_of;
