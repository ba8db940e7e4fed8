//! What goes to the standard output and nowhere else: the help, the version, and the summary of a simulated run. A
//! contract sees what that output tells before and after.
#![tactic(auto)]

mod asking;
mod drilling;

pub use asking::tell;
pub use drilling::drill_line;
