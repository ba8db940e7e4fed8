//! Where the steps that a desk kept and those that its workers kept differ first. A contract sees lists of steps.
#![tactic(auto)]

mod comparing;
mod own;
mod same;
mod tear;
mod text;

pub use comparing::compare;
pub use own::OwnSteps;
pub use tear::Tear;
pub use text::TearText;
