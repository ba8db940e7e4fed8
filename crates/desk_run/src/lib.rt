//! What a run over a receiver that link threads share is made of, whoever runs it: its memory, its workers from their
//! parts and back, its end, and what it leaves (`Receives`).
#![tactic(auto)]

mod closing;
mod concluding;
mod deciding;
mod ending;
pub mod laws;
mod run;
mod seats;
mod turn_seats;
mod workers;

pub use closing::{Received, conclude};
pub use concluding::{Closed, conclude_turns, ending_after, ending_by};
pub use ending::Ending;
pub use run::Run;
pub use seats::{MadeTrace, Memory, Seat, make};
pub use turn_seats::{MadeInTurns, make_in_turns};
pub use workers::{seated, seated_with, unseated, unseated_with};
