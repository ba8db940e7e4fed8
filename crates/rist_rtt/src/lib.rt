//! The RTT echo of RIST and a link's smoothed round-trip time. A contract sees the echoes of a compound
//! as a list, each a function of the compound's packets.
#![tactic(auto)]

mod echo;
mod first;
mod laws;
mod reading;
mod rtt;
mod writing;

pub use echo::{Echo, Echoes};
pub use first::{first_request, first_response};
pub use laws::{written_answers_are_read, written_requests_are_read};
pub use reading::echoes;
pub use rtt::{Rtt, Sample};
pub use writing::{put_answer, put_request};
