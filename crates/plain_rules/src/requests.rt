//! A plain, slow program that answers what the rules of requests say: it keeps every packet and every request, and makes
//! each test over all of them. Tests compare the timer that runs with it.
mod asking;
mod asks;
mod rtt;
mod steps;
mod times;

pub use asking::asked;
pub use rtt::longest_rtt;
pub use steps::{Input, Step};
