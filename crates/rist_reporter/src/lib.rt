//! What a receiver sends back: reports, requests for retransmission, answers to RTT requests and keepalives, each as a
//! datagram of its session. A contract sees the history of the receiver's steps, and of each step the datagrams that it
//! makes: which, as a definition over the history, and the RTCP compounds in them.
#![tactic(auto)]

mod answer;
mod asking;
mod links;
mod opening;
mod out;
mod report;
mod reporter;
mod requests;
mod ticking;

pub use answer::{ANSWER_LEN, answer_compound};
pub use out::{Out, Outs};
pub use report::{REPORT_LEN, Report, tick_compound};
pub use reporter::Reporter;
