//! The outside of the live ends: links, clocks and traces. A contract sees the answers that a link has still to give,
//! the moments that a clock has, the datagrams that a link took and the list that a trace keeps, where they tell them;
//! and counts of a link's faults and ends.
#![tactic(auto)]

mod call_list;
mod clock;
mod figures;
mod link;
mod link_spec;
mod list_trace;
mod octets;
mod peers;
mod port;
mod process_clock;
mod ready;
mod script_clock;
mod script_link;
mod telling;
mod trace;
mod udp_link;

pub use clock::Clock;
pub use figures::ReceiverFigures;
pub use link::{Got, Link};
pub use link_spec::{LinkSpec, Role};
pub use list_trace::ListTrace;
pub use octets::Octets;
pub use port::{RECEIVE_BUFFER, own_address, source_of};
pub use process_clock::ProcessClock;
pub use script_clock::ScriptClock;
pub use script_link::{ScriptLink, ScriptRead};
pub use telling::TellingLink;
pub use trace::{Full, Trace};
pub use udp_link::UdpLink;
