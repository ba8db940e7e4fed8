//! The words of a command line: what the program is to do, and with which values. A contract sees a line as its
//! command, the defaults filled in. Which words are taken is `clap`'s; the forms and ranges of values are this crate's
//! own. What tells a user of the forms and ranges stands above it, and takes its modules.
#![tactic(auto)]

pub mod command;
pub mod drilling;
pub mod laws;
mod lines;
pub mod links;
pub mod matching;
pub mod outs;
pub mod pcap;
pub mod reading;
pub mod receiving;
pub mod session;
pub mod values;
pub mod watching;

pub use lines::{
    CountLine, DrillLine, FanLine, GateLine, Line, PackLine, ReceiverWords, RecvLine, Refused,
    ReplayLine, SendLine, ServingWords, SessionWords, ShowLine, SplitLine, StreamWords,
    WatchingWords,
};
pub use reading::line;
