//! A session's datagrams: the one place where a datagram becomes an item and an item a datagram, in RIST's
//! Simple Profile (VSF TR-06-1) and in its Main Profile's tunnel (VSF TR-06-2, as this profile has it). A
//! contract sees an item as the media, the control packets or the keepalive that the datagram spells in the
//! session.
#![tactic(auto)]

mod among;
mod bad;
mod cipher;
mod item;
pub mod laws;
mod media;
mod opener;
mod packets;
mod reading;
mod sealing;
mod session;
mod shutter;
mod tunnel;

pub use bad::WireBad;
pub use gre_tunnel::Tunnel;
pub use item::{Item, Kind, Part};
pub use link_channels::Profile;
pub use media::Media;
pub use opener::Opener;
pub use session::Session;
pub use shutter::Shutter;
