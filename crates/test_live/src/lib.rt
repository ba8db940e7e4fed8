//! Sendings, receivings of one flow and of several, and gateways over a host in memory, and a receiving over the
//! loopback interface. There are tests alone.
#![tactic(auto)]

#[cfg(test)]
mod fanning;
#[cfg(test)]
mod fixtures;
#[cfg(test)]
mod gate_rows;
#[cfg(test)]
mod gating;
#[cfg(test)]
mod loopback;
#[cfg(test)]
mod receive_rows;
#[cfg(test)]
mod receiving;
#[cfg(test)]
mod send_rows;
#[cfg(test)]
mod sending;
#[cfg(test)]
mod waiting;
#[cfg(test)]
mod watching;
