//! Worked runs over links in memory: a sending, a desk and its workers, a receiving, one of several flows in a tunnel, and
//! what is sent on; and a lock that threads contend for. There are tests alone.
#![tactic(auto)]

#[cfg(test)]
mod answering;
#[cfg(test)]
mod asked;
#[cfg(test)]
mod comparing;
#[cfg(test)]
mod contending;
#[cfg(test)]
mod desk;
#[cfg(test)]
mod flowing;
#[cfg(test)]
mod links;
#[cfg(test)]
mod onward;
#[cfg(test)]
mod receiving;
#[cfg(test)]
mod sending;
#[cfg(test)]
mod serving;
#[cfg(test)]
mod turning;
