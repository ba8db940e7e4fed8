//! Worked runs of a receiver, of a sender and of the timer of requests. There are tests alone.
#![tactic(auto)]

#[cfg(test)]
mod expecting;
#[cfg(test)]
mod receiver;
#[cfg(test)]
mod sender;
#[cfg(test)]
mod timer;
