//! Worked datagrams of a session: what is taken, what is refused, and what is written. There are tests alone.
#![tactic(auto)]

#[cfg(test)]
mod among;
#[cfg(test)]
mod datagrams;
#[cfg(test)]
mod librist;
