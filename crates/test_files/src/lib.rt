//! Worked lines over a host in memory: captures that are packed, replayed, split, shown, counted and
//! reported, and simulated runs. There are tests alone.
#![tactic(auto)]

#[cfg(test)]
mod captures;
#[cfg(test)]
mod drills;
#[cfg(test)]
mod pcaps;
#[cfg(test)]
mod reports;
#[cfg(test)]
mod splits;
