//! A sender and a receiver whose datagrams are lost, exchanged and asked for again; two flows in one tunnel; worked
//! scripts of a simulated network, and worked draws. There are tests alone.
#![tactic(auto)]

#[cfg(test)]
mod both_ends;
#[cfg(test)]
mod draws;
#[cfg(test)]
mod flows;
#[cfg(test)]
mod scripts;
