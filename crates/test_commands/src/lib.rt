//! Worked lines of the commands, and what each command writes of a source. There are tests alone.
#![tactic(auto)]

#[cfg(test)]
mod asks;
#[cfg(test)]
mod counts;
#[cfg(test)]
mod fan_words;
#[cfg(test)]
mod lines;
#[cfg(test)]
mod live_words;
#[cfg(test)]
mod packings;
#[cfg(test)]
mod parts;
#[cfg(test)]
mod replays;
#[cfg(test)]
mod split_words;
#[cfg(test)]
mod words;
