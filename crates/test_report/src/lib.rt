//! A worked capture, and the page of its figures, which were counted by hand; captures that mean no good; and series of
//! worked lengths. There are tests alone.
#![tactic(auto)]

#[cfg(test)]
mod hostile;
#[cfg(test)]
mod pages;
#[cfg(test)]
mod series;
