//! A place where two lists of steps differ.
use rist_desk::Step;

/// Where the desk's steps of a link and that link's own steps differ first.
#[derive(Drop, PartialEq, Eq)]
pub struct Tear {
    pub link: u8,
    /// How many steps of the link stand before it.
    pub place: usize,
    /// The desk's step there; None past its last one.
    pub desk: Option<Step>,
    /// The link's own step there; None past its last one.
    pub own: Option<Step>,
}
