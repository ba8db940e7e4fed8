//! Why a piece is not read.
/// Why a piece is not read.
#[derive(Clone, Copy, Debug, PartialEq, Eq)]
pub enum PieceFault {
    /// A read of the source failed.
    ReadFault,
    /// More than 2^40 octets were read of the source.
    TooLong,
}
