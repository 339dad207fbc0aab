//! What the beginning of an operation answers where it doesn't begin.

/// The epoch rose while the operation was to begin.
#[derive(Clone, Copy, Debug, PartialEq, Eq)]
pub struct Moved {
    /// The epoch that was loaded first.
    pub first: u64,
    /// The greater one that was loaded then.
    pub last: u64,
}
