//! The answer of a call that is at the end of a counter.
use crate::cell::Counter;

/// A counter was read in the call at its last value or above, so the call did nothing.
#[derive(Clone, Copy, Debug, PartialEq, Eq)]
pub struct Numbers {
    /// The counter.
    pub counter: Counter,
    /// What was read of it.
    pub at: u64,
}
