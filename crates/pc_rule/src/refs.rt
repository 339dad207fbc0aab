//! References to what passes do, as callers have them.

/// What a reference refers to.
#[derive(Clone, Copy, Debug, PartialEq, Eq)]
pub enum RefKind {
    /// An install of a pass.
    Install,
    /// An exchange of a pass.
    Exchange,
}

/// A reference that stands in a word, or stood there.
#[derive(Clone, Copy, Debug, PartialEq, Eq)]
pub struct Ref {
    /// What it refers to.
    pub kind: RefKind,
    /// The seat of its pass, from 0, below 32.
    pub seat: u32,
    /// Its number among that pass's installs, below 2^54, or among its attempts, below 2^28.
    pub number: u64,
}
