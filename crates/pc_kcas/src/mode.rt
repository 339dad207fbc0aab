//! How an exchange checks the nodes that it visited.

/// What an exchange checks beside its words.
#[derive(Clone, Copy, Debug, PartialEq, Eq)]
pub enum Mode {
    /// Nothing.
    Words,
    /// That the visited nodes are as they were.
    Path,
    /// The same, and no other exchange may hold one of them.
    LockedPath,
}
