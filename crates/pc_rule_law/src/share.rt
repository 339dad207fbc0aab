//! What a pass has of a board.

/// What one pass has of a board.
#[derive(Clone, Copy, Debug, PartialEq, Eq)]
pub struct Share {
    /// The slots that are its own at the opening.
    pub slots: u32,
    /// For how many of its calls there is room among the recorded ones.
    pub calls: u32,
}
