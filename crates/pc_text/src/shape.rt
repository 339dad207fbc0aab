//! The nodes of a tree as its shape lists them.

/// A node of a tree, as its shape is printed.
#[derive(Clone, Copy, Debug, PartialEq, Eq)]
pub struct ShapeLine {
    /// How deep it lies: the root at 1.
    pub depth: u32,
    /// Its key.
    pub key: u64,
    /// Its height: 1 without children.
    pub height: u32,
    /// The height of its left side less that of its right side.
    pub balance: i64,
}
