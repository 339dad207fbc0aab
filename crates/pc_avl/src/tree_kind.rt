//! The kinds of search trees.

/// A kind of search tree.
#[derive(Clone, Copy, Debug, PartialEq, Eq)]
pub enum TreeKind {
    /// The plain tree, which isn't balanced.
    Bst,
    /// The relaxed AVL tree.
    Avl,
}
