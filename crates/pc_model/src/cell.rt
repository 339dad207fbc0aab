//! The fields and the sides of a node, and the counters of a board.
ghost use Rattle.std.specs.Prelude.{◌≡◌};

/// A field of a node. The fields are numbered from 0 to 7 in this order.
#[derive(Clone, Copy, Debug, PartialEq, Eq)]
pub enum Field {
    /// Even while the node is in use; odd when it is marked as removed or was never used.
    Version,
    /// The key.
    Key,
    /// The value at the key.
    Value,
    /// The node below with the smaller keys, or 0.
    Left,
    /// The node below with the greater keys, or 0.
    Right,
    /// In a balanced tree the node above, else 0.
    Parent,
    /// In a balanced tree the stored height, else 0.
    Height,
    /// Not used: 0.
    Spare,
}

/// One of the two sides of a node: of its links, and of its key.
#[derive(Clone, Copy, Debug, PartialEq, Eq)]
pub enum Side {
    /// Where the smaller keys are.
    Left,
    /// Where the greater keys are.
    Right,
}

impl Side {
    ghost use Rattle.pc_model.specs.Sides.{link_of};

    /// The link on this side.
    #[inline]
    pub fn link(self) -> Field
        ensures { result ≡ link_of self }
    {
        match self {
            Side::Left => Field::Left,
            Side::Right => Field::Right,
        }
    }
}

/// A counter that ends at a last value.
#[derive(Clone, Copy, Debug, PartialEq, Eq)]
pub enum Counter {
    /// The attempts of a pass.
    Attempt,
    /// The installs of a pass.
    Install,
    /// The clock that gives moments.
    Stamp,
    /// The version of a node.
    Version,
    /// The epoch of a board.
    Epoch,
}
