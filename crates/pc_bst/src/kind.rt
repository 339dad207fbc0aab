//! What the nodes of a search tree carry, by its kind, and whose key a change charges.
ghost use Rattle.std.specs.Prelude.{◌≡◌, ◌<◌, length};
ghost use Rattle.pc_bst.specs.Kinds.{with_key_charged};

use pc_plan::{Change, SENTINEL};

/// What the nodes of a search tree carry.
#[derive(Clone, Copy, PartialEq, Eq)]
pub enum NodeKind {
    /// A node has no parent and no height.
    Plain,
    /// A node has its parent and a stored height, and a change charges keys.
    Balanced,
}

/// Charges the key of a node, unless the node is the sentinel.
#[inline]
pub fn charge_key_of(change: &mut Change, node: u32, key: u64)
    requires { length change.old.charged < 4 }
    ensures { change.new ≡ with_key_charged change.old node key }
{
    if node != SENTINEL {
        change.charge(key);
    }
}
