//! The nodes that a pass visited.
ghost use Rattle.std.specs.Prelude.{IfOk, ◌≡◌, ◌+◌, ◌≤◌, [], vec_capacity};

use std::alloc::{AllocError, Global};

/// A node that was visited, and the version that it had.
#[derive(Clone, Copy, Debug, PartialEq, Eq)]
pub struct Visit {
    /// The node.
    pub node: u32,
    /// Its version.
    pub version: u64,
}

/// The room for visits of all nodes: the slots and the sentinel.
pub(crate) fn visit_room(alloc: Global, slots: usize) -> Result<Vec<Visit>, AllocError>
    requires { slots ≤ 61000 }
    ensures none { IfOk result (λ r. r.items ≡ []) }
    ensures room { IfOk result (λ r. slots + 1 ≤ vec_capacity r) }
{
    let visits = Vec::with_capacity(alloc, slots + 1)?;
    Ok(visits)
}
