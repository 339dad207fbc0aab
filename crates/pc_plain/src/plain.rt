//! Plain cells: the nodes of one tree that one thread has for itself.
ghost use Rattle.std.specs.Prelude.{◌≡◌, ◌+◌, ◌≤◌, IfOk};

use crate::node_store::NodeStore;
use pc_model::{Field, Memory, Reply};
use pc_plan::Change;
use std::alloc::Global;
use std::fmt;
use std::marker::Model;

/// Plain cells for one tree.
#[derive(Drop)]
pub struct PlainCells {
    pub(crate) nodes: NodeStore,
    /// Where the plan that runs writes the exchange that it asks for.
    pub(crate) change: Change,
}

impl Model for PlainCells {
    ghost use Rattle.pc_plain.specs.PlainCells.{PlainWords};

    ghost Value = { PlainWords };

    ghost view = { λ p. p.nodes };
}

impl PlainCells {
    ghost use Rattle.pc_model.specs.Trees.{plain, balanced};
    ghost use Rattle.pc_plain.specs.PlainCells.{cells_of, AreOpening, IsEmptyTree};

    /// Cells of an empty tree with room for so many pairs.
    pub fn new(alloc: Global, slots: u32) -> Result<PlainCells, Memory>
        requires { slots ≤ 61000 }
        ensures slots { IfOk result (λ p. p.slots ≡ slots) }
        ensures opening { IfOk result AreOpening }
        ensures empty { IfOk result (IsEmptyTree plain) }
        ensures empty_balanced { IfOk result (IsEmptyTree balanced) }
    {
        let nodes = NodeStore::new(alloc, slots)?;
        Ok(PlainCells {
            nodes,
            change: Change::new(Reply::None),
        })
    }
    /// The number in a node's field.
    #[inline]
    pub(crate) fn word(&self, node: u32, field: Field) -> u64
        requires { node ≤ self.now.slots + 1 }
        ensures value { result ≡ cells_of self.now node field }
        ensures few { self.now.slots ≤ 61000 }
    {
        self.nodes.word(node, field)
    }
}

impl fmt::Debug for PlainCells {
    fn fmt<W: fmt::Write>(&self, f: &mut fmt::Formatter<W>) -> fmt::Result {
        f.debug_struct("PlainCells")
            .field("nodes", &self.nodes)
            .finish()
    }
}
