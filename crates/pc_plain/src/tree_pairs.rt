//! The pairs of a plain tree in order, by a stack of the nodes whose left trees are under way.
ghost use Rattle.std.specs.Prelude.{IfOk};
ghost use Rattle.pc_plain.specs.PlainPairs.{SpellsTree, ArePairsOf};

use crate::plain::PlainCells;
use pc_model::{Field, Memory};
use pc_plan::SENTINEL;
use std::alloc::Global;

/// The keys of a plain tree with their values, by rising key.
pub fn pairs(alloc: Global, cells: &PlainCells) -> Result<Vec<(u64, u64)>, Memory>
    requires { SpellsTree cells.now }
    ensures { IfOk result (λ v. ArePairsOf cells.now v.items) }
{
    let mut listed = Vec::new(alloc);
    let mut waiting: Vec<u32> = Vec::new(alloc);
    let mut link = cells.word(SENTINEL, Field::Left);
    'walk: loop {
        if link != 0 {
            let node = link as u32;
            if waiting.push(node).is_err() {
                return Err(Memory);
            }
            link = cells.word(node, Field::Left);
        } else {
            let Some(node) = waiting.pop() else {
                return Ok(listed);
            };
            let pair = (cells.word(node, Field::Key), cells.word(node, Field::Value));
            if listed.push(pair).is_err() {
                return Err(Memory);
            }
            link = cells.word(node, Field::Right);
        }
    }
}
