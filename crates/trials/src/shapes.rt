//! What is left of a tree, beside the pairs and the shape that a table has. Where memory is wanting, that isn't so.
ghost use Rattle.pc_plain.specs.PlainRuns.{HoldsPairs};
ghost use Rattle.pc_model.specs.Trees.{plain};
ghost use Rattle.pc_model.specs.TreeForms.{tree_form};

use pc_locked::LockedState;
use pc_plain::{PlainCells, pairs, shape};
use pc_text::ShapeLine;
use std::alloc::Global;

/// The depth, the key, the height and the balance of a node.
pub type Line = (u32, u64, u32, i64);

/// A key and its value.
pub type Pair = (u64, u64);

/// Whether the plain tree in the cells has these pairs.
pub fn has_pairs(alloc: Global, cells: &PlainCells, wanted: &[Pair]) -> bool
    requires { HoldsPairs (tree_form plain) cells.now }
{
    match pairs(alloc, cells) {
        Ok(listed) => listed.as_slice() == wanted,
        Err(_) => false,
    }
}

/// Whether the plain tree in the cells has this shape.
pub fn has_lines(alloc: Global, cells: &PlainCells, wanted: &[Line]) -> bool
    requires { HoldsPairs (tree_form plain) cells.now }
{
    match shape(alloc, cells) {
        Ok(lines) => are_lines(&lines, wanted),
        Err(_) => false,
    }
}

/// Whether these keys are left in a map, each with itself as its value.
pub fn has_keys(alloc: Global, state: &LockedState, keys: &[u64]) -> bool {
    match pairs(alloc, state.cells()) {
        Ok(listed) => are_keys(&listed, keys),
        Err(_) => false,
    }
}

/// Whether the tree of a map has this shape.
pub fn has_shape(alloc: Global, state: &LockedState, wanted: &[Line]) -> bool {
    match shape(alloc, state.cells()) {
        Ok(lines) => are_lines(&lines, wanted),
        Err(_) => false,
    }
}

fn are_lines(lines: &[ShapeLine], wanted: &[Line]) -> bool {
    if lines.len() != wanted.len() {
        return false;
    }
    for (i, line) in lines.iter().enumerate() {
        if (line.depth, line.key, line.height, line.balance) != wanted[i] {
            return false;
        }
    }
    true
}

fn are_keys(listed: &[Pair], keys: &[u64]) -> bool {
    if listed.len() != keys.len() {
        return false;
    }
    for (i, key) in keys.iter().enumerate() {
        if listed[i] != (*key, *key) {
            return false;
        }
    }
    true
}
