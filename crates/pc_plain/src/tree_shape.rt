//! The shape of the tree in plain cells, without recursion: its nodes are listed, each before those
//! below it, and then taken from the last on, so that a node's two sides are done before it is.
ghost use Rattle.std.specs.Prelude.{◌≡◌, ◌+◌, ◌<◌, ◌≤◌, ◌^◌, ◌++◌, length, reverse, IfOk};
ghost use Rattle.pc_plain.specs.PlainPairs.{SpellsTree};
ghost use Rattle.pc_plain.specs.PlainCells.{cells_of};
ghost use Rattle.pc_plain.specs.PlainShapes.{IsShapeOf};
ghost use Rattle.pc_plain.specs.ShapePlaces.{ArePlaces, places_at, side_height, past_side};

use crate::plain::PlainCells;
use pc_model::{Field, Memory};
use pc_plan::SENTINEL;
use pc_text::ShapeLine;
use std::alloc::Global;

/// A node, and how deep it lies in the tree.
#[derive(Clone, Copy, Drop)]
struct Place {
    node: u32,
    depth: u32,
}

/// The shape of the tree: a line for each node, a node before its left side and that before its right
/// side. The time is linear in the number of nodes.
pub fn shape(alloc: Global, cells: &PlainCells) -> Result<Vec<ShapeLine>, Memory>
    requires { SpellsTree cells.now }
    ensures { IfOk result (λ lines. IsShapeOf cells.now lines.items) }
{
    let places = places(alloc, cells)?;
    lines(alloc, cells, places)
}

// The nodes of the tree, each before those below it, with a stack of the nodes that wait.
fn places(alloc: Global, cells: &PlainCells) -> Result<Vec<Place>, Memory>
    requires { SpellsTree cells.now }
    ensures { IfOk result (λ places. ArePlaces cells.now.slots (cells_of cells.now) places.items) }
{
    let mut listed = Vec::new(alloc);
    let mut waiting = Vec::new(alloc);
    hang(&mut waiting, cells.word(SENTINEL, Field::Left), 1)?;
    while let Some(place) = waiting.pop() {
        if listed.push(place).is_err() {
            return Err(Memory);
        }
        hang(
            &mut waiting,
            cells.word(place.node, Field::Right),
            place.depth + 1,
        )?;
        hang(
            &mut waiting,
            cells.word(place.node, Field::Left),
            place.depth + 1,
        )?;
    }
    Ok(listed)
}

// Lets the node at a link wait, if there is one.
fn hang(waiting: &mut Vec<Place>, link: u64, depth: u32) -> Result<(), Memory>
    requires { link < 2 ^ 32 }
    ensures { IfOk result (λ _. waiting.new.items ≡ waiting.old.items ++ places_at link depth) }
{
    if link != 0 {
        let node = link as u32;
        if waiting.push(Place { node, depth }).is_err() {
            return Err(Memory);
        }
    }
    Ok(())
}

// The lines of the nodes, with a stack of the heights of the sides that are done.
fn lines(
    alloc: Global,
    cells: &PlainCells,
    mut places: Vec<Place>,
) -> Result<Vec<ShapeLine>, Memory>
    requires { ArePlaces cells.now.slots (cells_of cells.now) places.items }
    ensures { IfOk result (λ lines. IsShapeOf cells.now lines.items) }
{
    let mut heights: Vec<u32> = Vec::new(alloc);
    let mut lines = Vec::new(alloc);
    while let Some(place) = places.pop() {
        let left = take_side(&mut heights, cells.word(place.node, Field::Left));
        let right = take_side(&mut heights, cells.word(place.node, Field::Right));
        let height = left.max(right) + 1;
        let line = ShapeLine {
            depth: place.depth,
            key: cells.word(place.node, Field::Key),
            height,
            balance: i64::from(left) - i64::from(right),
        };
        if heights.push(height).is_err() || lines.push(line).is_err() {
            return Err(Memory);
        }
    }
    lines.reverse();
    Ok(lines)
}

// Takes the height of the side at a link from the stack: an empty side has none there.
fn take_side(heights: &mut Vec<u32>, link: u64) -> u32
    ensures height { result ≡ side_height link (reverse heights.old.items) }
    ensures rest { reverse heights.new.items ≡ past_side link (reverse heights.old.items) }
{
    if link == 0 {
        return 0;
    }
    heights.pop().unwrap_or(0)
}
