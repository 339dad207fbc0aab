//! Where the words of a board lie.
ghost use Rattle.std.specs.Prelude.{◌≡◌, ℕ, ◌+◌, ◌*◌, ◌/◌, ◌<◌, ◌≤◌};
ghost use Rattle.pc_model.specs.Cells.{field_number, IsNode};
ghost use Rattle.pc_rule_law.specs.Board.{Size, at_epoch, at_cell, place_number, address, stride, owns_begin};
ghost use Rattle.pc_rule.specs.Passes.{view, board_size, IsPassOf};

use crate::board::{Board, Pass};
use pc_model::{Field, Shape};

/// The place of a field in its node.
pub(crate) fn field_place(field: Field) -> usize
    ensures { result ≡ field_number field }
{
    match field {
        Field::Version => 0,
        Field::Key => 1,
        Field::Value => 2,
        Field::Left => 3,
        Field::Right => 4,
        Field::Parent => 5,
        Field::Height => 6,
        Field::Spare => 7,
    }
}

/// Where a word of a node lies, which is also the number of that word.
pub(crate) fn cell_place(node: u32, field: Field) -> usize
    ensures { result ≡ place_number node field }
{
    8 * node as usize + field_place(field)
}

/// Where a word of a pass lies on a board with this many slots, at this place among the pass's words.
pub(crate) fn own_place(slots: usize, seat: usize, offset: usize) -> usize
    requires { (slots ≤ 61000) × (seat < 32) × (offset < 8 * ((93 + 5 * slots) / 8)) }
    ensures { (z : Size) → z.slots ≡ slots → result ≡ owns_begin z + (seat * stride z + offset) }
{
    let stride = 8 * ((93 + 5 * slots) / 8);
    24 + 8 * slots + (seat * stride + offset)
}

impl<H: Shape> Board<H> {
    /// Where a word of a node lies.
    pub(crate) fn cell_word(&self, node: u32, field: Field) -> usize
        requires { IsNode (board_size self.now).slots node }
        ensures { result ≡ address (board_size self.now) (at_cell node field) }
    {
        cell_place(node, field)
    }

    /// Where the epoch lies.
    pub(crate) fn epoch_word(&self) -> usize
        ensures { result ≡ address (board_size self.now) at_epoch }
    {
        16 + 8 * self.slots
    }

    /// Where a word of a pass lies, at this place among its words.
    pub(crate) fn own_word(&self, seat: usize, offset: usize) -> usize
        requires { (seat < (board_size self.now).seats) × (offset < stride (board_size self.now)) }
        ensures { result ≡ owns_begin (board_size self.now) + (seat * stride (board_size self.now) + offset) }
    {
        own_place(self.slots, seat, offset)
    }

    /// Where a word of this pass lies, at this place among its words.
    pub(crate) fn word_of(&self, pass: &Pass<H>, offset: usize) -> usize
        requires pass { IsPassOf self.now pass.now }
        requires offset { offset < stride (board_size self.now) }
        ensures { result ≡ owns_begin (board_size self.now) + ((view pass.now).seat * stride (board_size self.now) + offset) }
    {
        let _ = self;
        pass.begin + offset
    }
}
