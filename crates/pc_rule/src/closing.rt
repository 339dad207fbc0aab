//! The closing of a board. The pass with the highest seat takes in all others.
ghost use Rattle.std.specs.Prelude.{◌≡◌, ◌<◌, [], length};
ghost use Rattle.pc_rule.specs.Closed.{closed_size, history_of};
ghost use Rattle.pc_rule.specs.Passes.{board_size};
ghost use Rattle.pc_rule.specs.Recorded.{IsHistoryOf};
ghost use Rattle.pc_rule.specs.Shares.{AreAll};
ghost use Rattle.pc_rule.specs.Left.{IsLeftByRun, HasNoInstall};
ghost use Rattle.pc_model.specs.Linked.{opening_cells};

use crate::board::{Board, Pass};
use crate::closed::Closed;
use pc_model::{Entry, Shape};
use std::marker::PhantomData;

/// Closes a board with all its passes, in the order of their numbers, of which no install stands. Each word that is left has
/// one plain value: that of the cells that the run of the passes' exchanges leaves, in which those stand that they know to have
/// taken effect. Of each pass with nothing published, the next free slot is the first of its share, and as many on as it has a spare (0 or 1) and
/// the run makes nodes in its share. What is left has also the calls that the passes recorded, by rising stamps. It takes no memory
/// and can't be refused.
pub fn close_board<H: Shape>(board: Board<H>, mut passes: Vec<Pass<H>>) -> Closed<H>
    requires passes { AreAll board passes.items }
    ensures installs { HasNoInstall result }
    ensures cells { IsLeftByRun result (opening_cells (board_size board).starts.version) passes.items }
    ensures size { closed_size result ≡ board_size board }
    ensures history { IsHistoryOf passes.items (history_of result) }
{
    let seats = board.seats;
    let slots = board.slots;
    let starts = board.starts;
    let Some(mut last) = passes.pop() else {
        unreachable!()
    };
    board.take_all(&mut last, passes);
    let (table, mut entries, shares) = board.end(last);
    entries.sort_unstable_by_key(|entry| entry.stamp);
    Closed {
        table,
        seats,
        slots,
        shares,
        starts,
        entries,
        shape: PhantomData,
    }
}

impl<H: Shape> Closed<H> {
    /// The calls that the passes of the board recorded, by rising stamps.
    pub fn history(&self) -> &[Entry]
        ensures { result.now ≡ history_of self.now }
    {
        self.entries.as_slice()
    }
}
