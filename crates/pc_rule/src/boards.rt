//! The opening of a board for callers. All memory is taken here, once.
ghost use Rattle.std.specs.Prelude.{IfOk, ◌≡◌, ◌<◌, ◌≤◌, ◌^◌, [], length};
ghost use Rattle.pc_model.specs.Forms.{IsSound};
ghost use Rattle.pc_model.specs.Linked.{opening_cells};
ghost use Rattle.pc_rule.specs.Passes.{board_size};
ghost use Rattle.pc_rule.specs.Shares.{slots_of, size_for, AreStarts, AreAll, AllNoted, NoneInstalled, NoneTried, NoneVisited, KnowNothing};
ghost use Rattle.pc_rule.specs.Recorded.{HaveShares};

use crate::board::{Board, Pass};
use crate::recorded::copied;
use pc_model::{Memory, Shape};
use pc_rule_law::{Opening, Share, Starts};
use std::alloc::Global;

/// The usual starts: attempt 0, install 0, stamp 1, epoch 1, version 0.
pub fn usual_starts() -> Starts
    ensures starts { AreStarts result }
    ensures usual { (result.attempt ≡ 0) × (result.install ≡ 0) × (result.stamp ≡ 1) × (result.epoch ≡ 1) × (result.version ≡ 0) }
{
    Starts {
        attempt: 0,
        install: 0,
        stamp: 1,
        epoch: 1,
        version: 0,
    }
}

/// How many slots these passes have together.
fn all_slots(shares: &[Share]) -> usize
    requires { slots_of shares.now ≤ 61000 }
    ensures { result ≡ slots_of shares.now }
{
    let mut slots = 0;
    let mut i = 0;
    while i < shares.len() {
        slots += shares[i].slots as usize;
        i += 1;
    }
    slots
}

/// Opens a board with one pass per share: the sentinel alone is in use, and each pass is at rest. It takes all memory
/// that the board needs; `Memory` comes where there is too little, and then none is held.
/// - `shares`: 1 to 32, with at most 61,000 slots in all.
/// - `starts`: what the counters start at, each at most its last value; the epoch from 1, and an even version.
///
/// The pass at index i has the number i + 1.
pub fn open_board<H: Shape>(
    alloc: Global,
    _shape: H,
    shares: &[Share],
    starts: Starts,
) -> Result<(Board<H>, Vec<Pass<H>>), Memory>
    requires shares { (1 ≤ length shares.now) × (length shares.now ≤ 32) × (slots_of shares.now ≤ 61000) }
    requires starts { AreStarts starts }
    requires sound { IsSound H.form (slots_of shares.now) (opening_cells starts.version) }
    ensures size { IfOk result (λ r. board_size r.0 ≡ size_for shares.now starts) }
    ensures passes { IfOk result (λ r. AreAll r.0 r.1.items) }
    ensures notes { IfOk result (λ r. AllNoted r.1.items []) }
    ensures shares { IfOk result (λ r. HaveShares shares.now r.1.items) }
    ensures installed { IfOk result (λ r. NoneInstalled r.1.items) }
    ensures tried { IfOk result (λ r. NoneTried r.1.items) }
    ensures knows { IfOk result (λ r. KnowNothing r.1.items) }
    ensures visited { IfOk result (λ r. NoneVisited r.1.items) }
{
    let Ok(own) = copied(alloc, shares) else {
        return Err(Memory);
    };
    let opening = Opening {
        seats: shares.len(),
        slots: all_slots(shares),
        shares: own,
        starts,
        given: Vec::new(alloc),
        posted: false,
    };
    let Ok(made) = Board::open(alloc, &opening, shares) else {
        return Err(Memory);
    };
    Ok(made)
}
