//! Steps of an exchange up to its publication, each made from what the calls before it tell.
ghost use Rattle.std.specs.Prelude.{◌≡◌, ◌≤◌, ◌<◌, vec_len};
ghost use Rattle.pc_rule_law.specs.Conditions.{IsFree, CanWrite};
ghost use Rattle.pc_rule.specs.Passes.{view, board_size, IsPassOf, IsSamePass};
ghost use Rattle.pc_rule.specs.Shares.{AreAll, NoneTried};

use pc_model::{Loose, Memory};
use pc_rule::{
    Board, Pass, Share, close_board, open_board, step_9, step_10, step_12, usual_starts,
};

/// Loads the clock, stores a word of the own descriptor twice, and loads it and another again.
fn stored_and_loaded(board: &Board<Loose>, pass: &mut Pass<Loose>) -> [u64; 3]
    requires pass { IsPassOf board.now pass.old }
    requires one { 1 ≤ (board_size board.now).seats }
    requires may { CanWrite (view pass.old) }
    requires free { IsFree (view pass.old) }
    ensures same { IsSamePass pass.old pass.new }
    ensures free { IsFree (view pass.new) }
{
    let clock = step_9(board, pass);
    step_10(board, pass, 1, 2);
    step_10(board, pass, 1, 3);
    let count = step_12(board, pass, 1, 1);
    let mode = step_12(board, pass, 1, 0);
    [clock, count, mode]
}

/// The same by the first pass of a board.
fn by_the_first(board: &Board<Loose>, passes: &mut Vec<Pass<Loose>>) -> [u64; 3]
    requires all { AreAll board.now passes.old.items }
    requires tried { NoneTried passes.old.items }
    requires some { 0 < vec_len passes.old }
    ensures all { AreAll board.now passes.new.items }
{
    stored_and_loaded(board, &mut passes[0])
}

#[test]
fn a_descriptor_has_the_words_that_are_stored(rt: HostRuntime) -> Result<(), Memory> {
    let shares = [Share { slots: 1, calls: 0 }];
    let (board, mut passes) = open_board(rt.alloc(), Loose, &shares, usual_starts())?;
    let told = by_the_first(&board, &mut passes);
    let closed = close_board(board, passes);
    assert_eq!(rt; (told, closed.history().len()), ([1, 3, 0], 0));
    Ok(())
}
