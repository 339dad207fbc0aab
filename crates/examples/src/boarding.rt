//! Guests who board the ferry one after another, until it is full.
ghost use Rattle.std.specs.Prelude.{◌<◌, vec_len};
ghost use Rattle.pc_rule_law.specs.Conditions.{IsFree};
ghost use Rattle.pc_rule.specs.Passes.{view, SitsAs};
ghost use Rattle.pc_rule.specs.Shares.{AreAll, NoneTried, NoneVisited};
ghost use Rattle.examples.specs.Ferry.{IsReady};

use crate::ferry::{Boarding, Ferry, Guest, Miss, close, embark};
use pc_model::Memory;
use pc_rule::{Board, Pass, Share, open_board, usual_starts};

/// What became of the last of these guests.
fn embarked(
    board: &Board<Ferry>,
    pass: &mut Pass<Ferry>,
    guests: &[Guest],
) -> Result<Boarding, Miss>
    requires ready { IsReady board.now pass.old }
    ensures seated { IsReady board.now pass.new × SitsAs pass.old pass.new }
{
    let mut last = Ok(Boarding::Full(0));
    for guest in guests {
        last = embark(board, pass, *guest);
    }
    last
}

/// The same with the first of all passes of the ferry.
fn embarked_by(
    board: &Board<Ferry>,
    passes: &mut Vec<Pass<Ferry>>,
    guests: &[Guest],
) -> Result<Boarding, Miss>
    requires all { AreAll board.now passes.old.items }
    requires some { 0 < vec_len passes.old }
    requires open { NoneTried passes.old.items × NoneVisited passes.old.items }
    ensures { AreAll board.now passes.new.items }
{
    embarked(board, &mut passes[0], guests)
}

#[test]
fn ten_guests_are_aboard_and_no_more(rt: HostRuntime) -> Result<(), Memory> {
    let share = Share { slots: 1, calls: 0 };
    let (board, mut passes) = open_board(rt.alloc(), Ferry, &[share], usual_starts())?;
    let mut guests = [Guest::Grown; 11];
    guests[2] = Guest::Child;
    guests[5] = Guest::Child;
    guests[9] = Guest::Child;
    let last = embarked_by(&board, &mut passes, &guests);
    let aboard = close(board, passes);
    assert_eq!(rt; last, Ok(Boarding::Full(11)));
    assert_eq!(rt; aboard, (7, 3));
    Ok(())
}

#[test]
fn the_first_guest_is_aboard_at_the_first_stamp(rt: HostRuntime) -> Result<(), Memory> {
    let share = Share { slots: 1, calls: 0 };
    let (board, mut passes) = open_board(rt.alloc(), Ferry, &[share], usual_starts())?;
    let first = embarked_by(&board, &mut passes, &[Guest::Child]);
    let aboard = close(board, passes);
    assert_eq!(rt; first, Ok(Boarding::Aboard(1)));
    assert_eq!(rt; aboard, (0, 1));
    Ok(())
}
