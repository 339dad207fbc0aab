//! Exchanges that a pass ends alone: worked rows, each compared with what was worked out by hand, up to the last value of each
//! counter.
ghost use Rattle.std.specs.Prelude.{◌≡◌, ◌<◌, [], vec_len};
ghost use Rattle.pc_rule_law.specs.Conditions.{IsFree, CanWrite};
ghost use Rattle.pc_rule.specs.Passes.{view, listed, board_size, IsPassOf, IsSeatedAs};
ghost use Rattle.pc_rule.specs.Shares.{AreStarts, AreAll, NoneTried};

use crate::exchanges::{published, published_from, value, version};
use pc_kcas::{Verdict, finish};
use pc_model::{Counter, Field, Loose, Memory, Numbers};
use pc_rule::{Board, Pass, Place, Share, close_board, open_board, usual_starts};

/// The pass publishes. Says also whether it is published then, and how many words it lists.
fn tried(board: &Board<Loose>, pass: &mut Pass<Loose>) -> (Result<(), Numbers>, bool, usize)
    requires pass { IsPassOf board.now pass.old }
    requires open { CanWrite (view pass.old) × (listed pass.old ≡ []) }
    requires free { IsFree (view pass.old) }
    requires start { (board_size board.now).starts.version ≡ 0 }
    ensures seated { IsSeatedAs pass.old pass.new }
    ensures free { IsFree (view pass.new) }
{
    let answer = published(board, pass, version(), value(50));
    (answer, pass.published(), pass.listed().len())
}

/// The same by the first of all passes of the board.
fn tried_by(
    board: &Board<Loose>,
    passes: &mut Vec<Pass<Loose>>,
) -> (Result<(), Numbers>, bool, usize)
    requires all { AreAll board.now passes.old.items }
    requires some { 0 < vec_len passes.old }
    requires open { NoneTried passes.old.items }
    requires start { (board_size board.now).starts.version ≡ 0 }
    ensures { AreAll board.now passes.new.items }
{
    tried(board, &mut passes[0])
}

#[test]
fn the_last_number_of_an_attempt_is_told(rt: HostRuntime) -> Result<(), Memory> {
    let share = Share { slots: 1, calls: 0 };
    let mut starts = usual_starts();
    starts.attempt = 268_435_455;
    let (board, mut passes) = open_board(rt.alloc(), Loose, &[share], starts)?;
    let answer = tried_by(&board, &mut passes);
    let closed = close_board(board, passes);
    let last = Numbers {
        counter: Counter::Attempt,
        at: 268_435_455,
    };
    let value = closed.cell(1, Field::Value);
    assert_eq!(rt; (answer, value), ((Err(last), false, 0), 0));
    Ok(())
}

/// The pass publishes the version and a value of the sentinel, and ends the exchange. Says also whether it is published then, and how
/// many words it lists.
fn ended(board: &Board<Loose>, pass: &mut Pass<Loose>) -> Option<(Verdict, bool, usize)>
    requires pass { IsPassOf board.now pass.old }
    requires open { CanWrite (view pass.old) × (listed pass.old ≡ []) }
    requires free { IsFree (view pass.old) }
    requires start { (board_size board.now).starts.version ≡ 0 }
    ensures seated { IsSeatedAs pass.old pass.new }
    ensures free { IsFree (view pass.new) }
{
    let Ok(()) = published(board, pass, version(), value(50)) else {
        return None;
    };
    let verdict = finish(board, pass);
    Some((verdict, pass.published(), pass.listed().len()))
}

/// The same by the first of all passes of the board.
fn ended_by(board: &Board<Loose>, passes: &mut Vec<Pass<Loose>>) -> Option<(Verdict, bool, usize)>
    requires all { AreAll board.now passes.old.items }
    requires some { 0 < vec_len passes.old }
    requires open { NoneTried passes.old.items }
    requires start { (board_size board.now).starts.version ≡ 0 }
    ensures { AreAll board.now passes.new.items }
{
    ended(board, &mut passes[0])
}

#[test]
fn an_exchange_takes_effect(rt: HostRuntime) -> Result<(), Memory> {
    let share = Share { slots: 1, calls: 0 };
    let (board, mut passes) = open_board(rt.alloc(), Loose, &[share], usual_starts())?;
    let answer = ended_by(&board, &mut passes);
    let closed = close_board(board, passes);
    let left = (closed.cell(1, Field::Version), closed.cell(1, Field::Value));
    let won = Verdict::Won { stamp: 1 };
    assert_eq!(rt; (answer, left), (Some((won, false, 0)), (2, 50)));
    Ok(())
}

#[test]
fn an_exchange_that_lacks_an_install_leaves_the_old_values(rt: HostRuntime) -> Result<(), Memory> {
    let share = Share { slots: 1, calls: 0 };
    let mut starts = usual_starts();
    starts.install = 18_014_398_509_481_982;
    let (board, mut passes) = open_board(rt.alloc(), Loose, &[share], starts)?;
    let answer = ended_by(&board, &mut passes);
    let closed = close_board(board, passes);
    let left = (closed.cell(1, Field::Version), closed.cell(1, Field::Value));
    let last = Numbers {
        counter: Counter::Install,
        at: 18_014_398_509_481_983,
    };
    let wanted = (Verdict::Numbers(last), false, 0);
    assert_eq!(rt; (answer, left), (Some(wanted), (0, 0)));
    Ok(())
}

/// The pass publishes and ends an exchange of the version and a value of the sentinel, and then another of the same words.
fn twice(board: &Board<Loose>, pass: &mut Pass<Loose>) -> Option<(u64, Result<Verdict, Numbers>)>
    requires pass { IsPassOf board.now pass.old }
    requires open { CanWrite (view pass.old) × (listed pass.old ≡ []) }
    requires free { IsFree (view pass.old) }
    requires start { (board_size board.now).starts.version ≡ 0 }
    ensures seated { IsSeatedAs pass.old pass.new }
    ensures free { IsFree (view pass.new) }
{
    let Ok(()) = published(board, pass, version(), value(50)) else {
        return None;
    };
    let Verdict::Won { stamp } = finish(board, pass) else {
        return None;
    };
    let one = Place {
        node: 1,
        field: Field::Version,
        old: 2,
        new: 4,
    };
    let two = Place {
        node: 1,
        field: Field::Value,
        old: 50,
        new: 70,
    };
    match published_from(board, pass, one, two) {
        Ok(()) => Some((stamp, Ok(finish(board, pass)))),
        Err(numbers) => Some((stamp, Err(numbers))),
    }
}

/// The same by the first of all passes of the board.
fn twice_by(
    board: &Board<Loose>,
    passes: &mut Vec<Pass<Loose>>,
) -> Option<(u64, Result<Verdict, Numbers>)>
    requires all { AreAll board.now passes.old.items }
    requires some { 0 < vec_len passes.old }
    requires open { NoneTried passes.old.items }
    requires start { (board_size board.now).starts.version ≡ 0 }
    ensures { AreAll board.now passes.new.items }
{
    twice(board, &mut passes[0])
}

#[test]
fn a_pass_changes_what_it_changed_before(rt: HostRuntime) -> Result<(), Memory> {
    let share = Share { slots: 1, calls: 0 };
    let (board, mut passes) = open_board(rt.alloc(), Loose, &[share], usual_starts())?;
    let answer = twice_by(&board, &mut passes);
    let closed = close_board(board, passes);
    let left = (closed.cell(1, Field::Version), closed.cell(1, Field::Value));
    let wanted = (1, Ok(Verdict::Won { stamp: 2 }));
    assert_eq!(rt; (answer, left), (Some(wanted), (4, 70)));
    Ok(())
}

#[test]
fn no_attempt_comes_after_the_last(rt: HostRuntime) -> Result<(), Memory> {
    let share = Share { slots: 1, calls: 0 };
    let mut starts = usual_starts();
    starts.attempt = 268_435_454;
    let (board, mut passes) = open_board(rt.alloc(), Loose, &[share], starts)?;
    let answer = twice_by(&board, &mut passes);
    let closed = close_board(board, passes);
    let left = (closed.cell(1, Field::Version), closed.cell(1, Field::Value));
    let last = Numbers {
        counter: Counter::Attempt,
        at: 268_435_455,
    };
    assert_eq!(rt; (answer, left), (Some((1, Err(last))), (2, 50)));
    Ok(())
}

#[test]
fn no_exchange_takes_effect_at_the_last_stamp(rt: HostRuntime) -> Result<(), Memory> {
    let share = Share { slots: 1, calls: 0 };
    let mut starts = usual_starts();
    starts.stamp = 17_179_869_182;
    let (board, mut passes) = open_board(rt.alloc(), Loose, &[share], starts)?;
    let answer = twice_by(&board, &mut passes);
    let closed = close_board(board, passes);
    let left = (closed.cell(1, Field::Version), closed.cell(1, Field::Value));
    let last = Numbers {
        counter: Counter::Stamp,
        at: 17_179_869_183,
    };
    let wanted = (17_179_869_182, Ok(Verdict::Numbers(last)));
    assert_eq!(rt; (answer, left), (Some(wanted), (2, 50)));
    Ok(())
}
