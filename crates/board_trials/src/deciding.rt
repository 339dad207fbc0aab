//! A whole exchange by the steps of one pass, compared with what was worked out by hand: its words get their new values, and
//! the pass is open again.
ghost use Rattle.std.specs.Prelude.{◌≡◌, ◌<◌, ◌≤◌, [], true, false, length, vec_len};
ghost use Rattle.pc_rule_law.specs.Conditions.{IsFree, CanWrite};
ghost use Rattle.pc_exchange_law.specs.Ties.{last_stamp};
ghost use Rattle.pc_rule.specs.Passes.{view, knows, aim, listed, board_size, IsPassOf, IsSeatedAs, IsSamePass, IsSameButSlots};
ghost use Rattle.pc_rule.specs.Shares.{AreAll, NoneTried};
ghost use Rattle.pc_dcss.specs.Installs.{KeepsNotes, KeepsAttempt};
ghost use Rattle.pc_kcas.specs.Exchanges.{IsUncleared, IsPublished};
ghost use Rattle.board_trials.specs.Deciding.{HoldsListed, IsDrawn, HasSucceeded, IsCleanAt};

use crate::exchanges::{exchange_of, published, value, version};
use pc_kcas::install_first;
use pc_model::{Field, Loose, Memory};
use pc_rule::{
    Board, Pass, Share, close_board, open_board, step_7, step_9, step_13, step_14, step_15,
    step_16, usual_starts,
};
use pc_words::{Stage, Status, exchange_ref, pack, plain};

// From this stamp on none is drawn.
const LAST_STAMP: u64 = 17_179_869_183;

/// The pass aims at its own exchange and loads the clock. Says whether that is below the last stamp.
fn aimed(board: &Board<Loose>, pass: &mut Pass<Loose>) -> bool
    requires pass { IsPassOf board.now pass.old }
    requires published { IsUncleared pass.old }
    requires held { HoldsListed pass.old }
    requires free { IsFree (view pass.old) }
    ensures same { IsSamePass pass.old pass.new }
    ensures published { IsUncleared pass.new }
    ensures held { HoldsListed pass.new }
    ensures free { IsFree (view pass.new) }
    ensures aim { aim pass.new ≡ ((view pass.new).seat, (view pass.new).attempt.number) }
    ensures ready { result ≡ true → (knows pass.new).ready ≡ true }
{
    let of = pass.number();
    step_7(board, pass, of);
    step_9(board, pass) < LAST_STAMP
}

/// Draws a stamp for the own exchange.
fn drawn(board: &Board<Loose>, pass: &mut Pass<Loose>) -> u64
    requires pass { IsPassOf board.now pass.old }
    requires published { IsUncleared pass.old }
    requires some { 0 < length (listed pass.old) }
    requires held { HoldsListed pass.old }
    requires free { IsFree (view pass.old) }
    requires aim { aim pass.old ≡ ((view pass.old).seat, (view pass.old).attempt.number) }
    requires ready { (knows pass.old).ready ≡ true }
    ensures same { IsSamePass pass.old pass.new }
    ensures published { IsUncleared pass.new }
    ensures free { IsFree (view pass.new) }
    ensures drawn { result < last_stamp → IsDrawn pass.new result }
{
    let op = exchange_of(board, pass);
    step_13(board, pass, op)
}

/// The own exchange, which is to visit nothing, takes effect at this stamp. Says whether it was undecided until then.
fn decided(board: &Board<Loose>, pass: &mut Pass<Loose>, stamp: u64) -> bool
    requires pass { IsPassOf board.now pass.old }
    requires published { IsUncleared pass.old }
    requires free { IsFree (view pass.old) }
    requires stamp { stamp < last_stamp }
    requires drawn { IsDrawn pass.old stamp }
    ensures same { IsSamePass pass.old pass.new }
    ensures published { IsUncleared pass.new }
    ensures free { IsFree (view pass.new) }
    ensures succeeded { result ≡ true → HasSucceeded pass.new }
{
    if pass.attempt_word(2) != 0 {
        return false;
    }
    let of = pass.number();
    let number = pass.attempts();
    let undecided = pack(Status {
        number,
        stage: Stage::Undecided,
    });
    let succeeded = pack(Status {
        number,
        stage: Stage::Succeeded { stamp },
    });
    step_14(board, pass, of, undecided, succeeded) == undecided
}

/// The new number of the listed word at this index in place of the reference. Says whether that stood there.
fn replaced(board: &Board<Loose>, pass: &mut Pass<Loose>, i: usize) -> bool
    requires pass { IsPassOf board.now pass.old }
    requires published { IsUncleared pass.old }
    requires index { i < length (listed pass.old) }
    requires free { IsFree (view pass.old) }
    requires succeeded { HasSucceeded pass.old }
    ensures same { IsSamePass pass.old pass.new }
    ensures attempt { KeepsAttempt (view pass.old) (view pass.new) }
    ensures free { IsFree (view pass.new) }
    ensures succeeded { HasSucceeded pass.new }
    ensures keeps { KeepsNotes (view pass.old) (view pass.new) }
    ensures clean { result ≡ true → IsCleanAt pass.new i }
{
    let place = pass.listed()[i];
    let old = exchange_ref(board.seat_of(pass), pass.attempts());
    let new = plain(place.new);
    step_15(board, pass, place.node, place.field, old, new) == old
}

/// Puts all new numbers in place, and clears the own exchange. Says whether each word held the reference.
fn cleared(board: &Board<Loose>, pass: &mut Pass<Loose>) -> bool
    requires pass { IsPassOf board.now pass.old }
    requires published { IsUncleared pass.old }
    requires free { IsFree (view pass.old) }
    requires succeeded { HasSucceeded pass.old }
    ensures same { IsSameButSlots pass.old pass.new }
    ensures free { IsFree (view pass.new) }
{
    let count = pass.listed().len();
    let mut i = 0;
    while i < count {
        if !replaced(board, pass, i) {
            return false;
        }
        i += 1;
    }
    let idle = pack(Status {
        number: pass.attempts(),
        stage: Stage::Idle,
    });
    pass.tell_won(true);
    step_16(board, pass, idle);
    true
}

/// The pass installs the words of its published exchange, and decides and clears it.
fn carried_out(board: &Board<Loose>, pass: &mut Pass<Loose>) -> Option<(bool, bool)>
    requires pass { IsPassOf board.now pass.old }
    requires published { IsPublished pass.old }
    requires free { IsFree (view pass.old) }
    ensures same { IsSameButSlots pass.old pass.new }
    ensures free { IsFree (view pass.new) }
{
    let held = install_first(board, pass, 2);
    if held == 0 || (held as usize) < pass.listed().len() {
        return None;
    }
    if !aimed(board, pass) {
        return None;
    }
    let stamp = drawn(board, pass);
    if stamp >= LAST_STAMP {
        return None;
    }
    if !decided(board, pass, stamp) {
        return None;
    }
    Some((cleared(board, pass), pass.published()))
}

/// The pass publishes the version and a value of the sentinel, and carries the exchange out.
fn exchanged(board: &Board<Loose>, pass: &mut Pass<Loose>) -> Option<(bool, bool)>
    requires pass { IsPassOf board.now pass.old }
    requires open { CanWrite (view pass.old) × (listed pass.old ≡ []) }
    requires free { IsFree (view pass.old) }
    requires start { (board_size board.now).starts.version ≡ 0 }
    ensures seated { IsSeatedAs pass.old pass.new }
    ensures free { IsFree (view pass.new) }
{
    let Ok(()) = published(board, pass, version(), value(50)) else {
        return None;
    };
    carried_out(board, pass)
}

/// The same by the first of all passes of the board.
fn exchanged_by(board: &Board<Loose>, passes: &mut Vec<Pass<Loose>>) -> Option<(bool, bool)>
    requires all { AreAll board.now passes.old.items }
    requires some { 0 < vec_len passes.old }
    requires open { NoneTried passes.old.items }
    requires start { (board_size board.now).starts.version ≡ 0 }
    ensures { AreAll board.now passes.new.items }
{
    exchanged(board, &mut passes[0])
}

#[test]
fn a_whole_exchange_by_steps_leaves_the_new_values(rt: HostRuntime) -> Result<(), Memory> {
    let share = Share { slots: 1, calls: 0 };
    let (board, mut passes) = open_board(rt.alloc(), Loose, &[share], usual_starts())?;
    let answer = exchanged_by(&board, &mut passes);
    let closed = close_board(board, passes);
    let left = (closed.cell(1, Field::Version), closed.cell(1, Field::Value));
    assert_eq!(rt; (answer, left), (Some((true, false)), (2, 50)));
    Ok(())
}
