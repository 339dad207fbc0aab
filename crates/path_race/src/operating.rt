//! An operation of a thread.
ghost use Rattle.std.specs.Prelude.{◌≡◌, ℕ, ◌+◌, ◌≤◌, IfNone};
ghost use Rattle.pc_rule.specs.Passes.{board_size, SitsAs};
ghost use Rattle.path_race.specs.Racing.{IsReady, IsOpen, HasBegun};
ghost use Rattle.path_race.specs.Rooms.{HasRoom};

use crate::ends::Kind;
use crate::exchanging::exchange;
use crate::listing::add_words;
use crate::plan::Mix;
use crate::taking::{take_get, take_put};
use crate::walking::walk;
use crate::worker::Worker;
use pc_model::Loose;
use pc_path::{end, start, validate};
use pc_rule::Board;

// Makes one read of so many words, which is taken down where it took effect: that is the answer. None where a word couldn't be
// read.
fn read_words(board: &Board<Loose>, worker: &mut Worker, count: u32) -> Option<bool>
    requires begun { IsOpen board.now worker.old.pass }
    requires count { (2 ≤ count) × (count ≤ 6) }
    requires room { HasRoom 1 worker.old.wins }
    ensures seated { SitsAs worker.old.pass worker.new.pass }
    ensures begun { HasBegun board.now worker.new.pass }
    ensures room { (n : ℕ) → HasRoom (n + 1) worker.old.wins → HasRoom n worker.new.wins }
    ensures none { IfNone result (worker.new.wins ≡ worker.old.wins) }
{
    if !walk(board, &mut worker.pass, &mut worker.seen, count) {
        return None;
    }
    take_get(board, &mut worker.pass, worker.seen[1].old);
    let taken = worker.wins.take_down(&worker.seen[..count as usize]);
    let answer = validate(board, &mut worker.pass);
    worker.hand.ends.count(Kind::Read, answer);
    Some(worker.wins.end(taken, Kind::Read, answer))
}

// Makes one exchange of so many words, in the same way.
fn change_words(board: &Board<Loose>, worker: &mut Worker, kind: Kind, count: u32) -> Option<bool>
    requires begun { IsOpen board.now worker.old.pass }
    requires count { (2 ≤ count) × (count ≤ 6) }
    requires slots { (board_size board.now).slots ≡ 0 }
    requires room { HasRoom 1 worker.old.wins }
    ensures seated { SitsAs worker.old.pass worker.new.pass }
    ensures begun { HasBegun board.now worker.new.pass }
    ensures room { (n : ℕ) → HasRoom (n + 1) worker.old.wins → HasRoom n worker.new.wins }
    ensures none { IfNone result (worker.new.wins ≡ worker.old.wins) }
{
    if !add_words(board, &mut worker.pass, &mut worker.hand, count) {
        return None;
    }
    let value = worker.pass.listed()[1];
    take_put(board, &mut worker.pass, value.old, value.new);
    let taken = worker.wins.take_down(worker.pass.listed());
    let held = worker.hand.held();
    let answer = exchange(board, &mut worker.pass, kind, held);
    worker.hand.ends.count(kind, answer);
    Some(worker.wins.end(taken, kind, answer))
}

// Makes one such operation, which has begun.
fn make(board: &Board<Loose>, worker: &mut Worker, mix: Mix) -> Option<bool>
    requires begun { IsOpen board.now worker.old.pass }
    requires slots { (board_size board.now).slots ≡ 0 }
    requires room { HasRoom 1 worker.old.wins }
    ensures seated { SitsAs worker.old.pass worker.new.pass }
    ensures begun { HasBegun board.now worker.new.pass }
    ensures room { (n : ℕ) → HasRoom (n + 1) worker.old.wins → HasRoom n worker.new.wins }
    ensures none { IfNone result (worker.new.wins ≡ worker.old.wins) }
{
    let count = worker.hand.count();
    match worker.hand.kind(mix) {
        Kind::Read => read_words(board, worker, count),
        kind => change_words(board, worker, kind, count),
    }
}

/// Makes one operation of the mix, which is taken down where it took effect: that is the answer. None where a word couldn't be read.
pub(crate) fn operate(board: &Board<Loose>, worker: &mut Worker, mix: Mix) -> Option<bool>
    requires ready { IsReady board.now worker.old.pass }
    requires slots { (board_size board.now).slots ≡ 0 }
    requires room { HasRoom 1 worker.old.wins }
    ensures seated { SitsAs worker.old.pass worker.new.pass }
    ensures ready { IsReady board.now worker.new.pass }
    ensures room { (n : ℕ) → HasRoom (n + 1) worker.old.wins → HasRoom n worker.new.wins }
    ensures none { IfNone result (worker.new.wins ≡ worker.old.wins) }
{
    start(board, &mut worker.pass).unwrap();
    let answer = make(board, worker, mix);
    end(board, &mut worker.pass);
    answer
}
