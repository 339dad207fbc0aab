//! How a pass makes an exchange of the words that it has listed.
ghost use Rattle.std.specs.Prelude.{◌≡◌, ℕ, [], ◌+◌, ◌≤◌, ◌≢◌, IfNone};
ghost use Rattle.pc_rule.specs.Passes.{view, knows, listed, board_size, IsPassOf, IsSeatedAs};
ghost use Rattle.exchange_race.specs.Racing.{MayRace, AreOfRace, IsReady};
ghost use Rattle.exchange_race.specs.Rooms.{HasRoom};

use crate::listing::list_words;
use crate::worker::Worker;
use pc_kcas::{Mode, Verdict, finish, publish};
use pc_model::Loose;
use pc_rule::{Board, Pass};

// Publishes the words that are listed, and brings the exchange to its end.
fn make(board: &Board<Loose>, pass: &mut Pass<Loose>) -> Verdict
    requires pass { IsPassOf board.now pass.old }
    requires may { MayRace (view pass.old) }
    requires slots { (board_size board.now).slots ≡ 0 }
    requires listed { (count : ℕ) × AreOfRace (board_size board.now) (knows pass.old) (listed pass.old) count }
    ensures seated { IsSeatedAs pass.old pass.new }
    ensures may { MayRace (view pass.new) }
    ensures none { listed pass.new ≡ [] }
{
    match publish(board, pass, Mode::Words) {
        Ok(()) => finish(board, pass),
        Err(numbers) => Verdict::Numbers(numbers),
    }
}

/// Reads some words and makes an exchange of them, which is taken down where it won: that is the answer. None where a word
/// couldn't be read now.
/// - `words`: how many words it has, or 0 where that is by chance.
pub(crate) fn try_one(board: &Board<Loose>, worker: &mut Worker, words: u32) -> Option<bool>
    requires ready { IsReady board.now worker.old.pass }
    requires slots { (board_size board.now).slots ≡ 0 }
    requires words { (words ≤ 6) × (words ≢ 1) }
    requires room { HasRoom 1 worker.old.wins }
    ensures seated { IsSeatedAs worker.old.pass worker.new.pass }
    ensures ready { IsReady board.now worker.new.pass }
    ensures room { (n : ℕ) → HasRoom (n + 1) worker.old.wins → HasRoom n worker.new.wins }
    ensures none { IfNone result (worker.new.wins ≡ worker.old.wins) }
{
    let count = worker.hand.count(words);
    if !list_words(board, &mut worker.pass, &mut worker.hand, count) {
        return None;
    }
    let count = worker.wins.take_down(worker.pass.listed());
    let verdict = make(board, &mut worker.pass);
    worker.hand.ends.count(verdict);
    Some(worker.wins.end(count, verdict))
}
