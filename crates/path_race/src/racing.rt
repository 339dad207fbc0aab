//! The threads of a round.
ghost use Rattle.std.specs.Prelude.{◌≡◌, ◌≤◌, map};
ghost use Rattle.std.specs.List.{All};
ghost use Rattle.pc_rule_law.specs.Conditions.{IsFree};
ghost use Rattle.pc_rule.specs.Passes.{view, board_size, IsPassOf, SitsAs};
ghost use Rattle.pc_rule.specs.Shares.{AreAll, NoneTried, NoneVisited};
ghost use Rattle.path_race.specs.Racing.{IsReady};
ghost use Rattle.path_race.specs.Rooms.{HasRoom};

use crate::operating::operate;
use crate::plan::Mix;
use crate::worker::Worker;
use pc_model::Loose;
use pc_rule::Board;
use std::thread;
use std::thread::Threads;

/// How often a thread tries in vain before it stops.
const MOST_TRIES: u32 = 200_000;

/// Makes so many operations, whatever comes of them. The thread stops where too many tries in a row took no effect.
fn race(board: &Board<Loose>, worker: &mut Worker, share: u32, mix: Mix)
    requires ready { IsReady board.now worker.old.pass }
    requires slots { (board_size board.now).slots ≡ 0 }
    requires room { HasRoom share worker.old.wins }
    ensures seated { SitsAs worker.old.pass worker.new.pass }
    ensures ready { IsReady board.now worker.new.pass }
{
    let mut left = share;
    let mut tries = 0;
    while left > 0 && tries < MOST_TRIES {
        tries += 1;
        match operate(board, worker, mix) {
            Some(effect) => {
                left -= 1;
                if effect {
                    tries = 0;
                }
            }
            None => thread::yield_now(),
        }
    }
    worker.hand.stuck = worker.hand.stuck || left > 0;
}

/// Each worker makes its share, in a thread of its own.
pub(crate) fn race_all<R: Threads + Sync>(
    rt: &R,
    board: &Board<Loose>,
    workers: &mut [Worker],
    share: u32,
    mix: Mix,
)
    requires all { AreAll board.now (map (λ w. w.pass) workers.old) }
    requires tried { NoneTried (map (λ w. w.pass) workers.old) }
    requires visited { NoneVisited (map (λ w. w.pass) workers.old) }
    requires slots { (board_size board.now).slots ≡ 0 }
    requires room { All (λ w. HasRoom share w.wins) workers.old }
    ensures { AreAll board.now (map (λ w. w.pass) workers.new) }
{
    let work = |_: usize, worker: &mut Worker|
        requires ready { IsReady board.now worker.old.pass }
        requires slots { (board_size board.now).slots ≡ 0 }
        requires room { HasRoom share worker.old.wins }
        ensures seated { SitsAs worker.old.pass worker.new.pass }
        ensures pass { IsPassOf board.entry.now worker.new.pass }
        ensures free { IsFree (view worker.new.pass) }
    { race(board, worker, share, mix) };
    thread::for_each_mut(rt, workers, 8, &work);
}
