//! The workers of a round, and the board that they share.
ghost use Rattle.std.specs.Prelude.{◌≡◌, ◌<◌, ◌≤◌, length, map, vec_len, IfOk};
ghost use Rattle.std.specs.List.{All};
ghost use Rattle.pc_rule.specs.Passes.{board_size};
ghost use Rattle.pc_rule.specs.Shares.{AreAll, NoneTried, NoneVisited, slots_of};
ghost use Rattle.path_race.specs.Rooms.{HasRoom};

use crate::hand::Hand;
use crate::record::Record;
use crate::worker::Worker;
use pc_model::{Loose, Memory};
use pc_rule::{Board, Pass, Share, open_board, usual_starts};
use std::alloc::{AllocError, Global};

/// A hand for each of so many threads.
pub(crate) fn hands_for(alloc: Global, threads: u32) -> Result<Vec<Hand>, AllocError>
    ensures { IfOk result (λ hands. vec_len hands ≡ threads) }
{
    let mut hands = Vec::new(alloc);
    for seat in 0..threads {
        hands.push(Hand::new(seat))?;
    }
    Ok(hands)
}

// The shares of so many passes: no slots, as the sentinel alone is in use, and so many calls each.
fn shares_for(alloc: Global, threads: u32, calls: u32) -> Result<Vec<Share>, AllocError>
    ensures count { IfOk result (λ shares. length shares.items ≡ threads) }
    ensures slots { IfOk result (λ shares. slots_of shares.items ≡ 0) }
{
    let mut shares = Vec::new(alloc);
    while shares.len() < threads as usize {
        shares.push(Share { slots: 0, calls })?;
    }
    Ok(shares)
}

// A new board with its passes.
fn board_for(
    alloc: Global,
    threads: u32,
    calls: u32,
) -> Result<(Board<Loose>, Vec<Pass<Loose>>), Memory>
    requires { (0 < threads) × (threads ≤ 8) }
    ensures all { IfOk result (λ r. AreAll r.0 r.1.items) }
    ensures tried { IfOk result (λ r. NoneTried r.1.items) }
    ensures visited { IfOk result (λ r. NoneVisited r.1.items) }
    ensures slots { IfOk result (λ r. (board_size r.0).slots ≡ 0) }
    ensures count { IfOk result (λ r. length r.1.items ≡ threads) }
{
    let Ok(shares) = shares_for(alloc, threads, calls) else {
        return Err(Memory);
    };
    open_board(alloc, Loose, shares.as_slice(), usual_starts())
}

// The hand at this index.
fn hand_at(hands: &[Hand], i: usize) -> Hand {
    match hands.get(i) {
        Some(hand) => *hand,
        None => Hand::new(0),
    }
}

// A worker for each pass, with room for what so many operations take down.
fn workers_for(
    alloc: Global,
    passes: Vec<Pass<Loose>>,
    hands: &[Hand],
    share: u32,
    kept: bool,
) -> Result<Vec<Worker>, AllocError>
    ensures passes { IfOk result (λ workers. map (λ w. w.pass) workers.items ≡ passes.items) }
    ensures room { IfOk result (λ workers. All (λ w. HasRoom share w.wins) workers.items) }
{
    let mut workers = Vec::new(alloc);
    for pass in passes {
        let wins = Record::with_room(alloc, share, kept)?;
        let hand = hand_at(hands, workers.len());
        let worker = Worker::new(pass, hand, wins);
        workers.push(worker)?;
    }
    Ok(workers)
}

/// A new board, and a worker for each of its passes.
/// - `kept`: whether what takes effect is to be taken down.
pub(crate) fn crew_for(
    alloc: Global,
    hands: &[Hand],
    share: u32,
    kept: bool,
) -> Result<(Board<Loose>, Vec<Worker>), Memory>
    requires { (0 < length hands.now) × (length hands.now ≤ 8) }
    ensures all { IfOk result (λ r. AreAll r.0 (map (λ w. w.pass) r.1.items)) }
    ensures tried { IfOk result (λ r. NoneTried (map (λ w. w.pass) r.1.items)) }
    ensures visited { IfOk result (λ r. NoneVisited (map (λ w. w.pass) r.1.items)) }
    ensures slots { IfOk result (λ r. (board_size r.0).slots ≡ 0) }
    ensures room { IfOk result (λ r. All (λ w. HasRoom share w.wins) r.1.items) }
    ensures count { IfOk result (λ r. vec_len r.1 ≡ length hands.now) }
{
    let (board, passes) = board_for(alloc, hands.len() as u32, share)?;
    match workers_for(alloc, passes, hands, share, kept) {
        Ok(workers) => Ok((board, workers)),
        Err(_) => Err(Memory),
    }
}

/// The passes of all workers.
pub(crate) fn passes_of(alloc: Global, workers: Vec<Worker>) -> Result<Vec<Pass<Loose>>, AllocError>
    ensures { IfOk result (λ passes. passes.items ≡ map (λ w. w.pass) workers.items) }
{
    let mut passes = Vec::new(alloc);
    for worker in workers {
        let Worker { pass, .. } = worker;
        passes.push(pass)?;
    }
    Ok(passes)
}
