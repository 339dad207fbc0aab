//! The rounds of a race, each on a new board.
ghost use Rattle.std.specs.Prelude.{◌≡◌, ◌<◌, ◌≤◌, length, map, vec_len, OnOk};
ghost use Rattle.pc_rule.specs.Shares.{AreAll};

use crate::crew::{crew_for, hands_for, passes_of};
use crate::ends::Ends;
use crate::hand::Hand;
use crate::plan::{Plan, Printed};
use crate::printing::{print_cells, print_count, print_ends, print_history, print_won};
use crate::racing::race_all;
use crate::worker::Worker;
use anyhow::{Result, bail};
use pc_model::{Loose, Memory};
use pc_rule::{Board, close_board};
use std::alloc::Global;
use std::io::Write;
use std::thread::Threads;

/// How many operations are made on one board.
const ROUND: u64 = 100_000;

// How many of so many operations each of these threads makes, at least as many together.
fn share_of(operations: u64, threads: u32) -> u32
    requires operations { operations ≤ 100000 }
    requires threads { 0 < threads }
{
    operations.div_ceil(u64::from(threads)) as u32
}

// Prints what took effect, closes the board, and prints its cells.
fn finish_round<W: Write>(
    alloc: Global,
    out: &mut W,
    board: Board<Loose>,
    workers: Vec<Worker>,
) -> Result<()>
    requires { AreAll board (map (λ w. w.pass) workers.items) }
{
    writeln!(out, "round")?;
    print_won(out, workers.as_slice())?;
    let passes = passes_of(alloc, workers)?;
    let closed = close_board(board, passes);
    print_history(out, closed.history())?;
    print_cells(out, &closed)?;
    writeln!(out, "end")?;
    Ok(())
}

// The hands of all workers again.
fn keep_hands(hands: &mut [Hand], workers: &[Worker]) {
    for (hand, worker) in hands.iter_mut().zip(workers.iter()) {
        *hand = worker.hand;
    }
}

// One round, in which so many operations are made.
fn run_round<R: Threads + Sync, W: Write>(
    rt: &R,
    alloc: Global,
    plan: &Plan,
    hands: &mut Vec<Hand>,
    operations: u64,
    out: &mut W,
) -> Result<()>
    requires operations { operations ≤ 100000 }
    requires hands { vec_len hands.old ≡ plan.now.threads }
    ensures { vec_len hands.new ≡ vec_len hands.old }
{
    let share = share_of(operations, plan.threads);
    let kept = plan.printed == Printed::Records;
    let Ok((board, mut workers)) = crew_for(alloc, hands.as_slice(), share, kept) else {
        bail!("out of memory");
    };
    race_all(rt, &board, workers.as_mut_slice(), share, plan.mix);
    keep_hands(hands.as_mut_slice(), workers.as_slice());
    if kept {
        finish_round(alloc, out, board, workers)?;
    }
    Ok(())
}

// The ends of all threads together. An error where one of them was stuck.
fn ends_of(hands: &[Hand]) -> Result<Ends> {
    let mut ends = Ends::none();
    for hand in hands {
        if hand.stuck {
            bail!("no operation takes effect");
        }
        ends = ends.and(hand.ends);
    }
    Ok(ends)
}

/// Runs all rounds, and prints what the plan asks for.
pub(crate) fn run<R: Threads + Sync, W: Write>(
    rt: &R,
    alloc: Global,
    plan: &Plan,
    out: &mut W,
) -> Result<()> {
    let mut hands = hands_for(alloc, plan.threads)?;
    let mut left = plan.operations;
    while left > 0 {
        let round = left.min(ROUND);
        run_round(rt, alloc, plan, &mut hands, round, out)?;
        left -= round;
    }
    let ends = ends_of(hands.as_slice())?;
    match plan.printed {
        Printed::Records => {}
        Printed::Ends => print_ends(out, ends)?,
        Printed::Count => print_count(out, ends)?,
    }
    Ok(())
}
