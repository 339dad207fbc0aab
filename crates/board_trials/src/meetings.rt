//! Threads that install in the same words at the same time, so that they meet, and complete, each other's installs.
ghost use Rattle.std.specs.Prelude.{◌≡◌, []};
ghost use Rattle.pc_rule_law.specs.Conditions.{IsFree, CanWrite};
ghost use Rattle.pc_rule.specs.Passes.{view, listed, board_size, IsPassOf, IsSeatedAs, IsSamePass};
ghost use Rattle.pc_rule.specs.Shares.{AreAll, NoneTried};
ghost use Rattle.pc_dcss.specs.Installs.{KnowsPlace};
ghost use Rattle.pc_kcas.specs.Exchanges.{IsUncleared, own_exchange};

use crate::exchanges::{installed, published, value, version};
use crate::withdrawals::withdrawn;
use pc_dcss::Installed;
use pc_model::{Field, Loose, Memory};
use pc_rule::{Board, Pass, Place, Share, close_board, open_board, usual_starts};
use std::sync::atomic::{AtomicU64, Ordering};
use std::thread;
use std::thread::Threads;

/// How often each thread installs each word.
const TIMES: u32 = 100_000;

/// Whether an install for a withdrawn exchange may be answered so.
fn is_decided_or_met(answer: Installed) -> bool {
    match answer {
        Installed::Decided => true,
        Installed::Met(_) => true,
        _ => false,
    }
}

/// Installs both words again and again. Says whether each answer was one of a withdrawn exchange.
fn install_often(board: &Board<Loose>, pass: &mut Pass<Loose>, one: Place, two: Place) -> bool
    requires pass { IsPassOf board.now pass.old }
    requires free { IsFree (view pass.old) }
    requires published { IsUncleared pass.old }
    requires one { KnowsPlace (view pass.old) (own_exchange pass.old) one }
    requires two { KnowsPlace (view pass.old) (own_exchange pass.old) two }
    ensures same { IsSamePass pass.old pass.new }
    ensures free { IsFree (view pass.new) }
{
    let mut all = true;
    for _ in 0..TIMES {
        let first = installed(board, pass, one);
        let second = installed(board, pass, two);
        all = all && is_decided_or_met(first) && is_decided_or_met(second);
    }
    all
}

/// The pass publishes the version and this value of the sentinel, withdraws, and installs both words again and again. Says
/// whether it withdrew, and each answer then was one of a withdrawn exchange.
fn withdraw_and_install(board: &Board<Loose>, pass: &mut Pass<Loose>, new: u32) -> bool
    requires pass { IsPassOf board.now pass.old }
    requires open { CanWrite (view pass.old) × (listed pass.old ≡ []) }
    requires free { IsFree (view pass.old) }
    requires start { (board_size board.now).starts.version ≡ 0 }
    ensures seated { IsSeatedAs pass.old pass.new }
    ensures free { IsFree (view pass.new) }
{
    let one = version();
    let two = value(new);
    let Ok(()) = published(board, pass, one, two) else {
        return false;
    };
    let undecided = withdrawn(board, pass);
    install_often(board, pass, one, two) && undecided
}

/// Each pass withdraws an exchange of the same two words and installs both again and again, in a thread of its own. Counts the
/// passes with another answer than those of a withdrawn exchange.
fn installed_in_threads<R: Threads + Sync>(
    rt: &R,
    board: &Board<Loose>,
    passes: &mut [Pass<Loose>],
) -> u64
    requires all { AreAll board.now passes.old }
    requires open { NoneTried passes.old }
    requires start { (board_size board.now).starts.version ≡ 0 }
    ensures { AreAll board.now passes.new }
{
    let strange = AtomicU64::new(0);
    let work = |i: usize, pass: &mut Pass<Loose>|
        requires pass { IsPassOf board.now pass.old }
        requires open { CanWrite (view pass.old) × (listed pass.old ≡ []) }
        requires free { IsFree (view pass.old) }
        requires start { (board_size board.now).starts.version ≡ 0 }
        ensures seated { IsSeatedAs pass.old pass.new }
        ensures free { IsFree (view pass.new) }
    {
        let new = if i == 0 { 50 } else { 60 };
        if !withdraw_and_install(board, pass, new) {
            strange.fetch_add(1, Ordering::SeqCst);
        }
    };
    thread::for_each_mut(rt, passes, 2, &work);
    strange.load(Ordering::SeqCst)
}

#[test]
fn threads_install_in_the_same_words(rt: HostRuntime) -> Result<(), Memory> {
    let share = Share { slots: 1, calls: 0 };
    let (board, mut passes) = open_board(rt.alloc(), Loose, &[share, share], usual_starts())?;
    let strange = installed_in_threads(&rt, &board, passes.as_mut_slice());
    let closed = close_board(board, passes);
    let left = (closed.cell(1, Field::Version), closed.cell(1, Field::Value));
    assert_eq!(rt; (strange, left), (0, (0, 0)));
    Ok(())
}
