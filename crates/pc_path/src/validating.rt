//! The validated read of a path.
ghost use Rattle.std.specs.Prelude.{◌≡◌, ◌≢◌, ◌+◌, ◌<◌, ◌≤◌, ◌++◌, ℕ, [], true, None, length, IfOk, IfErr, OnOk, OnErr};
ghost use Rattle.pc_rule_law.specs.Conditions.{IsFree};
ghost use Rattle.pc_rule_law.specs.Past.{Has};
ghost use Rattle.pc_protocol.specs.Notes.{in_run};
ghost use Rattle.pc_exchange_law.specs.Knowing.{IsAboveSeen};
ghost use Rattle.pc_exchange_law.specs.Paths.{Path, read_of, dropped, with_stamp};
ghost use Rattle.pc_exchange_law.specs.Ties.{last_stamp};
ghost use Rattle.pc_rule.specs.Passes.{whole, view, knows, visits, path, listed, recorded, carried, taken_down, board_size, IsPassOf, StaysSeated, SitsAs};
ghost use Rattle.pc_kcas.specs.Obstacles.{GoesOn};
ghost use Rattle.pc_kcas.specs.Takings.{IsAtLastInstall};
ghost use Rattle.pc_kcas.specs.Verdicts.{IsAtLast};
ghost use Rattle.pc_path.specs.Bounds.{most_in_checks};
ghost use Rattle.pc_path.specs.Losses.{HasChanged, IsBlockedAt, IfChanged, IfLocked, IfBlocked, IfNumbers};

use crate::checking::{check_visit, draw_stamp};
use crate::concluding::conclude;
use crate::lost::Lost;
use pc_model::Shape;
use pc_rule::{Board, Pass};

// Checks all visits for the stamp that was drawn, in their order, and stops at the first that doesn't pass.
fn check_visits<H: Shape>(board: &Board<H>, pass: &mut Pass<H>) -> Result<(), Lost>
    requires pass { IsPassOf board.now pass.old }
    requires free { IsFree (view pass.old) }
    requires visited { visits pass.old ≢ [] }
    requires drawn { (p : Path) × (s : ℕ) × (path pass.old ≡ with_stamp p s) }
    ensures seated { StaysSeated pass.old pass.new }
    ensures goes_on { GoesOn (whole pass.old) (whole pass.new) }
    ensures free { IsFree (view pass.new) }
    ensures begun { (path pass.new).begun ≡ (path pass.old).begun }
    ensures read { OnOk result ((p : Path) (s : ℕ) → path pass.old ≡ with_stamp p s → Has (knows pass.new).told (in_run s (read_of p))) }
    ensures changed { IfErr result (λ e. IfChanged e (HasChanged (visits pass.old) (whole pass.new))) }
    ensures locked { IfErr result (λ e. IfLocked e (λ n by. ⊥)) }
    ensures blocked { IfErr result (λ e. IfBlocked e (IsBlockedAt (board_size board.now).seats (view pass.old) (whole pass.new) (visits pass.old))) }
    ensures numbers { IfErr result (λ e. IfNumbers e (IsAtLastInstall (view pass.new))) }
    ensures bounded { (view pass.new).install.number ≤ (view pass.old).install.number + most_in_checks (board_size board.now) (length (visits pass.old)) }
{
    let count = pass.visits().len();
    let mut at = 0;
    while at < count {
        check_visit(board, pass, at)?;
        at += 1;
    }
    Ok(())
}

// The read of all that the pass visited and read, at a stamp; the visits stay.
fn validated<H: Shape>(board: &Board<H>, pass: &mut Pass<H>) -> Result<u64, Lost>
    requires pass { IsPassOf board.now pass.old }
    requires free { IsFree (view pass.old) }
    requires visited { visits pass.old ≢ [] }
    ensures seated { StaysSeated pass.old pass.new }
    ensures goes_on { GoesOn (whole pass.old) (whole pass.new) }
    ensures free { IsFree (view pass.new) }
    ensures begun { (path pass.new).begun ≡ (path pass.old).begun }
    ensures read { IfOk result (λ s. Has (knows pass.new).told (in_run s (read_of (path pass.old)))) }
    ensures early { IfOk result (λ s. s < last_stamp) }
    ensures above { IfOk result (IsAboveSeen (knows pass.old).told) }
    ensures changed { IfErr result (λ e. IfChanged e (HasChanged (visits pass.old) (whole pass.new))) }
    ensures locked { IfErr result (λ e. IfLocked e (λ n by. ⊥)) }
    ensures blocked { IfErr result (λ e. IfBlocked e (IsBlockedAt (board_size board.now).seats (view pass.old) (whole pass.new) (visits pass.old))) }
    ensures numbers { IfErr result (λ e. IfNumbers e (IsAtLast (whole pass.new))) }
    ensures bounded { (view pass.new).install.number ≤ (view pass.old).install.number + most_in_checks (board_size board.now) (length (visits pass.old)) }
{
    match draw_stamp(board, pass) {
        Err(numbers) => Err(Lost::Numbers(numbers)),
        Ok(stamp) => match check_visits(board, pass) {
            Err(lost) => Err(lost),
            Ok(()) => Ok(stamp),
        },
    }
}

/// Makes one read of all that the pass visited and read in its operation. The answer is a stamp: at that moment every visited
/// node had the version of its visit, and every word that was read after a visit of its node the number that was read. The read
/// stands in the board's run at the stamp. It waits for nobody and takes no memory.
///
/// The stamp is above each stamp that the pass had seen, and not below what it had found in the clock. Where a visited node has
/// changed, or references are in the way, the read is lost. Either way the pass has no visits and reads afterwards, and its
/// operation goes on. The call that it takes along is recorded where the read took effect, and else dropped.
/// Source: the validation of PathCAS (Brown, Sigouin and Alistarh 2022), with a stamp from one clock.
pub fn validate<H: Shape>(board: &Board<H>, pass: &mut Pass<H>) -> Result<u64, Lost>
    requires pass { IsPassOf board.now pass.old }
    requires open { (path pass.old).begun ≡ true }
    requires free { IsFree (view pass.old) }
    requires visited { visits pass.old ≢ [] }
    requires no_adds { listed pass.old ≡ [] }
    ensures seated { SitsAs pass.old pass.new × IsPassOf board.now pass.new }
    ensures adds { listed pass.new ≡ [] }
    ensures goes_on { GoesOn (whole pass.old) (whole pass.new) }
    ensures free { IsFree (view pass.new) }
    ensures visits { visits pass.new ≡ [] }
    ensures path { path pass.new ≡ dropped (path pass.old) }

    // What is recorded of the call that was taken along.
    ensures recorded { IfOk result (λ s. recorded pass.new ≡ recorded pass.old ++ taken_down pass.old s) }
    ensures not_recorded { OnErr result (recorded pass.new ≡ recorded pass.old) }
    ensures carried { carried pass.new ≡ None }

    // The read, and its stamp.
    ensures read { IfOk result (λ s. Has (knows pass.new).told (in_run s (read_of (path pass.old)))) }
    ensures early { IfOk result (λ s. s < last_stamp) }
    ensures above { IfOk result (IsAboveSeen (knows pass.old).told) }

    // Why it was lost.
    ensures changed { IfErr result (λ e. IfChanged e (HasChanged (visits pass.old) (whole pass.new))) }
    ensures locked { IfErr result (λ e. IfLocked e (λ n by. ⊥)) }
    ensures blocked { IfErr result (λ e. IfBlocked e (IsBlockedAt (board_size board.now).seats (view pass.old) (whole pass.new) (visits pass.old))) }
    ensures numbers { IfErr result (λ e. IfNumbers e (IsAtLast (whole pass.new))) }

    // The most installs that it makes: those of one help for each visit.
    ensures bounded { (view pass.new).install.number ≤ (view pass.old).install.number + most_in_checks (board_size board.now) (length (visits pass.old)) }
{
    let answer = validated(board, pass);
    conclude(pass, answer);
    answer
}
