//! The end of an exchange by its own pass, as that calls for it.
ghost use Rattle.std.specs.Prelude.{◌≡◌, ◌<◌, ◌≤◌, ◌-◌, ◌+◌, ℕ, [], false, length, IfSome, IfNone};
ghost use Rattle.pc_rule_law.specs.Conditions.{CanWrite, IsFree};
ghost use Rattle.pc_rule.specs.Passes.{whole, view, listed, board_size, IsPassOf, IsSeatedAs, IsSamePass, KeepsPath};
ghost use Rattle.pc_kcas.specs.Bounds.{most_in_help, most_in_end};
ghost use Rattle.pc_kcas.specs.Clearing.{HoldsListed, LeavesClean};
ghost use Rattle.pc_kcas.specs.Exchanges.{visit_count, CoversNode, IsPublished, IsHeldAt, own_exchange};
ghost use Rattle.pc_kcas.specs.Obstacles.{GoesOn};
ghost use Rattle.pc_kcas.specs.Stops.{HasMetAt};
ghost use Rattle.pc_kcas.specs.Takings.{HoldsBelow};
ghost use Rattle.pc_kcas.specs.Verdicts.{KeepsAll, KnowsWon, KnowsLost, KnowsChanged, KnowsRival, WasBlocked, IsAtLast, IfWon, IfChanged, IfLocked, IfBlocked, IfNumbers};

use crate::answering::{Stop, end_at};
use crate::hold::hold_word;
use crate::obstacle::Obstacle;
use crate::own::own_ref;
use crate::verdict::Verdict;
use pc_model::Shape;
use pc_rule::{Board, Pass};

// Holds the word at this index. A link more may be followed than there are passes, so that one is left in each word.
fn hold_at<H: Shape>(board: &Board<H>, pass: &mut Pass<H>, i: u32) -> Option<Obstacle>
    requires pass { IsPassOf board.now pass.old }
    requires published { IsPublished pass.old }
    requires free { IsFree (view pass.old) }
    requires index { i < length (listed pass.old) }
    ensures pass { IsSamePass pass.old pass.new }
    ensures goes_on { GoesOn (whole pass.old) (whole pass.new) }
    ensures free { IsFree (view pass.new) }
    ensures published { IsPublished pass.new }
    ensures held { IfNone result (IsHeldAt pass.old pass.new i) }
    ensures bounded { (view pass.new).install.number ≤ (view pass.old).install.number + (3 + most_in_help (board_size board.now)) }
    ensures met { IfSome result (HasMetAt (board_size board.now).seats pass.old pass.new i) }
{
    let op = own_ref(board, pass);
    let place = pass.listed()[i as usize];
    let links = board.passes() + 1;
    let held = hold_word(board, pass, op, place, links);
    held.obstacle
}

// Holds the words of the pass's published exchange, in the order of its list, and stops at the first that can't be held.
fn hold_listed<H: Shape>(board: &Board<H>, pass: &mut Pass<H>) -> Option<Stop>
    requires pass { IsPassOf board.now pass.old }
    requires published { IsPublished pass.old }
    requires free { IsFree (view pass.old) }
    ensures pass { IsSamePass pass.old pass.new }
    ensures goes_on { GoesOn (whole pass.old) (whole pass.new) }
    ensures free { IsFree (view pass.new) }
    ensures published { IsPublished pass.new }
    ensures held { IfNone result (HoldsListed pass.new) }
    ensures index { IfSome result (λ stop. stop.at < length (listed pass.new)) }
    ensures bounded { (view pass.new).install.number ≤ (view pass.old).install.number + most_in_end (board_size board.now) (length (listed pass.old)) }
    ensures before { IfSome result (λ stop. HoldsBelow (whole pass.new) (own_exchange pass.new) stop.at) }
    ensures met { IfSome result (λ stop. HasMetAt (board_size board.now).seats pass.old pass.new stop.at stop.obstacle) }
{
    let count = board.count_listed(pass);
    let mut at = 0;
    while at < count {
        match hold_at(board, pass, at) {
            None => at += 1,
            Some(obstacle) => return Some(Stop { at, obstacle }),
        }
    }
    None
}

/// Ends the pass's published exchange as `finish` does, but keeps its list.
pub fn finish_listed<H: Shape>(board: &Board<H>, pass: &mut Pass<H>) -> Verdict
    requires pass { IsPassOf board.now pass.old }
    requires published { IsPublished pass.old }
    requires free { IsFree (view pass.old) }
    ensures seated { IsSeatedAs pass.old pass.new }
    ensures path { KeepsPath pass.old pass.new }
    ensures open { CanWrite (view pass.new) }
    ensures number { (view pass.new).attempt.number ≡ (view pass.old).attempt.number }
    ensures same { pass.new.listed ≡ pass.old.listed }
    ensures free { IsFree (view pass.new) }
    ensures kept { KeepsAll (whole pass.old) (whole pass.new) }
    ensures clean { LeavesClean pass.old pass.new }

    // How it ended.
    ensures won { IfWon result (KnowsWon (whole pass.new) (view pass.new).attempt.number) }
    ensures lost { KnowsLost (whole pass.new) (view pass.new).attempt.number result }
    ensures changed { IfChanged result (KnowsChanged (whole pass.new) (view pass.new).attempt.number) }
    ensures locked { IfLocked result (λ n by. (1 ≤ by) × KnowsRival (whole pass.new) (view pass.new).attempt.number n (by - 1)) }
    ensures covered { IfChanged result (CoversNode (view pass.old)) }
    ensures visits { IfLocked result (λ n by. 0 < visit_count (view pass.old)) }
    ensures blocked { IfBlocked result (WasBlocked (board_size board.now).seats pass.old pass.new) }
    ensures numbers { IfNumbers result (IsAtLast (whole pass.new)) }

    // The most installs that it makes.
    ensures bounded { (view pass.new).install.number ≤ (view pass.old).install.number + most_in_end (board_size board.now) (length (listed pass.old)) }
{
    let stopped = hold_listed(board, pass);
    end_at(board, pass, stopped)
}

/// Ends the pass's published exchange, and drops its list. Each of its words is given its reference, in the order of their numbers:
/// in a word at most one install of another is completed and one exchange of another is helped, so the call ends whatever other
/// passes do. Then the exchange is decided: it takes effect where all its words hold its reference, and no other pass decided it
/// before. Where one can't hold it the pass withdraws it. Last its words are cleared, and the pass may publish another. The call
/// waits for nobody and takes no memory.
/// Source: Harris, Fraser and Pratt (2002), with numbered descriptors as those of Arbel-Raviv and Brown (2017).
pub fn finish<H: Shape>(board: &Board<H>, pass: &mut Pass<H>) -> Verdict
    requires pass { IsPassOf board.now pass.old }
    requires published { IsPublished pass.old }
    requires free { IsFree (view pass.old) }
    ensures seated { IsSeatedAs pass.old pass.new }
    ensures path { KeepsPath pass.old pass.new }
    ensures open { CanWrite (view pass.new) }
    ensures number { (view pass.new).attempt.number ≡ (view pass.old).attempt.number }
    ensures dropped { listed pass.new ≡ [] }
    ensures free { IsFree (view pass.new) }
    ensures kept { KeepsAll (whole pass.old) (whole pass.new) }
    ensures clean { LeavesClean pass.old pass.new }

    // How it ended.
    ensures won { IfWon result (KnowsWon (whole pass.new) (view pass.new).attempt.number) }
    ensures lost { KnowsLost (whole pass.new) (view pass.new).attempt.number result }
    ensures changed { IfChanged result (KnowsChanged (whole pass.new) (view pass.new).attempt.number) }
    ensures locked { IfLocked result (λ n by. (1 ≤ by) × KnowsRival (whole pass.new) (view pass.new).attempt.number n (by - 1)) }
    ensures covered { IfChanged result (CoversNode (view pass.old)) }
    ensures visits { IfLocked result (λ n by. 0 < visit_count (view pass.old)) }
    ensures blocked { IfBlocked result (WasBlocked (board_size board.now).seats pass.old pass.new) }
    ensures numbers { IfNumbers result (IsAtLast (whole pass.new)) }

    // The most installs that it makes.
    ensures bounded { (view pass.new).install.number ≤ (view pass.old).install.number + most_in_end (board_size board.now) (length (listed pass.old)) }
{
    let verdict = finish_listed(board, pass);
    pass.drop_listed();
    verdict
}
