//! The check of the nodes that the pass's own exchange visits, for a stamp that was drawn for it: the version of each is loaded again.
//! What the exchange visits and changes the pass holds itself, so no word of a descriptor is loaded.
ghost use Rattle.std.specs.Prelude.{◌≡◌, ◌<◌, ℕ, IfSome, IfNone};
ghost use Rattle.pc_rule_law.specs.Conditions.{IsFree};
ghost use Rattle.pc_rule_law.specs.Views.{word_in};
ghost use Rattle.pc_rule.specs.Passes.{whole, view, knows, IsPassOf, IsSamePass, HasNode};
ghost use Rattle.pc_exchange_law.specs.ExchangeConditions.{KnowsPassed, KnowsChecked};
ghost use Rattle.pc_kcas.specs.Checking.{KnowsVisitOf, ChangesFrom, HasDrawn, IsChecked, HasPassedAt, IsBarred};
ghost use Rattle.pc_kcas.specs.Exchanges.{IsUncleared, IsPublished, own_exchange};
ghost use Rattle.pc_kcas.specs.Settling.{HasLearnt};

use crate::checking::{Checked, check_visit, is_version_of};
use crate::obstacle::Stuck;
use pc_model::Shape;
use pc_rule::{Board, Pass, Ref, Visit, step_7};

/// What keeps the pass's own exchange from taking effect at a stamp.
#[derive(Clone, Copy)]
pub(crate) enum Barred {
    /// A visited node.
    Changed {
        /// The node, whose version is past.
        node: u32,
    },
    /// A visited node, and the pass that holds its version.
    Locked {
        /// The node.
        node: u32,
        /// The seat of that pass.
        by: u32,
    },
    /// It is stuck at what stood in the version of a visited node.
    Stuck(Stuck),
}

// The number from which the pass's exchange changes the version of a node, where it does.
fn own_old<H: Shape>(board: &Board<H>, pass: &Pass<H>, node: u32) -> Option<u64>
    requires pass { IsPassOf board.now pass.now }
    requires published { IsUncleared pass.now }
    ensures { ChangesFrom (whole pass.now) (own_exchange pass.now) node result }
{
    let _ = board;
    let count = board.count_listed(pass);
    let mut i = 0;
    while i < count {
        let place = pass.listed()[i as usize];
        if is_version_of(place, node) {
            return Some(place.old);
        }
        i += 1;
    }
    None
}

// What keeps the exchange from taking effect, where a visited node didn't pass its check so.
fn barred_by<H: Shape>(
    board: &Board<H>,
    pass: &mut Pass<H>,
    op: Ref,
    visit: Visit,
    checked: Checked,
    stamp: u64,
) -> Option<Barred>
    requires pass { IsPassOf board.now pass.old }
    requires published { IsUncleared pass.old }
    requires own { op ≡ own_exchange pass.old }
    requires node { HasNode board.now visit.node }
    requires visited { (i : ℕ) × KnowsVisitOf (whole pass.old) op i visit.node visit.version }
    requires checked { IsChecked (whole pass.old) op stamp visit.node visit.version checked }
    ensures pass { IsSamePass pass.old pass.new }
    ensures learnt { HasLearnt (whole pass.old) (whole pass.new) }
    ensures passed { IfNone result (KnowsPassed (view pass.new) (knows pass.new) op.seat op.number stamp visit.node visit.version) }
    ensures barred { IfSome result (IsBarred (whole pass.old) (whole pass.new) op stamp) }
{
    let _ = stamp;
    let node = visit.node;
    match checked {
        Checked::Passed => None,
        Checked::Changed => Some(Barred::Changed { node }),
        Checked::Locked { by } => Some(Barred::Locked { node, by }),
        Checked::Gone => {
            // The own status says that the pass has gone on from the exchange, which it hasn't.
            step_7(board, pass, op.seat + 1);
            unreachable!()
        }
    }
}

// Checks the visit at this index.
fn check_own<H: Shape>(
    board: &Board<H>,
    pass: &mut Pass<H>,
    op: Ref,
    i: u32,
    stamp: u64,
) -> Option<Barred>
    requires pass { IsPassOf board.now pass.old }
    requires free { IsFree (view pass.old) }
    requires published { IsPublished pass.old }
    requires own { op ≡ own_exchange pass.old }
    requires drawn { HasDrawn (whole pass.old) op stamp }
    requires index { i < word_in (view pass.old).attempt.words 2 }
    ensures pass { IsSamePass pass.old pass.new }
    ensures learnt { HasLearnt (whole pass.old) (whole pass.new) }
    ensures passed { IfNone result (HasPassedAt (whole pass.new) op stamp i) }
    ensures barred { IfSome result (IsBarred (whole pass.old) (whole pass.new) op stamp) }
{
    let visit = pass.visits()[i as usize];
    let old = own_old(board, pass, visit.node);
    match check_visit(board, pass, op, visit, old, stamp) {
        Ok(checked) => barred_by(board, pass, op, visit, checked, stamp),
        Err(stuck) => Some(Barred::Stuck(stuck)),
    }
}

/// Checks each visit of the pass's published exchange for a stamp that was drawn for it. What keeps it from taking effect is answered.
pub(crate) fn check_own_visits<H: Shape>(
    board: &Board<H>,
    pass: &mut Pass<H>,
    op: Ref,
    stamp: u64,
) -> Option<Barred>
    requires pass { IsPassOf board.now pass.old }
    requires free { IsFree (view pass.old) }
    requires published { IsPublished pass.old }
    requires own { op ≡ own_exchange pass.old }
    requires drawn { HasDrawn (whole pass.old) op stamp }
    ensures pass { IsSamePass pass.old pass.new }
    ensures learnt { HasLearnt (whole pass.old) (whole pass.new) }
    ensures checked { IfNone result (KnowsChecked (view pass.new) (knows pass.new) op.seat op.number stamp) }
    ensures barred { IfSome result (IsBarred (whole pass.old) (whole pass.new) op stamp) }
{
    let count = pass.attempt_word(2) as u32;
    let mut i = 0;
    while i < count {
        if let Some(barred) = check_own(board, pass, op, i, stamp) {
            return Some(barred);
        }
        i += 1;
    }
    None
}
