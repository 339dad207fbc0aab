//! The check of the nodes that an exchange visits, for a stamp that was drawn for it: the version of each is loaded again, and is as
//! it was visited, or the exchange fails.
ghost use Rattle.std.specs.Prelude.{◌≡◌, ◌≢◌, ◌+◌, ◌<◌, ◌≤◌, ℕ, IfOk, IfErr, IfSome, IfNone, Some, true, false};
ghost use Rattle.pc_model.specs.declared.cell.Field.TheVariants.{Version};
ghost use Rattle.pc_rule_law.specs.Board.{place_number};
ghost use Rattle.pc_rule_law.specs.Conditions.{IsFree};
ghost use Rattle.pc_rule.specs.declared.refs.RefKind.TheVariants.{Exchange};
ghost use Rattle.pc_kcas.specs.declared.checking.Failed.TheVariants.{Over};
ghost use Rattle.pc_rule.specs.Passes.{whole, view, knows, board_size, IsPassOf, IsSamePass, HasNode};
ghost use Rattle.pc_exchange_law.specs.ExchangeConditions.{KnowsPassed};
ghost use Rattle.pc_kcas.specs.Checking.{KnowsVisitOf, KnowsCounts, AreFew, LeavesVersion, ChangesFrom, HasDrawn, IsChecked, IsStuckAtVersion, StandsInWay, HasPassedAt, HasFailed};
ghost use Rattle.pc_kcas.specs.Obstacles.{IsStuck, IsApartFrom};
ghost use Rattle.pc_kcas.specs.Readings.{HasComeTo, HasLoaded, HasRead};
ghost use Rattle.pc_kcas.specs.Settling.{HasLearnt};

use crate::obstacle::Stuck;
use crate::reading::{Counts, load_status, read_place, read_visit};
use pc_dcss::complete;
use pc_model::Shape;
use pc_rule::{Board, Pass, Place, Ref, RefKind, Visit, step_17};
use pc_words::{Status, WordKind, kind_of};

/// How the check of a visited node ended.
#[derive(Clone, Copy)]
pub(crate) enum Checked {
    /// Its version is as it was visited.
    Passed,
    /// The version is past at which it was visited.
    Changed,
    /// Another pass holds its version.
    Locked {
        /// The seat of that pass.
        by: u32,
    },
    /// The exchange's pass has gone on from it.
    Gone,
}

/// What keeps an exchange from taking effect at a stamp.
#[derive(Clone, Copy)]
pub(crate) enum Failed {
    /// This status of its pass: it isn't the exchange's any more.
    Over(Status),
    /// A visited node.
    Changed {
        /// The node, whose version is past.
        node: u32,
    },
    /// A visited node, and the pass that holds its version.
    Locked {
        /// The node.
        node: u32,
        /// The seat of that pass.
        by: u32,
    },
    /// It is stuck at what stood in the version of a visited node.
    Stuck(Stuck),
}

// Looks at the version of a visited node which the exchange doesn't change. The install is answered that stands there.
fn look<H: Shape>(
    board: &Board<H>,
    pass: &mut Pass<H>,
    op: Ref,
    visit: Visit,
    stamp: u64,
) -> Result<Checked, Ref>
    requires pass { IsPassOf board.now pass.old }
    requires free { IsFree (view pass.old) }
    requires exchange { op.kind ≡ Exchange }
    requires small { op.seat < 32 }
    requires drawn { HasDrawn (whole pass.old) op stamp }
    requires node { HasNode board.now visit.node }
    requires visited { (i : ℕ) × KnowsVisitOf (whole pass.old) op i visit.node visit.version }
    requires leaves { LeavesVersion (whole pass.old) op visit.node }
    ensures pass { IsSamePass pass.old pass.new }
    ensures learnt { HasLearnt (whole pass.old) (whole pass.new) }
    ensures checked { IfOk result (IsChecked (whole pass.new) op stamp visit.node visit.version) }
    ensures install { IfErr result (StandsInWay (whole pass.old) (whole pass.new) visit.node) }
{
    let _ = stamp;
    let found = step_17(board, pass, op, visit.node);
    match kind_of(found) {
        WordKind::Plain(version) => {
            if version > visit.version {
                return Ok(Checked::Changed);
            }
            Ok(Checked::Passed)
        }
        WordKind::Exchange { seat, .. } => {
            if seat == op.seat {
                return Ok(Checked::Gone);
            }
            Ok(Checked::Locked { by: seat })
        }
        WordKind::Install { seat, number } => Err(Ref {
            kind: RefKind::Install,
            seat,
            number,
        }),
    }
}

// Checks the visit of a node whose version the exchange doesn't change. One install that stands there is completed first.
fn check_other<H: Shape>(
    board: &Board<H>,
    pass: &mut Pass<H>,
    op: Ref,
    visit: Visit,
    stamp: u64,
) -> Result<Checked, Stuck>
    requires pass { IsPassOf board.now pass.old }
    requires free { IsFree (view pass.old) }
    requires exchange { op.kind ≡ Exchange }
    requires small { op.seat < 32 }
    requires drawn { HasDrawn (whole pass.old) op stamp }
    requires node { HasNode board.now visit.node }
    requires visited { (i : ℕ) × KnowsVisitOf (whole pass.old) op i visit.node visit.version }
    requires leaves { LeavesVersion (whole pass.old) op visit.node }
    ensures pass { IsSamePass pass.old pass.new }
    ensures learnt { HasLearnt (whole pass.old) (whole pass.new) }
    ensures checked { IfOk result (IsChecked (whole pass.new) op stamp visit.node visit.version) }
    ensures stuck { IfErr result (λ how. (left : ℕ) → IsStuck (view pass.old) (whole pass.new) left how × IsApartFrom op how) }
    ensures at { IfErr result (IsStuckAtVersion (whole pass.old) (whole pass.new) op visit.node) }
{
    match look(board, pass, op, visit, stamp) {
        Ok(checked) => Ok(checked),
        Err(first) => {
            complete(board, pass, first);
            match look(board, pass, op, visit, stamp) {
                Ok(checked) => Ok(checked),
                Err(second) => Err(Stuck::Two { first, second }),
            }
        }
    }
}

// Checks the visit of a node whose version the exchange changes from this number.
fn check_changed<H: Shape>(
    board: &Board<H>,
    pass: &mut Pass<H>,
    op: Ref,
    visit: Visit,
    old: u64,
    stamp: u64,
) -> Checked
    requires pass { IsPassOf board.now pass.old }
    requires exchange { op.kind ≡ Exchange }
    requires small { op.seat < 32 }
    requires drawn { HasDrawn (whole pass.old) op stamp }
    requires node { HasNode board.now visit.node }
    requires visited { (i : ℕ) × KnowsVisitOf (whole pass.old) op i visit.node visit.version }
    requires changes { ChangesFrom (whole pass.old) op visit.node (Some old) }
    ensures pass { IsSamePass pass.old pass.new }
    ensures learnt { HasLearnt (whole pass.old) (whole pass.new) }
    ensures checked { IsChecked (whole pass.new) op stamp visit.node visit.version result }
{
    let _ = stamp;
    if old == visit.version {
        return Checked::Passed;
    }
    step_17(board, pass, op, visit.node);
    Checked::Changed
}

/// Checks a visit of an exchange for a stamp.
/// - `old`: the number from which the exchange changes the version of the visited node, where it does.
pub(crate) fn check_visit<H: Shape>(
    board: &Board<H>,
    pass: &mut Pass<H>,
    op: Ref,
    visit: Visit,
    old: Option<u64>,
    stamp: u64,
) -> Result<Checked, Stuck>
    requires pass { IsPassOf board.now pass.old }
    requires free { IsFree (view pass.old) }
    requires exchange { op.kind ≡ Exchange }
    requires small { op.seat < 32 }
    requires drawn { HasDrawn (whole pass.old) op stamp }
    requires node { HasNode board.now visit.node }
    requires visited { (i : ℕ) × KnowsVisitOf (whole pass.old) op i visit.node visit.version }
    requires changes { ChangesFrom (whole pass.old) op visit.node old }
    ensures pass { IsSamePass pass.old pass.new }
    ensures learnt { HasLearnt (whole pass.old) (whole pass.new) }
    ensures checked { IfOk result (IsChecked (whole pass.new) op stamp visit.node visit.version) }
    ensures stuck { IfErr result (λ how. (left : ℕ) → IsStuck (view pass.old) (whole pass.new) left how × IsApartFrom op how) }
    ensures at { IfErr result (IsStuckAtVersion (whole pass.old) (whole pass.new) op visit.node) }
{
    match old {
        Some(old) => Ok(check_changed(board, pass, op, visit, old, stamp)),
        None => check_other(board, pass, op, visit, stamp),
    }
}

/// Whether this is the word of the version of this node.
pub(crate) fn is_version_of(place: Place, node: u32) -> bool
    ensures yes { result ≡ true → place_number place.node place.field ≡ place_number node Version }
    ensures no { result ≡ false → place_number place.node place.field ≢ place_number node Version }
{
    place.number() == 8 * u64::from(node)
}

// The number from which another's exchange changes the version of a node, where it does. The status is answered where it isn't the
// exchange's any more.
fn find_old<H: Shape>(
    board: &Board<H>,
    pass: &mut Pass<H>,
    op: Ref,
    count: u32,
    node: u32,
) -> Result<Option<u64>, Status>
    requires pass { IsPassOf board.now pass.old }
    requires come { HasComeTo (whole pass.old) op }
    requires counted { HasLoaded (whole pass.old) op 1 count }
    requires read { HasRead (whole pass.old) op 1 count }
    requires few { count ≤ 25 + (board_size board.now).slots }
    ensures pass { IsSamePass pass.old pass.new }
    ensures learnt { HasLearnt (whole pass.old) (whole pass.new) }
    ensures changes { IfOk result (ChangesFrom (whole pass.new) op node) }
    ensures over { IfErr result (λ s. HasFailed (whole pass.old) (whole pass.new) op 0 (Over s)) }
{
    let mut i = 0;
    while i < count {
        match read_place(board, pass, op, count, i) {
            Ok(place) => {
                if is_version_of(place, node) {
                    return Ok(Some(place.old));
                }
                i += 1;
            }
            Err(status) => return Err(status),
        }
    }
    Ok(None)
}

// What keeps another's exchange from taking effect, where a visited node didn't pass its check so.
fn end_check<H: Shape>(
    board: &Board<H>,
    pass: &mut Pass<H>,
    op: Ref,
    visit: Visit,
    checked: Checked,
    stamp: u64,
) -> Option<Failed>
    requires pass { IsPassOf board.now pass.old }
    requires come { HasComeTo (whole pass.old) op }
    requires node { HasNode board.now visit.node }
    requires visited { (i : ℕ) × KnowsVisitOf (whole pass.old) op i visit.node visit.version }
    requires checked { IsChecked (whole pass.old) op stamp visit.node visit.version checked }
    ensures pass { IsSamePass pass.old pass.new }
    ensures learnt { HasLearnt (whole pass.old) (whole pass.new) }
    ensures passed { IfNone result (KnowsPassed (view pass.new) (knows pass.new) op.seat op.number stamp visit.node visit.version) }
    ensures failed { IfSome result (HasFailed (whole pass.old) (whole pass.new) op stamp) }
{
    let _ = stamp;
    let node = visit.node;
    match checked {
        Checked::Passed => None,
        Checked::Changed => Some(Failed::Changed { node }),
        Checked::Locked { by } => Some(Failed::Locked { node, by }),
        Checked::Gone => {
            let status = load_status(board, pass, op);
            Some(Failed::Over(status))
        }
    }
}

// Checks the visit of another's exchange at this index. What keeps the exchange from taking effect is answered.
fn check_at<H: Shape>(
    board: &Board<H>,
    pass: &mut Pass<H>,
    op: Ref,
    counts: Counts,
    i: u32,
    stamp: u64,
) -> Option<Failed>
    requires pass { IsPassOf board.now pass.old }
    requires free { IsFree (view pass.old) }
    requires exchange { op.kind ≡ Exchange }
    requires come { HasComeTo (whole pass.old) op }
    requires drawn { HasDrawn (whole pass.old) op stamp }
    requires counts { KnowsCounts (whole pass.old) op counts }
    requires few { AreFew (board_size board.now).slots counts }
    requires index { i < counts.visits }
    ensures pass { IsSamePass pass.old pass.new }
    ensures learnt { HasLearnt (whole pass.old) (whole pass.new) }
    ensures passed { IfNone result (HasPassedAt (whole pass.new) op stamp i) }
    ensures failed { IfSome result (HasFailed (whole pass.old) (whole pass.new) op stamp) }
{
    let visit = match read_visit(board, pass, op, counts.visits, i) {
        Ok(visit) => visit,
        Err(status) => return Some(Failed::Over(status)),
    };
    let old = match find_old(board, pass, op, counts.changes, visit.node) {
        Ok(old) => old,
        Err(status) => return Some(Failed::Over(status)),
    };
    match check_visit(board, pass, op, visit, old, stamp) {
        Ok(checked) => end_check(board, pass, op, visit, checked, stamp),
        Err(stuck) => Some(Failed::Stuck(stuck)),
    }
}

/// Checks each visit of another's exchange for a stamp that was drawn for it. What keeps the exchange from taking effect is answered.
pub(crate) fn check_visits<H: Shape>(
    board: &Board<H>,
    pass: &mut Pass<H>,
    op: Ref,
    counts: Counts,
    stamp: u64,
) -> Option<Failed>
    requires pass { IsPassOf board.now pass.old }
    requires free { IsFree (view pass.old) }
    requires exchange { op.kind ≡ Exchange }
    requires come { HasComeTo (whole pass.old) op }
    requires drawn { HasDrawn (whole pass.old) op stamp }
    requires counts { KnowsCounts (whole pass.old) op counts }
    requires few { AreFew (board_size board.now).slots counts }
    ensures pass { IsSamePass pass.old pass.new }
    ensures learnt { HasLearnt (whole pass.old) (whole pass.new) }
    ensures passed { IfNone result ((i : ℕ) → i < counts.visits → HasPassedAt (whole pass.new) op stamp i) }
    ensures failed { IfSome result (HasFailed (whole pass.old) (whole pass.new) op stamp) }
{
    let mut i = 0;
    while i < counts.visits {
        if let Some(failed) = check_at(board, pass, op, counts, i, stamp) {
            return Some(failed);
        }
        i += 1;
    }
    None
}
