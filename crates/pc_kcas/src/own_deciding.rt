//! How the pass's own exchange comes to be decided, each of whose words holds its reference: a stamp is drawn for it, the nodes that it
//! visits are checked for the stamp, and then its status is exchanged.
ghost use Rattle.std.specs.Prelude.{◌≡◌, ◌<◌, ℕ, IfOk, IfErr};
ghost use Rattle.pc_rule_law.specs.Conditions.{IsFree};
ghost use Rattle.pc_rule_law.specs.Views.{IsAttempt};
ghost use Rattle.pc_words.specs.Statuses.{StageInRange};
ghost use Rattle.pc_exchange_law.specs.Ties.{last_stamp};
ghost use Rattle.pc_rule.specs.Passes.{whole, view, board_size, IsPassOf, IsSamePass};
ghost use Rattle.pc_exchange_law.specs.Wholes.{Whole};
ghost use Rattle.pc_kcas.specs.declared.own_checks.Barred.TheVariants.{Stuck as IsBarredByTwo};
ghost use Rattle.pc_kcas.specs.Checking.{HasDrawn, IsStuckAtVisit, IsBarred};
ghost use Rattle.pc_kcas.specs.Clearing.{HoldsListed};
ghost use Rattle.pc_kcas.specs.Exchanges.{IsPublished, own_exchange};
ghost use Rattle.pc_kcas.specs.Settling.{HasLearnt, KnowsOf, IsSettled, TellsFailure};

use crate::deciding::{decide, decide_changed, decide_locked, draw};
use crate::drawn::Drawn;
use crate::obstacle::Stuck;
use crate::own_checks::{Barred, check_own_visits};
use pc_model::Shape;
use pc_rule::{Board, Pass, Ref};
use pc_words::{Stage, Status};

// Decides the exchange by what keeps it from taking effect. Where it is stuck it is left undecided.
fn decide_barred<H: Shape>(
    board: &Board<H>,
    pass: &mut Pass<H>,
    op: Ref,
    stamp: u64,
    barred: Barred,
) -> Result<Status, Stuck>
    requires pass { IsPassOf board.now pass.old }
    requires attempt { IsAttempt (board_size board.now) op.seat op.number }
    requires known { KnowsOf (view pass.old) op.seat op.number }
    requires drawn { HasDrawn (whole pass.old) op stamp }
    requires barred { (x : Whole) × IsBarred x (whole pass.old) op stamp barred }
    ensures pass { IsSamePass pass.old pass.new }
    ensures learnt { HasLearnt (whole pass.old) (whole pass.new) }
    ensures settled { IfOk result (IsSettled (whole pass.new) op.seat op.number) }
    ensures range { IfOk result (λ s. StageInRange s.stage) }
    ensures failure { IfOk result (TellsFailure (whole pass.old) (whole pass.new) op.seat) }
    ensures stuck { IfErr result (λ how. (barred ≡ IsBarredByTwo how) × (whole pass.new ≡ whole pass.old)) }
{
    let _ = stamp;
    match barred {
        Barred::Changed { node } => Ok(decide_changed(board, pass, op, node)),
        Barred::Locked { node, by } => Ok(decide_locked(board, pass, op, node, by)),
        Barred::Stuck(stuck) => Err(stuck),
    }
}

// Decides the exchange, for which this stamp was drawn.
fn decide_drawn<H: Shape>(
    board: &Board<H>,
    pass: &mut Pass<H>,
    op: Ref,
    stamp: u64,
) -> Result<Status, Stuck>
    requires pass { IsPassOf board.now pass.old }
    requires free { IsFree (view pass.old) }
    requires published { IsPublished pass.old }
    requires own { op ≡ own_exchange pass.old }
    requires attempt { IsAttempt (board_size board.now) op.seat op.number }
    requires known { KnowsOf (view pass.old) op.seat op.number }
    requires drawn { HasDrawn (whole pass.old) op stamp }
    requires early { stamp < last_stamp }
    ensures pass { IsSamePass pass.old pass.new }
    ensures learnt { HasLearnt (whole pass.old) (whole pass.new) }
    ensures settled { IfOk result (IsSettled (whole pass.new) op.seat op.number) }
    ensures range { IfOk result (λ s. StageInRange s.stage) }
    ensures failure { IfOk result (TellsFailure (whole pass.old) (whole pass.new) op.seat) }
    ensures stuck { IfErr result (IsStuckAtVisit (whole pass.old) (whole pass.new) op) }
{
    match check_own_visits(board, pass, op, stamp) {
        None => Ok(decide(board, pass, op, Stage::Succeeded { stamp })),
        Some(barred) => decide_barred(board, pass, op, stamp, barred),
    }
}

/// Decides the pass's published exchange, each of whose words holds its reference: it takes effect at a stamp that is drawn for it, or
/// fails, since a node that it visits didn't pass its check; or it is withdrawn where the clock has come to its last stamp. Where
/// another decided it first, that stands. It is left undecided where it is stuck at what stood in the version of a visited node.
pub(crate) fn decide_own<H: Shape>(
    board: &Board<H>,
    pass: &mut Pass<H>,
    op: Ref,
) -> Result<Status, Stuck>
    requires pass { IsPassOf board.now pass.old }
    requires free { IsFree (view pass.old) }
    requires published { IsPublished pass.old }
    requires own { op ≡ own_exchange pass.old }
    requires held { HoldsListed pass.old }
    ensures pass { IsSamePass pass.old pass.new }
    ensures learnt { HasLearnt (whole pass.old) (whole pass.new) }
    ensures settled { IfOk result (IsSettled (whole pass.new) op.seat op.number) }
    ensures range { IfOk result (λ s. StageInRange s.stage) }
    ensures failure { IfOk result (TellsFailure (whole pass.old) (whole pass.new) op.seat) }
    ensures stuck { IfErr result (IsStuckAtVisit (whole pass.old) (whole pass.new) op) }
{
    match draw(board, pass, op) {
        Drawn::Stamp(stamp) => decide_drawn(board, pass, op, stamp),
        Drawn::Refused(_) => Ok(decide(board, pass, op, Stage::Withdrawn)),
        Drawn::Past(status) => Ok(status),
    }
}
