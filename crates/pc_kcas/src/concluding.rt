//! The end of a help of another's exchange: the exchange isn't undecided any more, and its words are cleared, unless its own pass
//! has done so.
ghost use Rattle.std.specs.Prelude.{◌≡◌, ◌≢◌, ℕ, ◌+◌, ◌<◌, ◌≤◌, IfSome, IfNone};
ghost use Rattle.pc_rule_law.specs.Conditions.{IsFree};
ghost use Rattle.pc_exchange_law.specs.ExchangeConditions.{KnowsCleared};
ghost use Rattle.pc_rule.specs.Passes.{whole, view, board_size, IsPassOf, IsSamePass};
ghost use Rattle.pc_kcas.specs.declared.helped.Progress.TheVariants.{Decided, Gone};
ghost use Rattle.pc_kcas.specs.Clearing.{KnowsOutcomeOf};
ghost use Rattle.pc_kcas.specs.Concluding.{IsPastDecision, IsCleanWord, HasConcluded, IsEnd};
ghost use Rattle.pc_kcas.specs.Obstacles.{GoesOn};
ghost use Rattle.pc_kcas.specs.Readings.{HasComeTo, HasLoaded, HasRead, IsOver, AreCleanWhereMet};
ghost use Rattle.pc_kcas.specs.Settling.{HasLearnt};

use crate::clearing::clear_word;
use crate::ending::is_success;
use crate::helped::Progress;
use crate::reading::{read_place, stands};
use pc_model::Shape;
use pc_rule::{Board, Pass, Ref};
use pc_words::Status;

// Reads the exchange's word at this index, and clears it. The status is answered where it isn't the exchange's any more.
fn clear_read<H: Shape>(
    board: &Board<H>,
    pass: &mut Pass<H>,
    op: Ref,
    count: u32,
    i: u32,
    won: bool,
) -> Option<Status>
    requires pass { IsPassOf board.now pass.old }
    requires come { HasComeTo (whole pass.old) op }
    requires counted { HasLoaded (whole pass.old) op 1 count }
    requires few { count ≤ 25 + (board_size board.now).slots }
    requires index { i < count }
    requires decided { KnowsOutcomeOf (whole pass.old) op.seat op.number won }
    ensures pass { IsSamePass pass.old pass.new }
    ensures learnt { HasLearnt (whole pass.old) (whole pass.new) }
    ensures clean { IfNone result (IsCleanWord (whole pass.new) op i) }
    ensures over { IfSome result (IsOver op) }
    ensures past { IfSome result (IsPastDecision (whole pass.new) op) }
    ensures cleaned { IfSome result (λ s. AreCleanWhereMet (view pass.old) (view pass.new) op) }
{
    match read_place(board, pass, op, count, i) {
        Ok(place) => {
            clear_word(board, pass, op, place, won);
            None
        }
        Err(status) => Some(status),
    }
}

// Clears each word of the exchange. The status is answered where it isn't the exchange's any more.
fn clear_collected<H: Shape>(
    board: &Board<H>,
    pass: &mut Pass<H>,
    op: Ref,
    count: u32,
    won: bool,
) -> Option<Status>
    requires pass { IsPassOf board.now pass.old }
    requires come { HasComeTo (whole pass.old) op }
    requires counted { HasLoaded (whole pass.old) op 1 count }
    requires read { HasRead (whole pass.old) op 1 count }
    requires few { count ≤ 25 + (board_size board.now).slots }
    requires decided { KnowsOutcomeOf (whole pass.old) op.seat op.number won }
    ensures pass { IsSamePass pass.old pass.new }
    ensures learnt { HasLearnt (whole pass.old) (whole pass.new) }
    ensures cleared { IfNone result (KnowsCleared (whole pass.new) op.seat op.number) }
    ensures over { IfSome result (IsOver op) }
    ensures past { IfSome result (IsPastDecision (whole pass.new) op) }
    ensures cleaned { IfSome result (λ s. AreCleanWhereMet (view pass.old) (view pass.new) op) }
{
    let mut i = 0;
    while i < count {
        match clear_read(board, pass, op, count, i, won) {
            Some(status) => return Some(status),
            None => i += 1,
        }
    }
    None
}

/// How far the exchange has come by this status of its pass, which isn't the exchange's any more, or says that it is cleared.
pub(crate) fn ended_by(op: Ref, status: Status) -> Progress
    ensures decided { status.number ≡ op.number → result ≡ Decided }
    ensures gone { status.number ≢ op.number → result ≡ Gone }
{
    if status.number == op.number {
        return Progress::Decided;
    }
    Progress::Gone
}

/// Ends the help of an exchange by a status of its pass which doesn't say that it is undecided: its words are cleared, unless its pass
/// has gone on, or cleared it. What the status told of words that were clean then is told since the same moment.
pub(crate) fn conclude_helped<H: Shape>(
    board: &Board<H>,
    pass: &mut Pass<H>,
    op: Ref,
    count: u32,
    status: Status,
) -> Progress
    requires pass { IsPassOf board.now pass.old }
    requires free { IsFree (view pass.old) }
    requires come { HasComeTo (whole pass.old) op }
    requires counted { HasLoaded (whole pass.old) op 1 count }
    requires read { HasRead (whole pass.old) op 1 count }
    requires few { count ≤ 25 + (board_size board.now).slots }
    requires past { IsPastDecision (whole pass.old) op status }
    ensures pass { IsSamePass pass.old pass.new }
    ensures goes_on { GoesOn (whole pass.old) (whole pass.new) }
    ensures free { IsFree (view pass.new) }
    ensures no_install { (view pass.new).install.number ≡ (view pass.old).install.number }
    ensures ends { IsEnd result }
    ensures come { HasConcluded (whole pass.old) (whole pass.new) op status result }
{
    if !stands(status, op.number) {
        return ended_by(op, status);
    }
    match clear_collected(board, pass, op, count, is_success(status.stage)) {
        Some(later) => ended_by(op, later),
        None => Progress::Decided,
    }
}
