//! How an exchange comes to be decided: a stamp is drawn for it, and then its status is exchanged. Its own pass and whoever helps
//! it do so by the same steps. The answer is the status that stands then: of whoever came first.
ghost use Rattle.std.specs.Prelude.{◌≡◌, ℕ, ◌<◌, ◌≤◌, ◌^◌, true, false, IfSome, IfNone};
ghost use Rattle.pc_rule_law.specs.Past.{Has};
ghost use Rattle.pc_rule_law.specs.Stages.{IsOpen, decided_by};
ghost use Rattle.pc_rule_law.specs.Views.{IsAttempt, decided_below};
ghost use Rattle.pc_words.specs.Statuses.{StageInRange};
ghost use Rattle.pc_protocol.specs.Histories.{withdrawn, locked, aborted};
ghost use Rattle.pc_exchange_law.specs.ExchangeConditions.{MayFail};
ghost use Rattle.pc_protocol.specs.Notes.{clock_was, drew, verdict, outdated};
ghost use Rattle.pc_exchange_law.specs.Ties.{code, last_stamp};
ghost use Rattle.pc_rule.specs.declared.refs.RefKind.TheVariants.{Exchange};
ghost use Rattle.pc_rule.specs.Passes.{whole, view, knows, aim, board_size, IsPassOf, IsSamePass, HasNode};
ghost use Rattle.pc_kcas.specs.Concluding.{TellsCourse};
ghost use Rattle.pc_kcas.specs.Settling.{HasLearnt, HasLearntOrWithdrawn, KnowsOf, StandsAt, IsSettled, TellsFailure, HoldsEach, MaySettle, OwnsPublished, IfStamp, IfRefused, IfPast};

use crate::drawn::Drawn;
use pc_model::Shape;
use pc_rule::{Board, Pass, Ref, step_7, step_9, step_13, step_14, step_14_own, step_18};
use pc_words::{Stage, Status, pack, unpack};

// The last stamp.
const LAST_STAMP: u64 = 17_179_869_183;

/// Whether this is the stage of an undecided attempt.
pub(crate) fn is_open(stage: Stage) -> bool
    ensures yes { result ≡ true → IsOpen stage }
    ensures no { result ≡ false → IsOpen stage → ⊥ }
{
    match stage {
        Stage::Undecided => true,
        Stage::Idle => false,
        Stage::Succeeded { .. } => false,
        Stage::Withdrawn => false,
        Stage::Changed { .. } => false,
        Stage::Locked { .. } => false,
    }
}

/// Loads the status of the exchange's pass, at which the pass then aims.
pub(crate) fn load_status<H: Shape>(board: &Board<H>, pass: &mut Pass<H>, op: Ref) -> Status
    requires pass { IsPassOf board.now pass.old }
    requires attempt { IsAttempt (board_size board.now) op.seat op.number }
    requires known { KnowsOf (view pass.old) op.seat op.number }
    ensures pass { IsSamePass pass.old pass.new }
    ensures learnt { HasLearnt (whole pass.old) (whole pass.new) }
    ensures ready { (knows pass.new).ready ≡ (knows pass.old).ready }
    ensures aim { aim pass.new ≡ (op.seat, result.number) }
    ensures stands { StandsAt (whole pass.new) op.seat op.number result }
    ensures range { StageInRange result.stage }
    ensures failure { TellsFailure (whole pass.old) (whole pass.new) op.seat result }
    ensures course { TellsCourse (whole pass.old) (whole pass.new) op result }
    ensures still_decided { (m : ℕ) → Has (view pass.old).notes (decided_below op.seat m) → m ≤ decided_by result }
{
    unpack(step_7(board, pass, op.seat + 1))
}

/// Draws a stamp for an exchange each of whose words holds its reference. Nothing is drawn where the exchange isn't undecided, or
/// where the clock has come to its last stamp.
pub(crate) fn draw<H: Shape>(board: &Board<H>, pass: &mut Pass<H>, op: Ref) -> Drawn
    requires pass { IsPassOf board.now pass.old }
    requires exchange { op.kind ≡ Exchange }
    requires attempt { IsAttempt (board_size board.now) op.seat op.number }
    requires held { HoldsEach (whole pass.old) op.seat op.number }
    ensures pass { IsSamePass pass.old pass.new }
    ensures learnt { HasLearnt (whole pass.old) (whole pass.new) }
    ensures stamp { IfStamp result (λ s. (s < last_stamp) × Has (knows pass.new).told (drew (code op.seat op.number) s)) }
    ensures refused { IfRefused result (λ c. (last_stamp ≤ c) × Has (knows pass.new).told (clock_was c)) }
    ensures past { IfPast result (IsSettled (whole pass.new) op.seat op.number) }
    ensures range { IfPast result (λ s. StageInRange s.stage) }
    ensures failure { IfPast result (TellsFailure (whole pass.old) (whole pass.new) op.seat) }
    ensures course { IfPast result (TellsCourse (whole pass.old) (whole pass.new) op) }
{
    let clock = step_9(board, pass);
    if clock >= LAST_STAMP {
        return Drawn::Refused(clock);
    }
    let status = load_status(board, pass, op);
    if status.number != op.number {
        return Drawn::Past(status);
    }
    if !is_open(status.stage) {
        return Drawn::Past(status);
    }
    let stamp = step_13(board, pass, op);
    if stamp >= LAST_STAMP {
        return Drawn::Refused(stamp);
    }
    Drawn::Stamp(stamp)
}

/// Decides an exchange: that it took effect at a stamp that was drawn for it, that a node changed, or that it was withdrawn since
/// the clock has come to its last stamp. Where another decided it first, that stands.
pub(crate) fn decide<H: Shape>(
    board: &Board<H>,
    pass: &mut Pass<H>,
    op: Ref,
    stage: Stage,
) -> Status
    requires pass { IsPassOf board.now pass.old }
    requires attempt { IsAttempt (board_size board.now) op.seat op.number }
    requires known { KnowsOf (view pass.old) op.seat op.number }
    requires range { StageInRange stage }
    requires may { MaySettle (whole pass.old) op.seat op.number stage }
    ensures pass { IsSamePass pass.old pass.new }
    ensures learnt { HasLearnt (whole pass.old) (whole pass.new) }
    ensures settled { IsSettled (whole pass.new) op.seat op.number result }
    ensures range { StageInRange result.stage }
    ensures failure { TellsFailure (whole pass.old) (whole pass.new) op.seat result }
    ensures course { TellsCourse (whole pass.old) (whole pass.new) op result }
{
    let old = pack(Status {
        number: op.number,
        stage: Stage::Undecided,
    });
    let decided = Status {
        number: op.number,
        stage,
    };
    let new = pack(decided);
    let found = step_14(board, pass, op.seat + 1, old, new);
    if found == old {
        return decided;
    }
    unpack(found)
}

/// Decides an exchange which is known to be outdated at this node: it failed since that changed. Where another decided it first, that
/// stands.
pub(crate) fn decide_changed<H: Shape>(
    board: &Board<H>,
    pass: &mut Pass<H>,
    op: Ref,
    node: u32,
) -> Status
    requires pass { IsPassOf board.now pass.old }
    requires attempt { IsAttempt (board_size board.now) op.seat op.number }
    requires known { KnowsOf (view pass.old) op.seat op.number }
    requires node { HasNode board.now node }
    requires outdated { Has (knows pass.old).told (outdated (code op.seat op.number) node) }
    ensures pass { IsSamePass pass.old pass.new }
    ensures learnt { HasLearnt (whole pass.old) (whole pass.new) }
    ensures settled { IsSettled (whole pass.new) op.seat op.number result }
    ensures range { StageInRange result.stage }
    ensures failure { TellsFailure (whole pass.old) (whole pass.new) op.seat result }
    ensures course { TellsCourse (whole pass.old) (whole pass.new) op result }
{
    decide(board, pass, op, Stage::Changed { node })
}

/// Decides an exchange of which another pass was a rival for this node, at one of its stamps: it failed since that pass holds the
/// node's version. Where another decided it first, that stands.
pub(crate) fn decide_locked<H: Shape>(
    board: &Board<H>,
    pass: &mut Pass<H>,
    op: Ref,
    node: u32,
    by: u32,
) -> Status
    requires pass { IsPassOf board.now pass.old }
    requires attempt { IsAttempt (board_size board.now) op.seat op.number }
    requires known { KnowsOf (view pass.old) op.seat op.number }
    requires node { HasNode board.now node }
    requires by { by < 32 }
    requires may { MayFail (view pass.old) (knows pass.old) op.seat op.number (locked node by) }
    ensures pass { IsSamePass pass.old pass.new }
    ensures learnt { HasLearnt (whole pass.old) (whole pass.new) }
    ensures settled { IsSettled (whole pass.new) op.seat op.number result }
    ensures range { StageInRange result.stage }
    ensures failure { TellsFailure (whole pass.old) (whole pass.new) op.seat result }
    ensures course { TellsCourse (whole pass.old) (whole pass.new) op result }
{
    let old = pack(Status {
        number: op.number,
        stage: Stage::Undecided,
    });
    let new = pack(Status {
        number: op.number,
        stage: Stage::Locked { node, seat: by },
    });
    step_18(board, pass, op.seat + 1, old, new);
    load_status(board, pass, op)
}

/// The pass withdraws its own attempt. Where another decided it first, that stands, and the status is answered.
pub(crate) fn withdraw<H: Shape>(board: &Board<H>, pass: &mut Pass<H>) -> Option<Status>
    requires pass { IsPassOf board.now pass.old }
    requires published { OwnsPublished (view pass.old) }
    ensures pass { IsSamePass pass.old pass.new }
    ensures withdrew { IfNone result (HasLearntOrWithdrawn (whole pass.old) (whole pass.new)) }
    ensures told { IfNone result (Has (knows pass.new).told (verdict (code (view pass.old).seat (view pass.old).attempt.number) (aborted withdrawn))) }
    ensures learnt { IfSome result (λ s. HasLearnt (whole pass.old) (whole pass.new)) }
    ensures settled { IfSome result (IsSettled (whole pass.new) (view pass.old).seat (view pass.old).attempt.number) }
    ensures range { IfSome result (λ s. StageInRange s.stage) }
    ensures failure { IfSome result (TellsFailure (whole pass.old) (whole pass.new) (view pass.old).seat) }
{
    let number = pass.attempts();
    let old = pack(Status {
        number,
        stage: Stage::Undecided,
    });
    let new = pack(Status {
        number,
        stage: Stage::Withdrawn,
    });
    let found = step_14_own(board, pass, old, new);
    if found == old {
        return None;
    }
    Some(unpack(found))
}
