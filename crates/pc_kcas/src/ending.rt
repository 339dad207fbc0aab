//! The end of an exchange by its own pass: it is decided, if it isn't yet, and then cleared. The answer is how it was decided.
ghost use Rattle.std.specs.Prelude.{◌≡◌, ◌<◌, ℕ, length};
ghost use Rattle.pc_exchange_law.specs.Ties.{code};
ghost use Rattle.pc_protocol.specs.Notes.{outdated};
ghost use Rattle.pc_rule_law.specs.Conditions.{IsFree};
ghost use Rattle.pc_rule_law.specs.Past.{Has};
ghost use Rattle.pc_rule.specs.Passes.{whole, view, knows, listed, IsPassOf, IsSameButSlots};
ghost use Rattle.pc_words.specs.declared.status.Stage.TheVariants.{Withdrawn, Changed as ChangedNode};
ghost use Rattle.pc_words.specs.Statuses.{StageInRange};
ghost use Rattle.pc_dcss.specs.Installs.{IsDecided};
ghost use Rattle.pc_kcas.specs.declared.verdict.Verdict.TheVariants.{Blocked};
ghost use Rattle.pc_kcas.specs.Clearing.{says_success, HoldsListed, IsCleanAt};
ghost use Rattle.pc_kcas.specs.Exchanges.{IsPublished, IsUncleared, own_exchange};
ghost use Rattle.pc_kcas.specs.Verdicts.{KnowsWhy, HasEnded, HasMetVisited, EndedSo, IsReason, answer_by};

use crate::answering::blocked_at;
use crate::clearing::clear;
use crate::deciding::{decide, load_status, withdraw};
use crate::own::own_ref;
use crate::own_deciding::decide_own;
use crate::verdict::Verdict;
use pc_model::{Counter, Numbers, Shape};
use pc_rule::{Board, Pass};
use pc_words::{Stage, Status};

/// Whether the attempt of this stage took effect.
pub(crate) fn is_success(stage: Stage) -> bool
    ensures { result ≡ says_success stage }
{
    match stage {
        Stage::Succeeded { .. } => true,
        Stage::Idle => false,
        Stage::Undecided => false,
        Stage::Withdrawn => false,
        Stage::Changed { .. } => false,
        Stage::Locked { .. } => false,
    }
}

// That the clock has come to its last stamp.
fn clock_ended(clock: u64) -> Verdict
    ensures { result ≡ answer_by Withdrawn clock }
{
    Verdict::Numbers(Numbers {
        counter: Counter::Stamp,
        at: clock,
    })
}

// How an exchange ended that was decided so. Nobody but its own pass withdraws it before the clock has come to its last stamp.
fn answer(stage: Stage, clock: u64) -> Verdict
    requires { StageInRange stage }
    ensures { result ≡ answer_by stage clock }
{
    match stage {
        Stage::Succeeded { stamp } => Verdict::Won { stamp },
        Stage::Changed { node } => Verdict::Changed { node },
        Stage::Locked { node, seat } => Verdict::Locked { node, by: seat + 1 },
        Stage::Withdrawn => clock_ended(clock),
        Stage::Idle => clock_ended(clock),
        Stage::Undecided => clock_ended(clock),
    }
}

// Clears the pass's own exchange, which was decided as this status says.
fn conclude<H: Shape>(board: &Board<H>, pass: &mut Pass<H>, status: Status) -> Verdict
    requires pass { IsPassOf board.now pass.old }
    requires published { IsUncleared pass.old }
    requires range { StageInRange status.stage }
    requires why { KnowsWhy (whole pass.old) status }
    ensures pass { IsSameButSlots pass.old pass.new }
    ensures ended { HasEnded (whole pass.old) (whole pass.new) }
    ensures clean { (i : ℕ) → i < length (listed pass.new) → IsCleanAt pass.new i }
    ensures so { EndedSo (whole pass.new) (view pass.new).attempt.number result (λ first second. ⊥) }
{
    let clock = clear(board, pass, is_success(status.stage));
    answer(status.stage, clock)
}

/// Ends the pass's published exchange, each word of which holds its reference. The pass withdraws it where it is stuck at what stood in
/// the version of a node that it visits.
pub(crate) fn end_held<H: Shape>(board: &Board<H>, pass: &mut Pass<H>) -> Verdict
    requires pass { IsPassOf board.now pass.old }
    requires free { IsFree (view pass.old) }
    requires published { IsPublished pass.old }
    requires held { HoldsListed pass.old }
    ensures pass { IsSameButSlots pass.old pass.new }
    ensures ended { HasEnded (whole pass.old) (whole pass.new) }
    ensures clean { (i : ℕ) → i < length (listed pass.new) → IsCleanAt pass.new i }
    ensures so { EndedSo (whole pass.new) (view pass.new).attempt.number result (HasMetVisited (whole pass.old) (whole pass.new) (own_exchange pass.old)) }
{
    let op = own_ref(board, pass);
    match decide_own(board, pass, op) {
        Ok(status) => conclude(board, pass, status),
        Err(stuck) => end_withdrawn(board, pass, blocked_at(stuck)),
    }
}

/// Ends the pass's published exchange, which is known to be outdated at this node: it failed since that changed, where it isn't
/// decided yet.
pub(crate) fn end_changed<H: Shape>(board: &Board<H>, pass: &mut Pass<H>, node: u32) -> Verdict
    requires pass { IsPassOf board.now pass.old }
    requires published { IsPublished pass.old }
    requires range { StageInRange (ChangedNode node) }
    requires outdated { Has (knows pass.old).told (outdated (code (view pass.old).seat (view pass.old).attempt.number) node) }
    ensures pass { IsSameButSlots pass.old pass.new }
    ensures ended { HasEnded (whole pass.old) (whole pass.new) }
    ensures clean { (i : ℕ) → i < length (listed pass.new) → IsCleanAt pass.new i }
    ensures so { EndedSo (whole pass.new) (view pass.new).attempt.number result (λ first second. ⊥) }
{
    let op = own_ref(board, pass);
    let status = decide(board, pass, op, Stage::Changed { node });
    conclude(board, pass, status)
}

/// Ends the pass's published exchange, which is known to be decided.
pub(crate) fn end_decided<H: Shape>(board: &Board<H>, pass: &mut Pass<H>) -> Verdict
    requires pass { IsPassOf board.now pass.old }
    requires published { IsPublished pass.old }
    requires decided { IsDecided (view pass.old) (view pass.old).seat (view pass.old).attempt.number }
    ensures pass { IsSameButSlots pass.old pass.new }
    ensures ended { HasEnded (whole pass.old) (whole pass.new) }
    ensures clean { (i : ℕ) → i < length (listed pass.new) → IsCleanAt pass.new i }
    ensures so { EndedSo (whole pass.new) (view pass.new).attempt.number result (λ first second. ⊥) }
{
    let op = own_ref(board, pass);
    let status = load_status(board, pass, op);
    conclude(board, pass, status)
}

/// Ends the pass's published exchange: the pass withdraws it for this reason, which is the answer, where it isn't decided yet.
pub(crate) fn end_withdrawn<H: Shape>(
    board: &Board<H>,
    pass: &mut Pass<H>,
    reason: Verdict,
) -> Verdict
    requires pass { IsPassOf board.now pass.old }
    requires published { IsPublished pass.old }
    requires reason { IsReason (whole pass.old) reason }
    ensures pass { IsSameButSlots pass.old pass.new }
    ensures ended { HasEnded (whole pass.old) (whole pass.new) }
    ensures clean { (i : ℕ) → i < length (listed pass.new) → IsCleanAt pass.new i }
    ensures so { EndedSo (whole pass.new) (view pass.new).attempt.number result (λ first second. reason ≡ Blocked first second) }
{
    match withdraw(board, pass) {
        Some(status) => conclude(board, pass, status),
        None => {
            clear(board, pass, false);
            reason
        }
    }
}
