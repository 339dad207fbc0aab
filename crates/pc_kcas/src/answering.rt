//! The answer of an exchange to its own pass, by what stopped its words.
ghost use Rattle.std.specs.Prelude.{◌≡◌, ◌≢◌, ◌⊎◌, ◌<◌, ℕ, length, IfSome, IfNone};
ghost use Rattle.pc_rule_law.specs.Conditions.{IsFree};
ghost use Rattle.pc_rule.specs.Passes.{whole, view, listed, IsPassOf, IsSameButSlots};
ghost use Rattle.pc_kcas.specs.declared.obstacle.Obstacle.TheVariants.{Stuck as IsStuckThere, Beyond};
ghost use Rattle.pc_kcas.specs.Clearing.{HoldsListed, IsCleanAt};
ghost use Rattle.pc_kcas.specs.Exchanges.{IsPublished, own_exchange};
ghost use Rattle.pc_kcas.specs.Stops.{IsTwo, IsStopOf, AreInTheWay, KnowsStopAt};
ghost use Rattle.pc_kcas.specs.Verdicts.{HasEnded, EndedSo, IsBlockedSo, WereBlockedBy};

use crate::ending::{end_changed, end_decided, end_held, end_withdrawn};
use crate::obstacle::{Obstacle, Stuck};
use crate::verdict::Verdict;
use pc_model::Shape;
use pc_rule::{Board, Pass, Ref};

/// What stopped the words of an exchange, and at which of them.
#[derive(Clone, Copy)]
pub(crate) struct Stop {
    /// The index of the word in the list.
    pub(crate) at: u32,
    /// Why it doesn't hold the reference.
    pub(crate) obstacle: Obstacle,
}

// Of two references the one that isn't this exchange's.
fn other_than(op: Ref, first: Ref, second: Ref) -> Ref
    ensures { ((result ≡ first) × (first ≢ op)) ⊎ ((result ≡ second) × (first ≡ op)) }
{
    if first == op { second } else { first }
}

/// By which reference the help of an exchange was stopped that is stuck so.
pub(crate) fn stop_of(op: Ref, stuck: Stuck) -> Ref
    ensures { IsStopOf op stuck result }
{
    match stuck {
        Stuck::Two { first, second } => other_than(op, first, second),
        Stuck::NoLink { met } => met,
    }
}

/// The answer of an exchange that met two references in one word.
pub(crate) fn blocked_at(stuck: Stuck) -> Verdict
    requires { IsTwo stuck }
    ensures { IsBlockedSo result (AreInTheWay (IsStuckThere stuck)) }
{
    match stuck {
        Stuck::Two { first, second } => Verdict::Blocked { first, second },
        Stuck::NoLink { .. } => unreachable!(),
    }
}

// The answer of an exchange that met another one, whose help is stuck.
fn blocked_beyond(met: Ref, stuck: Stuck) -> Verdict
    ensures { IsBlockedSo result (AreInTheWay (Beyond met stuck)) }
{
    Verdict::Blocked {
        first: met,
        second: stop_of(met, stuck),
    }
}

// Ends the pass's published exchange, whose word at this index doesn't hold its reference.
fn end_stopped<H: Shape>(board: &Board<H>, pass: &mut Pass<H>, stop: Stop) -> Verdict
    requires pass { IsPassOf board.now pass.old }
    requires published { IsPublished pass.old }
    requires index { stop.at < length (listed pass.old) }
    requires why { KnowsStopAt pass.old stop }
    ensures pass { IsSameButSlots pass.old pass.new }
    ensures ended { HasEnded (whole pass.old) (whole pass.new) }
    ensures clean { (i : ℕ) → i < length (listed pass.new) → IsCleanAt pass.new i }
    ensures so { EndedSo (whole pass.new) (view pass.new).attempt.number result (AreInTheWay stop.obstacle) }
{
    match stop.obstacle {
        Obstacle::Decided => end_decided(board, pass),
        Obstacle::Changed => {
            let node = pass.listed()[stop.at as usize].node;
            end_changed(board, pass, node)
        }
        Obstacle::Stuck(stuck) => end_withdrawn(board, pass, blocked_at(stuck)),
        Obstacle::Beyond { met, stuck } => end_withdrawn(board, pass, blocked_beyond(met, stuck)),
        Obstacle::Numbers(numbers) => end_withdrawn(board, pass, Verdict::Numbers(numbers)),
    }
}

/// Ends the pass's published exchange by what stopped its words: where nothing did, each of them holds its reference. It is decided,
/// where it isn't yet, and cleared.
pub(crate) fn end_at<H: Shape>(
    board: &Board<H>,
    pass: &mut Pass<H>,
    stopped: Option<Stop>,
) -> Verdict
    requires pass { IsPassOf board.now pass.old }
    requires free { IsFree (view pass.old) }
    requires published { IsPublished pass.old }
    requires held { IfNone stopped (HoldsListed pass.old) }
    requires index { IfSome stopped (λ stop. stop.at < length (listed pass.old)) }
    requires why { IfSome stopped (KnowsStopAt pass.old) }
    ensures pass { IsSameButSlots pass.old pass.new }
    ensures ended { HasEnded (whole pass.old) (whole pass.new) }
    ensures clean { (i : ℕ) → i < length (listed pass.new) → IsCleanAt pass.new i }
    ensures so { EndedSo (whole pass.new) (view pass.new).attempt.number result (WereBlockedBy stopped (whole pass.old) (whole pass.new) (own_exchange pass.old)) }
{
    match stopped {
        None => end_held(board, pass),
        Some(stop) => end_stopped(board, pass, stop),
    }
}
