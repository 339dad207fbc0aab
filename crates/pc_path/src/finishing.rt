//! The end of an operation's exchange.
ghost use Rattle.std.specs.Prelude.{◌≡◌, ◌≢◌, ◌⊎◌, ◌-◌, ◌+◌, ◌<◌, ◌≤◌, ◌++◌, List, [], Some, None, length, IfOk, IfErr, IfSome, IfNone, OnErr};
ghost use Rattle.pc_model.specs.declared.cell.Field.TheVariants.{Version};
ghost use Rattle.pc_model.specs.Exchanges.{Exchange};
ghost use Rattle.pc_rule_law.specs.Conditions.{CanWrite, IsFree};
ghost use Rattle.pc_rule_law.specs.Past.{Has};
ghost use Rattle.pc_protocol.specs.Notes.{Note};
ghost use Rattle.pc_exchange_law.specs.Paths.{dropped};
ghost use Rattle.pc_rule.specs.declared.opening.Place.{Place as PlaceOf};
ghost use Rattle.pc_rule.specs.declared.visit.Visit.{Visit as VisitOf};
ghost use Rattle.pc_rule.specs.Passes.{whole, view, visits, path, listed, recorded, carried, taken_down, board_size, IsPassOf, IsSeatedAs, KeepsPath, SitsAs};
ghost use Rattle.pc_kcas.specs.Bounds.{most_in_end};
ghost use Rattle.pc_kcas.specs.Exchanges.{visit_count, IsPublished, KnowsAbove};
ghost use Rattle.pc_kcas.specs.Verdicts.{KeepsAll, KnowsWon, KnowsLost, KnowsChanged, KnowsRival, WasBlocked, IsAtLast, IfWon, IfChanged as IfNodeChanged, IfLocked as IfNodeLocked, IfBlocked as IfStuck, IfNumbers as IfNoNumber};
ghost use Rattle.pc_path.specs.Exchanges.{answer_as, HasTakenPlace, HasFailed, HasRival, IsPast, WasInTheWay, WasSeen, IsListedFrom, IsCovered};
ghost use Rattle.pc_path.specs.Losses.{IsFirstVisit, IfChanged, IfLocked, IfBlocked, IfNumbers};

use crate::concluding::conclude;
use crate::lost::Lost;
use pc_kcas::{Verdict, finish_listed};
use pc_model::Shape;
use pc_rule::{Board, Pass, Place, Visit};

// How an exchange ended, and what was seen of the version of the node that changed, where one did.
#[derive(Clone, Copy)]
struct Outcome {
    verdict: Verdict,
    seen: u64,
}

// The version that the first visit of a node gave, where it was visited.
fn first_visit(visits: &[Visit], node: u32) -> Option<u64>
    ensures found { IfSome result (IsFirstVisit visits.now node) }
    ensures none { IfNone result ((v : VisitOf) → Has visits.now v → v.node ≢ node) }
{
    let mut place = 0;
    while place < visits.len() {
        if visits[place].node == node {
            return Some(visits[place].version);
        }
        place += 1;
    }
    None
}

// The version from which the words change that of the node, where it is among them.
fn listed_from(places: &[Place], node: u32) -> Option<u64>
    ensures found { IfSome result (IsListedFrom places.now node) }
    ensures none { IfNone result ((p : PlaceOf) → Has places.now p → p.node ≡ node → p.field ≡ Version → ⊥) }
{
    let mut i = 0;
    while i < places.len() {
        if places[i].number() == 8 * u64::from(node) {
            return Some(places[i].old);
        }
        i += 1;
    }
    None
}

// The smaller one of two versions, of which one may be missing.
fn least(visited: Option<u64>, listed: Option<u64>) -> Option<u64>
    ensures one { IfSome result (λ v. (visited ≡ Some v) ⊎ (listed ≡ Some v)) }
    ensures below { IfSome result (λ v. IfSome visited (λ w. v ≤ w) × IfSome listed (λ w. v ≤ w)) }
    ensures none { IfNone result ((visited ≡ None) × (listed ≡ None)) }
{
    let Some(first) = visited else {
        return listed;
    };
    match listed {
        Some(old) => Some(if old < first { old } else { first }),
        None => Some(first),
    }
}

// What was seen of the version of the node that changed, where the exchange failed since one did.
fn seen_by<H: Shape>(pass: &Pass<H>, verdict: Verdict) -> u64
    requires covered { IfNodeChanged verdict (IsCovered (visits pass.now) (listed pass.now)) }
    ensures { IfNodeChanged verdict (λ n. WasSeen (visits pass.now) (listed pass.now) n result) }
{
    let Verdict::Changed { node } = verdict else {
        return 0;
    };
    let visited = first_visit(pass.visits(), node);
    match least(visited, listed_from(pass.listed(), node)) {
        Some(version) => version,
        None => unreachable!(),
    }
}

// What the operation answers where its exchange ended so.
fn answer_of(verdict: Verdict, seen: u64) -> Result<u64, Lost>
    ensures { result ≡ answer_as verdict seen }
{
    match verdict {
        Verdict::Won { stamp } => Ok(stamp),
        Verdict::Changed { node } => Err(Lost::Changed { node, seen }),
        Verdict::Locked { node, by } => Err(Lost::Locked { node, by }),
        Verdict::Blocked { first, second } => Err(Lost::Blocked { first, second }),
        Verdict::Numbers(numbers) => Err(Lost::Numbers(numbers)),
    }
}

// Ends the exchange, and drops the words that were listed.
fn finished<H: Shape>(board: &Board<H>, pass: &mut Pass<H>) -> Outcome
    requires pass { IsPassOf board.now pass.old }
    requires published { IsPublished pass.old }
    requires free { IsFree (view pass.old) }
    ensures seated { IsSeatedAs pass.old pass.new }
    ensures path { KeepsPath pass.old pass.new }
    ensures open { CanWrite (view pass.new) }
    ensures number { (view pass.new).attempt.number ≡ (view pass.old).attempt.number }
    ensures dropped { listed pass.new ≡ [] }
    ensures free { IsFree (view pass.new) }
    ensures kept { KeepsAll (whole pass.old) (whole pass.new) }

    // How it ended.
    ensures won { IfWon result.verdict (KnowsWon (whole pass.new) (view pass.new).attempt.number) }
    ensures lost { KnowsLost (whole pass.new) (view pass.new).attempt.number result.verdict }
    ensures changed { IfNodeChanged result.verdict (KnowsChanged (whole pass.new) (view pass.new).attempt.number) }
    ensures seen { IfNodeChanged result.verdict (λ n. WasSeen (visits pass.old) (listed pass.old) n result.seen) }
    ensures locked { IfNodeLocked result.verdict (λ n by. (1 ≤ by) × KnowsRival (whole pass.new) (view pass.new).attempt.number n (by - 1)) }
    ensures visits { IfNodeLocked result.verdict (λ n by. 0 < visit_count (view pass.old)) }
    ensures blocked { IfStuck result.verdict (WasBlocked (board_size board.now).seats pass.old pass.new) }
    ensures numbers { IfNoNumber result.verdict (IsAtLast (whole pass.new)) }
    ensures bounded { (view pass.new).install.number ≤ (view pass.old).install.number + most_in_end (board_size board.now) (length (listed pass.old)) }
{
    let verdict = finish_listed(board, pass);
    let seen = seen_by(pass, verdict);
    pass.drop_listed();
    Outcome { verdict, seen }
}

/// Ends the exchange that the operation has published. Afterwards the operation has no exchange, no visits and no reads. The call that
/// it takes along is recorded where the exchange took effect, and else dropped.
pub(crate) fn ended<H: Shape>(board: &Board<H>, pass: &mut Pass<H>) -> Result<u64, Lost>
    requires pass { IsPassOf board.now pass.old }
    requires published { IsPublished pass.old }
    requires free { IsFree (view pass.old) }
    ensures seated { SitsAs pass.old pass.new × IsPassOf board.now pass.new }
    ensures unpublished { CanWrite (view pass.new) }
    ensures number { (view pass.new).attempt.number ≡ (view pass.old).attempt.number }
    ensures free { IsFree (view pass.new) }
    ensures kept { KeepsAll (whole pass.old) (whole pass.new) }
    ensures adds { listed pass.new ≡ [] }
    ensures visits { visits pass.new ≡ [] }
    ensures path { path pass.new ≡ dropped (path pass.old) }

    // What is recorded of the call that was taken along.
    ensures recorded { IfOk result (λ s. recorded pass.new ≡ recorded pass.old ++ taken_down pass.old s) }
    ensures not_recorded { OnErr result (recorded pass.new ≡ recorded pass.old) }
    ensures carried { carried pass.new ≡ None }

    // How it ended.
    ensures done { (seen : List Note) (e : Exchange) → KnowsAbove seen (whole pass.old) e → IfOk result (HasTakenPlace seen (whole pass.new) e) }
    ensures lost { OnErr result (HasFailed (whole pass.new)) }
    ensures changed { IfErr result (λ e. IfChanged e (IsPast (visits pass.old) (listed pass.old) (whole pass.new))) }
    ensures locked { IfErr result (λ e. IfLocked e (HasRival (whole pass.new))) }
    ensures walked { IfErr result (λ e. IfLocked e (λ n by. 0 < visit_count (view pass.old))) }
    ensures blocked { IfErr result (λ e. IfBlocked e (WasInTheWay (board_size board.now).seats (view pass.old) (whole pass.new))) }
    ensures numbers { IfErr result (λ e. IfNumbers e (IsAtLast (whole pass.new))) }
    ensures bounded { (view pass.new).install.number ≤ (view pass.old).install.number + most_in_end (board_size board.now) (length (listed pass.old)) }
{
    let outcome = finished(board, pass);
    let answer = answer_of(outcome.verdict, outcome.seen);
    conclude(pass, answer);
    answer
}
