//! One word of an exchange, by whoever takes it: its own pass, or one that helps it.
ghost use Rattle.std.specs.Prelude.{◌≡◌, ◌+◌, ◌≤◌, IfSome, IfNone};
ghost use Rattle.pc_rule_law.specs.Conditions.{IsFree};
ghost use Rattle.pc_rule_law.specs.Past.{Has};
ghost use Rattle.pc_rule_law.specs.Plays.{IsNotedSince};
ghost use Rattle.pc_rule_law.specs.Views.{held, removed};
ghost use Rattle.pc_rule.specs.declared.refs.RefKind.TheVariants.{Install, Exchange};
ghost use Rattle.pc_rule.specs.Passes.{whole, view, knows, IsPassOf, IsSamePass};
ghost use Rattle.pc_dcss.specs.declared.installed.Installed.TheVariants.{Met};
ghost use Rattle.pc_dcss.specs.Installs.{HasMet, KnowsPlace, IsDecidedSince, KnowsOutdated, HasCome, IsNews, OnHeld, OnDecided, IfDiffers, IfMet, IfNumbers};
ghost use Rattle.pc_kcas.specs.Bounds.{completions};
ghost use Rattle.pc_kcas.specs.Obstacles.{GoesOn};
ghost use Rattle.pc_kcas.specs.Takings.{IsMetSince, IsDifferentSince, IsAtLastInstall, IsGoneInstall, IsCompletedSince, AreMetInTurn, IsAnother};

use pc_dcss::{Installed, complete, install};
use pc_model::Shape;
use pc_rule::{Board, Pass, Place, Ref, RefKind};

/// What came of a word.
#[derive(Clone, Copy)]
pub(crate) struct Taken {
    /// The answer of the last install.
    pub(crate) answer: Installed,
    /// The install of another that was met first in the word and completed, where one was.
    pub(crate) completed: Option<Ref>,
}

// The install that was met.
fn met_install(answer: Installed) -> Option<Ref>
    ensures met { IfSome result (λ r. (answer ≡ Met r) × (r.kind ≡ Install)) }
    ensures none { IfNone result (IfMet answer (λ r. r.kind ≡ Exchange)) }
{
    match answer {
        Installed::Met(r) => match r.kind {
            RefKind::Install => Some(r),
            RefKind::Exchange => None,
        },
        Installed::Held => None,
        Installed::Decided => None,
        Installed::Differs(_) => None,
        Installed::Numbers(_) => None,
    }
}

// The install that was met, which may be completed where none was before.
fn to_complete(answer: Installed, completed: Option<Ref>) -> Option<Ref>
    ensures met { IfSome result (λ r. (completed ≡ None) × (answer ≡ Met r) × (r.kind ≡ Install)) }
    ensures none { IfNone result (IfNone completed (IfMet answer (λ r. r.kind ≡ Exchange))) }
{
    match completed {
        Some(_) => None,
        None => met_install(answer),
    }
}

// Completes an install that was met in the word, and tries once more.
fn try_again<H: Shape>(
    board: &Board<H>,
    pass: &mut Pass<H>,
    op: Ref,
    place: Place,
    first: Ref,
) -> Installed
    requires pass { IsPassOf board.now pass.old }
    requires free { IsFree (view pass.old) }
    requires exchange { op.kind ≡ Exchange }
    requires place { KnowsPlace (view pass.old) op place }
    requires install { first.kind ≡ Install }
    requires met { HasMet (view pass.old) first.seat first.number }
    ensures pass { IsSamePass pass.old pass.new }
    ensures goes_on { GoesOn (whole pass.old) (whole pass.new) }
    ensures free { IsFree (view pass.new) }
    ensures most { (view pass.new).install.number ≤ (view pass.old).install.number + 1 }
    ensures gone { Has (view pass.new).notes (removed first.seat first.number) }
    ensures held { OnHeld result (IsNotedSince (view pass.old) (view pass.new) (held op.seat op.number place.node place.field)) }
    ensures decided { OnDecided result (IsDecidedSince (view pass.old) (view pass.new) op.seat op.number) }
    ensures differs { IfDiffers result (IsDifferentSince (view pass.old) (view pass.new) place) }
    ensures outdated { IfDiffers result (λ x. KnowsOutdated (knows pass.new) op place) }
    ensures met { IfMet result (IsMetSince (view pass.old) (view pass.new) op place) }
    ensures came { IfMet result (HasCome (knows pass.new)) }
    ensures fresh { IfMet result (IsNews (whole pass.old) place) }
    ensures another { IfMet result (IsAnother first) }
    ensures numbers { IfNumbers result (IsAtLastInstall (view pass.new)) }
{
    complete(board, pass, first);
    install(board, pass, op, place)
}

/// Puts the exchange's reference into one of its words. One install of another that stands there is completed, and then the
/// word is tried once more: so where an install is met, a second one was.
/// - `completed`: the install that was met in this word before and completed, where one was. Then no other is completed.
pub(crate) fn take_word<H: Shape>(
    board: &Board<H>,
    pass: &mut Pass<H>,
    op: Ref,
    place: Place,
    completed: Option<Ref>,
) -> Taken
    requires pass { IsPassOf board.now pass.old }
    requires free { IsFree (view pass.old) }
    requires exchange { op.kind ≡ Exchange }
    requires place { KnowsPlace (view pass.old) op place }
    requires gone { IfSome completed (IsGoneInstall (view pass.old)) }
    ensures pass { IsSamePass pass.old pass.new }
    ensures goes_on { GoesOn (whole pass.old) (whole pass.new) }
    ensures free { IsFree (view pass.new) }
    ensures most { (view pass.new).install.number + completions completed ≤ (view pass.old).install.number + 1 + completions result.completed }
    ensures held { OnHeld result.answer (IsNotedSince (view pass.old) (view pass.new) (held op.seat op.number place.node place.field)) }
    ensures decided { OnDecided result.answer (IsDecidedSince (view pass.old) (view pass.new) op.seat op.number) }
    ensures differs { IfDiffers result.answer (IsDifferentSince (view pass.old) (view pass.new) place) }
    ensures outdated { IfDiffers result.answer (λ x. KnowsOutdated (knows pass.new) op place) }
    ensures met { IfMet result.answer (IsMetSince (view pass.old) (view pass.new) op place) }
    ensures came { IfMet result.answer (HasCome (knows pass.new)) }
    ensures fresh { IfMet result.answer (IsNews (whole pass.old) place) }
    ensures numbers { IfNumbers result.answer (IsAtLastInstall (view pass.new)) }
    ensures kept { IfSome completed (λ k. result.completed ≡ Some k) }
    ensures completed { IfNone completed (IfSome result.completed (IsCompletedSince (view pass.old) (view pass.new) op place)) }
    ensures in_turn { IfNone completed (IfSome result.completed (λ first. IfMet result.answer (AreMetInTurn (view pass.old) (view pass.new) place first))) }
    ensures another { IfSome result.completed (λ first. IfMet result.answer (IsAnother first)) }
    ensures exchange { IfNone result.completed (IfMet result.answer (λ r. r.kind ≡ Exchange)) }
{
    let answer = install(board, pass, op, place);
    match to_complete(answer, completed) {
        Some(first) => {
            let again = try_again(board, pass, op, place, first);
            Taken {
                answer: again,
                completed: Some(first),
            }
        }
        None => Taken { answer, completed },
    }
}
