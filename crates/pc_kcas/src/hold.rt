//! One word of an exchange: it is taken, and where the reference of another exchange stands there, that one is helped first.
ghost use Rattle.std.specs.Prelude.{◌≡◌, ◌≤◌, ◌-◌, IfSome, IfNone};
ghost use Rattle.pc_rule_law.specs.Conditions.{IsFree};
ghost use Rattle.pc_rule_law.specs.Plays.{IsNotedSince};
ghost use Rattle.pc_rule_law.specs.Views.{held};
ghost use Rattle.pc_rule.specs.Passes.{whole, view, board_size, IsPassOf, IsSamePass};
ghost use Rattle.pc_rule.specs.declared.refs.RefKind.TheVariants.{Install, Exchange};
ghost use Rattle.pc_dcss.specs.declared.installed.Installed.TheVariants.{Met};
ghost use Rattle.pc_dcss.specs.Installs.{KnowsPlace, IfMet};
ghost use Rattle.pc_kcas.specs.Bounds.{HasInstalled};
ghost use Rattle.pc_kcas.specs.Holds.{obstacle_by, hindrance_of};
ghost use Rattle.pc_kcas.specs.Obstacles.{GoesOn, IsWordOf, HasFollowed, IsObstacle};

use crate::helped::Progress;
use crate::helping::help_linked;
use crate::obstacle::{Obstacle, Stuck};
use crate::taking::take_word;
use pc_dcss::Installed;
use pc_model::Shape;
use pc_rule::{Board, Pass, Place, Ref, RefKind};

/// What came of a word, and how many links may still be followed.
#[derive(Clone, Copy)]
pub(crate) struct Held {
    /// Why it doesn't hold the reference, where it doesn't.
    pub(crate) obstacle: Option<Obstacle>,
    /// The number of links that are left.
    pub(crate) links: u32,
}

// The reference of another exchange that was met.
fn met_exchange(answer: Installed) -> Option<Ref>
    ensures some { IfSome result (λ r. (answer ≡ Met r) × (r.kind ≡ Exchange)) }
    ensures none { IfNone result (IfMet answer (λ r. r.kind ≡ Install)) }
{
    match answer {
        Installed::Met(r) => match r.kind {
            RefKind::Install => None,
            RefKind::Exchange => Some(r),
        },
        Installed::Held => None,
        Installed::Decided => None,
        Installed::Differs(_) => None,
        Installed::Numbers(_) => None,
    }
}

// The one that stood in the word before the reference that was met, and is of its kind: the install that was completed, or this
// exchange.
fn earlier(answer: Installed, completed: Option<Ref>, exchange: Ref) -> Ref
    ensures install { IfMet answer (λ r. r.kind ≡ Install → IfSome completed (λ first. result ≡ first)) }
    ensures exchange { IfMet answer (λ r. r.kind ≡ Exchange → result ≡ exchange) }
{
    match met_exchange(answer) {
        Some(_) => exchange,
        None => completed.unwrap_or(exchange),
    }
}

// Why the word doesn't hold the reference after this answer, where it doesn't.
// - `first`: what stood there before, where another reference was met.
fn obstacle_after(answer: Installed, first: Ref) -> Option<Obstacle>
    ensures { result ≡ obstacle_by answer first }
{
    match answer {
        Installed::Held => None,
        Installed::Decided => Some(Obstacle::Decided),
        Installed::Differs(_) => Some(Obstacle::Changed),
        Installed::Met(second) => Some(Obstacle::Stuck(Stuck::Two { first, second })),
        Installed::Numbers(n) => Some(Obstacle::Numbers(n)),
    }
}

// Why the word can't be tried again when the exchange that was met there was helped so far.
fn hindrance(met: Ref, progress: Progress) -> Option<Obstacle>
    ensures { result ≡ hindrance_of met progress }
{
    match progress {
        Progress::Decided => None,
        Progress::Gone => None,
        Progress::Stuck(stuck) => Some(Obstacle::Beyond { met, stuck }),
        Progress::Numbers(n) => Some(Obstacle::Numbers(n)),
    }
}

/// Puts the exchange's reference into one of its words. One install of another that stands there is completed, and one exchange of
/// another is helped, as far as these links lead.
#[cycle(helping)]
pub(crate) fn hold_word<H: Shape>(
    board: &Board<H>,
    pass: &mut Pass<H>,
    op: Ref,
    place: Place,
    links: u32,
) -> Held
    requires pass { IsPassOf board.now pass.old }
    requires free { IsFree (view pass.old) }
    requires exchange { op.kind ≡ Exchange }
    requires place { KnowsPlace (view pass.old) op place }
    requires word { IsWordOf (whole pass.old) op place.node place.field }
    ensures pass { IsSamePass pass.old pass.new }
    ensures goes_on { GoesOn (whole pass.old) (whole pass.new) }
    ensures free { IsFree (view pass.new) }
    ensures links { result.links ≤ links }
    ensures followed { HasFollowed (links - result.links) (view pass.old) (whole pass.new) }
    ensures bounded { HasInstalled (board_size board.now).slots 3 (links - result.links) (view pass.old) (view pass.new) }
    ensures held { IfNone result.obstacle (IsNotedSince (view pass.old) (view pass.new) (held op.seat op.number place.node place.field)) }
    ensures obstacle { IfSome result.obstacle (IsObstacle (whole pass.old) (whole pass.new) op place.node place.field links result.links) }
{
    let taken = take_word(board, pass, op, place, None);
    let Some(met) = met_exchange(taken.answer) else {
        let first = earlier(taken.answer, taken.completed, op);
        return Held {
            obstacle: obstacle_after(taken.answer, first),
            links,
        };
    };
    if links == 0 {
        return Held {
            obstacle: Some(Obstacle::Stuck(Stuck::NoLink { met })),
            links,
        };
    }
    let help = help_linked(board, pass, met, links - 1);
    if let Some(obstacle) = hindrance(met, help.progress) {
        return Held {
            obstacle: Some(obstacle),
            links: help.links,
        };
    }
    let again = take_word(board, pass, op, place, taken.completed);
    let first = earlier(again.answer, again.completed, met);
    Held {
        obstacle: obstacle_after(again.answer, first),
        links: help.links,
    }
}
