//! The words of another's exchange, each read and then held.
ghost use Rattle.std.specs.Prelude.{◌≡◌, ◌+◌, ◌-◌, ◌*◌, ◌<◌, ◌≤◌, IfSome, IfNone};
ghost use Rattle.pc_rule_law.specs.Conditions.{IsFree};
ghost use Rattle.pc_rule_law.specs.Plays.{AddsNotes};
ghost use Rattle.pc_exchange_law.specs.Ties.{last_stamp};
ghost use Rattle.pc_exchange_law.specs.Wholes.{Whole};
ghost use Rattle.pc_rule.specs.declared.refs.RefKind.TheVariants.{Exchange};
ghost use Rattle.pc_rule.specs.Passes.{whole, view, board_size, IsPassOf, IsSamePass};
ghost use Rattle.pc_kcas.specs.Bounds.{HasInstalled};
ghost use Rattle.pc_kcas.specs.Collecting.{IsHaltedBy};
ghost use Rattle.pc_kcas.specs.Checking.{HasDrawn, KnowsCounts, AreFew, HasFailed, HasSettled};
ghost use Rattle.pc_kcas.specs.Holds.{halt_at};
ghost use Rattle.pc_kcas.specs.Obstacles.{GoesOn, HasFollowed};
ghost use Rattle.pc_kcas.specs.Readings.{HasComeTo, HasLoaded};
ghost use Rattle.pc_kcas.specs.Settling.{HasLearnt};
ghost use Rattle.pc_kcas.specs.Takings.{HoldsAt, HoldsBelow};

use crate::checking::{Failed, check_visits};
use crate::deciding::{decide, decide_changed, decide_locked, draw};
use crate::drawn::Drawn;
use crate::hold::hold_word;
use crate::obstacle::{Obstacle, Stuck};
use crate::reading::{Counts, read_place};
use pc_model::Shape;
use pc_rule::{Board, Pass, Ref};
use pc_words::{Stage, Status};

/// What stops the words of an exchange.
#[derive(Clone, Copy)]
pub(crate) enum Halt {
    /// This status of its pass: it isn't the exchange's any more.
    Over(Status),
    /// A word that doesn't hold its reference.
    At {
        /// The word's node.
        node: u32,
        /// Why it doesn't.
        obstacle: Obstacle,
    },
}

/// What came of words of an exchange, and how many links may still be followed.
#[derive(Clone, Copy)]
pub(crate) struct Collected {
    /// What stopped them, where not each holds the reference.
    pub(crate) halt: Option<Halt>,
    /// The number of links that are left.
    pub(crate) links: u32,
}

// What stops the words at a word of this node.
fn halted(node: u32, obstacle: Option<Obstacle>) -> Option<Halt>
    ensures { result ≡ halt_at node obstacle }
{
    match obstacle {
        Some(obstacle) => Some(Halt::At { node, obstacle }),
        None => None,
    }
}

/// Reads the exchange's word at this index, and holds it.
#[cycle(helping)]
pub(crate) fn collect_word<H: Shape>(
    board: &Board<H>,
    pass: &mut Pass<H>,
    op: Ref,
    count: u32,
    i: u32,
    links: u32,
) -> Collected
    requires pass { IsPassOf board.now pass.old }
    requires free { IsFree (view pass.old) }
    requires exchange { op.kind ≡ Exchange }
    requires come { HasComeTo (whole pass.old) op }
    requires counted { HasLoaded (whole pass.old) op 1 count }
    requires few { count ≤ 25 + (board_size board.now).slots }
    requires index { i < count }
    ensures pass { IsSamePass pass.old pass.new }
    ensures goes_on { GoesOn (whole pass.old) (whole pass.new) }
    ensures free { IsFree (view pass.new) }
    ensures links { result.links ≤ links }
    ensures followed { HasFollowed (links - result.links) (view pass.old) (whole pass.new) }
    ensures bounded { HasInstalled (board_size board.now).slots 3 (links - result.links) (view pass.old) (view pass.new) }
    ensures holds { IfNone result.halt (HoldsAt (whole pass.new) op i) }
    ensures halted { IfSome result.halt (IsHaltedBy (whole pass.old) (whole pass.new) op result.links) }
{
    match read_place(board, pass, op, count, i) {
        Ok(place) => {
            let held = hold_word(board, pass, op, place, links);
            Collected {
                halt: halted(place.node, held.obstacle),
                links: held.links,
            }
        }
        Err(status) => Collected {
            halt: Some(Halt::Over(status)),
            links,
        },
    }
}

/// Holds each word of the exchange, in the order of its descriptor, and stops at the first that doesn't hold its reference.
#[cycle(helping)]
pub(crate) fn collect<H: Shape>(
    board: &Board<H>,
    pass: &mut Pass<H>,
    op: Ref,
    count: u32,
    links: u32,
) -> Collected
    requires pass { IsPassOf board.now pass.old }
    requires free { IsFree (view pass.old) }
    requires exchange { op.kind ≡ Exchange }
    requires come { HasComeTo (whole pass.old) op }
    requires counted { HasLoaded (whole pass.old) op 1 count }
    requires few { count ≤ 25 + (board_size board.now).slots }
    ensures pass { IsSamePass pass.old pass.new }
    ensures goes_on { GoesOn (whole pass.old) (whole pass.new) }
    ensures free { IsFree (view pass.new) }
    ensures links { result.links ≤ links }
    ensures followed { HasFollowed (links - result.links) (view pass.old) (whole pass.new) }
    ensures bounded { HasInstalled (board_size board.now).slots (3 * count) (links - result.links) (view pass.old) (view pass.new) }
    ensures holds { IfNone result.halt (HoldsBelow (whole pass.new) op count) }
    ensures halted { IfSome result.halt (IsHaltedBy (whole pass.old) (whole pass.new) op result.links) }
{
    let mut left = links;
    let mut i = 0;
    while i < count {
        let word = collect_word(board, pass, op, count, i, left);
        left = word.links;
        if let Some(halt) = word.halt {
            return Collected {
                halt: Some(halt),
                links: left,
            };
        }
        i += 1;
    }
    Collected {
        halt: None,
        links: left,
    }
}

/// What came of the decision of an exchange each word of which held its reference.
#[derive(Clone, Copy)]
pub(crate) enum Settled {
    /// It was decided, as this status of its pass says.
    By(Status),
    /// This status of its pass isn't the exchange's any more.
    Over(Status),
    /// It is stuck at what stood in the version of a node that it visits.
    Stuck(Stuck),
}

// Decides the exchange by what keeps it from taking effect.
fn settle_failed<H: Shape>(
    board: &Board<H>,
    pass: &mut Pass<H>,
    op: Ref,
    stamp: u64,
    failed: Failed,
) -> Settled
    requires pass { IsPassOf board.now pass.old }
    requires come { HasComeTo (whole pass.old) op }
    requires drawn { HasDrawn (whole pass.old) op stamp }
    requires failed { (x : Whole) × HasFailed x (whole pass.old) op stamp failed }
    ensures pass { IsSamePass pass.old pass.new }
    ensures learnt { HasLearnt (whole pass.old) (whole pass.new) }
    ensures came { (x : Whole) → AddsNotes x.view (view pass.old) → HasFailed x (whole pass.old) op stamp failed → HasSettled x (whole pass.new) op result }
{
    let _ = stamp;
    match failed {
        Failed::Over(status) => Settled::Over(status),
        Failed::Changed { node } => Settled::By(decide_changed(board, pass, op, node)),
        Failed::Locked { node, by } => Settled::By(decide_locked(board, pass, op, node, by)),
        Failed::Stuck(stuck) => Settled::Stuck(stuck),
    }
}

// Decides the exchange, for which a stamp was drawn: it took effect at the stamp where each node that it visits passes its check.
fn settle_drawn<H: Shape>(
    board: &Board<H>,
    pass: &mut Pass<H>,
    op: Ref,
    counts: Counts,
    stamp: u64,
) -> Settled
    requires pass { IsPassOf board.now pass.old }
    requires free { IsFree (view pass.old) }
    requires exchange { op.kind ≡ Exchange }
    requires come { HasComeTo (whole pass.old) op }
    requires drawn { HasDrawn (whole pass.old) op stamp }
    requires early { stamp < last_stamp }
    requires counts { KnowsCounts (whole pass.old) op counts }
    requires few { AreFew (board_size board.now).slots counts }
    ensures pass { IsSamePass pass.old pass.new }
    ensures learnt { HasLearnt (whole pass.old) (whole pass.new) }
    ensures came { HasSettled (whole pass.old) (whole pass.new) op result }
{
    match check_visits(board, pass, op, counts, stamp) {
        None => Settled::By(decide(board, pass, op, Stage::Succeeded { stamp })),
        Some(failed) => settle_failed(board, pass, op, stamp, failed),
    }
}

/// Decides the exchange, each word of which held its reference: it took effect at a stamp that is drawn for it, or it failed since a
/// node that it visits didn't pass its check, or it is withdrawn where the clock has come to its last stamp. Where another decided
/// it first, that stands.
pub(crate) fn settle_collected<H: Shape>(
    board: &Board<H>,
    pass: &mut Pass<H>,
    op: Ref,
    counts: Counts,
) -> Settled
    requires pass { IsPassOf board.now pass.old }
    requires free { IsFree (view pass.old) }
    requires exchange { op.kind ≡ Exchange }
    requires come { HasComeTo (whole pass.old) op }
    requires counts { KnowsCounts (whole pass.old) op counts }
    requires few { AreFew (board_size board.now).slots counts }
    requires holds { HoldsBelow (whole pass.old) op counts.changes }
    ensures pass { IsSamePass pass.old pass.new }
    ensures learnt { HasLearnt (whole pass.old) (whole pass.new) }
    ensures came { HasSettled (whole pass.old) (whole pass.new) op result }
{
    match draw(board, pass, op) {
        Drawn::Stamp(stamp) => settle_drawn(board, pass, op, counts, stamp),
        Drawn::Refused(_) => Settled::By(decide(board, pass, op, Stage::Withdrawn)),
        Drawn::Past(status) => Settled::By(status),
    }
}
