//! The help of another's exchange: its words are held in order, it is decided, and its words are cleared. In a word in which the
//! reference of a third exchange stands, that one is helped first. So helps form a chain, whose links are counted.
ghost use Rattle.std.specs.Prelude.{◌≡◌, ℕ, ◌+◌, ◌-◌, ◌≤◌, true, false, IfSome, IfNone};
ghost use Rattle.pc_rule_law.specs.Conditions.{IsFree};
ghost use Rattle.pc_rule_law.specs.Stages.{IsOpen};
ghost use Rattle.pc_exchange_law.specs.Wholes.{Whole};
ghost use Rattle.pc_rule.specs.declared.refs.RefKind.TheVariants.{Exchange};
ghost use Rattle.pc_rule.specs.Passes.{whole, view, board_size, IsPassOf, IsSamePass};
ghost use Rattle.pc_dcss.specs.Installs.{IsDecided};
ghost use Rattle.pc_kcas.specs.Bounds.{most_in_one, most_in_help, HasInstalled};
ghost use Rattle.pc_kcas.specs.Checking.{KnowsCounts, AreFew, HasSettled};
ghost use Rattle.pc_kcas.specs.Collecting.{HasComeBy, IsHaltedAt, IsHaltedBy, IsStuckWith};
ghost use Rattle.pc_kcas.specs.Helping.{HasCome, IsOver, IsGoneBy, IsStoppedBy, OnDone, OnGone, IfStopped, IfNumbers};
ghost use Rattle.pc_kcas.specs.Obstacles.{GoesOn, HasFollowed, IsStuck, IsApartFrom};
ghost use Rattle.pc_kcas.specs.Readings.{HasComeTo, HasLoaded, HasRead};
ghost use Rattle.pc_kcas.specs.Takings.{HoldsBelow, IsAtLastInstall};

use crate::answering::stop_of;
use crate::collecting::{Halt, Settled, collect, settle_collected};
use crate::concluding::{conclude_helped, ended_by};
use crate::deciding::{decide_changed, is_open};
use crate::helped::{Help, Helped, Progress};
use crate::obstacle::{Obstacle, Stuck};
use crate::reading::{Counts, load_status, read_counts};
use pc_model::Shape;
use pc_rule::{Board, Pass, Ref};
use pc_words::Status;

// Whether this status says that the exchange is undecided.
fn says_open(op: Ref, status: Status) -> bool
    ensures yes { result ≡ true → (status.number ≡ op.number) × IsOpen status.stage }
    ensures no { result ≡ false → status.number ≡ op.number → IsOpen status.stage → ⊥ }
{
    status.number == op.number && is_open(status.stage)
}

// How the help of an exchange is stuck where it met another one, whose help is stuck.
fn stuck_with(op: Ref, met: Ref, stuck: Stuck) -> Stuck
    ensures { IsStuckWith op met stuck result }
{
    match stuck {
        Stuck::Two { .. } => stuck,
        Stuck::NoLink { met: last } => {
            if last == op {
                return Stuck::NoLink { met };
            }
            stuck
        }
    }
}

// Ends the help of an exchange that is known to be decided.
fn end_decided<H: Shape>(board: &Board<H>, pass: &mut Pass<H>, op: Ref, count: u32) -> Progress
    requires pass { IsPassOf board.now pass.old }
    requires free { IsFree (view pass.old) }
    requires come { HasComeTo (whole pass.old) op }
    requires counted { HasLoaded (whole pass.old) op 1 count }
    requires read { HasRead (whole pass.old) op 1 count }
    requires few { count ≤ 25 + (board_size board.now).slots }
    requires decided { IsDecided (view pass.old) op.seat op.number }
    ensures pass { IsSamePass pass.old pass.new }
    ensures goes_on { GoesOn (whole pass.old) (whole pass.new) }
    ensures free { IsFree (view pass.new) }
    ensures no_install { (view pass.new).install.number ≡ (view pass.old).install.number }
    ensures come { HasComeBy (whole pass.old) (whole pass.new) op (λ x left. Unit {0}) result }
{
    let status = load_status(board, pass, op);
    conclude_helped(board, pass, op, count, status)
}

// Ends the help of an exchange that is stuck so. Where it isn't undecided any more, its words are cleared.
fn end_stuck<H: Shape>(
    board: &Board<H>,
    pass: &mut Pass<H>,
    op: Ref,
    count: u32,
    stuck: Stuck,
) -> Progress
    requires pass { IsPassOf board.now pass.old }
    requires free { IsFree (view pass.old) }
    requires come { HasComeTo (whole pass.old) op }
    requires counted { HasLoaded (whole pass.old) op 1 count }
    requires read { HasRead (whole pass.old) op 1 count }
    requires few { count ≤ 25 + (board_size board.now).slots }
    ensures pass { IsSamePass pass.old pass.new }
    ensures goes_on { GoesOn (whole pass.old) (whole pass.new) }
    ensures free { IsFree (view pass.new) }
    ensures no_install { (view pass.new).install.number ≡ (view pass.old).install.number }
    ensures come { HasComeBy (whole pass.old) (whole pass.new) op (λ x left. IsStuck x.view (whole pass.old) left stuck × IsApartFrom op stuck) result }
{
    let status = load_status(board, pass, op);
    if says_open(op, status) {
        return Progress::Stuck(stuck);
    }
    conclude_helped(board, pass, op, count, status)
}

// Ends the help of an exchange by why a word of this node doesn't hold its reference.
fn end_at<H: Shape>(
    board: &Board<H>,
    pass: &mut Pass<H>,
    op: Ref,
    count: u32,
    node: u32,
    obstacle: Obstacle,
) -> Progress
    requires pass { IsPassOf board.now pass.old }
    requires free { IsFree (view pass.old) }
    requires exchange { op.kind ≡ Exchange }
    requires come { HasComeTo (whole pass.old) op }
    requires counted { HasLoaded (whole pass.old) op 1 count }
    requires read { HasRead (whole pass.old) op 1 count }
    requires few { count ≤ 25 + (board_size board.now).slots }
    requires halted { (x : Whole) × (left : ℕ) × IsHaltedAt x (whole pass.old) op node left obstacle }
    ensures pass { IsSamePass pass.old pass.new }
    ensures goes_on { GoesOn (whole pass.old) (whole pass.new) }
    ensures free { IsFree (view pass.new) }
    ensures no_install { (view pass.new).install.number ≡ (view pass.old).install.number }
    ensures come { HasComeBy (whole pass.old) (whole pass.new) op (λ x left. IsHaltedAt x (whole pass.old) op node left obstacle) result }
{
    match obstacle {
        Obstacle::Decided => end_decided(board, pass, op, count),
        Obstacle::Changed => {
            let status = decide_changed(board, pass, op, node);
            conclude_helped(board, pass, op, count, status)
        }
        Obstacle::Stuck(stuck) => end_stuck(board, pass, op, count, stuck),
        Obstacle::Beyond { met, stuck } => {
            let nearer = stuck_with(op, met, stuck);
            end_stuck(board, pass, op, count, nearer)
        }
        Obstacle::Numbers(numbers) => Progress::Numbers(numbers),
    }
}

// Ends the help of an exchange by what came of its decision.
fn end_settled<H: Shape>(
    board: &Board<H>,
    pass: &mut Pass<H>,
    op: Ref,
    count: u32,
    settled: Settled,
) -> Progress
    requires pass { IsPassOf board.now pass.old }
    requires free { IsFree (view pass.old) }
    requires come { HasComeTo (whole pass.old) op }
    requires counted { HasLoaded (whole pass.old) op 1 count }
    requires read { HasRead (whole pass.old) op 1 count }
    requires few { count ≤ 25 + (board_size board.now).slots }
    requires settled { (x : Whole) × HasSettled x (whole pass.old) op settled }
    ensures pass { IsSamePass pass.old pass.new }
    ensures goes_on { GoesOn (whole pass.old) (whole pass.new) }
    ensures free { IsFree (view pass.new) }
    ensures no_install { (view pass.new).install.number ≡ (view pass.old).install.number }
    ensures come { HasComeBy (whole pass.old) (whole pass.new) op (λ x left. HasSettled x (whole pass.old) op settled) result }
{
    match settled {
        Settled::By(status) => conclude_helped(board, pass, op, count, status),
        Settled::Over(status) => ended_by(op, status),
        Settled::Stuck(stuck) => end_stuck(board, pass, op, count, stuck),
    }
}

// Ends the help of an exchange by what stopped its words. Where nothing did, each of them holds its reference, and it is decided.
fn end_collected<H: Shape>(
    board: &Board<H>,
    pass: &mut Pass<H>,
    op: Ref,
    counts: Counts,
    halt: Option<Halt>,
) -> Progress
    requires pass { IsPassOf board.now pass.old }
    requires free { IsFree (view pass.old) }
    requires exchange { op.kind ≡ Exchange }
    requires come { HasComeTo (whole pass.old) op }
    requires counts { KnowsCounts (whole pass.old) op counts }
    requires few { AreFew (board_size board.now).slots counts }
    requires holds { IfNone halt (HoldsBelow (whole pass.old) op counts.changes) }
    requires halted { IfSome halt (λ h. (x : Whole) × (left : ℕ) × IsHaltedBy x (whole pass.old) op left h) }
    ensures pass { IsSamePass pass.old pass.new }
    ensures goes_on { GoesOn (whole pass.old) (whole pass.new) }
    ensures free { IsFree (view pass.new) }
    ensures no_install { (view pass.new).install.number ≡ (view pass.old).install.number }
    ensures come { HasComeBy (whole pass.old) (whole pass.new) op (λ x left. IfSome halt (IsHaltedBy x (whole pass.old) op left)) result }
{
    match halt {
        None => {
            let settled = settle_collected(board, pass, op, counts);
            end_settled(board, pass, op, counts.changes, settled)
        }
        Some(halt) => match halt {
            Halt::Over(status) => ended_by(op, status),
            Halt::At { node, obstacle } => {
                end_at(board, pass, op, counts.changes, node, obstacle)
            }
        },
    }
}

/// Helps an exchange, as far as these links lead.
#[cycle(helping)]
pub(crate) fn help_linked<H: Shape>(
    board: &Board<H>,
    pass: &mut Pass<H>,
    op: Ref,
    links: u32,
) -> Help
    requires pass { IsPassOf board.now pass.old }
    requires free { IsFree (view pass.old) }
    requires exchange { op.kind ≡ Exchange }
    requires come { HasComeTo (whole pass.old) op }
    ensures pass { IsSamePass pass.old pass.new }
    ensures goes_on { GoesOn (whole pass.old) (whole pass.new) }
    ensures free { IsFree (view pass.new) }
    ensures links { result.links ≤ links }
    ensures followed { HasFollowed (links - result.links) (view pass.old) (whole pass.new) }
    ensures bounded { HasInstalled (board_size board.now).slots (most_in_one (board_size board.now).slots) (links - result.links) (view pass.old) (view pass.new) }
    ensures come { HasCome (whole pass.old) (whole pass.new) op result.links result.progress }
{
    let counts = match read_counts(board, pass, op) {
        Ok(counts) => counts,
        Err(status) => {
            return Help {
                progress: ended_by(op, status),
                links,
            };
        }
    };
    let collected = collect(board, pass, op, counts.changes, links);
    let progress = end_collected(board, pass, op, counts, collected.halt);
    Help {
        progress,
        links: collected.links,
    }
}

/// Helps another's exchange, whose reference the pass met in a word: each of its words gets the reference, it is decided, and its
/// words get numbers again, without its own pass. So whoever meets it needn't wait for that one. It waits for nobody and takes no
/// memory.
///
/// One install that stands in a word in the way is completed, and one other exchange is helped first. It stops where a second
/// reference of that kind stands in the word, and where it followed as many such links as there are passes.
///
/// The exchange of several words is that of Harris, Fraser and Pratt (A Practical Multi-Word Compare-and-Swap Operation, 2002); that
/// descriptors are used again, that of Arbel-Raviv and Brown (Reuse, Don't Recycle, 2017).
pub fn help<H: Shape>(board: &Board<H>, pass: &mut Pass<H>, op: Ref) -> Helped
    requires pass { IsPassOf board.now pass.old }
    requires free { IsFree (view pass.old) }
    requires exchange { op.kind ≡ Exchange }
    requires come { HasComeTo (whole pass.old) op }
    ensures pass { IsSamePass pass.old pass.new }
    ensures goes_on { GoesOn (whole pass.old) (whole pass.new) }
    ensures free { IsFree (view pass.new) }
    ensures decided { OnDone result (IsOver (whole pass.old) (whole pass.new) op) }
    ensures gone { OnGone result (IsGoneBy (whole pass.old) (whole pass.new) op) }
    ensures stopped { IfStopped result (IsStoppedBy (board_size board.now).seats (view pass.old) (whole pass.new) op) }
    ensures numbers { IfNumbers result (IsAtLastInstall (view pass.new)) }

    // The most installs that it makes.
    ensures bounded { (view pass.new).install.number ≤ (view pass.old).install.number + most_in_help (board_size board.now) }
{
    let help = help_linked(board, pass, op, board.passes());
    match help.progress {
        Progress::Decided => Helped::Decided,
        Progress::Gone => Helped::Gone,
        Progress::Stuck(stuck) => Helped::Stopped {
            by: stop_of(op, stuck),
        },
        Progress::Numbers(numbers) => Helped::Numbers(numbers),
    }
}
