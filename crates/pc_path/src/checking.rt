//! The steps of a validated read: a stamp is drawn for it, and each visit is checked for the stamp.
ghost use Rattle.std.specs.Prelude.{◌≡◌, ◌≢◌, ◌+◌, ◌<◌, ◌≤◌, ℕ, [], true, length, IfOk, IfErr, OnOk};
ghost use mathlib.Core.Option.{some};
ghost use lib.ListN.{get_elem?};
ghost use Rattle.pc_model.specs.declared.cell.Field.TheVariants.{Version};
ghost use Rattle.pc_rule_law.specs.Conditions.{IsFree};
ghost use Rattle.pc_rule_law.specs.Past.{Has};
ghost use Rattle.pc_exchange_law.specs.Knowing.{IsAboveSeen};
ghost use Rattle.pc_exchange_law.specs.Paths.{Path, with_stamp, MayCheck};
ghost use Rattle.pc_exchange_law.specs.Ties.{last_stamp};
ghost use Rattle.pc_rule.specs.declared.visit.Visit.{Visit as VisitOf};
ghost use Rattle.pc_rule.specs.Passes.{whole, view, knows, visits, path, board_size, IsPassOf, StaysSeated, HasNode};
ghost use Rattle.pc_kcas.specs.Bounds.{most_in_help};
ghost use Rattle.pc_kcas.specs.Obstacles.{GoesOn};
ghost use Rattle.pc_kcas.specs.Takings.{IsAtLastInstall};
ghost use Rattle.pc_kcas.specs.Verdicts.{IsAtLast};
ghost use Rattle.pc_path.specs.Checks.{IsCheckedBy, IsCheckedTo, IsAfterVisits};
ghost use Rattle.pc_path.specs.Faults.{IsBusy, IfBusy, IfNumbers as IfOutOfNumbers};
ghost use Rattle.pc_path.specs.Finds.{HasFound};
ghost use Rattle.pc_path.specs.Losses.{lost_by, IsFirstVisit, HasChanged, IsBlockedAt, IfChanged, IfLocked, IfBlocked, IfNumbers};

use crate::fault::ReadFault;
use crate::lost::Lost;
use crate::met::Met;
use crate::way::{make_way, number_in};
use pc_model::{Counter, Numbers, Shape};
use pc_rule::{Board, Pass, Visit, step_9, step_20, step_21};

// From this stamp on none is drawn.
const LAST_STAMP: u64 = 17_179_869_183;

/// Draws a stamp for the read of all that the pass visited and read.
pub(crate) fn draw_stamp<H: Shape>(board: &Board<H>, pass: &mut Pass<H>) -> Result<u64, Numbers>
    requires pass { IsPassOf board.now pass.old }
    requires free { IsFree (view pass.old) }
    requires visited { visits pass.old ≢ [] }
    ensures seated { StaysSeated pass.old pass.new }
    ensures goes_on { GoesOn (whole pass.old) (whole pass.new) }
    ensures free { IsFree (view pass.new) }
    ensures visits { visits pass.new ≡ visits pass.old }
    ensures begun { (path pass.new).begun ≡ (path pass.old).begun }
    ensures drawn { IfOk result (λ s. path pass.new ≡ with_stamp (path pass.old) s) }
    ensures early { IfOk result (λ s. s < last_stamp) }
    ensures above { IfOk result (IsAboveSeen (knows pass.old).told) }
    ensures numbers { IfErr result (IsAtLast (whole pass.new)) }
    ensures no_install { (view pass.new).install.number ≡ (view pass.old).install.number }
{
    let clock = step_9(board, pass);
    if clock >= LAST_STAMP {
        return Err(Numbers {
            counter: Counter::Stamp,
            at: clock,
        });
    }
    let stamp = step_20(board, pass);
    if stamp >= LAST_STAMP {
        return Err(Numbers {
            counter: Counter::Stamp,
            at: stamp,
        });
    }
    Ok(stamp)
}

// The version of a node that is to be checked next, which checks its visit.
fn find_checked<H: Shape>(board: &Board<H>, pass: &mut Pass<H>, node: u32) -> Result<u64, ReadFault>
    requires pass { IsPassOf board.now pass.old }
    requires free { IsFree (view pass.old) }
    requires node { HasNode board.now node }
    requires next { MayCheck (path pass.old) node }
    ensures seated { StaysSeated pass.old pass.new }
    ensures goes_on { GoesOn (whole pass.old) (whole pass.new) }
    ensures free { IsFree (view pass.new) }
    ensures visits { visits pass.new ≡ visits pass.old }
    ensures begun { (path pass.new).begun ≡ (path pass.old).begun }
    ensures found { IfOk result (HasFound (whole pass.old) (whole pass.new) node Version) }
    ensures checked { IfOk result (λ w. IsCheckedBy (path pass.old) w (path pass.new) (knows pass.new)) }
    ensures after { IfOk result (IsAfterVisits (visits pass.old) node) }
    ensures busy { IfErr result (λ e. IfBusy e (IsBusy (board_size board.now).seats (view pass.old) (whole pass.new) node Version)) }
    ensures numbers { IfErr result (λ e. IfOutOfNumbers e (IsAtLastInstall (view pass.new))) }
    ensures bounded { (view pass.new).install.number ≤ (view pass.old).install.number + most_in_help (board_size board.now) }
{
    let mut met = Met {
        completed: None,
        helped: None,
    };
    loop {
        let found = step_21(board, pass, node);
        match number_in(found) {
            Ok(version) => return Ok(version),
            Err(reference) => met = make_way(board, pass, reference, met)?,
        }
    }
}

/// The version that the first visit of a node gave, by the place of one of its visits.
pub(crate) fn first_seen(visits: &[Visit], at: usize) -> u64
    requires { at < length visits.now }
    ensures { (v : VisitOf) → get_elem? visits.now at ≡ some v → IsFirstVisit visits.now v.node result }
{
    let node = visits[at].node;
    let mut place = 0;
    while visits[place].node != node {
        place += 1;
    }
    visits[place].version
}

// How a read is lost where a version wasn't found.
fn lost(fault: ReadFault) -> Lost
    ensures { result ≡ lost_by fault }
{
    match fault {
        ReadFault::Busy { first, second } => Lost::Blocked { first, second },
        ReadFault::Numbers(numbers) => Lost::Numbers(numbers),
    }
}

/// Checks the visit at this place for the stamp that was drawn, where those before have passed.
pub(crate) fn check_visit<H: Shape>(
    board: &Board<H>,
    pass: &mut Pass<H>,
    at: usize,
) -> Result<(), Lost>
    requires pass { IsPassOf board.now pass.old }
    requires free { IsFree (view pass.old) }
    requires place { at < length (visits pass.old) }
    requires checked { (p : Path) × (s : ℕ) × IsCheckedTo p s (visits pass.old) at (path pass.old) (knows pass.old) }
    ensures seated { StaysSeated pass.old pass.new }
    ensures goes_on { GoesOn (whole pass.old) (whole pass.new) }
    ensures free { IsFree (view pass.new) }
    ensures visits { visits pass.new ≡ visits pass.old }
    ensures begun { (path pass.new).begun ≡ (path pass.old).begun }
    ensures passed { OnOk result ((p : Path) (s : ℕ) → IsCheckedTo p s (visits pass.old) at (path pass.old) (knows pass.old) → IsCheckedTo p s (visits pass.new) (at + 1) (path pass.new) (knows pass.new)) }
    ensures changed { IfErr result (λ e. IfChanged e (HasChanged (visits pass.old) (whole pass.new))) }
    ensures locked { IfErr result (λ e. IfLocked e (λ n by. ⊥)) }
    ensures blocked { IfErr result (λ e. IfBlocked e (IsBlockedAt (board_size board.now).seats (view pass.old) (whole pass.new) (visits pass.old))) }
    ensures numbers { IfErr result (λ e. IfNumbers e (IsAtLastInstall (view pass.new))) }
    ensures bounded { (view pass.new).install.number ≤ (view pass.old).install.number + most_in_help (board_size board.now) }
{
    let visit = pass.visits()[at];
    match find_checked(board, pass, visit.node) {
        Ok(version) => {
            if version == visit.version {
                return Ok(());
            }
            let seen = first_seen(pass.visits(), at);
            Err(Lost::Changed {
                node: visit.node,
                seen,
            })
        }
        Err(fault) => Err(lost(fault)),
    }
}
