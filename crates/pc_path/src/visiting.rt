//! The visit of a node.
ghost use Rattle.std.specs.Prelude.{◌≡◌, ◌≢◌, ◌+◌, ◌<◌, ◌≤◌, ◌++◌, ◌∷◌, ◌↔◌, [], true, false, length, IfOk, IfErr, OnErr, IsErrAnd};
ghost use Rattle.pc_model.specs.declared.cell.Field.TheVariants.{Version};
ghost use Rattle.pc_model.specs.Cells.{IsEven, IsOdd};
ghost use Rattle.pc_words.specs.declared.word.WordKind.TheVariants.{Plain};
ghost use Rattle.pc_rule_law.specs.Conditions.{IsFree};
ghost use Rattle.pc_exchange_law.specs.Slots.{IsHeld};
ghost use Rattle.pc_exchange_law.specs.Paths.{last_version, is_visitable, more_visits, with_visit};
ghost use Rattle.pc_rule.specs.Passes.{whole, view, knows, visits, path, board_size, IsPassOf, StaysSeated, HasNode};
ghost use Rattle.pc_rule.specs.Walking.{visits_in};
ghost use Rattle.pc_kcas.specs.Bounds.{most_in_help};
ghost use Rattle.pc_kcas.specs.Obstacles.{GoesOn};
ghost use Rattle.pc_kcas.specs.Takings.{IsAtLastInstall};
ghost use Rattle.pc_path.specs.Faults.{visit_fault, IsBusy, IsMarkedNode, IsAtLastNumber, IsOutOfVersions, IsLong, IfBusy, IfNumbers, IfBusyThere, IfMarked, IfLong, IfNoNumbers};
ghost use Rattle.pc_path.specs.Finds.{HasFound};

use crate::fault::{ReadFault, VisitFault};
use crate::met::Met;
use crate::way::{make_way, number_in};
use pc_model::{Counter, Numbers, Shape};
use pc_rule::{Board, Pass, step_5_visit};

// The last version of a node.
const LAST_VERSION: u64 = 1_152_921_504_606_846_970;

// The version of a node, which counts as a visit where it is visitable.
fn find_version<H: Shape>(board: &Board<H>, pass: &mut Pass<H>, node: u32) -> Result<u64, ReadFault>
    requires pass { IsPassOf board.now pass.old }
    requires open { (path pass.old).begun ≡ true }
    requires free { IsFree (view pass.old) }
    requires node { HasNode board.now node }
    requires held { IsHeld (knows pass.old) node }
    requires room { length (visits pass.old) ≤ (board_size board.now).slots }
    ensures seated { StaysSeated pass.old pass.new }
    ensures goes_on { GoesOn (whole pass.old) (whole pass.new) }
    ensures free { IsFree (view pass.new) }
    ensures found { IfOk result (HasFound (whole pass.old) (whole pass.new) node Version) }
    ensures path { IfOk result (λ v. path pass.new ≡ with_visit (path pass.old) node (Plain v)) }
    ensures visits { IfOk result (λ v. visits pass.new ≡ visits pass.old ++ visits_in node (Plain v)) }
    ensures kept { OnErr result ((path pass.new ≡ path pass.old) × (visits pass.new ≡ visits pass.old)) }
    ensures busy { IfErr result (λ e. IfBusy e (IsBusy (board_size board.now).seats (view pass.old) (whole pass.new) node Version)) }
    ensures numbers { IfErr result (λ e. IfNumbers e (IsAtLastInstall (view pass.new))) }
    ensures bounded { (view pass.new).install.number ≤ (view pass.old).install.number + most_in_help (board_size board.now) }
{
    let mut met = Met {
        completed: None,
        helped: None,
    };
    loop {
        let found = step_5_visit(board, pass, node);
        match number_in(found) {
            Ok(version) => return Ok(version),
            Err(reference) => met = make_way(board, pass, reference, met)?,
        }
    }
}

// Whether a node may be visited at this version.
fn judged(version: u64) -> Result<u64, VisitFault>
    ensures same { IfOk result (λ v. v ≡ version) }
    ensures even { IfOk result IsEven }
    ensures below { IfOk result (λ v. v < last_version) }
    ensures busy { IfErr result (λ e. IfBusyThere e (λ first second. ⊥)) }
    ensures marked { IfErr result (λ e. IfMarked e (λ v. (v ≡ version) × IsOdd v)) }
    ensures long { IfErr result (λ e. IfLong e (λ n. ⊥)) }
    ensures last { IfErr result (λ e. IfNoNumbers e (IsOutOfVersions version)) }
{
    if version % 2 == 1 {
        return Err(VisitFault::Marked { version });
    }
    if version >= LAST_VERSION {
        return Err(VisitFault::Numbers(Numbers {
            counter: Counter::Version,
            at: version,
        }));
    }
    Ok(version)
}

// Why a visit found no version, by why a read of it found none.
fn fault_of(fault: ReadFault) -> VisitFault
    ensures { result ≡ visit_fault fault }
{
    match fault {
        ReadFault::Busy { first, second } => VisitFault::Busy { first, second },
        ReadFault::Numbers(numbers) => VisitFault::Numbers(numbers),
    }
}

/// Visits a node: the even version that it had, with no reference in its word, at a step of this call, is one more visit of the
/// pass's path. It waits for nobody and takes no memory.
///
/// As many visits are made as there are slots and one. Where the reference of another pass stands in the version's word, one
/// install is completed and one exchange is helped; a second one of a kind ends the call.
pub fn visit<H: Shape>(board: &Board<H>, pass: &mut Pass<H>, node: u32) -> Result<u64, VisitFault>
    requires pass { IsPassOf board.now pass.old }
    requires open { (path pass.old).begun ≡ true }
    requires free { IsFree (view pass.old) }
    requires node { HasNode board.now node }
    requires held { IsHeld (knows pass.old) node }
    ensures seated { StaysSeated pass.old pass.new }
    ensures goes_on { GoesOn (whole pass.old) (whole pass.new) }
    ensures free { IsFree (view pass.new) }
    ensures open { (path pass.new).begun ≡ true }

    // The version, and that it is visited.
    ensures found { IfOk result (HasFound (whole pass.old) (whole pass.new) node Version) }
    ensures even { IfOk result IsEven }
    ensures below { IfOk result (λ v. v < last_version) }
    ensures visits { IfOk result (λ v. visits pass.new ≡ visits pass.old ++ record { node = node; version = v } ∷ []) }
    ensures path { IfOk result (λ v. path pass.new ≡ more_visits (path pass.old) node v) }

    // Why it isn't.
    ensures kept { OnErr result ((path pass.new ≡ path pass.old) × (visits pass.new ≡ visits pass.old)) }
    ensures long { IsErrAnd result IsLong ↔ (length (visits pass.old) ≡ (board_size board.now).slots + 1) }
    ensures made { IfErr result (λ e. IfLong e (λ n. n ≡ length (visits pass.old))) }
    ensures marked { IfErr result (λ e. IfMarked e (IsMarkedNode (whole pass.old) (whole pass.new) node)) }
    ensures busy { IfErr result (λ e. IfBusyThere e (IsBusy (board_size board.now).seats (view pass.old) (whole pass.new) node Version)) }
    ensures numbers { IfErr result (λ e. IfNoNumbers e (IsAtLastNumber (whole pass.old) (whole pass.new) node)) }

    // The most installs that it makes: those of one help.
    ensures bounded { (view pass.new).install.number ≤ (view pass.old).install.number + most_in_help (board_size board.now) }
{
    if !board.has_room_to_visit(pass) {
        return Err(VisitFault::Long {
            visits: pass.visits().len() as u32,
        });
    }
    match find_version(board, pass, node) {
        Ok(version) => judged(version),
        Err(fault) => Err(fault_of(fault)),
    }
}
