//! The reading of a word.
ghost use Rattle.std.specs.Prelude.{◌≡◌, ◌+◌, ◌^◌, ◌<◌, ◌≤◌, IfOk, IfErr, OnErr, true};
ghost use Rattle.pc_words.specs.declared.word.WordKind.TheVariants.{Plain};
ghost use Rattle.pc_rule_law.specs.Conditions.{IsFree};
ghost use Rattle.pc_exchange_law.specs.Slots.{IsHeld};
ghost use Rattle.pc_exchange_law.specs.Paths.{with_read};
ghost use Rattle.pc_rule.specs.Passes.{whole, view, knows, visits, path, board_size, IsPassOf, StaysSeated, HasNode};
ghost use Rattle.pc_kcas.specs.Bounds.{most_in_help};
ghost use Rattle.pc_kcas.specs.Obstacles.{GoesOn};
ghost use Rattle.pc_kcas.specs.Takings.{IsAtLastInstall};
ghost use Rattle.pc_path.specs.Faults.{IsBusy, IfBusy, IfNumbers};
ghost use Rattle.pc_path.specs.Finds.{HasFound};

use crate::fault::ReadFault;
use crate::met::Met;
use crate::way::{make_way, number_in};
use pc_model::{Field, Shape};
use pc_rule::{Board, Pass, step_5_read};

/// Reads a word of a node: the number that it had, with no reference in it, at a step of this call. Where the node was visited
/// before, the read counts, as one of those that a validated read has. It waits for nobody and takes no memory.
///
/// Where the reference of another pass stands in the word, one install is completed and one exchange is helped, as Harris, Fraser
/// and Pratt's conditional exchanges are. A second one of a kind ends the call.
pub fn read<H: Shape>(
    board: &Board<H>,
    pass: &mut Pass<H>,
    node: u32,
    field: Field,
) -> Result<u64, ReadFault>
    requires pass { IsPassOf board.now pass.old }
    requires open { (path pass.old).begun ≡ true }
    requires free { IsFree (view pass.old) }
    requires node { HasNode board.now node }
    requires held { IsHeld (knows pass.old) node }
    ensures seated { StaysSeated pass.old pass.new }
    ensures goes_on { GoesOn (whole pass.old) (whole pass.new) }
    ensures free { IsFree (view pass.new) }
    ensures open { (path pass.new).begun ≡ true }
    ensures visits { visits pass.new ≡ visits pass.old }

    // What it read, and that this counts where the node was visited.
    ensures found { IfOk result (HasFound (whole pass.old) (whole pass.new) node field) }
    ensures fits { IfOk result (λ v. v < 2 ^ 62) }
    ensures counted { IfOk result (λ v. path pass.new ≡ with_read (path pass.old) node field (Plain v)) }

    // Why it read nothing.
    ensures kept { OnErr result (path pass.new ≡ path pass.old) }
    ensures busy { IfErr result (λ e. IfBusy e (IsBusy (board_size board.now).seats (view pass.old) (whole pass.new) node field)) }
    ensures numbers { IfErr result (λ e. IfNumbers e (IsAtLastInstall (view pass.new))) }

    // The most installs that it makes: those of one help.
    ensures bounded { (view pass.new).install.number ≤ (view pass.old).install.number + most_in_help (board_size board.now) }
{
    let mut met = Met {
        completed: None,
        helped: None,
    };
    loop {
        let found = step_5_read(board, pass, node, field);
        match number_in(found) {
            Ok(number) => return Ok(number),
            Err(reference) => met = make_way(board, pass, reference, met)?,
        }
    }
}
