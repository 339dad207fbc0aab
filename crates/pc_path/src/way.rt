//! The reference of another pass that stands in a word: an install is completed, and an exchange is helped, at most one of each
//! in one word. So a call that looks at a word comes to an end, whatever other passes do.
ghost use Rattle.std.specs.Prelude.{◌≡◌, ℕ, ◌+◌, ◌^◌, ◌<◌, ◌≤◌, IfOk, IfErr, OnErr, IfSome, IfNone};
ghost use Rattle.pc_model.specs.declared.cell.Field.{Field as FieldOf};
ghost use Rattle.pc_words.specs.declared.word.WordKind.TheVariants.{Plain};
ghost use Rattle.pc_words.specs.Words.{kind, IsWord};
ghost use Rattle.pc_rule_law.specs.Conditions.{IsFree};
ghost use Rattle.pc_rule_law.specs.Views.{View};
ghost use Rattle.pc_rule.specs.declared.refs.RefKind.TheVariants.{Install, Exchange};
ghost use Rattle.pc_rule.specs.Passes.{whole, view, board_size, IsPassOf, IsSamePass};
ghost use Rattle.pc_dcss.specs.Installs.{word_of};
ghost use Rattle.pc_kcas.specs.Bounds.{most_in_help};
ghost use Rattle.pc_kcas.specs.Obstacles.{GoesOn};
ghost use Rattle.pc_kcas.specs.Takings.{IsAtLastInstall};
ghost use Rattle.pc_path.specs.Bounds.{most_helped};
ghost use Rattle.pc_path.specs.Faults.{IsBusy, IfBusy, IfNumbers};
ghost use Rattle.pc_path.specs.Ways.{HasMadeWay, IsInTheWay, kinds_left};

use crate::fault::ReadFault;
use crate::met::Met;
use pc_dcss::complete;
use pc_kcas::{Helped, help};
use pc_model::Shape;
use pc_rule::{Board, Pass, Ref, RefKind};
use pc_words::{WordKind, kind_of};

/// The number that a word is, or the reference that it holds.
pub(crate) fn number_in(found: u64) -> Result<u64, Ref>
    requires { IsWord found }
    ensures number { IfOk result (λ v. kind found ≡ Plain v) }
    ensures fits { IfOk result (λ v. v < 2 ^ 62) }
    ensures reference { IfErr result (λ r. kind found ≡ word_of r.kind r.seat r.number) }
{
    match kind_of(found) {
        WordKind::Plain(value) => Ok(value),
        WordKind::Install { seat, number } => Err(Ref {
            kind: RefKind::Install,
            seat,
            number,
        }),
        WordKind::Exchange { seat, number } => Err(Ref {
            kind: RefKind::Exchange,
            seat,
            number,
        }),
    }
}

// Completes an install, where none was completed in the word yet.
fn complete_once<H: Shape>(
    board: &Board<H>,
    pass: &mut Pass<H>,
    found: Ref,
    met: Met,
) -> Result<Met, ReadFault>
    requires pass { IsPassOf board.now pass.old }
    requires free { IsFree (view pass.old) }
    requires kind { found.kind ≡ Install }
    requires met { (v : View) × (n : ℕ) × (f : FieldOf) × IsInTheWay v (whole pass.old) n f met found }
    ensures pass { IsSamePass pass.old pass.new }
    ensures goes_on { GoesOn (whole pass.old) (whole pass.new) }
    ensures free { IsFree (view pass.new) }
    ensures fewer { IfOk result (λ m. kinds_left m < kinds_left met) }
    ensures made { (v : View) (n : ℕ) (f : FieldOf) → IsInTheWay v (whole pass.old) n f met found → IfOk result (HasMadeWay v (whole pass.new) n f) }
    ensures busy { (v : View) (n : ℕ) (f : FieldOf) → IsInTheWay v (whole pass.old) n f met found → IfErr result (λ e. IfBusy e (IsBusy (board_size board.now).seats v (whole pass.new) n f)) }
    ensures numbers { IfErr result (λ e. IfNumbers e (IsAtLastInstall (view pass.new))) }
    ensures most { IfOk result (λ m. (view pass.new).install.number + most_helped (board_size board.now) met.helped ≤ (view pass.old).install.number + most_helped (board_size board.now) m.helped) }
    ensures bounded { OnErr result ((view pass.new).install.number + most_helped (board_size board.now) met.helped ≤ (view pass.old).install.number + most_in_help (board_size board.now)) }
{
    match met.completed {
        Some(first) => Err(ReadFault::Busy {
            first,
            second: found,
        }),
        None => {
            complete(board, pass, found);
            Ok(Met {
                completed: Some(found),
                helped: met.helped,
            })
        }
    }
}

// Helps an exchange, where none was helped in the word yet.
fn help_once<H: Shape>(
    board: &Board<H>,
    pass: &mut Pass<H>,
    found: Ref,
    met: Met,
) -> Result<Met, ReadFault>
    requires pass { IsPassOf board.now pass.old }
    requires free { IsFree (view pass.old) }
    requires kind { found.kind ≡ Exchange }
    requires met { (v : View) × (n : ℕ) × (f : FieldOf) × IsInTheWay v (whole pass.old) n f met found }
    ensures pass { IsSamePass pass.old pass.new }
    ensures goes_on { GoesOn (whole pass.old) (whole pass.new) }
    ensures free { IsFree (view pass.new) }
    ensures fewer { IfOk result (λ m. kinds_left m < kinds_left met) }
    ensures made { (v : View) (n : ℕ) (f : FieldOf) → IsInTheWay v (whole pass.old) n f met found → IfOk result (HasMadeWay v (whole pass.new) n f) }
    ensures busy { (v : View) (n : ℕ) (f : FieldOf) → IsInTheWay v (whole pass.old) n f met found → IfErr result (λ e. IfBusy e (IsBusy (board_size board.now).seats v (whole pass.new) n f)) }
    ensures numbers { IfErr result (λ e. IfNumbers e (IsAtLastInstall (view pass.new))) }
    ensures most { IfOk result (λ m. (view pass.new).install.number + most_helped (board_size board.now) met.helped ≤ (view pass.old).install.number + most_helped (board_size board.now) m.helped) }
    ensures bounded { OnErr result ((view pass.new).install.number + most_helped (board_size board.now) met.helped ≤ (view pass.old).install.number + most_in_help (board_size board.now)) }
{
    if let Some(first) = met.helped {
        return Err(ReadFault::Busy {
            first,
            second: found,
        });
    }
    let then = Met {
        completed: met.completed,
        helped: Some(found),
    };
    match help(board, pass, found) {
        Helped::Decided => Ok(then),
        Helped::Gone => Ok(then),
        Helped::Stopped { by } => Err(ReadFault::Busy {
            first: found,
            second: by,
        }),
        Helped::Numbers(numbers) => Err(ReadFault::Numbers(numbers)),
    }
}

/// Makes a reference leave the word in which it was found, where none of its kind was made to leave that word before.
/// - `met`: what was done in this word before.
pub(crate) fn make_way<H: Shape>(
    board: &Board<H>,
    pass: &mut Pass<H>,
    found: Ref,
    met: Met,
) -> Result<Met, ReadFault>
    requires pass { IsPassOf board.now pass.old }
    requires free { IsFree (view pass.old) }
    requires met { (v : View) × (n : ℕ) × (f : FieldOf) × IsInTheWay v (whole pass.old) n f met found }
    ensures pass { IsSamePass pass.old pass.new }
    ensures goes_on { GoesOn (whole pass.old) (whole pass.new) }
    ensures free { IsFree (view pass.new) }
    ensures fewer { IfOk result (λ m. kinds_left m < kinds_left met) }
    ensures made { (v : View) (n : ℕ) (f : FieldOf) → IsInTheWay v (whole pass.old) n f met found → IfOk result (HasMadeWay v (whole pass.new) n f) }
    ensures busy { (v : View) (n : ℕ) (f : FieldOf) → IsInTheWay v (whole pass.old) n f met found → IfErr result (λ e. IfBusy e (IsBusy (board_size board.now).seats v (whole pass.new) n f)) }
    ensures numbers { IfErr result (λ e. IfNumbers e (IsAtLastInstall (view pass.new))) }
    ensures most { IfOk result (λ m. (view pass.new).install.number + most_helped (board_size board.now) met.helped ≤ (view pass.old).install.number + most_helped (board_size board.now) m.helped) }
    ensures bounded { OnErr result ((view pass.new).install.number + most_helped (board_size board.now) met.helped ≤ (view pass.old).install.number + most_in_help (board_size board.now)) }
{
    match found.kind {
        RefKind::Install => complete_once(board, pass, found, met),
        RefKind::Exchange => help_once(board, pass, found, met),
    }
}
