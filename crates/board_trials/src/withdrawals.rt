//! A published exchange that its pass withdraws by a step, and doesn't clear.
ghost use Rattle.pc_rule_law.specs.Conditions.{IsFree};
ghost use Rattle.pc_rule.specs.Passes.{view, IsPassOf, IsSamePass};
ghost use Rattle.pc_rule.specs.declared.opening.Place.{Place};
ghost use Rattle.pc_dcss.specs.Installs.{KnowsPlace};
ghost use Rattle.pc_kcas.specs.Exchanges.{IsUncleared, own_exchange};

use pc_model::Loose;
use pc_rule::{Board, Pass, step_14_own};
use pc_words::{Stage, Status, pack};

/// The pass withdraws its published exchange. Says whether that was undecided until then.
pub(crate) fn withdrawn(board: &Board<Loose>, pass: &mut Pass<Loose>) -> bool
    requires pass { IsPassOf board.now pass.old }
    requires published { IsUncleared pass.old }
    requires free { IsFree (view pass.old) }
    ensures same { IsSamePass pass.old pass.new }
    ensures free { IsFree (view pass.new) }
    ensures published { IsUncleared pass.new }
    ensures keeps { (x : Place) → KnowsPlace (view pass.old) (own_exchange pass.old) x → KnowsPlace (view pass.new) (own_exchange pass.new) x }
{
    let number = pass.attempts();
    let undecided = pack(Status {
        number,
        stage: Stage::Undecided,
    });
    let withdrawn = pack(Status {
        number,
        stage: Stage::Withdrawn,
    });
    step_14_own(board, pass, undecided, withdrawn) == undecided
}
