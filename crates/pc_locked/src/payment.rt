//! Paying what is owed: one repair at a time.
ghost use Rattle.std.specs.Prelude.{◌≡◌, is_some, IfSome, IsNone};
ghost use Rattle.std.specs.Bool.{OnFalse};
ghost use Rattle.pc_model.specs.Debts.{first_owed};
ghost use Rattle.pc_model.specs.Trees.{balanced};
ghost use Rattle.pc_model.specs.TreeForms.{tree_form};
ghost use Rattle.pc_plain.specs.OwedRuns.{AnswersForDebts, BeginsInReach, IsOwedRunOf};
ghost use Rattle.pc_plain.specs.PlainRuns.{HoldsPairs};
ghost use Rattle.pc_avl.specs.declared.tree_kind.TreeKind.TheVariants.{Avl};
ghost use Rattle.pc_locked.specs.Repairs.{IsInFullBalance, IsRepair, KeepsPairs, Repairs, RunsFor};
ghost use Rattle.pc_locked.specs.States.{IsSameMap};

use crate::state::LockedState;
use pc_avl::{AvlRepair, AvlRepairFrom, repairs_end_by_cases, slots_are_for_new_keys};
use pc_model::{Owed, Owing, Reply};
use pc_plain::{PlainCells, run_owed};
use pc_plan::Plan;
use std::sync::Wait;

/// Runs a repair of a balanced tree. It is never refused.
#[inline(never)]
fn repair_by<P: Plan<Call = u64>>(cells: &mut PlainCells, key: u64, owed: &mut Owed) -> Reply
    requires repair { (highest : _) × IsRepair P.start P.moves P.can_call P.terms P.form highest }
    requires tree { HoldsPairs (tree_form balanced) cells.old }
    requires reach { BeginsInReach (P.terms key) owed.old }
    requires answered { AnswersForDebts (tree_form balanced) cells.old owed.old }
    ensures size { cells.new.slots ≡ cells.old.slots }
    ensures run { IsOwedRunOf P.start P.moves P.form (P.terms key) key cells.old cells.new owed.old owed.new result }
    ensures pairs { KeepsPairs Avl cells.old cells.new }
    ensures answered { AnswersForDebts (tree_form balanced) cells.new owed.new }
{
    match run_owed::<P>(cells, key, owed) {
        Ok(reply) => reply,
        Err(_) => unreachable!(),
    }
}

/// Repairs what is owed first, a key or the nearest key from a number up, by one run of its plan, and answers whether
/// anything was owed. Where nothing was, a balanced tree stores the true heights of its nodes, and those of the two
/// sides of each differ by at most one.
pub fn pay(state: &mut LockedState) -> bool
    // False exactly where nothing is owed.
    ensures owing { result ≡ is_some (first_owed state.old.owed.keys state.old.owed.from) }
    ensures paid { IfSome (first_owed state.old.owed.keys state.old.owed.from)
        (Repairs
        (RunsFor ⟦<AvlRepair as Plan>⟧.start ⟦<AvlRepair as Plan>⟧.moves
        ⟦<AvlRepair as Plan>⟧.form ⟦<AvlRepair as Plan>⟧.terms)
        (RunsFor ⟦<AvlRepairFrom as Plan>⟧.start ⟦<AvlRepairFrom as Plan>⟧.moves
        ⟦<AvlRepairFrom as Plan>⟧.form ⟦<AvlRepairFrom as Plan>⟧.terms) state.old state.new) }
    ensures entries { state.new.entries ≡ state.old.entries }
    ensures pairs { KeepsPairs state.old.kind state.old.cells state.new.cells }
    ensures same { IsSameMap state.old state.new }
    ensures stays { OnFalse result (state.new ≡ state.old) }
    ensures balanced { OnFalse result (state.old.kind ≡ Avl → IsInFullBalance state.new.cells) }
{
    repairs_end_by_cases();
    slots_are_for_new_keys();
    pay_by::<AvlRepair, AvlRepairFrom>(state)
}

/// Repairs until nothing is owed. Whether that ends isn't promised.
pub fn settle<R: Wait>(rt: &R, state: &mut LockedState)
    ensures free { IsNone (first_owed state.new.owed.keys state.new.owed.from) }
    ensures entries { state.new.entries ≡ state.old.entries }
    ensures same { IsSameMap state.old state.new }
    ensures balanced { state.new.kind ≡ Avl → IsInFullBalance state.new.cells }
{
    for _ in rt.forever() {
        if !pay(state) {
            return;
        }
    }
}

/// Repairs what is owed first, by a plan for a key and a plan for what there is from a number on, and answers
/// whether anything was owed.
fn pay_by<R: Plan<Call = u64>, F: Plan<Call = u64>>(state: &mut LockedState) -> bool
    requires key { IsRepair R.start R.moves R.can_call R.terms R.form (λ _. 0) }
    requires from { IsRepair F.start F.moves F.can_call F.terms F.form (λ k. k) }
    ensures owing { result ≡ is_some (first_owed state.old.owed.keys state.old.owed.from) }
    ensures paid { IfSome (first_owed state.old.owed.keys state.old.owed.from)
        (Repairs (RunsFor R.start R.moves R.form R.terms)
        (RunsFor F.start F.moves F.form F.terms) state.old state.new) }
    ensures entries { state.new.entries ≡ state.old.entries }
    ensures pairs { KeepsPairs state.old.kind state.old.cells state.new.cells }
    ensures same { IsSameMap state.old state.new }
    ensures stays { OnFalse result (state.new ≡ state.old) }
    ensures balanced { OnFalse result (state.old.kind ≡ Avl → IsInFullBalance state.new.cells) }
{
    match state.owed.first() {
        None => false,
        Some(Owing::Key(key)) => {
            repair_by::<R>(&mut state.cells, key, &mut state.owed);
            true
        }
        Some(Owing::From(number)) => {
            repair_by::<F>(&mut state.cells, number, &mut state.owed);
            true
        }
    }
}
