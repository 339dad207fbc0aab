//! Running one call of the map on plain cells of a tree of either kind.
ghost use Rattle.std.specs.Prelude.{◌≡◌, ◌≤◌, IfOk, IfErr, OnErr, OnOk, IsSome};
ghost use Rattle.pc_model.specs.Debts.{Debts};
ghost use Rattle.pc_text.specs.ScriptFacts.{IsCallInRange};
ghost use Rattle.pc_plan.specs.EndLaws.{ChargesNothing, WantsNoSlot, WantsSlotForNew};
ghost use Rattle.pc_plan.specs.Quiet.{AsksForNoExchange};
ghost use Rattle.pc_plain.specs.OwedRuns.{AnswersForDebts, BeginsInReach};
ghost use Rattle.pc_plain.specs.PlainRuns.{HoldsPairs, RunsRight};
ghost use Rattle.pc_avl.specs.declared.tree_kind.TreeKind.TheVariants.{Bst, Avl};
ghost use Rattle.pc_locked.specs.Answers.{AnswersAs, AreCharged, IsRefusedOn, AnswersNewInVain};
ghost use Rattle.pc_locked.specs.States.{form_of};

use pc_avl::{AvlGet, AvlPut, AvlRemove, TreeKind};
use pc_bst::{BstGet, BstPut, BstRemove};
use pc_model::{Call, Owed, Reply};
use pc_order::{CeilPlan, FloorPlan, plans_change_nothing};
use pc_plain::{NoPlainSlot, PlainCells, quiet_plans_change_nothing, run_owed, run_plan};
use pc_plan::Plan;

/// Runs the plan of a call that asks for no exchange: the cells stay as they are.
fn look_by<P: Plan>(cells: &mut PlainCells, call: P::Call) -> Reply
    requires call { P.can_call call }
    requires sound { HoldsPairs P.form cells.old }
    requires quiet { AsksForNoExchange P.start P.moves P.can_call }
    ensures right { RunsRight P.form (P.terms call) cells.old cells.new result }
    ensures stays { cells.new ≡ cells.old }
{
    quiet_plans_change_nothing::<P>();
    match run_plan::<P>(cells, call) {
        Ok(reply) => reply,
        Err(_) => unreachable!(),
    }
}

/// Runs the plan of a call that wants a slot only where its reply is that the key is new.
fn put_by<P: Plan>(
    cells: &mut PlainCells,
    call: P::Call,
    owed: &mut Owed,
) -> Result<Reply, NoPlainSlot>
    requires call { P.can_call call }
    requires sound { HoldsPairs P.form cells.old }
    requires recorded { IsSome (P.terms call).entry }
    requires slots { WantsSlotForNew P.start P.moves P.can_call }
    requires few { cells.old.slots ≤ 61000 }
    ensures size { cells.new.slots ≡ cells.old.slots }
    ensures right { IfOk result (RunsRight P.form (P.terms call) cells.old cells.new) }
    ensures charged { OnOk result (AreCharged owed.old owed.new) }
    ensures free { ChargesNothing P.start P.moves P.can_call → owed.new ≡ owed.old }
    ensures answers { OnOk result (BeginsInReach (P.terms call) owed.old
        → AnswersForDebts P.form cells.old owed.old → AnswersForDebts P.form cells.new owed.new) }
    ensures live { IfErr result (λ e. e.live ≡ cells.old.slots) }
    ensures vain { OnErr result (AnswersNewInVain P.form (P.terms call) cells.old) }
    ensures stays { OnErr result (cells.new ≡ cells.old) }
    ensures debts_stay { OnErr result (owed.new ≡ owed.old) }
{
    run_owed::<P>(cells, call, owed)
}

/// Runs the plan of a call that wants no slot.
fn remove_by<P: Plan>(cells: &mut PlainCells, call: P::Call, owed: &mut Owed) -> Reply
    requires call { P.can_call call }
    requires sound { HoldsPairs P.form cells.old }
    requires recorded { IsSome (P.terms call).entry }
    requires slots { WantsNoSlot P.start P.moves P.can_call }
    ensures size { cells.new.slots ≡ cells.old.slots }
    ensures right { RunsRight P.form (P.terms call) cells.old cells.new result }
    ensures charged { AreCharged owed.old owed.new }
    ensures free { ChargesNothing P.start P.moves P.can_call → owed.new ≡ owed.old }
    ensures answers { BeginsInReach (P.terms call) owed.old
        → AnswersForDebts P.form cells.old owed.old → AnswersForDebts P.form cells.new owed.new }
{
    match run_owed::<P>(cells, call, owed) {
        Ok(reply) => reply,
        Err(_) => unreachable!(),
    }
}

/// Runs a call of the map on a plain tree, in which no key is in debt.
fn answer_plain(cells: &mut PlainCells, owed: &mut Owed, call: Call) -> Result<Reply, NoPlainSlot>
    requires call { IsCallInRange call }
    requires tree { HoldsPairs (form_of Bst) cells.old }
    requires few { cells.old.slots ≤ 61000 }
    ensures size { cells.new.slots ≡ cells.old.slots }
    ensures right { IfOk result (AnswersAs Bst call cells.old cells.new) }
    ensures free { owed.new ≡ owed.old }
    ensures live { IfErr result (λ e. e.live ≡ cells.old.slots) }
    ensures refused { OnErr result (IsRefusedOn Bst call cells.old) }
    ensures stays { OnErr result (cells.new ≡ cells.old) }
{
    pc_bst::slots_are_for_new_keys();
    pc_bst::plans_end_as_their_calls_do();
    pc_bst::plans_charge_nothing();
    plans_change_nothing();
    match call {
        Call::Put { key, value } => put_by::<BstPut>(cells, (key, value), owed),
        Call::Get { key } => Ok(look_by::<BstGet>(cells, key)),
        Call::Remove { key } => Ok(remove_by::<BstRemove>(cells, key, owed)),
        Call::Ceil { key } => Ok(look_by::<CeilPlan>(cells, key)),
        Call::Floor { key } => Ok(look_by::<FloorPlan>(cells, key)),
    }
}

/// Runs a call of the map on a balanced tree. The keys that it brings into debt are charged.
fn answer_balanced(
    cells: &mut PlainCells,
    owed: &mut Owed,
    call: Call,
) -> Result<Reply, NoPlainSlot>
    requires call { IsCallInRange call }
    requires tree { HoldsPairs (form_of Avl) cells.old }
    requires few { cells.old.slots ≤ 61000 }
    requires answered { AnswersForDebts (form_of Avl) cells.old owed.old }
    ensures size { cells.new.slots ≡ cells.old.slots }
    ensures right { IfOk result (AnswersAs Avl call cells.old cells.new) }
    ensures answered { OnOk result (AnswersForDebts (form_of Avl) cells.new owed.new) }
    ensures charged { OnOk result (AreCharged owed.old owed.new) }
    ensures live { IfErr result (λ e. e.live ≡ cells.old.slots) }
    ensures refused { OnErr result (IsRefusedOn Avl call cells.old) }
    ensures stays { OnErr result (cells.new ≡ cells.old) }
    ensures debts_stay { OnErr result (owed.new ≡ owed.old) }
{
    pc_avl::slots_are_for_new_keys();
    pc_avl::plans_end_as_their_calls_do();
    plans_change_nothing();
    match call {
        Call::Put { key, value } => put_by::<AvlPut>(cells, (key, value), owed),
        Call::Get { key } => Ok(look_by::<AvlGet>(cells, key)),
        Call::Remove { key } => Ok(remove_by::<AvlRemove>(cells, key, owed)),
        Call::Ceil { key } => Ok(look_by::<CeilPlan>(cells, key)),
        Call::Floor { key } => Ok(look_by::<FloorPlan>(cells, key)),
    }
}

/// Runs a call of the map on a tree of this kind. It takes no memory.
pub fn answer(
    kind: TreeKind,
    cells: &mut PlainCells,
    owed: &mut Owed,
    call: Call,
) -> Result<Reply, NoPlainSlot>
    requires call { IsCallInRange call }
    requires tree { HoldsPairs (form_of kind) cells.old }
    requires few { cells.old.slots ≤ 61000 }
    requires answered { AnswersForDebts (form_of kind) cells.old owed.old }
    ensures size { cells.new.slots ≡ cells.old.slots }
    ensures right { IfOk result (AnswersAs kind call cells.old cells.new) }
    ensures answered { OnOk result (AnswersForDebts (form_of kind) cells.new owed.new) }
    ensures charged { OnOk result (AreCharged owed.old owed.new) }
    ensures free { kind ≡ Bst → owed.new ≡ owed.old }
    ensures live { IfErr result (λ e. e.live ≡ cells.old.slots) }
    ensures refused { OnErr result (IsRefusedOn kind call cells.old) }
    ensures stays { OnErr result (cells.new ≡ cells.old) }
    ensures debts_stay { OnErr result (owed.new ≡ owed.old) }
{
    match kind {
        TreeKind::Bst => answer_plain(cells, owed, call),
        TreeKind::Avl => answer_balanced(cells, owed, call),
    }
}
