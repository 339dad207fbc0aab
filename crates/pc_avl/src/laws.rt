//! The laws of the plans, each the contract of a function that does nothing.
ghost use Rattle.std.specs.Prelude.{◌≡◌, None, IsSome};
ghost use Rattle.pc_model.specs.declared.call.Call.TheVariants.{Get, Put, Remove};
ghost use Rattle.pc_model.specs.Map.{IsKey, IsPair, value_at};
ghost use Rattle.pc_model.specs.Trees.{balanced};
ghost use Rattle.pc_model.specs.TreeForms.{tree_form};
ghost use Rattle.pc_plan.specs.CallLaws.{StandsForCall};
ghost use Rattle.pc_plan.specs.EndLaws.{EndsInChange, EndsInAnswer, WantsNoSlot, WantsSlotForNew};
ghost use Rattle.pc_plan.specs.Quiet.{AsksForNoExchange};
ghost use Rattle.pc_avl.specs.declared.repair.Aim.TheVariants.{Exact, Nearest};
ghost use Rattle.pc_avl.specs.RepairCases.{StandsForRepair, EndsByCases};

use crate::get::AvlGet;
use crate::put::AvlPut;
use crate::remove::AvlRemove;
use crate::repair_from::AvlRepairFrom;
use crate::repair_key::AvlRepair;
use pc_plan::Plan;

/// `AvlGet` stands for the map's get of each key, `AvlPut` for the put of each pair, and `AvlRemove` for
/// the remove of each key, on balanced search trees: these are the calls that `entry` answers and whose
/// replies the plans give.
pub fn plans_stand_for_their_calls()
    ensures get { StandsForCall ⟦<AvlGet as Plan>⟧.terms ⟦<AvlGet as Plan>⟧.can_call
        ⟦<AvlGet as Plan>⟧.form Get IsKey (tree_form balanced) }
    ensures put { StandsForCall ⟦<AvlPut as Plan>⟧.terms ⟦<AvlPut as Plan>⟧.can_call
        ⟦<AvlPut as Plan>⟧.form (λ p. Put p.0 p.1) IsPair (tree_form balanced) }
    ensures remove { StandsForCall ⟦<AvlRemove as Plan>⟧.terms ⟦<AvlRemove as Plan>⟧.can_call
        ⟦<AvlRemove as Plan>⟧.form Remove IsKey (tree_form balanced) }
{}

/// A get asks for no exchange, whatever it is told. On sound cells a put ends in an exchange, also where
/// the value is the old one, and so does a remove of a key that is there; one of another key answers.
pub fn plans_end_as_their_calls_do()
    ensures get { AsksForNoExchange ⟦<AvlGet as Plan>⟧.start ⟦<AvlGet as Plan>⟧.moves
        ⟦<AvlGet as Plan>⟧.can_call }
    ensures put { EndsInChange ⟦<AvlPut as Plan>⟧.start ⟦<AvlPut as Plan>⟧.moves
        ⟦<AvlPut as Plan>⟧.can_call ⟦<AvlPut as Plan>⟧.form (λ call ps. Unit {0}) }
    ensures remove { EndsInChange ⟦<AvlRemove as Plan>⟧.start ⟦<AvlRemove as Plan>⟧.moves
        ⟦<AvlRemove as Plan>⟧.can_call ⟦<AvlRemove as Plan>⟧.form (λ k ps. IsSome (value_at k ps)) }
    ensures missing { EndsInAnswer ⟦<AvlRemove as Plan>⟧.start ⟦<AvlRemove as Plan>⟧.moves
        ⟦<AvlRemove as Plan>⟧.can_call ⟦<AvlRemove as Plan>⟧.form (λ k ps. value_at k ps ≡ None) }
{}

/// `AvlRepair` is the repair of each number as a key, and `AvlRepairFrom` that of the nearest key from each number
/// up, on balanced search trees. On sound cells both end by the heights that the cells store: they answer where there
/// is no such key or its node is in balance, correct the height where those of the children are close, and rotate
/// once or twice where they aren't, unless a node below is out of balance and comes first.
pub fn repairs_end_by_cases()
    ensures key { StandsForRepair ⟦<AvlRepair as Plan>⟧.terms ⟦<AvlRepair as Plan>⟧.can_call
        ⟦<AvlRepair as Plan>⟧.form Exact }
    ensures key_ends { EndsByCases ⟦<AvlRepair as Plan>⟧.start ⟦<AvlRepair as Plan>⟧.moves Exact }
    ensures nearest { StandsForRepair ⟦<AvlRepairFrom as Plan>⟧.terms ⟦<AvlRepairFrom as Plan>⟧.can_call
        ⟦<AvlRepairFrom as Plan>⟧.form Nearest }
    ensures nearest_ends { EndsByCases ⟦<AvlRepairFrom as Plan>⟧.start ⟦<AvlRepairFrom as Plan>⟧.moves Nearest }
{}

/// Whatever it is told, a put asks for a fresh node only where its reply is that the key is new, and a remove
/// and both repairs for none.
pub fn slots_are_for_new_keys()
    ensures put { WantsSlotForNew ⟦<AvlPut as Plan>⟧.start ⟦<AvlPut as Plan>⟧.moves
        ⟦<AvlPut as Plan>⟧.can_call }
    ensures remove { WantsNoSlot ⟦<AvlRemove as Plan>⟧.start ⟦<AvlRemove as Plan>⟧.moves
        ⟦<AvlRemove as Plan>⟧.can_call }
    ensures repair { WantsNoSlot ⟦<AvlRepair as Plan>⟧.start ⟦<AvlRepair as Plan>⟧.moves
        ⟦<AvlRepair as Plan>⟧.can_call }
    ensures repair_from { WantsNoSlot ⟦<AvlRepairFrom as Plan>⟧.start ⟦<AvlRepairFrom as Plan>⟧.moves
        ⟦<AvlRepairFrom as Plan>⟧.can_call }
{}
