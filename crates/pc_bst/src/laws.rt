//! The laws of the plans, each the contract of a function that does nothing.
ghost use Rattle.std.specs.Prelude.{◌≡◌, IsSome, None};
ghost use Rattle.pc_model.specs.declared.call.Call.TheVariants.{Get, Put, Remove};
ghost use Rattle.pc_model.specs.Map.{IsKey, IsPair, value_at};
ghost use Rattle.pc_model.specs.Trees.{plain};
ghost use Rattle.pc_model.specs.TreeForms.{tree_form};
ghost use Rattle.pc_plan.specs.CallLaws.{StandsForCall};
ghost use Rattle.pc_plan.specs.EndLaws.{EndsInAnswer, EndsInChange, ChargesNothing, WantsNoSlot, WantsSlotForNew};
ghost use Rattle.pc_plan.specs.Quiet.{AsksForNoExchange};

use crate::get::BstGet;
use crate::put::BstPut;
use crate::remove::BstRemove;
use pc_plan::Plan;

/// `BstGet` stands for the map's get of each key, `BstPut` for the put of each pair, and `BstRemove` for
/// the remove of each key, on plain search trees: these are the calls that `entry` answers and whose
/// replies the plans give.
pub fn plans_stand_for_their_calls()
    ensures get { StandsForCall ⟦<BstGet as Plan>⟧.terms ⟦<BstGet as Plan>⟧.can_call
        ⟦<BstGet as Plan>⟧.form Get IsKey (tree_form plain) }
    ensures put { StandsForCall ⟦<BstPut as Plan>⟧.terms ⟦<BstPut as Plan>⟧.can_call
        ⟦<BstPut as Plan>⟧.form (λ p. Put p.0 p.1) IsPair (tree_form plain) }
    ensures remove { StandsForCall ⟦<BstRemove as Plan>⟧.terms ⟦<BstRemove as Plan>⟧.can_call
        ⟦<BstRemove as Plan>⟧.form Remove IsKey (tree_form plain) }
{}

/// A get asks for no exchange, whatever it is told. On sound cells a put ends in an exchange, also where
/// the value is the old one, and so does a remove of a key that is there; a remove of another key answers.
pub fn plans_end_as_their_calls_do()
    ensures get { AsksForNoExchange ⟦<BstGet as Plan>⟧.start ⟦<BstGet as Plan>⟧.moves
        ⟦<BstGet as Plan>⟧.can_call }
    ensures put { EndsInChange ⟦<BstPut as Plan>⟧.start ⟦<BstPut as Plan>⟧.moves
        ⟦<BstPut as Plan>⟧.can_call ⟦<BstPut as Plan>⟧.form (λ call ps. Unit {0}) }
    ensures remove { EndsInChange ⟦<BstRemove as Plan>⟧.start ⟦<BstRemove as Plan>⟧.moves
        ⟦<BstRemove as Plan>⟧.can_call ⟦<BstRemove as Plan>⟧.form (λ k ps. IsSome (value_at k ps)) }
    ensures missing { EndsInAnswer ⟦<BstRemove as Plan>⟧.start ⟦<BstRemove as Plan>⟧.moves
        ⟦<BstRemove as Plan>⟧.can_call ⟦<BstRemove as Plan>⟧.form (λ k ps. value_at k ps ≡ None) }
{}

/// Whatever they are told, a put and a remove of a plain tree charge no key.
pub fn plans_charge_nothing()
    ensures put { ChargesNothing ⟦<BstPut as Plan>⟧.start ⟦<BstPut as Plan>⟧.moves
        ⟦<BstPut as Plan>⟧.can_call }
    ensures remove { ChargesNothing ⟦<BstRemove as Plan>⟧.start ⟦<BstRemove as Plan>⟧.moves
        ⟦<BstRemove as Plan>⟧.can_call }
{}

/// Whatever it is told, a put asks for a fresh node only where its reply is that the key is new, and a remove
/// for none.
pub fn slots_are_for_new_keys()
    ensures put { WantsSlotForNew ⟦<BstPut as Plan>⟧.start ⟦<BstPut as Plan>⟧.moves
        ⟦<BstPut as Plan>⟧.can_call }
    ensures remove { WantsNoSlot ⟦<BstRemove as Plan>⟧.start ⟦<BstRemove as Plan>⟧.moves
        ⟦<BstRemove as Plan>⟧.can_call }
{}
