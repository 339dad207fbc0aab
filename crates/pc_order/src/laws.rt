//! The laws of the plans, each the contract of a function that does nothing.
ghost use Rattle.pc_model.specs.declared.call.Call.TheVariants.{Ceil, Floor};
ghost use Rattle.pc_model.specs.Map.{IsKey};
ghost use Rattle.pc_model.specs.TreeForms.{ordered_form};
ghost use Rattle.pc_plan.specs.CallLaws.{StandsForCall};
ghost use Rattle.pc_plan.specs.Quiet.{AsksForNoExchange};

use crate::ceil::CeilPlan;
use crate::floor::FloorPlan;
use pc_plan::Plan;

/// `CeilPlan` stands for the map's ceil of each key, and `FloorPlan` for its floor, on search trees of
/// either kind: these are the calls that `entry` answers and whose replies the plans give.
pub fn plans_stand_for_their_calls()
    ensures ceil { StandsForCall ⟦<CeilPlan as Plan>⟧.terms ⟦<CeilPlan as Plan>⟧.can_call
        ⟦<CeilPlan as Plan>⟧.form Ceil IsKey ordered_form }
    ensures floor { StandsForCall ⟦<FloorPlan as Plan>⟧.terms ⟦<FloorPlan as Plan>⟧.can_call
        ⟦<FloorPlan as Plan>⟧.form Floor IsKey ordered_form }
{}

/// Whatever they are told, the plans ask for no exchange.
pub fn plans_change_nothing()
    ensures ceil { AsksForNoExchange ⟦<CeilPlan as Plan>⟧.start ⟦<CeilPlan as Plan>⟧.moves
        ⟦<CeilPlan as Plan>⟧.can_call }
    ensures floor { AsksForNoExchange ⟦<FloorPlan as Plan>⟧.start ⟦<FloorPlan as Plan>⟧.moves
        ⟦<FloorPlan as Plan>⟧.can_call }
{}
