//! The laws of runs, each on a function with no code.
ghost use Rattle.pc_plan.specs.Quiet.{AsksForNoExchange};
ghost use Rattle.pc_plain.specs.QuietRuns.{ChangeNothing};

use pc_plan::Plan;

/// A run of a plan that asks for no exchange, whatever it is told, leaves everything as it was, and is
/// never refused.
pub fn quiet_plans_change_nothing<P: Plan>()
    ensures { AsksForNoExchange P.start P.moves P.can_call → ChangeNothing P.start P.moves P.can_call P.form }
{}
