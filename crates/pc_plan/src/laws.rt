//! Laws that hold of every plan, each the contract of a function that does nothing.
ghost use Rattle.pc_plan.specs.Fitting.{StandingIsAgreeing, ExchangesFit};

use crate::plan::Plan;

/// Where an exchange that a plan asks for stands in some cells, what the plan was told agrees with them, and
/// likewise for what it learned where it answers; so whatever its laws say of cells that agree holds there.
pub fn standing_is_agreeing<P: Plan>()
    ensures { StandingIsAgreeing P.start P.moves }
{}

/// In all sound cells in which an exchange of a plan stands, it leaves sound cells and charges each debt that
/// it brings; and what the plan settles is charged, or isn't in debt then.
pub fn exchanges_fit<P: Plan>()
    ensures { ExchangesFit P.start P.moves P.can_call P.terms P.form }
{}
