//! The laws of runs, each on a function with no code.
ghost use Rattle.pc_history.specs.RunLaws.{LateExchangesEnter, RunsAreWorldRuns, RunsStaySound, VersionsRise};

use pc_model::Shape;

/// An exchange that stands in the cells at its stamp, where nothing stands yet, and whose writes miss every
/// exchange with a greater stamp, may enter the run there: the others still stand, the cells up to the stamp
/// are as before, and those above are as before with the exchange made.
pub fn late_exchanges_enter()
    ensures { LateExchangesEnter }
{}

/// Along a run the version of a node never falls, and where it is as before, so are the node's other words.
/// Exchanges that change with each word its node's version raise versions so.
pub fn versions_rise()
    ensures { VersionsRise }
{}

/// The list of a run is a world run: stamps rise strictly, and each exchange stands in the cells that the
/// earlier ones leave. It has each exchange of the run and no other, and leaves the run's cells.
pub fn runs_are_world_runs()
    ensures { RunsAreWorldRuns }
{}

/// Sound cells of a shape stay sound along a run whose exchanges fit.
pub fn runs_stay_sound<H: Shape>()
    ensures { RunsStaySound H.form }
{}
