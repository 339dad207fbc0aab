//! Running a script: one client on a map of its own, several on one that they share.
ghost use Rattle.std.specs.Prelude.{◌≡◌, length, IfOk};
ghost use Rattle.std.specs.Int.{IsInRange};
ghost use Rattle.pc_model.specs.History.{IsHistoryOf};
ghost use Rattle.pc_text.specs.ScriptFacts.{AreFew, AreInRange};
ghost use Rattle.pc_plain.specs.PlainPairs.{SpellsTree};
ghost use Rattle.pc_plain.specs.PlainShapes.{IsShapeOf};
ghost use Rattle.pc_avl.specs.TreeKinds.{kind_of};
ghost use Rattle.pc_run.specs.Runs.{IsRunOf, IsSettled, IsShapeIfAsked, IsListedIfAsked, lines_of};

use crate::alone::run_alone;
use crate::together::run_together;
use crate::words::Options;
use pc_edge::Gate;
use pc_locked::LockedState;
use pc_model::Memory;
use pc_plain::{PlainCells, pairs, shape};
use pc_text::{MOST_CLIENTS, Script, ShapeLine};
use std::alloc::Global;
use std::sync::Wait;
use std::thread::Threads;

/// What a run leaves: the map with its history, its pairs by rising key, and the tree's shape, where it was
/// asked for; and whether no more than a summary of it is wanted.
#[derive(Drop)]
pub struct Run {
    pub map: LockedState,
    pub pairs: Vec<(u64, u64)>,
    pub shape: Option<Vec<ShapeLine>>,
    pub summary: bool,
}

/// Runs a script on a map of the kind that is asked for, a worker for each client.
pub fn run_script<R: Threads + Wait + Sync, G: Gate + Sync>(
    rt: &R,
    alloc: Global,
    options: Options,
    script: &Script,
    gate: &G,
) -> Result<Run, Memory>
    requires clients { IsInRange 1 MOST_CLIENTS (length script.now.calls) }
    requires few { AreFew script.now.calls }
    requires in_range { AreInRange script.now.calls }
    ensures run { IfOk result (λ run. IsRunOf script.now.calls run.map.entries run.pairs.items) }
    ensures shape { IfOk result
        (λ run. IsShapeIfAsked (kind_of options.tree) options.shape run.pairs.items (lines_of run.shape)) }
    ensures summary { IfOk result (λ run. run.summary ≡ options.summary) }
{
    let map = run_clients_of(rt, alloc, options, script, gate)?;
    let pairs = pairs(alloc, map.cells())?;
    let shape = shape_if_asked(alloc, options, map.cells())?;
    Ok(Run {
        map,
        pairs,
        shape,
        summary: options.summary,
    })
}

// Runs the clients of a script until each has ended, and leaves the map.
fn run_clients_of<R: Threads + Wait + Sync, G: Gate + Sync>(
    rt: &R,
    alloc: Global,
    options: Options,
    script: &Script,
    gate: &G,
) -> Result<LockedState, Memory>
    requires clients { IsInRange 1 MOST_CLIENTS (length script.now.calls) }
    requires few { AreFew script.now.calls }
    requires in_range { AreInRange script.now.calls }
    ensures of_one_client { IfOk result
        (λ map. length script.now.calls ≡ 1 → IsHistoryOf script.now.calls map.entries) }
    ensures kind { IfOk result (λ map. map.kind ≡ options.tree) }
    ensures settled { IfOk result IsSettled }
{
    if script.calls.len() == 1 {
        run_alone(rt, alloc, options.tree, &script.calls[0], gate)
    } else {
        run_together(rt, alloc, options.tree, &script.calls, gate)
    }
}

// The shape of the tree, where it is asked for.
fn shape_if_asked(
    alloc: Global,
    options: Options,
    cells: &PlainCells,
) -> Result<Option<Vec<ShapeLine>>, Memory>
    requires { SpellsTree cells.now }
    ensures { IfOk result (λ lines. IsListedIfAsked options.shape (IsShapeOf cells.now) (lines_of lines)) }
{
    if options.shape {
        let lines = shape(alloc, cells)?;
        Ok(Some(lines))
    } else {
        Ok(None)
    }
}
