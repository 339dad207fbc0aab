//! Calls run one after another on plain cells, with their replies, and the pairs and the shape that are left.
ghost use Rattle.std.specs.Prelude.{◌≤◌, IfOk};
ghost use Rattle.pc_model.specs.Trees.{plain};
ghost use Rattle.pc_model.specs.TreeForms.{tree_form};
ghost use Rattle.pc_plain.specs.PlainRuns.{HoldsPairs};

use crate::shapes::{Line, Pair, has_lines, has_pairs};
use crate::tables::all_hold;
use pc_bst::{BstGet, BstPut, BstRemove};
use pc_model::{Memory, Reply};
use pc_plain::{NoPlainSlot, PlainCells, run_plan};
use std::alloc::Global;

/// What is called, with small keys and values.
#[derive(Clone, Copy)]
enum Called {
    Put(u32, u32),
    Get(u32),
    Remove(u32),
}

type Answer = Result<Reply, NoPlainSlot>;

fn opened(alloc: Global, slots: u32) -> Result<PlainCells, Memory>
    requires { slots ≤ 61000 }
    ensures { IfOk result (HoldsPairs (tree_form plain)) }
{
    PlainCells::new(alloc, slots)
}

/// Runs the plan of a call. The cells stay a search tree by what a run promises.
fn answer(cells: &mut PlainCells, called: Called) -> Answer
    requires { HoldsPairs (tree_form plain) cells.old }
    ensures { HoldsPairs (tree_form plain) cells.new }
{
    let answer = match called {
        Called::Put(key, value) => { run_plan::<BstPut>(cells, (u64::from(key), u64::from(value))) }
        Called::Get(key) => run_plan::<BstGet>(cells, u64::from(key)),
        Called::Remove(key) => run_plan::<BstRemove>(cells, u64::from(key)),
    };
    match answer {
        Ok(reply) => Ok(reply),
        Err(full) => Err(full),
    }
}

/// Whether the calls are answered so.
fn are_answered(cells: &mut PlainCells, calls: &[(Called, Answer)]) -> bool
    requires { HoldsPairs (tree_form plain) cells.old }
    ensures { HoldsPairs (tree_form plain) cells.new }
{
    for (called, wanted) in calls {
        if answer(cells, *called) != *wanted {
            return false;
        }
    }
    true
}

/// The slots, the calls with their answers, and the pairs and the shape that are left.
type Run = (
    u16,
    &'static [(Called, Answer)],
    &'static [Pair],
    &'static [Line],
);

fn runs_so(alloc: Global, run: Run) -> bool {
    let (slots, calls, left, lines) = run;
    match opened(alloc, u32::from(slots.min(61_000))) {
        Ok(mut cells) => {
            are_answered(&mut cells, calls)
                && has_pairs(alloc, &cells, left)
                && has_lines(alloc, &cells, lines)
        }
        Err(_) => false,
    }
}

const FULL: Answer = Err(NoPlainSlot { live: 2 });

const NEW: Answer = Ok(Reply::New);

const RUNS: &[Run] = &[
    (0, &[], &[], &[]),
    (4, &[], &[], &[]),
    (
        2,
        &[
            (Called::Get(5), Ok(Reply::None)),
            (Called::Remove(5), Ok(Reply::None)),
        ],
        &[],
        &[],
    ),
    (
        6,
        &[
            (Called::Put(4, 4), NEW),
            (Called::Remove(4), Ok(Reply::Value(4))),
        ],
        &[],
        &[],
    ),
    (
        4,
        &[
            (Called::Put(5, 1), NEW),
            (Called::Put(5, 2), Ok(Reply::Was(1))),
            (Called::Get(5), Ok(Reply::Value(2))),
            (Called::Get(6), Ok(Reply::None)),
            (Called::Put(3, 30), NEW),
            (Called::Put(9, 90), NEW),
        ],
        &[(3, 30), (5, 2), (9, 90)],
        &[(1, 5, 2, 0), (2, 3, 1, 0), (2, 9, 1, 0)],
    ),
];

// A node with two children goes: its successor is its right child, or lies deeper.
const LIFTS: &[Run] = &[
    (
        3,
        &[
            (Called::Put(2, 20), NEW),
            (Called::Put(1, 10), NEW),
            (Called::Put(3, 30), NEW),
            (Called::Remove(2), Ok(Reply::Value(20))),
        ],
        &[(1, 10), (3, 30)],
        &[(1, 3, 2, 1), (2, 1, 1, 0)],
    ),
    (
        6,
        &[
            (Called::Put(10, 10), NEW),
            (Called::Put(5, 5), NEW),
            (Called::Put(20, 20), NEW),
            (Called::Put(15, 15), NEW),
            (Called::Put(25, 25), NEW),
            (Called::Put(17, 17), NEW),
            (Called::Remove(10), Ok(Reply::Value(10))),
        ],
        &[(5, 5), (15, 15), (17, 17), (20, 20), (25, 25)],
        &[
            (1, 15, 3, -1),
            (2, 5, 1, 0),
            (2, 20, 2, 0),
            (3, 17, 1, 0),
            (3, 25, 1, 0),
        ],
    ),
];

// Full cells refuse a new key and stay; a slot that became free is used.
const FULL_CELLS: &[Run] = &[
    (
        2,
        &[
            (Called::Put(1, 1), NEW),
            (Called::Put(2, 2), NEW),
            (Called::Put(3, 3), FULL),
            (Called::Put(2, 5), Ok(Reply::Was(2))),
        ],
        &[(1, 1), (2, 5)],
        &[(1, 1, 2, -1), (2, 2, 1, 0)],
    ),
    (
        2,
        &[
            (Called::Put(1, 1), NEW),
            (Called::Put(2, 2), NEW),
            (Called::Put(3, 3), FULL),
            (Called::Remove(1), Ok(Reply::Value(1))),
            (Called::Put(3, 3), NEW),
        ],
        &[(2, 2), (3, 3)],
        &[(1, 2, 2, -1), (2, 3, 1, 0)],
    ),
];

// The first run that is answered otherwise, or leaves other pairs or another shape.
fn first_other_run(alloc: Global, runs: &[Run]) -> Option<usize> {
    for (i, run) in runs.iter().enumerate() {
        if !runs_so(alloc, *run) {
            return Some(i);
        }
    }
    None
}

fn is_refusal_shown(alloc: Global) -> bool {
    match format!(in alloc; "{}", NoPlainSlot { live: 3 }) {
        Ok(shown) => shown.as_str() == "no slot is free",
        Err(_) => false,
    }
}

#[test]
fn runs_answer_as_the_sorted_map_and_leave_its_pairs_and_shapes(rt: HostRuntime) {
    let alloc = rt.alloc();
    let wrong = [
        first_other_run(alloc, RUNS),
        first_other_run(alloc, LIFTS),
        first_other_run(alloc, FULL_CELLS),
    ];
    assert!(rt; is_refusal_shown(alloc));
    all_hold(&rt, &wrong);
}
