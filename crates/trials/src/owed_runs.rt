//! Calls run one after another on a balanced tree, with the keys that they charge.
ghost use Rattle.std.specs.Prelude.{◌≤◌, IfOk};
ghost use Rattle.pc_model.specs.Trees.{balanced};
ghost use Rattle.pc_model.specs.TreeForms.{tree_form};
ghost use Rattle.pc_plain.specs.PlainRuns.{HoldsPairs};

use pc_avl::{AvlPut, AvlRemove};
use pc_model::{Memory, Owed, Reply};
use pc_plain::{NoPlainSlot, PlainCells, run_owed};
use std::alloc::Global;

/// What is called, with small keys and values.
#[derive(Clone, Copy)]
enum Called {
    Put(u32, u32),
    Remove(u32),
}

type Answer = Result<Reply, NoPlainSlot>;

fn opened(alloc: Global, slots: u32) -> Result<PlainCells, Memory>
    requires { slots ≤ 61000 }
    ensures { IfOk result (HoldsPairs (tree_form balanced)) }
{
    PlainCells::new(alloc, slots)
}

/// Runs the plan of a call, with what it settles and charges.
fn answer(cells: &mut PlainCells, called: Called, owed: &mut Owed) -> Answer
    requires { HoldsPairs (tree_form balanced) cells.old }
    ensures { HoldsPairs (tree_form balanced) cells.new }
{
    let answer = match called {
        Called::Put(key, value) => {
            run_owed::<AvlPut>(cells, (u64::from(key), u64::from(value)), owed)
        }
        Called::Remove(key) => run_owed::<AvlRemove>(cells, u64::from(key), owed),
    };
    match answer {
        Ok(reply) => Ok(reply),
        Err(full) => Err(full),
    }
}

/// Whether the calls are answered so.
fn are_answered(cells: &mut PlainCells, calls: &[(Called, Answer)], owed: &mut Owed) -> bool
    requires { HoldsPairs (tree_form balanced) cells.old }
{
    for (called, wanted) in calls {
        if answer(cells, *called, owed) != *wanted {
            return false;
        }
    }
    true
}

/// The slots, the calls with their answers, and the keys that are owed then.
type Run = (u16, &'static [(Called, Answer)], &'static [u64]);

fn owes_so(alloc: Global, run: Run) -> bool {
    let (slots, calls, keys) = run;
    let mut owed = Owed::none();
    match opened(alloc, u32::from(slots.min(61_000))) {
        Ok(mut cells) => {
            are_answered(&mut cells, calls, &mut owed)
                && owed.keys() == keys
                && owed.from_key().is_none()
        }
        Err(_) => false,
    }
}

fn first_owing_otherwise(alloc: Global) -> Option<usize> {
    for (i, run) in RUNS.iter().enumerate() {
        if !owes_so(alloc, *run) {
            return Some(i);
        }
    }
    None
}

const NEW: Answer = Ok(Reply::New);

// A root, leaves and a new value, a leaf that lies deeper and one key too many, and the node above a successor.
const RUNS: &[Run] = &[
    (3, &[(Called::Put(5, 5), NEW)], &[]),
    (
        3,
        &[
            (Called::Put(5, 5), NEW),
            (Called::Put(3, 3), NEW),
            (Called::Put(8, 8), NEW),
            (Called::Put(5, 6), Ok(Reply::Was(5))),
        ],
        &[5],
    ),
    (
        3,
        &[
            (Called::Put(5, 5), NEW),
            (Called::Put(3, 3), NEW),
            (Called::Put(2, 2), NEW),
            (Called::Put(1, 1), Err(NoPlainSlot { live: 3 })),
        ],
        &[3, 5],
    ),
    (
        4,
        &[
            (Called::Put(5, 5), NEW),
            (Called::Put(3, 3), NEW),
            (Called::Put(8, 8), NEW),
            (Called::Put(7, 7), NEW),
            (Called::Remove(5), Ok(Reply::Value(5))),
        ],
        &[7, 8, 5],
    ),
];

#[test]
fn a_call_charges_whose_height_it_may_spoil(rt: HostRuntime) {
    assert_eq!(rt; first_owing_otherwise(rt.alloc()), None);
}
