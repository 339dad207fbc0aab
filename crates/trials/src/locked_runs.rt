//! Calls of several passes on a map with its history, for trees of either kind.
ghost use Rattle.pc_text.specs.ScriptFacts.{IsCallInRange};

use crate::tables::all_hold;
use pc_locked::{LockedState, TreeKind, apply, open_state};
use pc_model::{Call, Entry, Reply};
use pc_plain::NoPlainSlot;
use std::alloc::Global;

/// What is called, with small keys and values.
#[derive(Clone, Copy)]
pub enum Called {
    Put(u32, u32),
    Get(u32),
    Remove(u32),
    Ceil(u32),
    Floor(u32),
}

type Answer = Result<Reply, NoPlainSlot>;

/// Whose call it is, what is called, and what is to be answered.
type Row = (u32, Called, Answer);

pub fn call_of(called: Called) -> Call
    ensures { IsCallInRange result }
{
    match called {
        Called::Put(key, value) => Call::Put {
            key: u64::from(key),
            value: u64::from(value),
        },
        Called::Get(key) => Call::Get {
            key: u64::from(key),
        },
        Called::Remove(key) => Call::Remove {
            key: u64::from(key),
        },
        Called::Ceil(key) => Call::Ceil {
            key: u64::from(key),
        },
        Called::Floor(key) => Call::Floor {
            key: u64::from(key),
        },
    }
}

/// Makes a call for a pass, where there is room for its entry.
fn answer(state: &mut LockedState, pass: u32, called: Called) -> Option<Answer> {
    if pass == 0 || pass > 32 || state.room() == 0 {
        return None;
    }
    Some(apply(state, pass, call_of(called)))
}

/// The slots, the room for entries, the calls with their answers, and the pass, the number and the stamp of each
/// entry. No room is left.
type Run = (u16, u32, &'static [Row], &'static [(u32, u32, u64)]);

fn are_answered(state: &mut LockedState, rows: &[Row]) -> bool {
    for (pass, called, wanted) in rows {
        if answer(state, *pass, *called) != Some(*wanted) {
            return false;
        }
    }
    state.room() == 0
}

fn are_entered(history: &[Entry], wanted: &[(u32, u32, u64)]) -> bool {
    if history.len() != wanted.len() {
        return false;
    }
    for (i, entry) in history.iter().enumerate() {
        if (entry.pass, entry.number, entry.stamp) != wanted[i] {
            return false;
        }
    }
    true
}

fn runs_so(alloc: Global, kind: TreeKind, run: Run) -> bool {
    let (slots, calls, rows, entries) = run;
    match open_state(alloc, kind, u32::from(slots.min(61_000)), calls) {
        Ok(mut state) => { are_answered(&mut state, rows) && are_entered(state.history(), entries) }
        Err(_) => false,
    }
}

const NEW: Answer = Ok(Reply::New);

const NONE: Answer = Ok(Reply::None);

const RUNS: &[Run] = &[
    // A missing key is neither found nor removed.
    (
        2,
        2,
        &[(1, Called::Get(5), NONE), (1, Called::Remove(5), NONE)],
        &[(1, 1, 1), (1, 2, 2)],
    ),
    // A refused put is not entered.
    (
        1,
        2,
        &[
            (1, Called::Put(1, 1), NEW),
            (1, Called::Put(2, 2), Err(NoPlainSlot { live: 1 })),
            (1, Called::Get(1), Ok(Reply::Value(1))),
        ],
        &[(1, 1, 1), (1, 2, 2)],
    ),
    // Each pass counts its own calls.
    (
        2,
        6,
        &[
            (1, Called::Put(5, 50), NEW),
            (2, Called::Put(7, 70), NEW),
            (1, Called::Ceil(6), Ok(Reply::Pair(7, 70))),
            (32, Called::Floor(6), Ok(Reply::Pair(5, 50))),
            (2, Called::Put(5, 51), Ok(Reply::Was(50))),
            (2, Called::Remove(7), Ok(Reply::Value(70))),
        ],
        &[
            (1, 1, 1),
            (2, 1, 2),
            (1, 2, 3),
            (32, 1, 4),
            (2, 2, 5),
            (2, 3, 6),
        ],
    ),
];

fn first_other_run(alloc: Global, kind: TreeKind) -> Option<usize> {
    for (i, run) in RUNS.iter().enumerate() {
        if !runs_so(alloc, kind, *run) {
            return Some(i);
        }
    }
    None
}

#[test]
fn calls_are_answered_and_entered_as_the_table_says(rt: HostRuntime) {
    let alloc = rt.alloc();
    let plain = first_other_run(alloc, TreeKind::Bst);
    let balanced = first_other_run(alloc, TreeKind::Avl);
    all_hold(&rt, &[plain, balanced]);
}
