//! Calls on a balanced tree that is paid for, and the pairs and the shape that are left.
ghost use Rattle.pc_text.specs.ScriptFacts.{IsCallInRange};

use crate::shapes::{Line, has_keys, has_shape};
use crate::tables::all_hold;
use pc_locked::{LockedState, TreeKind, apply, open_state, pay};
use pc_model::Call;
use pc_plain::{pairs, shape};
use pc_text::ShapeLine;
use std::alloc::Global;

/// What is called. A key is put with itself as its value.
#[derive(Clone, Copy)]
enum Called {
    Put(u32),
    Remove(u32),
}

/// Calls that are paid one by one, calls that are paid together after them, the keys that are left, and the shape,
/// each node before those below it.
type Run = (
    &'static [Called],
    &'static [Called],
    &'static [u64],
    &'static [Line],
);

/// More repairs than any of these trees asks for.
const ENOUGH: u32 = 20_000;

fn call_of(called: Called) -> Call
    ensures { IsCallInRange result }
{
    match called {
        Called::Put(key) => Call::Put {
            key: u64::from(key),
            value: u64::from(key),
        },
        Called::Remove(key) => Call::Remove {
            key: u64::from(key),
        },
    }
}

/// Makes a call, and answers whether it was granted.
fn is_granted(state: &mut LockedState, called: Called) -> bool {
    state.room() > 0 && apply(state, 1, call_of(called)).is_ok()
}

/// Pays until nothing is owed, and answers whether that came to be.
fn is_paid(state: &mut LockedState) -> bool {
    for _ in 0..ENOUGH {
        if !pay(state) {
            return true;
        }
    }
    false
}

fn are_paid_one_by_one(state: &mut LockedState, calls: &[Called]) -> bool {
    for called in calls {
        if !is_granted(state, *called) || !is_paid(state) {
            return false;
        }
    }
    true
}

fn are_paid_together(state: &mut LockedState, calls: &[Called]) -> bool {
    for called in calls {
        if !is_granted(state, *called) {
            return false;
        }
    }
    is_paid(state)
}

fn runs_so(alloc: Global, run: Run) -> bool {
    let (first, then, keys, lines) = run;
    match open_state(alloc, TreeKind::Avl, 8, 16) {
        Ok(mut state) => {
            are_paid_one_by_one(&mut state, first)
                && are_paid_together(&mut state, then)
                && has_keys(alloc, &state, keys)
                && has_shape(alloc, &state, lines)
        }
        Err(_) => false,
    }
}

fn first_other_run(alloc: Global, runs: &[Run]) -> Option<usize> {
    for (i, run) in runs.iter().enumerate() {
        if !runs_so(alloc, *run) {
            return Some(i);
        }
    }
    None
}

/// Seven keys, each node with two sides of one height.
const WHOLE: &[Line] = &[
    (1, 4, 3, 0),
    (2, 2, 2, 0),
    (3, 1, 1, 0),
    (3, 3, 1, 0),
    (2, 6, 2, 0),
    (3, 5, 1, 0),
    (3, 7, 1, 0),
];

const RISING: &[Called] = &[
    Called::Put(1),
    Called::Put(2),
    Called::Put(3),
    Called::Put(4),
    Called::Put(5),
    Called::Put(6),
    Called::Put(7),
];

const FALLING: &[Called] = &[
    Called::Put(7),
    Called::Put(6),
    Called::Put(5),
    Called::Put(4),
    Called::Put(3),
    Called::Put(2),
    Called::Put(1),
];

// Puts in order rotate once, and those that turn back twice.
const PUTS: &[Run] = &[
    (RISING, &[], &[1, 2, 3, 4, 5, 6, 7], WHOLE),
    (FALLING, &[], &[1, 2, 3, 4, 5, 6, 7], WHOLE),
    (
        &[Called::Put(3), Called::Put(1), Called::Put(2)],
        &[],
        &[1, 2, 3],
        &[(1, 2, 2, 0), (2, 1, 1, 0), (2, 3, 1, 0)],
    ),
    (
        &[Called::Put(1), Called::Put(3), Called::Put(2)],
        &[],
        &[1, 2, 3],
        &[(1, 2, 2, 0), (2, 1, 1, 0), (2, 3, 1, 0)],
    ),
];

// Removes of nodes with two children and with none: a single rotation, and then a double one.
const REMOVES: &[Run] = &[
    (
        RISING,
        &[Called::Remove(4)],
        &[1, 2, 3, 5, 6, 7],
        &[
            (1, 5, 3, 0),
            (2, 2, 2, 0),
            (3, 1, 1, 0),
            (3, 3, 1, 0),
            (2, 6, 2, -1),
            (3, 7, 1, 0),
        ],
    ),
    (
        RISING,
        &[Called::Remove(1), Called::Remove(3), Called::Remove(2)],
        &[4, 5, 6, 7],
        &[(1, 6, 3, 1), (2, 4, 2, -1), (3, 5, 1, 0), (2, 7, 1, 0)],
    ),
    (
        &[
            Called::Put(1),
            Called::Put(2),
            Called::Put(3),
            Called::Put(4),
            Called::Put(5),
            Called::Put(6),
            Called::Put(7),
            Called::Remove(4),
            Called::Remove(5),
            Called::Remove(6),
        ],
        &[],
        &[1, 2, 3, 7],
        &[(1, 2, 3, -1), (2, 1, 1, 0), (2, 7, 2, 1), (3, 3, 1, 0)],
    ),
    (
        &[
            Called::Put(1),
            Called::Put(2),
            Called::Put(3),
            Called::Put(4),
            Called::Put(5),
            Called::Put(6),
            Called::Put(7),
            Called::Remove(4),
            Called::Remove(5),
            Called::Remove(6),
            Called::Remove(1),
        ],
        &[],
        &[2, 3, 7],
        &[(1, 3, 2, 0), (2, 2, 1, 0), (2, 7, 1, 0)],
    ),
];

// What is owed last is paid first, so that a node above comes before one below that is out of balance: node 4 before
// its child 2, and node 6 before its child's inner child 4, which is too low then for a double rotation; and the
// mirrors of both.
const BELOW_FIRST: &[Run] = &[
    (
        &[
            Called::Put(4),
            Called::Put(2),
            Called::Put(5),
            Called::Put(1),
            Called::Put(3),
        ],
        &[Called::Remove(1), Called::Remove(3), Called::Remove(5)],
        &[2, 4],
        &[(1, 4, 2, 1), (2, 2, 1, 0)],
    ),
    (
        &[
            Called::Put(2),
            Called::Put(4),
            Called::Put(1),
            Called::Put(5),
            Called::Put(3),
        ],
        &[Called::Remove(5), Called::Remove(3), Called::Remove(1)],
        &[2, 4],
        &[(1, 2, 2, -1), (2, 4, 1, 0)],
    ),
    (
        &[
            Called::Put(6),
            Called::Put(2),
            Called::Put(7),
            Called::Put(1),
            Called::Put(4),
            Called::Put(8),
            Called::Put(3),
            Called::Put(5),
        ],
        &[
            Called::Remove(3),
            Called::Remove(5),
            Called::Remove(8),
            Called::Remove(7),
        ],
        &[1, 2, 4, 6],
        &[(1, 2, 3, -1), (2, 1, 1, 0), (2, 6, 2, 1), (3, 4, 1, 0)],
    ),
    (
        &[
            Called::Put(3),
            Called::Put(7),
            Called::Put(2),
            Called::Put(8),
            Called::Put(5),
            Called::Put(1),
            Called::Put(6),
            Called::Put(4),
        ],
        &[
            Called::Remove(6),
            Called::Remove(4),
            Called::Remove(1),
            Called::Remove(2),
        ],
        &[3, 5, 7, 8],
        &[(1, 7, 3, 1), (2, 3, 2, -1), (3, 5, 1, 0), (2, 8, 1, 0)],
    ),
];

/// Puts a hundred keys, in rising or in falling order, and pays for them then. More keys are charged than are told
/// one by one.
fn are_paid_at_last(state: &mut LockedState, rising: bool) -> bool {
    for place in 1..=100u32 {
        let key = if rising { place } else { 101 - place };
        if !is_granted(state, Called::Put(key)) {
            return false;
        }
    }
    is_paid(state)
}

fn are_hundred_keys(listed: &[(u64, u64)]) -> bool {
    for (i, pair) in listed.iter().enumerate() {
        let key = (i as u64).wrapping_add(1);
        if *pair != (key, key) {
            return false;
        }
    }
    listed.len() == 100
}

fn has_hundred_keys(alloc: Global, state: &LockedState) -> bool {
    match pairs(alloc, state.cells()) {
        Ok(listed) => are_hundred_keys(&listed),
        Err(_) => false,
    }
}

fn are_balanced(lines: &[ShapeLine]) -> bool {
    for line in lines {
        if line.balance < -1 || line.balance > 1 || line.height > 9 {
            return false;
        }
    }
    true
}

fn is_balanced(alloc: Global, state: &LockedState) -> bool {
    match shape(alloc, state.cells()) {
        Ok(lines) => are_balanced(&lines),
        Err(_) => false,
    }
}

/// Whether a tree of a hundred keys comes into balance once all is paid.
fn comes_into_balance(alloc: Global, rising: bool) -> bool {
    match open_state(alloc, TreeKind::Avl, 100, 100) {
        Ok(mut state) => {
            are_paid_at_last(&mut state, rising)
                && has_hundred_keys(alloc, &state)
                && is_balanced(alloc, &state)
        }
        Err(_) => false,
    }
}

#[test]
fn what_is_paid_for_comes_into_balance(rt: HostRuntime) {
    let alloc = rt.alloc();
    let wrong = [
        first_other_run(alloc, PUTS),
        first_other_run(alloc, REMOVES),
        first_other_run(alloc, BELOW_FIRST),
    ];
    all_hold(&rt, &wrong);
    assert!(rt; comes_into_balance(alloc, true) && comes_into_balance(alloc, false));
}
