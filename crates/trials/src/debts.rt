//! What a client owes, with short lists and with full ones.
use crate::tables::all_hold;
use pc_model::{Owed, Owing, Settle};

/// What is owed: keys in front, then so many that rise from a first one by ones, and a number.
type State = (&'static [u64], u64, usize, Option<u64>);

/// What is done to what is owed.
#[derive(Clone, Copy)]
enum Deed {
    Charge(u64),
    PutFirst(u64),
    Release(u64),
    Raise(Option<u64>),
    Settle(Settle),
}

const ON_SHORT_LISTS: &[(State, Deed, State)] = &[
    ((&[], 0, 0, None), Deed::Charge(5), (&[5], 0, 0, None)),
    (
        (&[5], 0, 0, Some(0)),
        Deed::Charge(7),
        (&[7, 5], 0, 0, Some(0)),
    ),
    (
        (&[7, 5], 0, 0, Some(8)),
        Deed::Charge(5),
        (&[7, 5], 0, 0, Some(8)),
    ),
    (
        (&[7, 5], 0, 0, None),
        Deed::Charge(7),
        (&[7, 5], 0, 0, None),
    ),
    (
        (&[7, 5, 9], 0, 0, Some(8)),
        Deed::Charge(5),
        (&[7, 5, 9], 0, 0, Some(8)),
    ),
    (
        (&[7, 5, 9], 0, 0, None),
        Deed::Charge(0),
        (&[0, 7, 5, 9], 0, 0, None),
    ),
    (
        (&[], 0, 0, Some(8)),
        Deed::PutFirst(5),
        (&[5], 0, 0, Some(8)),
    ),
    ((&[5], 0, 0, None), Deed::PutFirst(5), (&[5], 0, 0, None)),
    (
        (&[7, 5], 0, 0, Some(0)),
        Deed::PutFirst(5),
        (&[5, 7], 0, 0, Some(0)),
    ),
    (
        (&[7, 5], 0, 0, None),
        Deed::PutFirst(7),
        (&[7, 5], 0, 0, None),
    ),
    (
        (&[7, 5], 0, 0, Some(8)),
        Deed::PutFirst(9),
        (&[9, 7, 5], 0, 0, Some(8)),
    ),
    (
        (&[1, 2, 3, 4], 0, 0, None),
        Deed::PutFirst(2),
        (&[2, 1, 3, 4], 0, 0, None),
    ),
    (
        (&[1, 2, 3, 4], 0, 0, None),
        Deed::PutFirst(4),
        (&[4, 1, 2, 3], 0, 0, None),
    ),
    ((&[], 0, 0, Some(0)), Deed::Release(5), (&[], 0, 0, Some(0))),
    ((&[5], 0, 0, None), Deed::Release(5), (&[], 0, 0, None)),
    (
        (&[5], 0, 0, Some(8)),
        Deed::Release(7),
        (&[5], 0, 0, Some(8)),
    ),
    (
        (&[7, 5, 9], 0, 0, None),
        Deed::Release(7),
        (&[5, 9], 0, 0, None),
    ),
    (
        (&[7, 5, 9], 0, 0, Some(8)),
        Deed::Release(5),
        (&[7, 9], 0, 0, Some(8)),
    ),
    (
        (&[7, 5, 9], 0, 0, None),
        Deed::Release(9),
        (&[7, 5], 0, 0, None),
    ),
    (
        (&[7, 5, 9], 0, 0, Some(8)),
        Deed::Release(0),
        (&[7, 5, 9], 0, 0, Some(8)),
    ),
    (
        (&[7, 5], 0, 0, None),
        Deed::Raise(Some(9)),
        (&[7, 5], 0, 0, Some(9)),
    ),
    (
        (&[7, 5], 0, 0, Some(9)),
        Deed::Raise(Some(0)),
        (&[7, 5], 0, 0, Some(0)),
    ),
    (
        (&[7, 5], 0, 0, Some(0)),
        Deed::Raise(None),
        (&[7, 5], 0, 0, None),
    ),
    (
        (&[7, 5], 0, 0, None),
        Deed::Raise(Some(u64::MAX)),
        (&[7, 5], 0, 0, Some(u64::MAX)),
    ),
];

const BY_SETTLEMENTS: &[(State, Deed, State)] = &[
    (
        (&[7, 5, 9], 0, 0, Some(8)),
        Deed::Settle(Settle::Nothing),
        (&[7, 5, 9], 0, 0, Some(8)),
    ),
    (
        (&[7, 5, 9], 0, 0, Some(8)),
        Deed::Settle(Settle::Release(5)),
        (&[7, 9], 0, 0, Some(8)),
    ),
    (
        (&[7, 5, 9], 0, 0, Some(8)),
        Deed::Settle(Settle::First(5)),
        (&[5, 7, 9], 0, 0, Some(8)),
    ),
    (
        (&[7, 5, 9], 0, 0, Some(8)),
        Deed::Settle(Settle::First(2)),
        (&[2, 7, 5, 9], 0, 0, Some(8)),
    ),
    (
        (&[7, 5, 9], 0, 0, Some(8)),
        Deed::Settle(Settle::Raise(Some(30))),
        (&[7, 5, 9], 0, 0, Some(30)),
    ),
    (
        (&[7, 5, 9], 0, 0, Some(8)),
        Deed::Settle(Settle::Raise(None)),
        (&[7, 5, 9], 0, 0, None),
    ),
];

// A full list has 64 keys: a charge lowers the number then, and a key that is put first drives the last one out.
const ON_FULL_LISTS: &[(State, Deed, State)] = &[
    (
        (&[], 100, 64, None),
        Deed::Charge(50),
        (&[], 100, 64, Some(50)),
    ),
    (
        (&[], 100, 64, Some(40)),
        Deed::Charge(50),
        (&[], 100, 64, Some(40)),
    ),
    (
        (&[], 100, 64, Some(50)),
        Deed::Charge(50),
        (&[], 100, 64, Some(50)),
    ),
    (
        (&[], 100, 64, Some(70)),
        Deed::Charge(50),
        (&[], 100, 64, Some(50)),
    ),
    (
        (&[], 100, 64, Some(70)),
        Deed::Charge(999),
        (&[], 100, 64, Some(70)),
    ),
    (
        (&[], 100, 64, None),
        Deed::Charge(163),
        (&[], 100, 64, None),
    ),
    (
        (&[], 100, 64, Some(200)),
        Deed::Charge(100),
        (&[], 100, 64, Some(200)),
    ),
    (
        (&[], 100, 63, None),
        Deed::Charge(50),
        (&[50], 100, 63, None),
    ),
    (
        (&[], 100, 63, None),
        Deed::PutFirst(50),
        (&[50], 100, 63, None),
    ),
    (
        (&[], 100, 64, None),
        Deed::PutFirst(50),
        (&[50], 100, 63, Some(163)),
    ),
    (
        (&[], 100, 64, Some(200)),
        Deed::PutFirst(50),
        (&[50], 100, 63, Some(163)),
    ),
    (
        (&[], 100, 64, Some(163)),
        Deed::PutFirst(50),
        (&[50], 100, 63, Some(163)),
    ),
    (
        (&[], 100, 64, Some(30)),
        Deed::PutFirst(50),
        (&[50], 100, 63, Some(30)),
    ),
    (
        (&[], 100, 64, None),
        Deed::PutFirst(163),
        (&[163], 100, 63, None),
    ),
    (
        (&[], 100, 64, Some(200)),
        Deed::PutFirst(163),
        (&[163], 100, 63, Some(200)),
    ),
    (
        (&[], 100, 64, Some(200)),
        Deed::PutFirst(100),
        (&[], 100, 64, Some(200)),
    ),
    (
        (&[], 100, 64, Some(70)),
        Deed::Release(99),
        (&[], 100, 64, Some(70)),
    ),
    (
        (&[], 100, 64, Some(70)),
        Deed::Release(163),
        (&[], 100, 63, Some(70)),
    ),
    (
        (&[], 100, 63, Some(70)),
        Deed::Release(100),
        (&[], 101, 62, Some(70)),
    ),
];

const FIRST: &[(State, Option<Owing>)] = &[
    ((&[], 0, 0, None), None),
    ((&[], 0, 0, Some(8)), Some(Owing::From(8))),
    ((&[], 0, 0, Some(0)), Some(Owing::From(0))),
    ((&[5], 0, 0, None), Some(Owing::Key(5))),
    ((&[7, 5], 0, 0, Some(3)), Some(Owing::Key(7))),
    ((&[5, 7], 0, 0, Some(9)), Some(Owing::Key(5))),
];

// What is owed in a state: each key is put first, from the last one on.
fn owing(state: State) -> Owed {
    let mut owed = rising(state.1, state.2);
    for key in state.0.iter().rev() {
        owed.put_first(*key);
    }
    owed.raise(state.3);
    owed
}

fn rising(first: u64, count: usize) -> Owed {
    let mut owed = Owed::none();
    for i in (0..count as u64).rev() {
        owed.put_first(first.wrapping_add(i));
    }
    owed
}

fn is_owed(owed: &Owed, state: State) -> bool {
    let Some(rest) = owed.keys().strip_prefix(state.0) else {
        return false;
    };
    owed.from_key() == state.3 && rest.len() == state.2 && are_rising(rest, state.1)
}

fn are_rising(keys: &[u64], first: u64) -> bool {
    let mut next = first;
    for key in keys {
        if *key != next {
            return false;
        }
        next = next.wrapping_add(1);
    }
    true
}

fn does(row: (State, Deed, State)) -> bool {
    let mut owed = owing(row.0);
    match row.1 {
        Deed::Charge(key) => owed.charge(key),
        Deed::PutFirst(key) => owed.put_first(key),
        Deed::Release(key) => owed.release(key),
        Deed::Raise(from) => owed.raise(from),
        Deed::Settle(settle) => owed.settle(settle),
    }
    is_owed(&owed, row.2)
}

// The first row of a table that is not so.
fn first_wrong_deed(rows: &[(State, Deed, State)]) -> Option<usize> {
    for (i, row) in rows.iter().enumerate() {
        if !does(*row) {
            return Some(i);
        }
    }
    None
}

fn first_wrong_front() -> Option<usize> {
    for (i, (state, first)) in FIRST.iter().enumerate() {
        if owing(*state).first() != *first {
            return Some(i);
        }
    }
    None
}

fn first_wrong_deeds() -> [Option<usize>; 4] {
    [
        first_wrong_deed(ON_SHORT_LISTS),
        first_wrong_deed(BY_SETTLEMENTS),
        first_wrong_deed(ON_FULL_LISTS),
        first_wrong_front(),
    ]
}

#[test]
fn each_deed_leaves_what_the_tables_say(rt: HostRuntime) {
    all_hold(&rt, &first_wrong_deeds());
}
