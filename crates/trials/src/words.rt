//! Calls, replies, entries, fields and counters are told apart, and the laws can be called.
use pc_model::{
    Call, Counter, Entry, Field, Memory, Owing, Reply, Settle, a_search_tree_is_read_by_turns,
    a_tree_without_debts_is_balanced, ceil_and_floor_are_nearest, first_owed_is_owed,
    history_of_one_client_is_its_calls, no_debt_is_forgotten, no_debt_is_invented,
    replay_goes_in_parts, sorted_map_is_finite_map,
};

/// Whether each is equal to itself and to no other.
fn are_told_apart<T: PartialEq>(all: &[T]) -> bool {
    for (i, one) in all.iter().enumerate() {
        if !is_the_only(all, i, one) {
            return false;
        }
    }
    true
}

fn is_the_only<T: PartialEq>(all: &[T], place: usize, one: &T) -> bool {
    for (i, other) in all.iter().enumerate() {
        if (one == other) != (i == place) {
            return false;
        }
    }
    true
}

const CALLS: &[Call] = &[
    Call::Put { key: 5, value: 50 },
    Call::Get { key: 5 },
    Call::Remove { key: 5 },
    Call::Ceil { key: 5 },
    Call::Floor { key: 5 },
];

const REPLIES: &[Reply] = &[
    Reply::New,
    Reply::Was(5),
    Reply::Value(5),
    Reply::None,
    Reply::Pair(5, 5),
];

const ENTRY: Entry = Entry {
    pass: 1,
    number: 2,
    call: Call::Put { key: 5, value: 50 },
    reply: Reply::New,
    stamp: 7,
};

const ENTRIES: &[Entry] = &[
    ENTRY,
    Entry { pass: 2, ..ENTRY },
    Entry { number: 3, ..ENTRY },
    Entry {
        call: Call::Put { key: 5, value: 51 },
        ..ENTRY
    },
    Entry {
        reply: Reply::Was(50),
        ..ENTRY
    },
    Entry { stamp: 8, ..ENTRY },
];

const FIELDS: &[Field] = &[
    Field::Version,
    Field::Key,
    Field::Value,
    Field::Left,
    Field::Right,
    Field::Parent,
    Field::Height,
    Field::Spare,
];

const COUNTERS: &[Counter] = &[
    Counter::Attempt,
    Counter::Install,
    Counter::Stamp,
    Counter::Version,
    Counter::Epoch,
];

const SETTLES: &[Settle] = &[
    Settle::Nothing,
    Settle::Release(5),
    Settle::First(5),
    Settle::Raise(Some(5)),
    Settle::Raise(None),
];

const OWINGS: &[Owing] = &[Owing::Key(5), Owing::From(5)];

#[test]
fn words_are_told_apart(rt: HostRuntime) {
    let told = are_told_apart(CALLS) && are_told_apart(REPLIES) && are_told_apart(ENTRIES);
    let of_cells = are_told_apart(FIELDS) && are_told_apart(COUNTERS);
    let of_debts = are_told_apart(SETTLES) && are_told_apart(OWINGS) && Memory == Memory;
    assert!(rt; told && of_cells && of_debts);
    call_laws();
}

// The laws can be called.
fn call_laws() {
    sorted_map_is_finite_map();
    ceil_and_floor_are_nearest();
    replay_goes_in_parts();
    history_of_one_client_is_its_calls();
    no_debt_is_forgotten();
    no_debt_is_invented();
    first_owed_is_owed();
    a_search_tree_is_read_by_turns();
    a_tree_without_debts_is_balanced();
}
