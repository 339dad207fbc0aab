//! Lists of entries with right and wrong replies.
use crate::tables::all_hold;
use pc_model::{Call, Entry, Reply, Wrong, replay};
use std::alloc::{AllocError, Global};

/// Calls with their replies.
type List = &'static [(Call, Reply)];

// Each list with the first wrong place and the reply that is right there, or none.
const LISTS: &[(List, Option<Wrong>)] = &[
    (&[], None),
    // A first put is new.
    (
        &[(Call::Put { key: 5, value: 1 }, Reply::Was(3))],
        Some(Wrong {
            place: 0,
            expected: Reply::New,
        }),
    ),
    // A get finds what was put.
    (
        &[
            (Call::Put { key: 5, value: 50 }, Reply::New),
            (Call::Get { key: 5 }, Reply::Value(50)),
        ],
        None,
    ),
    // Each call leaves the map's next pairs.
    (
        &[
            (Call::Put { key: 5, value: 50 }, Reply::New),
            (Call::Put { key: 9, value: 90 }, Reply::New),
            (Call::Put { key: 5, value: 51 }, Reply::Was(50)),
            (Call::Floor { key: 8 }, Reply::Pair(5, 51)),
            (Call::Remove { key: 5 }, Reply::Value(51)),
            (Call::Remove { key: 5 }, Reply::None),
            (Call::Floor { key: 8 }, Reply::None),
            (Call::Ceil { key: 0 }, Reply::Pair(9, 90)),
            (Call::Get { key: 5 }, Reply::None),
            (Call::Put { key: 5, value: 52 }, Reply::New),
            (Call::Get { key: 5 }, Reply::Value(52)),
        ],
        None,
    ),
    // Of two wrong places the first is found.
    (
        &[
            (Call::Put { key: 5, value: 50 }, Reply::New),
            (Call::Get { key: 5 }, Reply::Value(51)),
            (Call::Remove { key: 5 }, Reply::Value(51)),
            (Call::Get { key: 5 }, Reply::None),
        ],
        Some(Wrong {
            place: 1,
            expected: Reply::Value(50),
        }),
    ),
];

// Calls on the map with 50 at 5 and 90 at 9, each with its right reply and a wrong one.
const CALLS: &[(Call, Reply, Reply)] = &[
    (Call::Put { key: 5, value: 51 }, Reply::Was(50), Reply::New),
    (
        Call::Put { key: 9, value: 90 },
        Reply::Was(90),
        Reply::Was(50),
    ),
    (Call::Put { key: 7, value: 70 }, Reply::New, Reply::Was(70)),
    (Call::Get { key: 5 }, Reply::Value(50), Reply::None),
    (Call::Get { key: 9 }, Reply::Value(90), Reply::Was(90)),
    (Call::Get { key: 7 }, Reply::None, Reply::New),
    (Call::Remove { key: 5 }, Reply::Value(50), Reply::None),
    (Call::Remove { key: 7 }, Reply::None, Reply::Value(50)),
    (
        Call::Ceil { key: 5 },
        Reply::Pair(5, 50),
        Reply::Pair(9, 90),
    ),
    (
        Call::Ceil { key: 6 },
        Reply::Pair(9, 90),
        Reply::Pair(5, 50),
    ),
    (Call::Ceil { key: 10 }, Reply::None, Reply::Pair(9, 90)),
    (
        Call::Floor { key: 9 },
        Reply::Pair(9, 90),
        Reply::Pair(5, 50),
    ),
    (
        Call::Floor { key: 8 },
        Reply::Pair(5, 50),
        Reply::Pair(5, 90),
    ),
    (Call::Floor { key: 4 }, Reply::None, Reply::Pair(5, 50)),
];

// An entry of a list whose calls are told apart by nothing else.
fn entry(row: (Call, Reply)) -> Entry {
    Entry {
        pass: 1,
        number: 1,
        call: row.0,
        reply: row.1,
        stamp: 0,
    }
}

fn entries_of(alloc: Global, list: &[(Call, Reply)]) -> Result<Vec<Entry>, AllocError> {
    let mut entries = Vec::new(alloc);
    for row in list {
        entries.push(entry(*row))?;
    }
    Ok(entries)
}

fn finds(alloc: Global, list: &[(Call, Reply)], wrong: Option<Wrong>) -> bool {
    match entries_of(alloc, list) {
        Ok(entries) => replay(alloc, &entries) == Ok(wrong),
        Err(_) => false,
    }
}

// Whether a call is found right with the one reply and wrong with the other, between other calls.
fn is_told_apart(alloc: Global, row: (Call, Reply, Reply)) -> bool {
    let (call, right, wrong) = row;
    let found = Wrong {
        place: 2,
        expected: right,
    };
    finds(alloc, &between(call, right), None) && finds(alloc, &between(call, wrong), Some(found))
}

fn between(call: Call, reply: Reply) -> [(Call, Reply); 4] {
    [
        (Call::Put { key: 9, value: 90 }, Reply::New),
        (Call::Put { key: 5, value: 50 }, Reply::New),
        (call, reply),
        (Call::Get { key: 2 }, Reply::None),
    ]
}

// The first list in which another place is found wrong.
fn first_wrong_list(alloc: Global) -> Option<usize> {
    for (i, (list, wrong)) in LISTS.iter().enumerate() {
        if !finds(alloc, list, *wrong) {
            return Some(i);
        }
    }
    None
}

fn first_wrong_call(alloc: Global) -> Option<usize> {
    for (i, row) in CALLS.iter().enumerate() {
        if !is_told_apart(alloc, *row) {
            return Some(i);
        }
    }
    None
}

#[test]
fn the_first_wrong_reply_is_found(rt: HostRuntime) {
    let alloc = rt.alloc();
    all_hold(&rt, &[first_wrong_list(alloc), first_wrong_call(alloc)]);
}
