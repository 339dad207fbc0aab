//! The plans of the nearest keys as they are told a small tree by hand. Below the sentinel, node 1, hangs node 2
//! with key 10 and value 100, on its left node 3 with key 6 and value 60, and on the right of that node 4 with key
//! 8 and value 80.
use crate::tables::all_hold;
use crate::told::{Begun, Case, Row, entry_of, first_told_otherwise};
use pc_model::{Call, Field, Reply};
use pc_plan::{Told, Turn};

const TO_2: &[Row] = &[
    (Told::Begin, Turn::Visit(1)),
    (Told::Version(0), Turn::Read(1, Field::Left)),
    (Told::Number(2), Turn::Visit(2)),
    (Told::Version(4), Turn::Read(2, Field::Key)),
];

const TO_3: &[Row] = &[
    (Told::Number(3), Turn::Visit(3)),
    (Told::Version(0), Turn::Read(3, Field::Key)),
];

const TO_4: &[Row] = &[
    (Told::Number(4), Turn::Visit(4)),
    (Told::Version(2), Turn::Read(4, Field::Key)),
];

const NONE: Turn = Turn::Answer(Reply::None);

// Told of the key itself, a plan answers; told more, it answers none.
const KEY_ITSELF: &[Row] = &[
    (Told::Number(10), Turn::Read(2, Field::Value)),
    (Told::Number(100), Turn::Answer(Reply::Pair(10, 100))),
    (Told::Number(0), NONE),
];

const CASES: &[Case] = &[
    // The nearest above.
    (
        Begun::Ceil(7),
        &[
            TO_2,
            &[
                (Told::Number(10), Turn::Read(2, Field::Value)),
                (Told::Number(100), Turn::Read(2, Field::Left)),
            ],
            TO_3,
            &[(Told::Number(6), Turn::Read(3, Field::Right))],
            TO_4,
            &[
                (Told::Number(8), Turn::Read(4, Field::Value)),
                (Told::Number(80), Turn::Read(4, Field::Left)),
                (Told::Number(0), Turn::Answer(Reply::Pair(8, 80))),
            ],
        ],
        None,
    ),
    // The nearest below.
    (
        Begun::Floor(7),
        &[
            TO_2,
            &[(Told::Number(10), Turn::Read(2, Field::Left))],
            TO_3,
            &[
                (Told::Number(6), Turn::Read(3, Field::Value)),
                (Told::Number(60), Turn::Read(3, Field::Right)),
            ],
            TO_4,
            &[
                (Told::Number(8), Turn::Read(4, Field::Left)),
                (Told::Number(0), Turn::Answer(Reply::Pair(6, 60))),
            ],
        ],
        None,
    ),
    (Begun::Ceil(10), &[TO_2, KEY_ITSELF], None),
    (Begun::Floor(10), &[TO_2, KEY_ITSELF], None),
    // Nothing above.
    (
        Begun::Ceil(11),
        &[
            TO_2,
            &[
                (Told::Number(10), Turn::Read(2, Field::Right)),
                (Told::Number(0), NONE),
            ],
        ],
        None,
    ),
    // A link that leads back.
    (
        Begun::Floor(7),
        &[
            TO_2,
            &[
                (Told::Number(10), Turn::Read(2, Field::Left)),
                (Told::Number(2), NONE),
            ],
        ],
        None,
    ),
    // Not asked for.
    (
        Begun::Ceil(7),
        &[&[(Told::Version(0), NONE), (Told::Begin, NONE)]],
        None,
    ),
];

const ENTRIES: &[(Begun, Call)] = &[
    (Begun::BstGet(10), Call::Get { key: 10 }),
    (Begun::BstPut(5, 50), Call::Put { key: 5, value: 50 }),
    (Begun::BstRemove(5), Call::Remove { key: 5 }),
    (Begun::AvlGet(10), Call::Get { key: 10 }),
    (Begun::AvlPut(5, 50), Call::Put { key: 5, value: 50 }),
    (Begun::AvlRemove(5), Call::Remove { key: 5 }),
    (Begun::Ceil(10), Call::Ceil { key: 10 }),
    (Begun::Floor(10), Call::Floor { key: 10 }),
];

fn first_other_entry() -> Option<usize> {
    for (i, (begun, call)) in ENTRIES.iter().enumerate() {
        if entry_of(*begun) != Some(*call) {
            return Some(i);
        }
    }
    None
}

#[test]
fn plans_of_the_nearest_keys_ask_as_the_table_says(rt: HostRuntime) {
    // Entries are of the plans' own calls.
    all_hold(&rt, &[first_told_otherwise(CASES), first_other_entry()]);
}
