//! The plans of the plain tree as they are told a small tree by hand. Below the sentinel, node 1 at version 6,
//! hangs node 2 at version 4 with key 10 and value 100.
use crate::tables::all_hold;
use crate::told::{Begun, Case, Exchange, Row, first_of_each};
use pc_bst::{
    BstGet, BstPut, plans_charge_nothing, plans_end_as_their_calls_do, plans_stand_for_their_calls,
};
use pc_model::{Field, Reply};
use pc_plan::{Ask, Fresh, Plan, To, Told, Turn, exchanges_fit, standing_is_agreeing};

const TO_2: &[Row] = &[
    (Told::Begin, Turn::Visit(1)),
    (Told::Version(6), Turn::Read(1, Field::Left)),
    (Told::Number(2), Turn::Visit(2)),
    (Told::Version(4), Turn::Read(2, Field::Key)),
];

// Node 2 has nodes 3 and 4 below it.
const TO_4: &[Row] = &[
    (Told::Number(10), Turn::Read(2, Field::Left)),
    (Told::Number(3), Turn::Read(2, Field::Right)),
    (Told::Number(4), Turn::Read(2, Field::Value)),
    (Told::Number(100), Turn::Visit(4)),
    (Told::Version(8), Turn::Read(4, Field::Left)),
];

const NONE: Turn = Turn::Answer(Reply::None);

const FOUND: &[Row] = &[
    (Told::Number(10), Turn::Read(2, Field::Value)),
    (Told::Number(100), Turn::Answer(Reply::Value(100))),
];

const MISSING: &[Row] = &[
    (Told::Number(10), Turn::Read(2, Field::Left)),
    (Told::Number(0), NONE),
];

// The left link of node 2 leads back to it.
const BACK: &[Row] = &[
    (Told::Number(10), Turn::Read(2, Field::Left)),
    (Told::Number(2), NONE),
];

const ANSWERS: &[Case] = &[
    (Begun::BstGet(10), &[TO_2, FOUND], None),
    (Begun::BstGet(5), &[TO_2, MISSING], None),
    (Begun::BstRemove(5), &[TO_2, MISSING], None),
    (Begun::BstPut(5, 1), &[TO_2, BACK], None),
    (Begun::BstGet(5), &[TO_2, BACK], None),
    (
        Begun::BstRemove(10),
        &[TO_2, TO_4, &[(Told::Number(2), NONE)]],
        None,
    ),
];

// A put hangs a leaf, or changes the value.
const PUTS: &[Case] = &[
    (
        Begun::BstPut(5, 50),
        &[
            TO_2,
            &[
                (Told::Number(10), Turn::Read(2, Field::Left)),
                (Told::Number(0), Turn::Change),
            ],
        ],
        Some(Exchange {
            words: &[
                (2, Field::Version, 4, To::Number(6)),
                (2, Field::Left, 0, To::Fresh),
            ],
            charged: &[],
            fresh: Some(Fresh {
                key: 5,
                value: 50,
                parent: 0,
                height: 0,
            }),
            mark: None,
            reply: Reply::New,
        }),
    ),
    (
        Begun::BstPut(10, 100),
        &[
            TO_2,
            &[
                (Told::Number(10), Turn::Read(2, Field::Value)),
                (Told::Number(100), Turn::Change),
            ],
        ],
        Some(Exchange {
            words: &[
                (2, Field::Version, 4, To::Number(6)),
                (2, Field::Value, 100, To::Number(100)),
            ],
            charged: &[],
            fresh: None,
            mark: None,
            reply: Reply::Was(100),
        }),
    ),
];

// A remove unlinks a node with at most one child.
const UNLINKS: &[Case] = &[
    (
        Begun::BstRemove(10),
        &[
            TO_2,
            &[
                (Told::Number(10), Turn::Read(2, Field::Left)),
                (Told::Number(0), Turn::Read(2, Field::Right)),
                (Told::Number(0), Turn::Read(2, Field::Value)),
                (Told::Number(100), Turn::Change),
            ],
        ],
        Some(Exchange {
            words: &[
                (1, Field::Version, 6, To::Number(8)),
                (1, Field::Left, 2, To::Number(0)),
                (2, Field::Version, 4, To::Number(5)),
            ],
            charged: &[],
            fresh: None,
            mark: Some(2),
            reply: Reply::Value(100),
        }),
    ),
    (
        Begun::BstRemove(10),
        &[
            TO_2,
            &[
                (Told::Number(10), Turn::Read(2, Field::Left)),
                (Told::Number(3), Turn::Read(2, Field::Right)),
                (Told::Number(0), Turn::Read(2, Field::Value)),
                (Told::Number(100), Turn::Change),
            ],
        ],
        Some(Exchange {
            words: &[
                (1, Field::Version, 6, To::Number(8)),
                (1, Field::Left, 2, To::Number(3)),
                (2, Field::Version, 4, To::Number(5)),
            ],
            charged: &[],
            fresh: None,
            mark: Some(2),
            reply: Reply::Value(100),
        }),
    ),
    (
        Begun::BstRemove(10),
        &[
            TO_2,
            &[
                (Told::Number(10), Turn::Read(2, Field::Left)),
                (Told::Number(0), Turn::Read(2, Field::Right)),
                (Told::Number(4), Turn::Read(2, Field::Value)),
                (Told::Number(100), Turn::Change),
            ],
        ],
        Some(Exchange {
            words: &[
                (1, Field::Version, 6, To::Number(8)),
                (1, Field::Left, 2, To::Number(4)),
                (2, Field::Version, 4, To::Number(5)),
            ],
            charged: &[],
            fresh: None,
            mark: Some(2),
            reply: Reply::Value(100),
        }),
    ),
];

// A remove of a node with two children lifts the successor: node 4, with key 15, value 150, nothing on its left
// and node 5 on its right; or, where node 4 has node 5 on its left, that one, with key 12, value 120, version 2
// and node 6 on its right.
const LIFTS: &[Case] = &[
    (
        Begun::BstRemove(10),
        &[
            TO_2,
            TO_4,
            &[
                (Told::Number(0), Turn::Read(4, Field::Key)),
                (Told::Number(15), Turn::Read(4, Field::Value)),
                (Told::Number(150), Turn::Read(4, Field::Right)),
                (Told::Number(5), Turn::Change),
            ],
        ],
        Some(Exchange {
            words: &[
                (2, Field::Version, 4, To::Number(6)),
                (2, Field::Key, 10, To::Number(15)),
                (2, Field::Value, 100, To::Number(150)),
                (2, Field::Right, 4, To::Number(5)),
                (4, Field::Version, 8, To::Number(9)),
            ],
            charged: &[],
            fresh: None,
            mark: Some(4),
            reply: Reply::Value(100),
        }),
    ),
    (
        Begun::BstRemove(10),
        &[
            TO_2,
            TO_4,
            &[
                (Told::Number(5), Turn::Visit(5)),
                (Told::Version(2), Turn::Read(5, Field::Left)),
                (Told::Number(0), Turn::Read(5, Field::Key)),
                (Told::Number(12), Turn::Read(5, Field::Value)),
                (Told::Number(120), Turn::Read(5, Field::Right)),
                (Told::Number(6), Turn::Change),
            ],
        ],
        Some(Exchange {
            words: &[
                (2, Field::Version, 4, To::Number(6)),
                (2, Field::Key, 10, To::Number(12)),
                (2, Field::Value, 100, To::Number(120)),
                (4, Field::Version, 8, To::Number(10)),
                (4, Field::Left, 5, To::Number(6)),
                (5, Field::Version, 2, To::Number(3)),
            ],
            charged: &[],
            fresh: None,
            mark: Some(5),
            reply: Reply::Value(100),
        }),
    ),
];

#[test]
fn plans_of_the_plain_tree_ask_as_the_tables_say(rt: HostRuntime) {
    all_hold(&rt, &first_of_each([ANSWERS, PUTS, UNLINKS, LIFTS]));
}

#[test]
fn a_plan_can_be_asked_in_one_value(rt: HostRuntime) {
    let asked = BstGet::begin(10).next(Told::Begin);
    assert!(rt; matches!(asked, Ask::Visit(1)));
    call_laws();
}

// The laws can be called.
fn call_laws() {
    plans_stand_for_their_calls();
    plans_end_as_their_calls_do();
    plans_charge_nothing();
    standing_is_agreeing::<BstPut>();
    exchanges_fit::<BstPut>();
}
