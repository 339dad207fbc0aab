//! The plans of the balanced tree as they are told a small tree by hand. Below the sentinel, node 1 at version 6,
//! hangs node 2 at version 4 with key 10, value 100 and height 1.
use crate::tables::all_hold;
use crate::told::{Begun, Case, Exchange, Row, first_of_each};
use pc_avl::{plans_end_as_their_calls_do, plans_stand_for_their_calls};
use pc_model::{Field, Reply};
use pc_plan::{Fresh, To, Told, Turn};

const TO_1: &[Row] = &[
    (Told::Begin, Turn::Visit(1)),
    (Told::Version(6), Turn::Read(1, Field::Left)),
];

const TO_2: &[Row] = &[
    (Told::Begin, Turn::Visit(1)),
    (Told::Version(6), Turn::Read(1, Field::Left)),
    (Told::Number(2), Turn::Visit(2)),
    (Told::Version(4), Turn::Read(2, Field::Key)),
];

// Node 2 has nodes 3 and 4 below it, and node 4 has version 8 and key 15.
const TO_4: &[Row] = &[
    (Told::Number(10), Turn::Read(2, Field::Left)),
    (Told::Number(3), Turn::Read(2, Field::Right)),
    (Told::Number(4), Turn::Read(2, Field::Value)),
    (Told::Number(100), Turn::Visit(4)),
    (Told::Version(8), Turn::Read(4, Field::Key)),
    (Told::Number(15), Turn::Read(4, Field::Left)),
];

const NONE: Turn = Turn::Answer(Reply::None);

// What a plan answers, also where a link leads back: a remove answers none then.
const ANSWERS: &[Case] = &[
    (
        Begun::AvlGet(10),
        &[
            TO_2,
            &[
                (Told::Number(10), Turn::Read(2, Field::Value)),
                (Told::Number(100), Turn::Answer(Reply::Value(100))),
            ],
        ],
        None,
    ),
    (
        Begun::AvlRemove(5),
        &[
            TO_2,
            &[
                (Told::Number(10), Turn::Read(2, Field::Left)),
                (Told::Number(0), NONE),
            ],
        ],
        None,
    ),
    (
        Begun::AvlRemove(10),
        &[TO_2, TO_4, &[(Told::Number(2), NONE)]],
        None,
    ),
    (
        Begun::AvlRemove(10),
        &[
            TO_2,
            &[
                (Told::Number(10), Turn::Read(2, Field::Left)),
                (Told::Number(1), Turn::Read(2, Field::Right)),
                (Told::Number(0), Turn::Read(2, Field::Value)),
                (Told::Number(100), NONE),
            ],
        ],
        None,
    ),
    (
        Begun::AvlRemove(10),
        &[
            TO_2,
            TO_4,
            &[
                (Told::Number(0), Turn::Read(4, Field::Value)),
                (Told::Number(150), Turn::Read(4, Field::Right)),
                (Told::Number(2), NONE),
            ],
        ],
        None,
    ),
];

// A put hangs a root, or a leaf below a node that it charges, or changes the value.
const PUTS: &[Case] = &[
    (
        Begun::AvlPut(5, 50),
        &[TO_1, &[(Told::Number(0), Turn::Change)]],
        Some(Exchange {
            words: &[
                (1, Field::Version, 6, To::Number(8)),
                (1, Field::Left, 0, To::Fresh),
            ],
            charged: &[],
            fresh: Some(Fresh {
                key: 5,
                value: 50,
                parent: 1,
                height: 1,
            }),
            mark: None,
            reply: Reply::New,
        }),
    ),
    (
        Begun::AvlPut(5, 50),
        &[
            TO_2,
            &[
                (Told::Number(10), Turn::Read(2, Field::Left)),
                (Told::Number(0), Turn::Change),
            ],
        ],
        Some(Exchange {
            words: &[
                (2, Field::Version, 4, To::Number(6)),
                (2, Field::Left, 0, To::Fresh),
            ],
            charged: &[10],
            fresh: Some(Fresh {
                key: 5,
                value: 50,
                parent: 2,
                height: 1,
            }),
            mark: None,
            reply: Reply::New,
        }),
    ),
    (
        Begun::AvlPut(10, 50),
        &[
            TO_2,
            &[
                (Told::Number(10), Turn::Read(2, Field::Value)),
                (Told::Number(100), Turn::Change),
            ],
        ],
        Some(Exchange {
            words: &[
                (2, Field::Version, 4, To::Number(6)),
                (2, Field::Value, 100, To::Number(50)),
            ],
            charged: &[],
            fresh: None,
            mark: None,
            reply: Reply::Was(100),
        }),
    ),
];

// A remove unlinks node 2, which has no child; or node 3 on its left, which has key 5, value 50, version 8 and on
// one side node 4, at version 12, and then charges node 2.
const UNLINKS: &[Case] = &[
    (
        Begun::AvlRemove(10),
        &[
            TO_2,
            &[
                (Told::Number(10), Turn::Read(2, Field::Left)),
                (Told::Number(0), Turn::Read(2, Field::Right)),
                (Told::Number(0), Turn::Read(2, Field::Value)),
                (Told::Number(100), Turn::Change),
            ],
        ],
        Some(Exchange {
            words: &[
                (1, Field::Version, 6, To::Number(8)),
                (1, Field::Left, 2, To::Number(0)),
                (2, Field::Version, 4, To::Number(5)),
            ],
            charged: &[],
            fresh: None,
            mark: Some(2),
            reply: Reply::Value(100),
        }),
    ),
    (
        Begun::AvlRemove(5),
        &[
            TO_2,
            &[
                (Told::Number(10), Turn::Read(2, Field::Left)),
                (Told::Number(3), Turn::Visit(3)),
                (Told::Version(8), Turn::Read(3, Field::Key)),
                (Told::Number(5), Turn::Read(3, Field::Left)),
                (Told::Number(4), Turn::Read(3, Field::Right)),
                (Told::Number(0), Turn::Read(3, Field::Value)),
                (Told::Number(50), Turn::Visit(4)),
                (Told::Version(12), Turn::Read(4, Field::Parent)),
                (Told::Number(3), Turn::Change),
            ],
        ],
        Some(Exchange {
            words: &[
                (2, Field::Version, 4, To::Number(6)),
                (2, Field::Left, 3, To::Number(4)),
                (4, Field::Version, 12, To::Number(14)),
                (4, Field::Parent, 3, To::Number(2)),
                (3, Field::Version, 8, To::Number(9)),
            ],
            charged: &[10],
            fresh: None,
            mark: Some(3),
            reply: Reply::Value(50),
        }),
    ),
    (
        Begun::AvlRemove(5),
        &[
            TO_2,
            &[
                (Told::Number(10), Turn::Read(2, Field::Left)),
                (Told::Number(3), Turn::Visit(3)),
                (Told::Version(8), Turn::Read(3, Field::Key)),
                (Told::Number(5), Turn::Read(3, Field::Left)),
                (Told::Number(0), Turn::Read(3, Field::Right)),
                (Told::Number(4), Turn::Read(3, Field::Value)),
                (Told::Number(50), Turn::Visit(4)),
                (Told::Version(12), Turn::Read(4, Field::Parent)),
                (Told::Number(3), Turn::Change),
            ],
        ],
        Some(Exchange {
            words: &[
                (2, Field::Version, 4, To::Number(6)),
                (2, Field::Left, 3, To::Number(4)),
                (4, Field::Version, 12, To::Number(14)),
                (4, Field::Parent, 3, To::Number(2)),
                (3, Field::Version, 8, To::Number(9)),
            ],
            charged: &[10],
            fresh: None,
            mark: Some(3),
            reply: Reply::Value(50),
        }),
    ),
];

// A remove of a node with two children lifts the successor: node 4, with value 150, nothing on its left and node 5
// on its right, at version 12; or, where node 4 has node 5 on its left, that one, with key 12, value 120, version 2
// and no child.
const LIFTS: &[Case] = &[
    (
        Begun::AvlRemove(10),
        &[
            TO_2,
            TO_4,
            &[
                (Told::Number(0), Turn::Read(4, Field::Value)),
                (Told::Number(150), Turn::Read(4, Field::Right)),
                (Told::Number(5), Turn::Visit(5)),
                (Told::Version(12), Turn::Read(5, Field::Parent)),
                (Told::Number(4), Turn::Change),
            ],
        ],
        Some(Exchange {
            words: &[
                (2, Field::Version, 4, To::Number(6)),
                (2, Field::Key, 10, To::Number(15)),
                (2, Field::Value, 100, To::Number(150)),
                (2, Field::Right, 4, To::Number(5)),
                (5, Field::Version, 12, To::Number(14)),
                (5, Field::Parent, 4, To::Number(2)),
                (4, Field::Version, 8, To::Number(9)),
            ],
            charged: &[15],
            fresh: None,
            mark: Some(4),
            reply: Reply::Value(100),
        }),
    ),
    (
        Begun::AvlRemove(10),
        &[
            TO_2,
            TO_4,
            &[
                (Told::Number(5), Turn::Visit(5)),
                (Told::Version(2), Turn::Read(5, Field::Key)),
                (Told::Number(12), Turn::Read(5, Field::Left)),
                (Told::Number(0), Turn::Read(5, Field::Value)),
                (Told::Number(120), Turn::Read(5, Field::Right)),
                (Told::Number(0), Turn::Change),
            ],
        ],
        Some(Exchange {
            words: &[
                (2, Field::Version, 4, To::Number(6)),
                (2, Field::Key, 10, To::Number(12)),
                (2, Field::Value, 100, To::Number(120)),
                (4, Field::Version, 8, To::Number(10)),
                (4, Field::Left, 5, To::Number(0)),
                (5, Field::Version, 2, To::Number(3)),
            ],
            charged: &[12, 15],
            fresh: None,
            mark: Some(5),
            reply: Reply::Value(100),
        }),
    ),
];

#[test]
fn plans_of_the_balanced_tree_ask_as_the_tables_say(rt: HostRuntime) {
    all_hold(&rt, &first_of_each([ANSWERS, PUTS, UNLINKS, LIFTS]));
    call_laws();
}

// The laws can be called.
fn call_laws() {
    plans_stand_for_their_calls();
    plans_end_as_their_calls_do();
}
