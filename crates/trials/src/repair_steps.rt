//! The repairs as they are told a small tree: what they visit, and how they end. The words of each exchange were
//! worked out by hand from the heights.
use crate::tables::all_hold;
use crate::told::{Exchange, Word, is_written};
use pc_avl::{AvlRepair, AvlRepairFrom};
use pc_model::{Field, Reply, Settle};
use pc_plan::{Change, Plan, To, Told, Turn};

/// A node with its version, its key, its left and right links, its parent and its stored height.
type Node = (u32, u64, u64, u64, u64, u64, u64);

/// What is repaired: a key, or the nearest key from a number up.
#[derive(Clone, Copy)]
enum Of {
    Key(u64),
    From(u64),
}

/// How a repair ends: it answers, or it changes these words, charges these keys, and names the key of its node.
#[derive(Clone, Copy)]
enum End {
    Answers(Reply),
    Mends(&'static [Word], &'static [u64], u64),
}

/// What is repaired in a tree of these nodes, the nodes that are visited in turn, and the end.
type Case = (Of, &'static [Node], &'static [u32], End);

/// More turns than any of these repairs takes.
const ENOUGH: u32 = 100;

fn number_of(node: Node, field: Field) -> u64 {
    match field {
        Field::Version => node.1,
        Field::Key => node.2,
        Field::Left => node.3,
        Field::Right => node.4,
        Field::Parent => node.5,
        Field::Height => node.6,
        Field::Value | Field::Spare => 0,
    }
}

/// What stands in a field of a node; 0 where there is no such node.
fn number_in(nodes: &[Node], node: u32, field: Field) -> u64 {
    for row in nodes {
        if row.0 == node {
            return number_of(*row, field);
        }
    }
    0
}

/// Whether the plan visits these nodes in turn, and ends so.
fn ends_so<P: Plan>(mut plan: P, nodes: &[Node], visits: &[u32], end: End) -> bool {
    let mut change = Change::new(Reply::None);
    let mut visits = visits.iter();
    let mut told = Told::Begin;
    for _ in 0..ENOUGH {
        let turn = plan.step(told, &mut change);
        told = match turn {
            Turn::Visit(node) if visits.next() != Some(&node) => return false,
            Turn::Visit(node) => Told::Version(number_in(nodes, node, Field::Version)),
            Turn::Read(node, field) => Told::Number(number_in(nodes, node, field)),
            Turn::Change | Turn::Answer(_) => {
                return visits.next().is_none() && is_end(turn, &change, end);
            }
        };
    }
    false
}

fn is_end(turn: Turn, change: &Change, end: End) -> bool {
    match end {
        End::Answers(reply) => turn == Turn::Answer(reply),
        End::Mends(words, charged, key) => {
            let exchange = Exchange {
                words,
                charged,
                fresh: None,
                mark: None,
                reply: Reply::Was(key),
            };
            turn == Turn::Change && is_written(change, exchange)
        }
    }
}

/// The first case of a table that ends otherwise.
fn first_other(cases: &[Case]) -> Option<usize> {
    for (i, case) in cases.iter().enumerate() {
        let (of, nodes, visits, end) = *case;
        let is_so = match of {
            Of::Key(key) => ends_so(AvlRepair::begin(key), nodes, visits, end),
            Of::From(number) => ends_so(AvlRepairFrom::begin(number), nodes, visits, end),
        };
        if !is_so {
            return Some(i);
        }
    }
    None
}

const NONE: End = End::Answers(Reply::None);

/// The greatest height, which is the sentinel's key too.
const TOP: u64 = 4_611_686_018_427_387_903;

/// The sentinel, above node 2.
const OVER_2: Node = (1, 6, TOP, 2, 0, 0, 0);

const EMPTY: &[Node] = &[(1, 6, TOP, 0, 0, 0, 0)];

/// A node with key 10 and one on its left with key 5, both in balance.
const TWO: &[Node] = &[OVER_2, (2, 4, 10, 3, 0, 1, 2), (3, 8, 5, 0, 0, 2, 1)];

// There is no such key, or none from the number up, or a link leads back.
const ABSENT: &[Case] = &[
    (Of::Key(5), EMPTY, &[1], NONE),
    (Of::From(5), EMPTY, &[1], NONE),
    (Of::Key(7), TWO, &[1, 2, 3], NONE),
    (Of::Key(12), TWO, &[1, 2], NONE),
    (Of::From(11), TWO, &[1, 2], NONE),
    (
        Of::Key(10),
        &[OVER_2, (2, 4, 10, 2, 0, 1, 2)],
        &[1, 2],
        NONE,
    ),
    (
        Of::From(10),
        &[OVER_2, (2, 4, 10, 0, 1, 1, 2)],
        &[1, 2],
        NONE,
    ),
];

// The node is in balance: the one with the key, or with the nearest key, which may lie above others that are visited.
const IN_BALANCE: &[Case] = &[
    (Of::Key(10), TWO, &[1, 2, 3], NONE),
    (Of::Key(5), TWO, &[1, 2, 3], NONE),
    (
        Of::From(10),
        TWO,
        &[1, 2, 3],
        End::Answers(Reply::Pair(10, 0)),
    ),
    (
        Of::From(6),
        TWO,
        &[1, 2, 3],
        End::Answers(Reply::Pair(10, 0)),
    ),
    (
        Of::From(5),
        TWO,
        &[1, 2, 3],
        End::Answers(Reply::Pair(5, 0)),
    ),
    (
        Of::From(0),
        TWO,
        &[1, 2, 3],
        End::Answers(Reply::Pair(5, 0)),
    ),
    (
        Of::Key(10),
        &[
            OVER_2,
            (2, 4, 10, 3, 4, 1, TOP),
            (3, 8, 5, 0, 0, 2, 4_611_686_018_427_387_902),
            (4, 12, 15, 0, 0, 2, TOP),
        ],
        &[1, 2, 3, 4],
        NONE,
    ),
];

/// A node with key 5 and height 3 whose child has height 1, below a node with key 10.
const TOO_HIGH: &[Node] = &[
    OVER_2,
    (2, 4, 10, 3, 0, 1, 9),
    (3, 8, 5, 4, 0, 2, 3),
    (4, 12, 2, 0, 0, 3, 1),
];

// The node gets another height, and the node above it is charged, unless that is the sentinel.
const HEIGHTS: &[Case] = &[
    (
        Of::Key(5),
        TOO_HIGH,
        &[1, 2, 3, 4],
        End::Mends(
            &[
                (3, Field::Version, 8, To::Number(10)),
                (3, Field::Height, 3, To::Number(2)),
            ],
            &[10],
            5,
        ),
    ),
    (
        Of::From(3),
        TOO_HIGH,
        &[1, 2, 3, 4],
        End::Mends(
            &[
                (3, Field::Version, 8, To::Number(10)),
                (3, Field::Height, 3, To::Number(2)),
            ],
            &[10],
            5,
        ),
    ),
    (
        Of::Key(10),
        &[OVER_2, (2, 4, 10, 3, 0, 1, 1), (3, 8, 5, 0, 0, 2, 1)],
        &[1, 2, 3],
        End::Mends(
            &[
                (2, Field::Version, 4, To::Number(6)),
                (2, Field::Height, 1, To::Number(2)),
            ],
            &[],
            10,
        ),
    ),
    (
        Of::Key(10),
        &[
            OVER_2,
            (2, 4, 10, 3, 4, 1, 1),
            (3, 8, 5, 0, 0, 2, TOP),
            (4, 12, 15, 0, 0, 2, 4_611_686_018_427_387_902),
        ],
        &[1, 2, 3, 4],
        End::Mends(
            &[
                (2, Field::Version, 4, To::Number(6)),
                (2, Field::Height, 1, To::Number(TOP)),
            ],
            &[],
            10,
        ),
    ),
];

/// The child's inner child, node 5, stores height 2 and has no child.
const INNER_OUT: &[Node] = &[
    OVER_2,
    (2, 4, 10, 3, 0, 1, 4),
    (3, 8, 5, 4, 5, 2, 3),
    (4, 12, 2, 0, 0, 3, 1),
    (5, 2, 7, 0, 0, 3, 2),
];

// A node below is out of balance and comes first: the child, by its height or by its children's, or the child's
// inner child, where that is the higher one.
const BELOW_FIRST: &[Case] = &[
    (
        Of::Key(10),
        &[OVER_2, (2, 4, 10, 3, 0, 1, 3), (3, 8, 5, 0, 0, 2, 2)],
        &[1, 2, 3],
        End::Answers(Reply::Value(5)),
    ),
    (
        Of::From(6),
        &[OVER_2, (2, 4, 10, 3, 0, 1, 3), (3, 8, 5, 0, 0, 2, 2)],
        &[1, 2, 3],
        End::Answers(Reply::Value(5)),
    ),
    (
        Of::Key(10),
        &[
            OVER_2,
            (2, 4, 10, 0, 3, 1, 4),
            (3, 8, 15, 0, 4, 2, 3),
            (4, 12, 20, 0, 0, 3, 2),
        ],
        &[1, 2, 3, 4],
        End::Answers(Reply::Value(15)),
    ),
    (
        Of::Key(10),
        INNER_OUT,
        &[1, 2, 3, 4, 5],
        End::Answers(Reply::Value(7)),
    ),
    (
        Of::From(8),
        INNER_OUT,
        &[1, 2, 3, 5, 4],
        End::Answers(Reply::Value(7)),
    ),
    (
        Of::Key(10),
        &[
            OVER_2,
            (2, 4, 10, 0, 3, 1, 4),
            (3, 8, 15, 5, 4, 2, 3),
            (4, 12, 20, 0, 0, 3, 1),
            (5, 2, 12, 0, 0, 3, 2),
        ],
        &[1, 2, 3, 4, 5],
        End::Answers(Reply::Value(12)),
    ),
];

/// Node 3 is too high on its left, and the inner child of its child, node 7, is no higher than the outer one.
const HIGH_OUTSIDE: &[Node] = &[
    OVER_2,
    (2, 4, 20, 3, 0, 1, 9),
    (3, 8, 10, 4, 5, 2, 4),
    (4, 12, 5, 6, 7, 3, 3),
    (5, 2, 15, 0, 0, 3, 1),
    (6, 14, 3, 0, 0, 4, 2),
    (7, 10, 7, 0, 0, 4, 2),
];

/// The child takes the place of node 3.
const TURNED: End = End::Mends(
    &[
        (2, Field::Version, 4, To::Number(6)),
        (2, Field::Left, 3, To::Number(4)),
        (4, Field::Version, 12, To::Number(14)),
        (4, Field::Right, 7, To::Number(3)),
        (4, Field::Parent, 3, To::Number(2)),
        (4, Field::Height, 3, To::Number(4)),
        (3, Field::Version, 8, To::Number(10)),
        (3, Field::Left, 4, To::Number(7)),
        (3, Field::Parent, 2, To::Number(4)),
        (3, Field::Height, 4, To::Number(3)),
        (7, Field::Version, 10, To::Number(12)),
        (7, Field::Parent, 4, To::Number(3)),
    ],
    &[10, 5, 20],
    10,
);

// A rotation. Where a search went below the node, what it visited there isn't visited again, nor taken for another.
const ROTATIONS: &[Case] = &[
    (Of::Key(10), HIGH_OUTSIDE, &[1, 2, 3, 4, 5, 6, 7], TURNED),
    (Of::From(8), HIGH_OUTSIDE, &[1, 2, 3, 4, 7, 5, 6], TURNED),
    (
        Of::Key(10),
        &[
            OVER_2,
            (2, 4, 10, 0, 3, 1, 3),
            (3, 8, 15, 0, 4, 2, 2),
            (4, 12, 20, 0, 0, 3, 1),
        ],
        &[1, 2, 3, 4],
        End::Mends(
            &[
                (1, Field::Version, 6, To::Number(8)),
                (1, Field::Left, 2, To::Number(3)),
                (3, Field::Version, 8, To::Number(10)),
                (3, Field::Left, 0, To::Number(2)),
                (3, Field::Parent, 2, To::Number(1)),
                (3, Field::Height, 2, To::Number(2)),
                (2, Field::Version, 4, To::Number(6)),
                (2, Field::Right, 3, To::Number(0)),
                (2, Field::Parent, 1, To::Number(3)),
                (2, Field::Height, 3, To::Number(1)),
            ],
            &[10, 15],
            10,
        ),
    ),
    (
        Of::From(8),
        &[
            OVER_2,
            (2, 4, 10, 3, 4, 1, 5),
            (3, 8, 5, 0, 5, 2, 2),
            (4, 12, 20, 6, 7, 2, 4),
            (5, 14, 7, 0, 0, 3, 1),
            (6, 2, 15, 0, 0, 4, 2),
            (7, 10, 30, 0, 0, 4, 3),
        ],
        &[1, 2, 3, 5, 4, 7, 6],
        End::Mends(
            &[
                (1, Field::Version, 6, To::Number(8)),
                (1, Field::Left, 2, To::Number(4)),
                (4, Field::Version, 12, To::Number(14)),
                (4, Field::Left, 6, To::Number(2)),
                (4, Field::Parent, 2, To::Number(1)),
                (4, Field::Height, 4, To::Number(4)),
                (2, Field::Version, 4, To::Number(6)),
                (2, Field::Right, 4, To::Number(6)),
                (2, Field::Parent, 1, To::Number(4)),
                (2, Field::Height, 5, To::Number(3)),
                (6, Field::Version, 2, To::Number(4)),
                (6, Field::Parent, 4, To::Number(2)),
            ],
            &[10, 20],
            10,
        ),
    ),
];

/// Node 3 is too high on its left, and the inner child of its child, node 7, is higher than the outer one.
const HIGH_INSIDE: &[Node] = &[
    OVER_2,
    (2, 4, 50, 3, 0, 1, 9),
    (3, 8, 40, 4, 5, 2, 5),
    (4, 12, 20, 6, 7, 3, 4),
    (5, 2, 45, 0, 0, 3, 1),
    (6, 14, 10, 0, 0, 4, 2),
    (7, 10, 30, 8, 9, 4, 3),
    (8, 16, 25, 0, 0, 7, 2),
    (9, 18, 35, 0, 0, 7, 1),
];

/// The inner child takes the place of node 3, by the most words that a repair changes.
const TURNED_TWICE: End = End::Mends(
    &[
        (2, Field::Version, 4, To::Number(6)),
        (2, Field::Left, 3, To::Number(7)),
        (7, Field::Version, 10, To::Number(12)),
        (7, Field::Left, 8, To::Number(4)),
        (7, Field::Right, 9, To::Number(3)),
        (7, Field::Parent, 4, To::Number(2)),
        (7, Field::Height, 3, To::Number(4)),
        (4, Field::Version, 12, To::Number(14)),
        (4, Field::Right, 7, To::Number(8)),
        (4, Field::Parent, 3, To::Number(7)),
        (4, Field::Height, 4, To::Number(3)),
        (3, Field::Version, 8, To::Number(10)),
        (3, Field::Left, 4, To::Number(9)),
        (3, Field::Parent, 2, To::Number(7)),
        (3, Field::Height, 5, To::Number(2)),
        (8, Field::Version, 16, To::Number(18)),
        (8, Field::Parent, 7, To::Number(4)),
        (9, Field::Version, 18, To::Number(20)),
        (9, Field::Parent, 7, To::Number(3)),
    ],
    &[40, 20, 30, 50],
    40,
);

const DOUBLE_ROTATIONS: &[Case] = &[
    (
        Of::Key(40),
        HIGH_INSIDE,
        &[1, 2, 3, 4, 5, 6, 7, 8, 9],
        TURNED_TWICE,
    ),
    (
        Of::From(36),
        HIGH_INSIDE,
        &[1, 2, 3, 4, 7, 9, 5, 6, 8],
        TURNED_TWICE,
    ),
    (
        Of::Key(10),
        &[
            OVER_2,
            (2, 4, 10, 0, 3, 1, 3),
            (3, 8, 20, 4, 0, 2, 2),
            (4, 12, 15, 0, 0, 3, 1),
        ],
        &[1, 2, 3, 4],
        End::Mends(
            &[
                (1, Field::Version, 6, To::Number(8)),
                (1, Field::Left, 2, To::Number(4)),
                (4, Field::Version, 12, To::Number(14)),
                (4, Field::Right, 0, To::Number(3)),
                (4, Field::Left, 0, To::Number(2)),
                (4, Field::Parent, 3, To::Number(1)),
                (4, Field::Height, 1, To::Number(2)),
                (3, Field::Version, 8, To::Number(10)),
                (3, Field::Left, 4, To::Number(0)),
                (3, Field::Parent, 2, To::Number(4)),
                (3, Field::Height, 2, To::Number(1)),
                (2, Field::Version, 4, To::Number(6)),
                (2, Field::Right, 3, To::Number(0)),
                (2, Field::Parent, 1, To::Number(4)),
                (2, Field::Height, 3, To::Number(1)),
            ],
            &[10, 20, 15],
            10,
        ),
    ),
];

/// What is repaired, the reply, and what that settles.
const SETTLED: &[(Of, Reply, Settle)] = &[
    (Of::Key(5), Reply::None, Settle::Release(5)),
    (Of::Key(5), Reply::Was(5), Settle::Release(5)),
    (Of::Key(5), Reply::Value(3), Settle::First(3)),
    (Of::From(5), Reply::None, Settle::Raise(None)),
    (Of::From(5), Reply::Pair(7, 0), Settle::Raise(Some(8))),
    (Of::From(5), Reply::Was(7), Settle::Nothing),
    (Of::From(5), Reply::Value(6), Settle::First(6)),
];

fn settlement(of: Of, reply: Reply) -> Settle {
    match of {
        Of::Key(key) => AvlRepair::settles(key, reply),
        Of::From(number) => AvlRepairFrom::settles(number, reply),
    }
}

fn first_settled_otherwise() -> Option<usize> {
    for (i, (of, reply, wanted)) in SETTLED.iter().enumerate() {
        if settlement(*of, *reply) != *wanted {
            return Some(i);
        }
    }
    None
}

#[test]
fn repairs_end_by_the_heights_that_they_are_told(rt: HostRuntime) {
    let wrong = [
        first_other(ABSENT),
        first_other(IN_BALANCE),
        first_other(HEIGHTS),
        first_other(BELOW_FIRST),
        first_other(ROTATIONS),
        first_other(DOUBLE_ROTATIONS),
        first_settled_otherwise(),
    ];
    all_hold(&rt, &wrong);
}
