//! What `serve` answers, reads and prints: good scripts and bad ones, and failing reads and writes.
use crate::serving::{Ending, Given, ends_so};
use crate::tables::all_hold;
use std::alloc::Global;
use std::sync::Wait;
use std::thread::Threads;

// Each input with its status and its output.
const INPUTS: &[(&str, u8, &str)] = &[
    ("", 0, "left 0\nend\n"),
    (
        "put 5 50\nget 5\n",
        0,
        "1 1.1 put 5 50 = new\n2 1.2 get 5 = 50\nleft 1\n5 50\nend\n",
    ),
    (
        "put 5 1\nput 5 2\n",
        0,
        "1 1.1 put 5 1 = new\n2 1.2 put 5 2 = was 1\nleft 1\n5 2\nend\n",
    ),
    (
        "put 0 0\nput 999999999999999999 999999999999999999\n",
        0,
        "1 1.1 put 0 0 = new\n2 1.2 put 999999999999999999 999999999999999999 = new\nleft 2\n\
         0 0\n999999999999999999 999999999999999999\nend\n",
    ),
    (
        "put 3 30\nput 1 10\nput 2 20\nget 2\nget 4\n",
        0,
        "1 1.1 put 3 30 = new\n2 1.2 put 1 10 = new\n3 1.3 put 2 20 = new\n4 1.4 get 2 = 20\n\
         5 1.5 get 4 = none\nleft 3\n1 10\n2 20\n3 30\nend\n",
    ),
    (
        "get 5\nremove 5\n",
        0,
        "1 1.1 get 5 = none\n2 1.2 remove 5 = none\nleft 0\nend\n",
    ),
    // The successor is the right child itself.
    (
        "put 2 20\nput 1 10\nput 3 30\nremove 2\n",
        0,
        "1 1.1 put 2 20 = new\n2 1.2 put 1 10 = new\n3 1.3 put 3 30 = new\n4 1.4 remove 2 = 20\n\
         left 2\n1 10\n3 30\nend\n",
    ),
    // The successor lies deeper and has a right child.
    (
        "put 10 10\nput 5 5\nput 20 20\nput 15 15\nput 25 25\nput 17 17\nremove 10\n",
        0,
        "1 1.1 put 10 10 = new\n2 1.2 put 5 5 = new\n3 1.3 put 20 20 = new\n\
         4 1.4 put 15 15 = new\n5 1.5 put 25 25 = new\n6 1.6 put 17 17 = new\n\
         7 1.7 remove 10 = 10\nleft 5\n5 5\n15 15\n17 17\n20 20\n25 25\nend\n",
    ),
    (
        "put 5 50\nput 9 90\nceil 7\nfloor 7\nceil 10\nfloor 4\nceil 5\nfloor 9\n",
        0,
        "1 1.1 put 5 50 = new\n2 1.2 put 9 90 = new\n3 1.3 ceil 7 = 9 90\n4 1.4 floor 7 = 5 50\n\
         5 1.5 ceil 10 = none\n6 1.6 floor 4 = none\n7 1.7 ceil 5 = 5 50\n8 1.8 floor 9 = 9 90\n\
         left 2\n5 50\n9 90\nend\n",
    ),
    (
        "put 1 1\nremove 1\nput 1 2\nremove 1\nput 1 3\n",
        0,
        "1 1.1 put 1 1 = new\n2 1.2 remove 1 = 1\n3 1.3 put 1 2 = new\n4 1.4 remove 1 = 2\n\
         5 1.5 put 1 3 = new\nleft 1\n1 3\nend\n",
    ),
    // Comments, blanks, carriage returns, zeros in front, and a last line without its end.
    (
        "# Zürich\r\n\r\n  put\t007 1\r\nget 7",
        0,
        "1 1.1 put 7 1 = new\n2 1.2 get 7 = 1\nleft 1\n7 1\nend\n",
    ),
    ("client 1\nget 5", 0, "1 1.1 get 5 = none\nleft 0\nend\n"),
    (
        "put 1000000000000000000 1\n",
        3,
        "fault line 1 bad number\n",
    ),
    ("get 1\nGet 1\n", 3, "fault line 2 unknown word\n"),
    ("put 1", 3, "fault line 1 word count\n"),
    ("get +1\n", 3, "fault line 1 bad number\n"),
    ("foo\0\n", 3, "fault line 1 bad byte\n"),
    ("client 0\n", 3, "fault line 1 bad number\n"),
    ("client 33\n", 3, "fault line 1 too many clients\n"),
    // Where one client alone has commands there is one order.
    ("client 2\nget 1\n", 0, "1 2.1 get 1 = none\nleft 0\nend\n"),
    (
        "client 2\nput 1 2\nclient 1\n# none\nclient 2\nget 1\n",
        0,
        "1 2.1 put 1 2 = new\n2 2.2 get 1 = 2\nleft 1\n1 2\nend\n",
    ),
    ("client 2\nget 1\nget\n", 3, "fault line 3 word count\n"),
];

// One read gives all of an input and the next one none, or else the first one none; then there is no other.
fn first_other_input<R: Threads + Wait + Sync>(
    rt: &R,
    alloc: Global,
    words: &[&str],
) -> Option<usize> {
    for (i, (input, status, output)) in INPUTS.iter().enumerate() {
        let given = Given {
            words,
            input: input.as_bytes(),
            fails: 0,
            room: 1000,
            piece: 1000,
        };
        let ending = Ending {
            status: *status,
            reads: if input.len() == 0 { 1 } else { 2 },
            text: output.as_bytes(),
            is_whole: true,
        };
        if !ends_so(rt, alloc, given, ending) {
            return Some(i);
        }
    }
    None
}

/// The status, the reads that there were, and the output.
type Ended = (u8, u64, &'static str);

const USAGE: Given = Given {
    words: &["pathmap", "--tree"],
    input: b"get 5",
    fails: 0,
    room: 1000,
    piece: 1,
};

const ONE_CLIENT: Given = Given {
    words: &["pathmap"],
    ..USAGE
};

const TWO_CLIENTS: Given = Given {
    words: &["pathmap", "--tree", "avl"],
    input: b"put 5 1\nclient 2\nput 5 1",
    ..USAGE
};

// Runs that are read and written byte by byte.
const FAULTY: &[(Given, Ended)] = &[
    (USAGE, (2, 0, "fault usage\n")),
    (Given { room: 3, ..USAGE }, (2, 0, "fau")),
    (
        Given {
            fails: 2,
            ..ONE_CLIENT
        },
        (4, 2, "fault read\n"),
    ),
    (
        Given {
            fails: 6,
            ..ONE_CLIENT
        },
        (4, 6, "fault read\n"),
    ),
    (
        Given {
            fails: 6,
            room: 0,
            ..ONE_CLIENT
        },
        (4, 6, ""),
    ),
    (
        Given {
            room: 0,
            ..ONE_CLIENT
        },
        (5, 6, ""),
    ),
    (
        Given {
            fails: 25,
            ..TWO_CLIENTS
        },
        (4, 25, "fault read\n"),
    ),
    (
        Given {
            room: 2,
            ..TWO_CLIENTS
        },
        (5, 25, "1 "),
    ),
];

fn first_other_fault<R: Threads + Wait + Sync>(rt: &R, alloc: Global) -> Option<usize> {
    for (i, (given, ended)) in FAULTY.iter().enumerate() {
        let ending = Ending {
            status: ended.0,
            reads: ended.1,
            text: ended.2.as_bytes(),
            is_whole: true,
        };
        if !ends_so(rt, alloc, *given, ending) {
            return Some(i);
        }
    }
    None
}

#[test]
fn inputs_reads_and_writes_end_the_run_so(rt: HostRuntime) {
    let alloc = rt.alloc();
    let wrong = [
        first_other_input(&rt, alloc, &["pathmap"]),
        first_other_input(&rt, alloc, &["pathmap", "--tree", "avl"]),
        first_other_fault(&rt, alloc),
    ];
    all_hold(&rt, &wrong);
}
