//! What `serve` answers for the words of its command line.
use crate::serving::{Ending, Given, ends_so};
use crate::tables::all_hold;
use std::alloc::Global;
use std::sync::Wait;
use std::thread::Threads;

/// What two puts print without a shape, and with one.
const PLAIN: &str = "1 1.1 put 2 20 = new\n2 1.2 put 1 10 = new\nleft 2\n1 10\n2 20\nend\n";

const SHAPED: &str =
    "1 1.1 put 2 20 = new\n2 1.2 put 1 10 = new\nleft 2\n1 10\n2 20\nshape 2\n1 2 2 1\n2 1 1 0\nend\n";

/// The words, the status, the reads that there were, and the output.
type Command = (&'static [&'static str], u8, u64, &'static str);

const COMMANDS: &[Command] = &[
    (&["pathmap"], 0, 2, PLAIN),
    (&["pathmap", "--shape"], 0, 2, SHAPED),
    // A program's name that looks like an option is none, and there may be no name.
    (&["--shape"], 0, 2, PLAIN),
    (&[], 0, 2, PLAIN),
    // Behind `--` no option stands, and the command takes no other words.
    (&["pathmap", "--"], 0, 2, PLAIN),
    (&["pathmap", "--shape", "--"], 0, 2, SHAPED),
    (&["pathmap", "--", "--shape"], 2, 0, "fault usage\n"),
    (&["pathmap", "--", "--"], 2, 0, "fault usage\n"),
    // A flag has no value and stands once.
    (&["pathmap", "--shape=x"], 2, 0, "fault usage\n"),
    (&["pathmap", "--shape="], 2, 0, "fault usage\n"),
    (&["pathmap", "--shape", "--shape"], 2, 0, "fault usage\n"),
    // There are no other words.
    (&["pathmap", "shape"], 2, 0, "fault usage\n"),
    (&["pathmap", "--shape", "x"], 2, 0, "fault usage\n"),
    (&["pathmap", ""], 2, 0, "fault usage\n"),
    (&["pathmap", "--sha"], 2, 0, "fault usage\n"),
    (&["pathmap", "-s"], 2, 0, "fault usage\n"),
    (&["pathmap", "--help"], 2, 0, "fault usage\n"),
    (&["pathmap", "--version"], 2, 0, "fault usage\n"),
    // The kind of tree is `bst` or `avl`, apart or attached, once, in any order.
    (&["pathmap", "--tree", "bst"], 0, 2, PLAIN),
    (&["pathmap", "--tree=bst"], 0, 2, PLAIN),
    (&["pathmap", "--tree", "bst", "--shape"], 0, 2, SHAPED),
    (&["pathmap", "--shape", "--tree=bst"], 0, 2, SHAPED),
    (&["pathmap", "--tree", "avl"], 0, 2, PLAIN),
    (&["pathmap", "--tree=avl", "--shape"], 0, 2, SHAPED),
    (&["pathmap", "--tree", "red"], 2, 0, "fault usage\n"),
    (&["pathmap", "--tree=red"], 2, 0, "fault usage\n"),
    (&["pathmap", "--tree", "BST"], 2, 0, "fault usage\n"),
    (&["pathmap", "--tree"], 2, 0, "fault usage\n"),
    (&["pathmap", "--tree="], 2, 0, "fault usage\n"),
    (&["pathmap", "--tree", "--shape"], 2, 0, "fault usage\n"),
    (&["pathmap", "--tree", "bst", "avl"], 2, 0, "fault usage\n"),
    (
        &["pathmap", "--tree=bst", "--tree=bst"],
        2,
        0,
        "fault usage\n",
    ),
    // A summary has no shape.
    (&["pathmap", "--summary"], 0, 2, "2 lines\nend\n"),
    (&["pathmap", "--summary", "--shape"], 0, 2, "2 lines\nend\n"),
    (
        &["pathmap", "--shape", "--tree=avl", "--summary"],
        0,
        2,
        "2 lines\nend\n",
    ),
    (&["pathmap", "--summary=x"], 2, 0, "fault usage\n"),
    (
        &["pathmap", "--summary", "--summary"],
        2,
        0,
        "fault usage\n",
    ),
    // With a seed the source isn't read. A seed is a number as a script writes one.
    (
        &["pathmap", "--made", "7", "--tree", "avl", "--summary"],
        0,
        0,
        "16000 lines\nend\n",
    ),
    (
        &["pathmap", "--summary", "--made=007"],
        0,
        0,
        "16000 lines\nend\n",
    ),
    (&["pathmap", "--made"], 2, 0, "fault usage\n"),
    (&["pathmap", "--made="], 2, 0, "fault usage\n"),
    (&["pathmap", "--made=+1"], 2, 0, "fault usage\n"),
    (&["pathmap", "--made=seven"], 2, 0, "fault usage\n"),
    (
        &["pathmap", "--made=1000000000000000000"],
        2,
        0,
        "fault usage\n",
    ),
    (&["pathmap", "--made=7", "--made=7"], 2, 0, "fault usage\n"),
];

/// The words, the input, the reads that there were, and the output with a shape.
type Shaped = (&'static [&'static str], &'static str, u64, &'static str);

const PLAIN_TREE: &[&str] = &["pathmap", "--shape"];

const BALANCED_TREE: &[&str] = &["pathmap", "--shape", "--tree", "avl"];

const SHAPES: &[Shaped] = &[
    (PLAIN_TREE, "", 1, "left 0\nshape 0\nend\n"),
    (BALANCED_TREE, "", 1, "left 0\nshape 0\nend\n"),
    // The successor is the right child itself.
    (
        PLAIN_TREE,
        "put 2 20\nput 1 10\nput 3 30\nremove 2\n",
        2,
        "1 1.1 put 2 20 = new\n2 1.2 put 1 10 = new\n3 1.3 put 3 30 = new\n4 1.4 remove 2 = 20\n\
         left 2\n1 10\n3 30\nshape 2\n1 3 2 1\n2 1 1 0\nend\n",
    ),
    // The successor lies deeper and has a right child.
    (
        PLAIN_TREE,
        "put 10 10\nput 5 5\nput 20 20\nput 15 15\nput 25 25\nput 17 17\nremove 10\n",
        2,
        "1 1.1 put 10 10 = new\n2 1.2 put 5 5 = new\n3 1.3 put 20 20 = new\n\
         4 1.4 put 15 15 = new\n5 1.5 put 25 25 = new\n6 1.6 put 17 17 = new\n\
         7 1.7 remove 10 = 10\nleft 5\n5 5\n15 15\n17 17\n20 20\n25 25\n\
         shape 3\n1 15 3 -1\n2 5 1 0\n2 20 2 0\n3 17 1 0\n3 25 1 0\nend\n",
    ),
    // Single rotations alone.
    (
        BALANCED_TREE,
        "put 1 1\nput 2 2\nput 3 3\nput 4 4\nput 5 5\nput 6 6\nput 7 7\n",
        2,
        "1 1.1 put 1 1 = new\n2 1.2 put 2 2 = new\n3 1.3 put 3 3 = new\n4 1.4 put 4 4 = new\n\
         5 1.5 put 5 5 = new\n6 1.6 put 6 6 = new\n7 1.7 put 7 7 = new\n\
         left 7\n1 1\n2 2\n3 3\n4 4\n5 5\n6 6\n7 7\n\
         shape 3\n1 4 3 0\n2 2 2 0\n3 1 1 0\n3 3 1 0\n2 6 2 0\n3 5 1 0\n3 7 1 0\nend\n",
    ),
    // A double one.
    (
        BALANCED_TREE,
        "put 3 3\nput 1 1\nput 2 2\n",
        2,
        "1 1.1 put 3 3 = new\n2 1.2 put 1 1 = new\n3 1.3 put 2 2 = new\nleft 3\n1 1\n2 2\n3 3\n\
         shape 2\n1 2 2 0\n2 1 1 0\n2 3 1 0\nend\n",
    ),
    // With several clients too the debts of a put, and of a remove, are paid before its client's next command.
    (
        BALANCED_TREE,
        "client 2\nput 1 1\nput 2 2\nput 3 3\nput 4 4\n",
        2,
        "1 2.1 put 1 1 = new\n2 2.2 put 2 2 = new\n3 2.3 put 3 3 = new\n4 2.4 put 4 4 = new\n\
         left 4\n1 1\n2 2\n3 3\n4 4\nshape 3\n1 2 3 -1\n2 1 1 0\n2 3 2 -1\n3 4 1 0\nend\n",
    ),
    (
        BALANCED_TREE,
        "client 2\nput 1 1\nput 2 2\nput 3 3\nput 4 4\nremove 1\nremove 3\n",
        2,
        "1 2.1 put 1 1 = new\n2 2.2 put 2 2 = new\n3 2.3 put 3 3 = new\n4 2.4 put 4 4 = new\n\
         5 2.5 remove 1 = 1\n6 2.6 remove 3 = 3\nleft 2\n2 2\n4 4\nshape 2\n1 4 2 1\n2 2 1 0\nend\n",
    ),
];

fn ends_with<R: Threads + Wait + Sync>(
    rt: &R,
    alloc: Global,
    words: &[&str],
    input: &str,
    ended: (u8, u64, &str),
) -> bool {
    let given = Given {
        words,
        input: input.as_bytes(),
        fails: 0,
        room: 1000,
        piece: 1000,
    };
    let ending = Ending {
        status: ended.0,
        reads: ended.1,
        text: ended.2.as_bytes(),
        is_whole: true,
    };
    ends_so(rt, alloc, given, ending)
}

fn first_other_command<R: Threads + Wait + Sync>(rt: &R, alloc: Global) -> Option<usize> {
    for (i, (words, status, reads, output)) in COMMANDS.iter().enumerate() {
        let ended = (*status, *reads, *output);
        if !ends_with(rt, alloc, words, "put 2 20\nput 1 10\n", ended) {
            return Some(i);
        }
    }
    None
}

fn first_other_shape<R: Threads + Wait + Sync>(rt: &R, alloc: Global) -> Option<usize> {
    for (i, (words, input, reads, output)) in SHAPES.iter().enumerate() {
        if !ends_with(rt, alloc, words, input, (0, *reads, *output)) {
            return Some(i);
        }
    }
    None
}

#[test]
fn each_command_line_has_its_status_and_output(rt: HostRuntime) {
    let commands = first_other_command(&rt, rt.alloc());
    let shapes = first_other_shape(&rt, rt.alloc());
    all_hold(&rt, &[commands, shapes]);
}
