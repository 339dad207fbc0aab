//! The printed text of a run and of each fault, to sinks in memory.
ghost use Rattle.std.specs.Prelude.{◌≡◌, false};

use crate::tables::all_hold;
use pc_edge::{Failed, MemorySink};
use pc_model::{Call, Counter, Entry, Reply};
use pc_text::{
    Extras, Fault, ScriptKind, ShapeLine, print_fault, print_run, printed_run_fixes_history,
};
use std::alloc::Global;

const TWO_NODES: &[ShapeLine] = &[
    ShapeLine {
        depth: 1,
        key: 3,
        height: 2,
        balance: 1,
    },
    ShapeLine {
        depth: 2,
        key: 1,
        height: 1,
        balance: 0,
    },
];

const LEANING_RIGHT: &[ShapeLine] = &[ShapeLine {
    depth: 1,
    key: 15,
    height: 3,
    balance: -1,
}];

const TWO_CALLS: &[Entry] = &[
    Entry {
        pass: 1,
        number: 1,
        call: Call::Put { key: 5, value: 50 },
        reply: Reply::New,
        stamp: 7,
    },
    Entry {
        pass: 1,
        number: 2,
        call: Call::Get { key: 5 },
        reply: Reply::Value(50),
        stamp: 9,
    },
];

const TWO_LINES: &[u8] = b"1 1.1 put 5 50 = new\n2 1.2 get 5 = 50\nleft 1\n5 50\nend\n";

const OTHER_CALLS: &[Entry] = &[
    Entry {
        pass: 2,
        number: 1,
        call: Call::Put { key: 1, value: 2 },
        reply: Reply::Was(3),
        stamp: 0,
    },
    Entry {
        pass: 2,
        number: 2,
        call: Call::Remove { key: 0 },
        reply: Reply::None,
        stamp: 0,
    },
    Entry {
        pass: 2,
        number: 3,
        call: Call::Ceil { key: 10 },
        reply: Reply::Pair(11, 12),
        stamp: 0,
    },
    Entry {
        pass: 2,
        number: 4,
        call: Call::Floor {
            key: 999_999_999_999_999_999,
        },
        reply: Reply::Pair(0, 0),
        stamp: 0,
    },
];

const OTHER_LINES: &[u8] = b"1 2.1 put 1 2 = was 3\n2 2.2 remove 0 = none\n3 2.3 ceil 10 = 11 12\n\
      4 2.4 floor 999999999999999999 = 0 0\nleft 2\n1 2\n11 12\nend\n";

const SUMMED: &[(&[Entry], Room, Result<(), Failed>, &[u8])] = &[
    (TWO_CALLS, (100, 1), Ok(()), b"2 lines\nend\n"),
    (OTHER_CALLS, (100, 100), Ok(()), b"4 lines\nend\n"),
    (&[], (100, 100), Ok(()), b"0 lines\nend\n"),
    (TWO_CALLS, (9, 2), Err(Failed), b"2 lines\ne"),
];

/// A run: its history, its pairs and its shape.
type Run = (
    &'static [Entry],
    &'static [(u64, u64)],
    Option<&'static [ShapeLine]>,
);

/// A sink: its room, and how many bytes a write takes.
type Room = (usize, usize);

const RUNS: &[(Run, Room, Result<(), Failed>, &[u8])] = &[
    ((TWO_CALLS, &[(5, 50)], None), (1000, 1), Ok(()), TWO_LINES),
    (
        (TWO_CALLS, &[(5, 50)], None),
        (1000, 1000),
        Ok(()),
        TWO_LINES,
    ),
    (
        (&[], &[], Some(&[])),
        (100, 9),
        Ok(()),
        b"left 0\nshape 0\nend\n",
    ),
    (
        (&[], &[], Some(TWO_NODES)),
        (100, 9),
        Ok(()),
        b"left 0\nshape 2\n1 3 2 1\n2 1 1 0\nend\n",
    ),
    (
        (&[], &[], Some(LEANING_RIGHT)),
        (100, 9),
        Ok(()),
        b"left 0\nshape 3\n1 15 3 -1\nend\n",
    ),
    (
        (OTHER_CALLS, &[(1, 2), (11, 12)], None),
        (1000, 7),
        Ok(()),
        OTHER_LINES,
    ),
    ((TWO_CALLS, &[(5, 50)], None), (0, 1000), Err(Failed), b""),
    (
        (TWO_CALLS, &[(5, 50)], None),
        (10, 1000),
        Err(Failed),
        b"1 1.1 put ",
    ),
];

fn prints_so(alloc: Global, run: Run, room: Room, ended: Result<(), Failed>, text: &[u8]) -> bool {
    let extras = Extras {
        shape: run.2,
        summary: false,
    };
    prints_with(alloc, run, extras, room, ended, text)
}

fn prints_with(
    alloc: Global,
    run: Run,
    extras: Extras,
    room: Room,
    ended: Result<(), Failed>,
    text: &[u8],
) -> bool {
    match MemorySink::with_room(alloc, room.0, room.1.max(1)) {
        Ok(mut sink) => {
            let printed = print_run(&mut sink, run.0, run.1, extras);
            printed == ended && sink.held.as_slice() == text
        }
        Err(_) => false,
    }
}

// The first row of the table that is not so.
fn first_run_misprinted(alloc: Global) -> Option<usize> {
    for (i, (run, room, ended, text)) in RUNS.iter().enumerate() {
        if !prints_so(alloc, *run, *room, *ended, text) {
            return Some(i);
        }
    }
    None
}

// The pairs and the shape don't stand in a summary.
fn first_summary_misprinted(alloc: Global) -> Option<usize> {
    let extras = Extras {
        shape: Some(TWO_NODES),
        summary: true,
    };
    for (i, (history, room, ended, text)) in SUMMED.iter().enumerate() {
        let run: Run = (history, &[(5, 50)], None);
        if !prints_with(alloc, run, extras, *room, *ended, text) {
            return Some(i);
        }
    }
    None
}

// Each fault with its status and what is shown of it.
const FAULTS: &[(Fault, u8, &str)] = &[
    (Fault::Usage, 2, "usage"),
    (
        Fault::Script {
            line: 12,
            kind: ScriptKind::BadByte,
        },
        3,
        "line 12 bad byte",
    ),
    (
        Fault::Script {
            line: 12,
            kind: ScriptKind::UnknownWord,
        },
        3,
        "line 12 unknown word",
    ),
    (
        Fault::Script {
            line: 12,
            kind: ScriptKind::WordCount,
        },
        3,
        "line 12 word count",
    ),
    (
        Fault::Script {
            line: 12,
            kind: ScriptKind::BadNumber,
        },
        3,
        "line 12 bad number",
    ),
    (
        Fault::Script {
            line: 12,
            kind: ScriptKind::TooManyClients,
        },
        3,
        "line 12 too many clients",
    ),
    (
        Fault::Script {
            line: 12,
            kind: ScriptKind::TooManyLines,
        },
        3,
        "line 12 too many lines",
    ),
    (Fault::Read, 4, "read"),
    (Fault::TooLargeInput, 6, "input too large"),
    (Fault::TooManySlots, 6, "too many slots"),
    (
        Fault::Slots {
            client: 3,
            number: 40,
        },
        7,
        "slots 3.40",
    ),
    (Fault::Numbers(Counter::Attempt), 8, "numbers attempt"),
    (Fault::Numbers(Counter::Install), 8, "numbers install"),
    (Fault::Numbers(Counter::Stamp), 8, "numbers stamp"),
    (Fault::Numbers(Counter::Version), 8, "numbers version"),
    (Fault::Numbers(Counter::Epoch), 8, "numbers epoch"),
    (Fault::Memory, 9, "memory"),
];

// Whether a fault's line is written so.
fn is_written_so(alloc: Global, fault: &Fault, words: &str) -> bool {
    match MemorySink::with_room(alloc, 100, 100) {
        Ok(mut sink) => print_fault(&mut sink, fault) == Ok(()) && is_line_of(&sink.held, words),
        Err(_) => false,
    }
}

fn is_line_of(line: &[u8], words: &str) -> bool {
    match line.strip_prefix(b"fault ") {
        Some(rest) => rest.strip_suffix(b"\n") == Some(words.as_bytes()),
        None => false,
    }
}

fn is_shown_so(alloc: Global, fault: &Fault, words: &str) -> bool {
    match format!(in alloc; "{fault}") {
        Ok(shown) => shown.as_str() == words,
        Err(_) => false,
    }
}

fn first_fault_mistold(alloc: Global) -> Option<usize> {
    for (i, (fault, status, words)) in FAULTS.iter().enumerate() {
        let is_told = is_written_so(alloc, fault, words) && is_shown_so(alloc, fault, words);
        if !is_told || fault.status() != *status {
            return Some(i);
        }
    }
    None
}

#[test]
fn runs_and_faults_have_their_texts_or_a_front_of_them(rt: HostRuntime) {
    let alloc = rt.alloc();
    all_hold(
        &rt,
        &[
            first_run_misprinted(alloc),
            first_summary_misprinted(alloc),
            first_fault_mistold(alloc),
        ],
    );
    printed_run_fixes_history();
}
