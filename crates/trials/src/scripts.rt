//! Scripts that are read, and those that are refused with the first bad line.
ghost use Rattle.std.specs.Prelude.{◌≤◌, length};

use crate::tables::all_hold;
use pc_model::Call;
use pc_text::{
    MOST_BYTES, Script, ScriptFault, ScriptKind, empty_input_gives_empty_script, read_script,
    written_commands_read_back,
};
use std::alloc::{AllocError, Global};

const PUT_AND_GET: &[Call] = &[Call::Put { key: 7, value: 1 }, Call::Get { key: 7 }];

const FIVE_COMMANDS: &[Call] = &[
    Call::Put { key: 5, value: 50 },
    Call::Get { key: 5 },
    Call::Remove { key: 5 },
    Call::Ceil { key: 5 },
    Call::Floor { key: 5 },
];

const LAST_NUMBERS: &[Call] = &[
    Call::Put { key: 0, value: 0 },
    Call::Put {
        key: 999_999_999_999_999_999,
        value: 999_999_999_999_999_999,
    },
];

const GET_SEVEN: &[Call] = &[Call::Get { key: 7 }];

const GET_ONE: &[Call] = &[Call::Get { key: 1 }];

const FIRST: &[Call] = &[Call::Get { key: 1 }, Call::Get { key: 3 }];

const THIRD: &[Call] = &[Call::Get { key: 2 }, Call::Get { key: 4 }];

// What the bytes spell, or memory where they are too many.
fn read(alloc: Global, bytes: &[u8]) -> Result<Script, ScriptFault> {
    if bytes.len() > MOST_BYTES {
        return Err(ScriptFault::Memory);
    }
    read_script(alloc, bytes)
}

// Whether the bytes spell a script of clients with these calls.
fn are_read(alloc: Global, bytes: &[u8], wanted: &[&[Call]]) -> bool {
    match read(alloc, bytes) {
        Ok(script) => script.clients as usize == wanted.len() && are_equal(&script.calls, wanted),
        Err(_) => false,
    }
}

fn are_equal(lists: &[Vec<Call>], wanted: &[&[Call]]) -> bool {
    if lists.len() != wanted.len() {
        return false;
    }
    for (i, calls) in wanted.iter().enumerate() {
        if lists[i].as_slice() != *calls {
            return false;
        }
    }
    true
}

// How many clients and how many calls of client 2 the bytes spell, or why none.
fn counts(alloc: Global, bytes: &[u8]) -> Result<(u32, usize), ScriptFault> {
    let script = read(alloc, bytes)?;
    match script.calls.get(1) {
        Some(calls) => Ok((script.clients, calls.len())),
        None => Ok((script.clients, 0)),
    }
}

const SCRIPTS: &[(&[u8], &[&[Call]])] = &[
    (b"", &[&[]]),
    (
        b"# Z\xc3\xbcrich\r\n\r\n  put\t007 1\r\nget 7",
        &[PUT_AND_GET],
    ),
    (
        b"put 5 50\nget 5\nremove 5\nceil 5\nfloor 5\n",
        &[FIVE_COMMANDS],
    ),
    (
        b"put 0 0\nput 999999999999999999 999999999999999999\n",
        &[LAST_NUMBERS],
    ),
    (
        b"put 0 0\nput 0000000000000999999999999999999 0999999999999999999",
        &[LAST_NUMBERS],
    ),
    (b"get 00000000000000000000000000000000007", &[GET_SEVEN]),
    (b"get 7\r", &[GET_SEVEN]),
    (b"\t get \t 7 \t\n", &[GET_SEVEN]),
    (b"\nget 7\n\n", &[GET_SEVEN]),
    (b"client 1\nget 7\nclient 01\n", &[GET_SEVEN]),
    (b"\r", &[&[]]),
    (b" \t \r\n\t", &[&[]]),
    (b"#", &[&[]]),
    (
        b"#\x00\x1f\x7f\x80\xff\x0b\x0c\r\r\nget 7\n#\r\r",
        &[GET_SEVEN],
    ),
    (b" \t# get 8\nget 7\n  #get 8", &[GET_SEVEN]),
    (b"#client 9\n#", &[&[]]),
    (b"client 5", &[&[], &[], &[], &[], &[]]),
    (
        b"get 1\nclient 3\nget 2\nclient 1\nget 3\nclient 3\nget 4\nclient 4\n",
        &[FIRST, &[], THIRD, &[]],
    ),
    (b"client 2\nclient 3\nclient 2\nget 1", &[&[], GET_ONE, &[]]),
    (b"client 00003\nclient 1\nget 1", &[GET_ONE, &[], &[]]),
    (
        b"client 32\nclient 1\nget 1",
        &[
            GET_ONE,
            &[],
            &[],
            &[],
            &[],
            &[],
            &[],
            &[],
            &[],
            &[],
            &[],
            &[],
            &[],
            &[],
            &[],
            &[],
            &[],
            &[],
            &[],
            &[],
            &[],
            &[],
            &[],
            &[],
            &[],
            &[],
            &[],
            &[],
            &[],
            &[],
            &[],
            &[],
        ],
    ),
];

// The first row of the table that is not so.
fn first_script_misread(alloc: Global) -> Option<usize> {
    for (i, (bytes, wanted)) in SCRIPTS.iter().enumerate() {
        if !are_read(alloc, bytes, wanted) {
            return Some(i);
        }
    }
    None
}

const BAD_LINES: &[(&[u8], u32, ScriptKind)] = &[
    (b"get 1\nGet 1\n", 2, ScriptKind::UnknownWord),
    (b"put 1", 1, ScriptKind::WordCount),
    (b"get +1\n", 1, ScriptKind::BadNumber),
    (b"foo\x00", 1, ScriptKind::BadByte),
    (b"client 0", 1, ScriptKind::BadNumber),
    (b"client 33\n", 1, ScriptKind::TooManyClients),
    (b"put 1000000000000000000 1\n", 1, ScriptKind::BadNumber),
    (b"put 1 1000000000000000000\n", 1, ScriptKind::BadNumber),
    (b"get 000001000000000000000000", 1, ScriptKind::BadNumber),
    (b"get 9999999999999999999999999", 1, ScriptKind::BadNumber),
    (b"\n\n# get\n\r\nput 1 2 3", 5, ScriptKind::WordCount),
    (b"get", 1, ScriptKind::WordCount),
    (b"get 1 2", 1, ScriptKind::WordCount),
    (b"get 1 # one", 1, ScriptKind::WordCount),
    (b"client", 1, ScriptKind::WordCount),
    (b"client 1 2", 1, ScriptKind::WordCount),
    (b"getx 1", 1, ScriptKind::UnknownWord),
    (b"ge 1", 1, ScriptKind::UnknownWord),
    (b"1 get", 1, ScriptKind::UnknownWord),
    (b"get -1", 1, ScriptKind::BadNumber),
    (b"get 1x", 1, ScriptKind::BadNumber),
    (b"client 00", 1, ScriptKind::BadNumber),
    (b"client 99999999999", 1, ScriptKind::TooManyClients),
    // A byte that may not stand there.
    (b"\r\r\n", 1, ScriptKind::BadByte),
    (b"get\r 1\n", 1, ScriptKind::BadByte),
    (b"get 1\r\r\n", 1, ScriptKind::BadByte),
    (b"get 1\rget 2\n", 1, ScriptKind::BadByte),
    (b"get 1\n\rget 2\n", 2, ScriptKind::BadByte),
    (b"\x0b# get 1\n", 1, ScriptKind::BadByte),
    (b"get 7\n~\x0c", 2, ScriptKind::BadByte),
    (b" ~", 1, ScriptKind::UnknownWord),
    // Of two kinds on a line the first counts.
    (b"foo\x1f", 1, ScriptKind::BadByte),
    (b"get 1 \x7f", 1, ScriptKind::BadByte),
    (b"get \x80", 1, ScriptKind::BadByte),
    (b"client 33 \xff", 1, ScriptKind::BadByte),
    (b"foo 1 2 3", 1, ScriptKind::UnknownWord),
    (b"foo x", 1, ScriptKind::UnknownWord),
    (b"Client 33", 1, ScriptKind::UnknownWord),
    (b"put x", 1, ScriptKind::WordCount),
    (b"client 0 0", 1, ScriptKind::WordCount),
    (b"client 33 1", 1, ScriptKind::WordCount),
    (b"client 1000000000000000000", 1, ScriptKind::BadNumber),
    (b"client 33x", 1, ScriptKind::BadNumber),
    // Of two bad lines the first counts.
    (b"client 33\nget 1\x00\n", 1, ScriptKind::TooManyClients),
    (b"get x\nput 1\n", 1, ScriptKind::BadNumber),
];

fn first_fault_mistold(alloc: Global) -> Option<usize> {
    for (i, (bytes, line, kind)) in BAD_LINES.iter().enumerate() {
        let (line, kind) = (*line, *kind);
        if counts(alloc, bytes) != Err(ScriptFault::Bad { line, kind }) {
            return Some(i);
        }
    }
    None
}

/// The first bytes of a script, those that come again and again, how often, and the last.
type Long = (&'static [u8], &'static [u8], usize, &'static [u8]);

const MANY: &[u8] = b"# many\nclient 2\n";

const LONG_SCRIPTS: &[(Long, Result<(u32, usize), ScriptFault>)] = &[
    ((b"", b"                ", 262_144, b""), Ok((1, 0))),
    (
        (MANY, b"get 1\n", 60_000, b"#\n\nclient 32\n"),
        Ok((32, 60_000)),
    ),
    (
        (MANY, b"get 1\n", 60_000, b"get 1"),
        Err(ScriptFault::Bad {
            line: 60_003,
            kind: ScriptKind::TooManyLines,
        }),
    ),
    (
        (MANY, b"get 1\n", 60_000, b"#\n\nclient 3\nfloor 1\n"),
        Err(ScriptFault::Bad {
            line: 60_006,
            kind: ScriptKind::TooManyLines,
        }),
    ),
    (
        (MANY, b"get 1\n", 60_000, b"get 1\nfoo"),
        Err(ScriptFault::Bad {
            line: 60_003,
            kind: ScriptKind::TooManyLines,
        }),
    ),
    (
        (MANY, b"get 1\n", 60_000, b"get 1000000000000000000"),
        Err(ScriptFault::Bad {
            line: 60_003,
            kind: ScriptKind::BadNumber,
        }),
    ),
    (
        (MANY, b"get 1\n", 60_000, b"foo 1\nget 1"),
        Err(ScriptFault::Bad {
            line: 60_003,
            kind: ScriptKind::UnknownWord,
        }),
    ),
];

fn join(bytes: &mut Vec<u8>, long: Long) -> Result<(), AllocError> {
    bytes.extend_from_slice(long.0)?;
    for _ in 0..long.2 {
        bytes.extend_from_slice(long.1)?;
    }
    bytes.extend_from_slice(long.3)
}

fn first_long_script_misread(alloc: Global) -> Option<usize> {
    for (i, (long, wanted)) in LONG_SCRIPTS.iter().enumerate() {
        if !is_read_so(alloc, *long, *wanted) {
            return Some(i);
        }
    }
    None
}

fn is_read_so(alloc: Global, long: Long, wanted: Result<(u32, usize), ScriptFault>) -> bool {
    let mut bytes = Vec::new(alloc);
    join(&mut bytes, long).is_ok() && counts(alloc, &bytes) == wanted
}

#[test]
fn scripts_are_read_or_their_first_bad_line_is_told(rt: HostRuntime) {
    let alloc = rt.alloc();
    // Among the long ones the most commands and the most bytes find their memory, and one command more is refused.
    let wrong = [
        first_script_misread(alloc),
        first_fault_mistold(alloc),
        first_long_script_misread(alloc),
    ];
    all_hold(&rt, &wrong);
    empty_input_gives_empty_script();
    written_commands_read_back();
}
