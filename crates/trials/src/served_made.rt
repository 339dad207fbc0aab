//! What `serve_make` answers and writes, over sinks in memory.
use crate::serving::{sink_of, strings_of};
use crate::tables::all_hold;
use pc_serve::{STOPPED, WRITTEN, serve_make};
use std::alloc::{AllocError, Global};

const THREE: &str = "client 1\nceil 758\nput 515 31051\nget 10\n";

const USAGE: &str = "fault usage\n";

/// The words, the status, and the output.
type Row = (&'static [&'static str], u8, &'static str);

const ROWS: &[Row] = &[
    (&["pathmap_make", "0", "1", "3"], WRITTEN, THREE),
    // Zeros may stand in front, as in a script, and the state of a generator is below 2^31.
    (&["pathmap_make", "000", "01", "003"], WRITTEN, THREE),
    (&["pathmap_make", "2147483648", "1", "3"], WRITTEN, THREE),
    // A name that is a number is a name.
    (&["0", "0", "1", "3"], WRITTEN, THREE),
    (&["pathmap_make", "0", "33", "3"], 2, USAGE),
    (&["pathmap_make", "0", "0", "3"], 2, USAGE),
    (&["pathmap_make", "0", "1", "0"], 2, USAGE),
    (&["pathmap_make", "0", "1", "60001"], 2, USAGE),
    (&["pathmap_make", "0", "32", "1876"], 2, USAGE),
    (&["pathmap_make", "0", "32", "999999999999999999"], 2, USAGE),
    (&["pathmap_make", "1000000000000000000", "1", "3"], 2, USAGE),
    (&["pathmap_make", "+1", "1", "3"], 2, USAGE),
    (&["pathmap_make", "0", "", "3"], 2, USAGE),
    (&["pathmap_make", "0", "1", " 3"], 2, USAGE),
    (&["pathmap_make", "0", "1"], 2, USAGE),
    (&["pathmap_make", "0", "1", "3", "4"], 2, USAGE),
    (&["pathmap_make"], 2, USAGE),
    (&[], 2, USAGE),
];

// The status of a script that is written to a sink with this room, and what it holds then.
fn made(alloc: Global, words: &[&str], room: usize) -> Result<(u8, Vec<u8>), AllocError> {
    let words = strings_of(alloc, words)?;
    let mut sink = sink_of(alloc, room, 7)?;
    let outcome = serve_make(&words, &mut sink);
    Ok((outcome.status, sink.held))
}

// Whether it ends so, with this text.
fn ends_so(alloc: Global, words: &[&str], room: usize, status: u8, text: &[u8]) -> bool {
    match made(alloc, words, room) {
        Ok((ended, held)) => ended == status && held.as_slice() == text,
        Err(_) => false,
    }
}

fn first_other_row(alloc: Global) -> Option<usize> {
    for (i, (words, status, output)) in ROWS.iter().enumerate() {
        if !ends_so(alloc, words, 100, *status, output.as_bytes()) {
            return Some(i);
        }
    }
    None
}

// Whether a script of so many bytes is written.
fn writes_all(alloc: Global, words: &[&str], bytes: usize) -> bool {
    match made(alloc, words, 1_000_000) {
        Ok((status, held)) => status == WRITTEN && held.len() == bytes,
        Err(_) => false,
    }
}

#[test]
fn each_command_line_has_its_script(rt: HostRuntime) {
    let alloc = rt.alloc();
    all_hold(&rt, &[first_other_row(alloc)]);
    // A sink that is full holds a front.
    let words: &[&str] = &["pathmap_make", "0", "1", "3"];
    assert!(&rt; ends_so(alloc, words, 12, STOPPED, b"client 1\ncei"));
    assert!(&rt; ends_so(alloc, &["pathmap_make"], 3, 2, b"fau"));
    // The most commands are written.
    let words: &[&str] = &["pathmap_make", "7", "32", "1875"];
    assert!(&rt; writes_all(alloc, words, 646_109));
}
