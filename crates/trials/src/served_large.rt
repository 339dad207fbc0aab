//! What `serve` does with inputs of full size.
use crate::serving::{Ending, Given, ends_so};
use crate::tables::all_hold;
use pc_text::MOST_BYTES;
use std::alloc::{AllocError, Global};
use std::sync::Wait;
use std::thread::Threads;

// So many lines that put, at keys that are all different, in no order.
fn puts(alloc: Global, count: usize) -> Result<Vec<u8>, AllocError> {
    let mut bytes = Vec::new(alloc);
    let mut key: u16 = 0;
    for _ in 0..count {
        let line = format!(in alloc; "put {key} 1\n")?;
        bytes.extend_from_slice(line.as_bytes())?;
        key = key.wrapping_add(40_503);
    }
    Ok(bytes)
}

fn gets(alloc: Global, count: usize) -> Result<Vec<u8>, AllocError> {
    let mut bytes = Vec::new(alloc);
    for _ in 0..count {
        bytes.extend_from_slice(b"get 1\n")?;
    }
    Ok(bytes)
}

fn spaces(alloc: Global, count: usize) -> Result<Vec<u8>, AllocError> {
    vec![in alloc; b' '; count]
}

/// What an input is made of.
#[derive(Clone, Copy)]
enum Made {
    Spaces,
    Gets,
    Puts,
}

fn bytes_of(alloc: Global, of: Made, count: usize) -> Result<Vec<u8>, AllocError> {
    match of {
        Made::Spaces => spaces(alloc, count),
        Made::Gets => gets(alloc, count),
        Made::Puts => puts(alloc, count),
    }
}

/// What is read, how many times, the status, the reads that there were, and the first part of the output.
type Large = (Made, usize, u8, u64, &'static [u8]);

// The most bytes, commands and pairs find their memory; one byte more, and one command more, are refused.
const LARGE: &[Large] = &[
    (Made::Spaces, MOST_BYTES, 0, 65, b"left 0\nend\n"),
    (
        Made::Spaces,
        MOST_BYTES + 1,
        6,
        65,
        b"fault input too large\n",
    ),
    (Made::Gets, 60_000, 0, 7, b"1 1.1 get 1 = none\n"),
    (
        Made::Gets,
        60_001,
        3,
        7,
        b"fault line 60001 too many lines\n",
    ),
    (Made::Puts, 60_000, 0, 12, b"1 1.1 put 0 1 = new\n"),
];

fn large_ends_so<R: Threads + Wait + Sync>(rt: &R, alloc: Global, row: Large) -> bool {
    let ending = Ending {
        status: row.2,
        reads: row.3,
        text: row.4,
        is_whole: false,
    };
    match bytes_of(alloc, row.0, row.1) {
        Ok(bytes) => {
            let given = Given {
                words: &["pathmap"],
                input: &bytes,
                fails: 0,
                room: 3_000_000,
                piece: 1_000_000,
            };
            ends_so(rt, alloc, given, ending)
        }
        Err(_) => false,
    }
}

fn first_other_large_input<R: Threads + Wait + Sync>(rt: &R, alloc: Global) -> Option<usize> {
    for (i, row) in LARGE.iter().enumerate() {
        if !large_ends_so(rt, alloc, *row) {
            return Some(i);
        }
    }
    None
}

#[test]
fn inputs_of_full_size_are_run(rt: HostRuntime) {
    all_hold(&rt, &[first_other_large_input(&rt, rt.alloc())]);
}
