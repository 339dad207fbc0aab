//! Runs of `serve` over a source and a sink in memory, and how they end.
use pc_edge::{Gate, MemorySink, MemorySource, OpenGate};
use pc_serve::serve;
use std::alloc::{AllocError, Global};
use std::sync::Wait;
use std::thread::Threads;

/// What a run is given: the words; the input, and which read of it fails, where that isn't 0; how many bytes the sink
/// has room for; and how many bytes a read gives, and a write takes, at most.
#[derive(Clone, Copy)]
pub struct Given<'a> {
    pub words: &'a [&'a str],
    pub input: &'a [u8],
    pub fails: u64,
    pub room: usize,
    pub piece: usize,
}

/// How a run ends: its status, how many reads there were, and what is written, all of it or its first part.
#[derive(Clone, Copy)]
pub struct Ending<'a> {
    pub status: u8,
    pub reads: u64,
    pub text: &'a [u8],
    pub is_whole: bool,
}

/// A run of `serve` that ended.
#[derive(Drop)]
struct ServedRun {
    status: u8,
    reads: u64,
    held: Vec<u8>,
}

pub fn strings_of(alloc: Global, words: &[&str]) -> Result<Vec<String>, AllocError> {
    let mut strings = Vec::new(alloc);
    for word in words {
        strings.push(String::from_str(alloc, word)?)?;
    }
    Ok(strings)
}

fn source_of(alloc: Global, given: Given) -> Result<MemorySource, AllocError> {
    let bytes = Vec::from_slice(alloc, given.input)?;
    let fails = Vec::from_slice(alloc, &[given.fails])?;
    Ok(MemorySource {
        bytes,
        at: 0,
        piece: given.piece.max(1),
        fails,
        calls: 0,
        faults: 0,
    })
}

pub fn sink_of(alloc: Global, room: usize, piece: usize) -> Result<MemorySink, AllocError> {
    match MemorySink::with_room(alloc, room, piece.max(1)) {
        Ok(sink) => Ok(sink),
        Err(_) => Err(AllocError),
    }
}

fn served<R: Threads + Wait + Sync, G: Gate + Sync>(
    rt: &R,
    alloc: Global,
    given: Given,
    gate: &G,
) -> Result<ServedRun, AllocError> {
    let words = strings_of(alloc, given.words)?;
    let mut source = source_of(alloc, given)?;
    let mut sink = sink_of(alloc, given.room, given.piece)?;
    let outcome = serve(rt, alloc, &words, &mut source, &mut sink, gate);
    Ok(ServedRun {
        status: outcome.status,
        reads: source.calls,
        held: sink.held,
    })
}

// Whether a run ends so.
pub fn ends_so<R: Threads + Wait + Sync>(
    rt: &R,
    alloc: Global,
    given: Given,
    ending: Ending,
) -> bool {
    match served(rt, alloc, given, &OpenGate) {
        Ok(served) => {
            let counts = (served.status, served.reads) == (ending.status, ending.reads);
            counts && is_text(&served.held, ending)
        }
        Err(_) => false,
    }
}

fn is_text(held: &[u8], ending: Ending) -> bool {
    if ending.is_whole {
        held == ending.text
    } else {
        held.starts_with(ending.text)
    }
}

// The status of a run under a gate, and the first of some texts that it writes.
pub fn served_under<R: Threads + Wait + Sync, G: Gate + Sync>(
    rt: &R,
    alloc: Global,
    given: Given,
    gate: &G,
    texts: &[&str],
) -> Option<(u8, Option<usize>)> {
    match served(rt, alloc, given, gate) {
        Ok(served) => Some((served.status, place_of(&served.held, texts))),
        Err(_) => None,
    }
}

// The place of the first text that is the bytes.
fn place_of(bytes: &[u8], texts: &[&str]) -> Option<usize> {
    for (i, text) in texts.iter().enumerate() {
        if bytes == text.as_bytes() {
            return Some(i);
        }
    }
    None
}
