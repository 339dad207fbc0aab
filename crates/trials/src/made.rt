//! Scripts that are made from a seed: as bytes, to sinks in memory, and read back.
use pc_edge::{Failed, MemorySink};
use pc_model::{Call, Memory};
use pc_text::{
    MOST_BYTES, Script, made_scripts_read_back, make_script, read_script, write_made,
    written_clients_read_back,
};
use std::alloc::Global;

const THREE: &[u8] = b"client 1\nceil 758\nput 515 31051\nget 10\n";

const TWO_OF_TWO: &[u8] =
    b"client 1\nput 864 10994\nput 316 24833\nclient 2\nput 155 11119\nfloor 102\n";

const FIRST_OF_SEVEN: Call = Call::Put {
    key: 864,
    value: 10_994,
};

// Whether a script was made, with this text.
fn is_text(made: Result<Vec<u8>, Memory>, text: &[u8]) -> bool {
    match made {
        Ok(bytes) => bytes.as_slice() == text,
        Err(_) => false,
    }
}

// Whether the script of three commands is written so to a sink with this room.
fn three_are_written_so(
    alloc: Global,
    room: usize,
    piece: usize,
    ended: Result<(), Failed>,
    text: &[u8],
) -> bool {
    match MemorySink::with_room(alloc, room, piece.max(1)) {
        Ok(mut sink) => write_made(&mut sink, 0, 1, 3) == ended && sink.held.as_slice() == text,
        Err(_) => false,
    }
}

// Whether bytes are a script of so many clients with so many commands each, the first of which is this.
fn are_read_so(alloc: Global, bytes: &[u8], clients: u32, commands: usize, first: Call) -> bool {
    if bytes.len() > MOST_BYTES {
        return false;
    }
    match read_script(alloc, bytes) {
        Ok(script) => {
            script.clients == clients && have_each(&script, commands) && begins(&script, first)
        }
        Err(_) => false,
    }
}

fn have_each(script: &Script, commands: usize) -> bool {
    for calls in &script.calls {
        if calls.len() != commands {
            return false;
        }
    }
    true
}

fn begins(script: &Script, first: Call) -> bool {
    match script.calls.as_slice().first() {
        Some(calls) => calls.as_slice().first() == Some(&first),
        None => false,
    }
}

fn have_their_bytes(alloc: Global) -> bool {
    is_text(make_script(alloc, 0, 1, 3), THREE) && is_text(make_script(alloc, 7, 2, 2), TWO_OF_TWO)
}

fn are_written_so(alloc: Global) -> bool {
    three_are_written_so(alloc, 100, 1, Ok(()), THREE)
        && three_are_written_so(alloc, 100, 100, Ok(()), THREE)
        && three_are_written_so(alloc, 12, 5, Err(Failed), b"client 1\ncei")
}

// Whether the script of a seed for the most clients has its length, and its commands.
fn is_read_back(alloc: Global) -> bool {
    match make_script(alloc, 7, 32, 500) {
        Ok(bytes) => {
            bytes.len() == 172_542 && are_read_so(alloc, &bytes, 32, 500, FIRST_OF_SEVEN)
        }
        Err(_) => false,
    }
}

#[test]
fn made_scripts_have_their_bytes_and_read_back(rt: HostRuntime) {
    let alloc = rt.alloc();
    assert!(&rt; have_their_bytes(alloc) && are_written_so(alloc) && is_read_back(alloc));
    call_laws();
}

// The laws can be called.
fn call_laws() {
    made_scripts_read_back();
    written_clients_read_back();
}
