//! Sources, sinks and a chunk, failing calls among them.
use pc_edge::{
    Chunk, Failed, Gate, MemorySink, MemorySource, NeverFails, OpenGate, SIZE, Sink, Source,
    StdSink, StdSource, write_all,
};
use std::alloc::{AllocError, Global};
use std::io::Cursor;

/// What a read comes to: how many bytes or a failure, the first byte of the buffer then, and the faults.
type Reads = (Result<usize, Failed>, u8, u64);

// The second read of `get 5` fails, and a read gives one byte.
const READS: &[Reads] = &[
    (Ok(1), b'g', 0),
    (Err(Failed), 0, 1),
    (Ok(1), b'e', 1),
    (Ok(1), b't', 1),
    (Ok(1), b' ', 1),
    (Ok(1), b'5', 1),
    (Ok(0), 0, 1),
];

fn reads_so(source: &mut MemorySource, wanted: Reads) -> bool {
    let mut buf = [0; 4];
    let count = source.read(&mut buf);
    (count, buf[0], source.faults) == wanted
}

fn all_read_so(source: &mut MemorySource) -> bool {
    for row in READS {
        if !reads_so(source, *row) {
            return false;
        }
    }
    true
}

fn source_reads_so(alloc: Global) -> Result<bool, AllocError> {
    let bytes = Vec::from_slice(alloc, b"get 5")?;
    let fails = Vec::from_slice(alloc, &[2])?;
    let mut source = MemorySource {
        bytes,
        at: 0,
        piece: 1,
        fails,
        calls: 0,
        faults: 0,
    };
    Ok(all_read_so(&mut source))
}

/// A piece that is written, how many bytes of it are taken, what is held then, and the faults.
type Writes = (&'static [u8], Result<usize, Failed>, &'static [u8], u64);

// The second write to a room of five bytes fails, and a write takes three.
const WRITES: &[Writes] = &[
    (b"abcd", Ok(3), b"abc", 0),
    (b"d", Err(Failed), b"abc", 1),
    (b"def", Ok(2), b"abcde", 1),
    (b"f", Err(Failed), b"abcde", 2),
    (b"", Ok(0), b"abcde", 2),
    (b"f", Err(Failed), b"abcde", 3),
];

fn takes_so(sink: &mut MemorySink, wanted: Writes) -> bool {
    let taken = sink.write(wanted.0) == wanted.1;
    taken && sink.held.as_slice() == wanted.2 && sink.faults == wanted.3
}

fn all_taken_so(sink: &mut MemorySink) -> bool {
    for row in WRITES {
        if !takes_so(sink, *row) {
            return false;
        }
    }
    true
}

// A room of real size is found.
fn sink_takes_so(alloc: Global) -> bool {
    match (
        MemorySink::with_room(alloc, 4_194_304, 3),
        Vec::from_slice(alloc, &[2]),
    ) {
        (Ok(mut sink), Ok(fails)) => {
            sink.room = 5;
            sink.fails = fails;
            all_taken_so(&mut sink)
        }
        _ => false,
    }
}

fn gives_so<S: Source>(source: &mut S) -> bool {
    let mut buf = [0; 4];
    let first = source.read(&mut buf) == Ok(4) && buf == *b"get ";
    let second = source.read(&mut buf) == Ok(1) && buf == *b"5et ";
    let last = source.read(&mut buf) == Ok(0) && buf == *b"5et ";
    first && second && last
}

fn other_sources_give_so() -> bool {
    let mut borrowed = NeverFails {
        bytes: b"get 5",
        at: 0,
    };
    let mut standard = StdSource {
        inner: Cursor::new(b"get 5".as_slice()),
        faults: 0,
    };
    gives_so(&mut borrowed) && gives_so(&mut standard)
}

#[test]
fn sources_give_their_bytes_and_fail_at_the_listed_reads(rt: HostRuntime) {
    assert!(rt; source_reads_so(rt.alloc()) == Ok(true) && other_sources_give_so());
    OpenGate.before(1, 1);
    OpenGate.after(1, 1);
}

// Whether `none` and a line feed, written to a buffer with this room, end so and leave it so.
fn fills_so(room: usize, ended: Result<(), Failed>, left: [u8; 5], faults: u64) -> bool {
    let mut bytes = *b".....";
    let mut sink = StdSink {
        inner: &mut bytes[..room.min(5)],
        faults: 0,
    };
    let written = write_all(&mut sink, b"none\n");
    let counted = sink.faults;
    written == ended && counted == faults && bytes == left
}

fn standard_sink_takes_so() -> bool {
    fills_so(5, Ok(()), *b"none\n", 0)
        && fills_so(2, Err(Failed), *b"no...", 1)
        && fills_so(0, Err(Failed), *b".....", 1)
}

// Whether a chunk, filled where it is empty, makes room so on its way to the sink.
fn makes_room_so(
    chunk: &mut Chunk,
    sink: &mut MemorySink,
    room: usize,
    wanted: (Result<(), Failed>, usize, usize),
) -> bool {
    if chunk.is_empty() {
        chunk.push(b"left ");
        chunk.push_number(18446744073709551615);
        chunk.push_byte(b'\n');
    }
    let waiting = chunk.len();
    let sent = chunk.make_room(sink, room.min(SIZE));
    (sent, waiting, sink.held.len()) == wanted
}

fn sends_so(chunk: &mut Chunk, sink: &mut MemorySink) -> bool {
    let fits = makes_room_so(chunk, sink, 20, (Ok(()), 26, 0));
    let sends = makes_room_so(chunk, sink, SIZE, (Ok(()), 26, 26));
    let fails = makes_room_so(chunk, sink, SIZE, (Err(Failed), 26, 30));
    let is_sent = chunk.flush(sink) == Ok(());
    fits && sends && fails && is_sent
}

fn chunk_is_sent(alloc: Global) -> bool {
    match MemorySink::with_room(alloc, 30, 3) {
        Ok(mut sink) => {
            sends_so(&mut Chunk::new(), &mut sink)
                && sink.held.as_slice() == b"left 18446744073709551615\nleft".as_slice()
        }
        Err(_) => false,
    }
}

fn failure_is_shown(alloc: Global) -> bool {
    match format!(in alloc; "{Failed}") {
        Ok(shown) => shown.as_str() == "a read or a write failed",
        Err(_) => false,
    }
}

#[test]
fn sinks_and_chunks_take_what_there_is_room_for(rt: HostRuntime) {
    let alloc = rt.alloc();
    assert!(rt; sink_takes_so(alloc) && standard_sink_takes_so() && chunk_is_sent(alloc));
    assert!(rt; failure_is_shown(alloc));
}
