//! A chunk gathers text on its way to a sink. What is put into it can't fail and takes no memory;
//! only sending it on can fail. The sink lies beside the chunk, not in it.
ghost use Rattle.std.specs.Prelude.{◌≡◌, ◌↔◌, ℕ, ◌+◌, ◌<◌, ◌≤◌, List, [], ◌∷◌, ◌++◌, length, take, IsTrue, OnOk};
ghost use Rattle.std.specs.Fmt.{decimal};
ghost use Rattle.pc_edge.specs.Sending.{Writes};

use super::traits::{Failed, Sink};
use itoa::write_digits;
use std::marker::Model;

/// How many bytes a chunk holds at most.
pub const SIZE: usize = 8192;

/// How many digits a number of 64 bits has at most.
pub const DIGITS: usize = 20;

/// Text that waits to be sent to a sink. In contracts it is the list of its bytes.
#[derive(Drop)]
pub struct Chunk {
    bytes: [u8; SIZE],
    used: usize,
}

impl Model for Chunk {
    ghost use Rattle.std.specs.Prelude.{ℕ, ◌≤◌, List, take};
    ghost use Rattle.pc_edge.specs.declared.chunk.TheConstants.{SIZE};

    ghost Value = { List ℕ };

    ghost view = { λ c. take c.used c.bytes };

    ghost invariant = { λ c. c.used ≤ SIZE };
}

impl Chunk {
    /// An empty chunk.
    pub fn new() -> Chunk
        ensures { result ≡ [] }
    {
        Chunk {
            bytes: [0; SIZE],
            used: 0,
        }
    }

    /// How many bytes wait.
    pub fn len(&self) -> usize
        ensures { result ≡ length self.now }
    {
        self.used
    }

    /// Whether nothing waits.
    pub fn is_empty(&self) -> bool
        ensures { IsTrue result ↔ (self.now ≡ []) }
    {
        self.used == 0
    }

    /// Puts a text after what waits.
    pub fn push(&mut self, text: &[u8])
        requires { length self.old + length text.now ≤ SIZE }
        ensures { self.new ≡ self.old ++ text.now }
    {
        let end = self.used + text.len();
        self.bytes[self.used..end].copy_from_slice(text);
        self.used = end;
    }

    /// Puts a byte after what waits.
    pub fn push_byte(&mut self, byte: u8)
        requires { length self.old < SIZE }
        ensures { self.new ≡ self.old ++ byte ∷ [] }
    {
        self.bytes[self.used] = byte;
        self.used += 1;
    }

    /// Puts a number after what waits, in decimal digits with no leading zeros.
    pub fn push_number(&mut self, n: u64)
        requires { length self.old + DIGITS ≤ SIZE }
        ensures digits { self.new ≡ self.old ++ decimal n }
        ensures short { length self.new ≤ length self.old + DIGITS }
    {
        let mut digits = [0; DIGITS];
        let start = write_digits(n, &mut digits, DIGITS);
        self.push(&digits[start..]);
    }

    /// Sends all that waits. Afterwards the chunk is empty, also where the sink failed: then a
    /// front of what waited was sent, and the rest is given up.
    pub fn flush<K: Sink>(&mut self, sink: &mut K) -> Result<(), Failed>
        ensures written { Writes K.held K.faults sink.old sink.new self.old [] result }
        ensures empty { self.new ≡ [] }
    {
        let sent = write_all(sink, &self.bytes[..self.used]);
        self.used = 0;
        sent
    }

    /// Makes room for so many bytes more, by sending what waits where they would not fit.
    pub fn make_room<K: Sink>(&mut self, sink: &mut K, room: usize) -> Result<(), Failed>
        requires { room ≤ SIZE }
        ensures room { OnOk result (length self.new + room ≤ SIZE) }
        ensures written { Writes K.held K.faults sink.old sink.new self.old self.new result }
    {
        if SIZE - self.used < room {
            return self.flush(sink);
        }
        Ok(())
    }
}

/// Writes all of a piece to a sink, by as many writes as it takes.
pub fn write_all<K: Sink>(sink: &mut K, piece: &[u8]) -> Result<(), Failed>
    ensures { Writes K.held K.faults sink.old sink.new piece.now [] result }
{
    let mut at = 0;
    while at < piece.len() {
        at += sink.write(&piece[at..])?;
    }
    Ok(())
}
