//! A source and a sink in memory, whose answers are known to the byte and to the call. They can be
//! told which of their calls fail.
ghost use Rattle.std.specs.Prelude.{◌≡◌, ℕ, ◌+◌, ◌<◌, ◌≤◌, List, [], length, drop, Option, Some, IfOk, OnOk, OnErr};
ghost use Rattle.std.specs.Prelude.{IsOk, is_err, vec_capacity};
ghost use Rattle.std.specs.Io.KnownBytes.{ReadConsumes, WriteAppends};
ghost use Rattle.pc_edge.specs.Faults.{HasRisen};
ghost use Rattle.pc_edge.specs.InMemory.{SourceState, SinkState, left_of, read_fails, read_count, after_read};
ghost use Rattle.pc_edge.specs.InMemory.{write_fails, write_count, after_write};

use super::copy::give;
use super::traits::{Failed, Sink, Source};
use pc_model::Memory;
use std::alloc::Global;
use std::marker::Model;

/// A source over bytes that it owns. A read gives at most `piece` bytes, which is at least 1, and
/// fails where its number, counted from 1, is listed in `fails`. The counts stand still at their
/// last value.
#[derive(Drop)]
pub struct MemorySource {
    /// All the bytes.
    pub bytes: Vec<u8>,
    /// How many of them were read.
    pub at: usize,
    /// How many bytes a read gives at most.
    pub piece: usize,
    /// The numbers of the reads that fail.
    pub fails: Vec<u64>,
    /// How many reads there were.
    pub calls: u64,
    /// How many of them failed.
    pub faults: u64,
}

impl Model for MemorySource {
    ghost Value = { SourceState };

    ghost view = { λ s. record {
      bytes = s.bytes.items;
      at = s.at;
      piece = s.piece;
      fails = s.fails.items;
      calls = s.calls;
      faults = s.faults;
    } };

    ghost invariant = { λ s. 1 ≤ s.piece };
}

impl Source for MemorySource {
    ghost left = { λ s. Some (left_of s) };

    ghost faults = { λ s. s.faults };

    fn read(&mut self, buf: &mut [u8]) -> Result<usize, Failed>
        ensures bound { IfOk result (λ n. n ≤ length buf.new) }
        ensures bytes { ReadConsumes (Some (left_of self.old)) (Some (left_of self.new)) result buf.new }
        ensures cause { OnErr result (HasRisen self.old.faults self.new.faults) }
        ensures never_falls { self.old.faults ≤ self.new.faults }
        // Exactly the listed calls fail, and the others give as much as they can.
        ensures fails { is_err result ≡ read_fails self.old }
        ensures count { IfOk result (λ n. n ≡ read_count self.old (length buf.old)) }
        ensures after { self.new ≡ after_read self.old (length buf.old) }
    {
        self.calls = self.calls.saturating_add(1);
        if self.fails.as_slice().contains(&self.calls) {
            self.faults = self.faults.saturating_add(1);
            return Err(Failed);
        }
        let count = give(self.bytes.as_slice(), self.at, self.piece, buf);
        self.at += count;
        Ok(count)
    }
}

/// A sink that holds at most `room` bytes in memory that was reserved when it was made, so a write
/// takes none. It takes at most `piece` bytes a write, which is at least 1, and fails where the
/// write's number, counted from 1, is listed in `fails`, or where it has bytes to take and is full.
/// The counts stand still at their last value.
#[derive(Drop)]
pub struct MemorySink {
    /// The bytes that were taken.
    pub held: Vec<u8>,
    /// How many bytes can be held.
    pub room: usize,
    /// How many bytes a write takes at most.
    pub piece: usize,
    /// The numbers of the writes that fail.
    pub fails: Vec<u64>,
    /// How many writes there were.
    pub calls: u64,
    /// How many of them failed.
    pub faults: u64,
}

impl Model for MemorySink {
    ghost Value = { SinkState };

    ghost view = { λ s. record {
      held = s.held.items;
      room = s.room;
      piece = s.piece;
      fails = s.fails.items;
      calls = s.calls;
      faults = s.faults;
    } };

    ghost invariant = { λ s. (1 ≤ s.piece) × (length s.held.items ≤ s.room) × (s.room ≤ vec_capacity s.held) };
}

impl MemorySink {
    /// An empty sink with this room, which it reserves, and no failing calls.
    pub fn with_room(alloc: Global, room: usize, piece: usize) -> Result<MemorySink, Memory>
        requires { 1 ≤ piece }
        ensures { IfOk result (λ s. s ≡ record {
          held = [];
          room = room;
          piece = piece;
          fails = [];
          calls = 0;
          faults = 0;
        }) }
    {
        match Vec::with_capacity(alloc, room) {
            Err(_) => Err(Memory),
            Ok(held) => Ok(MemorySink {
                held,
                room,
                piece,
                fails: Vec::new(alloc),
                calls: 0,
                faults: 0,
            }),
        }
    }
}

impl Sink for MemorySink {
    ghost held = { λ s. Some s.held };

    ghost faults = { λ s. s.faults };

    fn write(&mut self, piece: &[u8]) -> Result<usize, Failed>
        ensures bound { IfOk result (λ n. n ≤ length piece.now) }
        ensures progress { 0 < length piece.now → IfOk result (λ n. 0 < n) }
        ensures bytes { WriteAppends (Some self.old.held) (Some self.new.held) result piece.now }
        ensures cause { OnErr result (HasRisen self.old.faults self.new.faults) }
        ensures never_falls { self.old.faults ≤ self.new.faults }
        // Exactly the listed calls and those of a full sink fail, and the others take what they can.
        ensures fails { is_err result ≡ write_fails self.old (length piece.now) }
        ensures count { IfOk result (λ n. n ≡ write_count self.old (length piece.now)) }
        ensures after { self.new ≡ after_write self.old piece.now }
    {
        self.calls = self.calls.saturating_add(1);
        let is_listed = self.fails.as_slice().contains(&self.calls);
        let is_full = piece.len() > 0 && self.held.len() >= self.room;
        if is_listed || is_full {
            self.faults = self.faults.saturating_add(1);
            return Err(Failed);
        }
        let count = self.piece.min(piece.len()).min(self.room - self.held.len());
        match self.held.extend_from_slice(&piece[..count]) {
            Ok(()) => Ok(count),
            Err(_) => unreachable!(),
        }
    }
}
