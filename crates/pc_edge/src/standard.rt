//! The other sources, sinks and gates: over the standard library's readers and writers, over bytes
//! that are borrowed and never fail, and a gate that lets everything through.
ghost use Rattle.std.specs.Prelude.{◌≡◌, ℕ, ◌-◌, ◌<◌, ◌≤◌, List, length, drop, min, Option, Some, IfOk, OnErr, IsOk};
ghost use Rattle.std.specs.Io.KnownBytes.{ReadConsumes, WriteAppends};
ghost use Rattle.pc_edge.specs.Faults.{HasRisen, no_faults};

use super::copy::give;
use super::traits::{Failed, Gate, Sink, Source};
use std::io::{Read, Write};

/// A source over a reader of the standard library. Each error of the reader is a fault, an
/// interrupted read too: whoever wants it tried again reads again.
#[derive(Drop)]
pub struct StdSource<R> {
    /// The reader.
    pub inner: R,
    /// How many reads failed.
    pub faults: u64,
}

impl<R: Read> Source for StdSource<R> {
    ghost left = { λ s. R.remaining s.inner };

    ghost faults = { λ s. s.faults };

    fn read(&mut self, buf: &mut [u8]) -> Result<usize, Failed> {
        match self.inner.read(buf) {
            Ok(count) => Ok(count),
            Err(_) => {
                self.faults = self.faults.saturating_add(1);
                Err(Failed)
            }
        }
    }
}

/// A sink over a writer of the standard library. Each error of the writer is a fault, an interrupted
/// write too, and so is a write that takes nothing of a piece that isn't empty.
#[derive(Drop)]
pub struct StdSink<W> {
    /// The writer.
    pub inner: W,
    /// How many writes failed.
    pub faults: u64,
}

impl<W: Write> Sink for StdSink<W> {
    ghost held = { λ s. W.contents s.inner };

    ghost faults = { λ s. s.faults };

    fn write(&mut self, piece: &[u8]) -> Result<usize, Failed> {
        match self.inner.write(piece) {
            Ok(count) if count > 0 || piece.len() == 0 => Ok(count),
            _ => {
                self.faults = self.faults.saturating_add(1);
                Err(Failed)
            }
        }
    }
}

/// A source over borrowed bytes that gives as much as fits at each read and never fails: its count
/// of faults is the constant 0.
#[derive(Drop)]
pub struct NeverFails<'a> {
    /// All the bytes.
    pub bytes: &'a [u8],
    /// How many of them were read.
    pub at: usize,
}

impl<'a> Source for NeverFails<'a> {
    ghost left = { λ s. Some (drop s.at s.bytes.now) };

    ghost faults = { λ _. no_faults };

    fn read(&mut self, buf: &mut [u8]) -> Result<usize, Failed>
        ensures bound { IfOk result (λ n. n ≤ length buf.new) }
        ensures bytes { ReadConsumes (Some (drop self.old.at self.old.bytes.now))
            (Some (drop self.new.at self.new.bytes.now)) result buf.new }
        ensures cause { OnErr result (HasRisen no_faults no_faults) }
        ensures never_falls { no_faults ≤ no_faults }
        // It never fails, and gives as much as it can.
        ensures succeeds { IsOk result }
        ensures count { IfOk result (λ n. n ≡ min (length buf.old) (length self.old.bytes.now - self.old.at)) }
    {
        let count = give(self.bytes, self.at, buf.len(), buf);
        self.at += count;
        Ok(count)
    }
}

/// A gate that does nothing.
#[derive(Clone, Copy)]
pub struct OpenGate;

impl Gate for OpenGate {
    fn before(&self, _client: u32, _number: u32) {}

    fn after(&self, _client: u32, _number: u32) {}
}
