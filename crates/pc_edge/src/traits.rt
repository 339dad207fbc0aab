//! What a source, a sink and a gate promise.
ghost use Rattle.std.specs.Prelude.{ℕ, ◌<◌, ◌≤◌, List, Option, length, IfOk, OnErr};
ghost use Rattle.std.specs.Io.KnownBytes.{ReadConsumes, WriteAppends};
ghost use Rattle.pc_edge.specs.Faults.{HasRisen};

use thiserror::Error;

/// A read or a write failed. The count of faults of its object rose, or stands at its last value.
#[derive(Clone, Copy, Debug, PartialEq, Eq, Error)]
#[error("a read or a write failed")]
pub struct Failed;

/// Where bytes come from.
pub trait Source {
    // The bytes that are left, where the source tells them.
    ghost left: { Self → Option (List ℕ) };

    // How many reads failed so far.
    ghost faults: { Self → ℕ };

    /// Reads the next bytes into the front of the buffer, and says how many. No bytes for a buffer
    /// that isn't empty is the end of the input. A failed read takes no byte.
    fn read(&mut self, buf: &mut [u8]) -> Result<usize, Failed>
        ensures bound { IfOk result (λ n. n ≤ length buf.new) }
        ensures bytes { ReadConsumes (left self.old) (left self.new) result buf.new }
        ensures cause { OnErr result (HasRisen (faults self.old) (faults self.new)) }
        ensures never_falls { faults self.old ≤ faults self.new };
}

/// Where bytes go.
pub trait Sink {
    // The bytes that the sink holds, where it tells them.
    ghost held: { Self → Option (List ℕ) };

    // How many writes failed so far.
    ghost faults: { Self → ℕ };

    /// Takes the first bytes of the piece, and says how many: at least one where the piece isn't
    /// empty. A failed write takes none.
    fn write(&mut self, piece: &[u8]) -> Result<usize, Failed>
        ensures bound { IfOk result (λ n. n ≤ length piece.now) }
        ensures progress { 0 < length piece.now → IfOk result (λ n. 0 < n) }
        ensures bytes { WriteAppends (held self.old) (held self.new) result piece.now }
        ensures cause { OnErr result (HasRisen (faults self.old) (faults self.new)) }
        ensures never_falls { faults self.old ≤ faults self.new };
}

/// What is called before and after each command of a client. It answers nothing.
pub trait Gate {
    /// The client is about to begin its command of this number.
    fn before(&self, client: u32, number: u32);

    /// The client has ended its command of this number.
    fn after(&self, client: u32, number: u32);
}
