//! How a program ends: its status, and the line of a fault.
ghost use Rattle.std.specs.Prelude.{◌≡◌, ◌≤◌};
ghost use Rattle.pc_text.specs.Fault.{status_of};
ghost use Rattle.pc_text.specs.FaultLine.{WritesFault};

use pc_edge::Sink;
use pc_text::{Fault, print_fault};

/// The status of a run, or of a script, while whose writing the sink failed.
pub const STOPPED: u8 = 5;

/// How a run ended.
#[derive(Clone, Copy, Debug, PartialEq, Eq)]
pub struct Outcome {
    /// 0 where all was written, else the status of the fault that ended it.
    pub status: u8,
}

/// Writes a fault's line, and ends with its status whether or not it was written.
pub fn refuse<K: Sink>(sink: &mut K, fault: &Fault) -> Outcome
    ensures status { result.status ≡ status_of fault.now }
    ensures line { WritesFault K.held K.faults sink.old sink.new fault.now }
    ensures never_falls { K.faults sink.old ≤ K.faults sink.new }
{
    let _ = print_fault(sink, fault);
    Outcome {
        status: fault.status(),
    }
}
