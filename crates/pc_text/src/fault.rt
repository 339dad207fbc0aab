//! The faults that end a run, and their lines.
ghost use Rattle.std.specs.Prelude.{◌≡◌, ◌+◌, ◌≤◌, [], ◌++◌, codes, length};
ghost use Rattle.std.specs.Fmt.{decimal};
ghost use Rattle.pc_edge.specs.Sending.{Writes};
ghost use Rattle.pc_text.specs.Fault.{status_of};
ghost use Rattle.pc_text.specs.FaultLine.{kind_text, counter_text, fault_text, fault_line};
ghost use Rattle.pc_text.specs.Printed.{turn_text};

use crate::kind::ScriptKind;
use crate::lines::{Line, print_line};
use crate::pieces::{push_turn, push_word_and_number};
use crate::script::ScriptFault;
use pc_edge::{Chunk, Failed, SIZE, Sink};
use pc_model::{Counter, Memory};
use std::alloc::AllocError;
use thiserror::Error;

/// What ends a run without a result.
#[derive(Clone, Copy, Debug, PartialEq, Eq, Error)]
pub enum Fault {
    /// A faulty command line.
    #[error("usage")]
    Usage,
    /// A faulty line of a script.
    #[error("line {line} {kind}")]
    Script { line: u32, kind: ScriptKind },
    /// A read failed.
    #[error("read")]
    Read,
    /// The input was too large.
    #[error("input too large")]
    TooLargeInput,
    /// More slots were asked for than there can be.
    #[error("too many slots")]
    TooManySlots,
    /// The slots ran out at this client's call of this number.
    #[error("slots {client}.{number}")]
    Slots { client: u32, number: u32 },
    /// A counter came to its end.
    #[error("numbers {}", counter_name(.0))]
    Numbers(Counter),
    /// Memory was wanted, and there was none.
    #[error("memory")]
    Memory,
}

/// The word for a counter.
fn counter_name(counter: &Counter) -> &'static str {
    match counter {
        Counter::Attempt => "attempt",
        Counter::Install => "install",
        Counter::Stamp => "stamp",
        Counter::Version => "version",
        Counter::Epoch => "epoch",
    }
}

impl From<ScriptFault> for Fault {
    ghost use Rattle.std.specs.Prelude.{◌≡◌};
    ghost use Rattle.pc_text.specs.Fault.{fault_of_script};

    ghost from_gives = { λ cause fault. fault ≡ fault_of_script cause };

    fn from(cause: ScriptFault) -> Fault {
        match cause {
            ScriptFault::Bad { line, kind } => Fault::Script { line, kind },
            ScriptFault::Memory => Fault::Memory,
        }
    }
}

impl From<Memory> for Fault {
    ghost use Rattle.std.specs.Prelude.{◌≡◌};
    ghost use Rattle.pc_text.specs.declared.fault.Fault.TheVariants.{Memory};

    ghost from_gives = { λ _ fault. fault ≡ Memory };

    fn from(_cause: Memory) -> Fault {
        Fault::Memory
    }
}

impl From<AllocError> for Fault {
    ghost use Rattle.std.specs.Prelude.{◌≡◌};
    ghost use Rattle.pc_text.specs.declared.fault.Fault.TheVariants.{Memory};

    ghost from_gives = { λ _ fault. fault ≡ Memory };

    fn from(_cause: AllocError) -> Fault {
        Fault::Memory
    }
}

impl Fault {
    /// The status with which a program ends at this fault.
    pub fn status(&self) -> u8
        ensures { result ≡ status_of self.now }
    {
        match self {
            Fault::Usage => 2,
            Fault::Script { .. } => 3,
            Fault::Read => 4,
            Fault::TooLargeInput | Fault::TooManySlots => 6,
            Fault::Slots { .. } => 7,
            Fault::Numbers(_) => 8,
            Fault::Memory => 9,
        }
    }
}

/// Prints a fault's line. It takes no memory.
pub fn print_fault<K: Sink>(sink: &mut K, fault: &Fault) -> Result<(), Failed>
    ensures { Writes K.held K.faults sink.old sink.new (fault_line fault.now) [] result }
{
    let mut chunk = Chunk::new();
    print_line(sink, &mut chunk, Line::Fault(*fault))?;
    chunk.flush(sink)
}

/// Puts a fault's line into a chunk that has room for it.
#[tactic(auto, unfolding(crate::specs::FaultLine::fault_line), using(std::proofs::Common::append_assoc))]
pub(crate) fn push_fault(chunk: &mut Chunk, fault: Fault)
    requires { length chunk.old + 256 ≤ SIZE }
    ensures { chunk.new ≡ chunk.old ++ fault_line fault }
{
    chunk.push(b"fault ");
    push_words(chunk, fault);
    chunk.push_byte(b'\n');
}

/// Puts what a fault's line says of it.
#[tactic(auto, unfolding(crate::specs::FaultLine::fault_text))]
fn push_words(chunk: &mut Chunk, fault: Fault)
    requires { length chunk.old + 128 ≤ SIZE }
    ensures text { chunk.new ≡ chunk.old ++ fault_text fault }
    ensures short { length chunk.new ≤ length chunk.old + 128 }
{
    match fault {
        Fault::Usage => chunk.push(b"usage"),
        Fault::Script { line, kind } => push_script_fault(chunk, line, kind),
        Fault::Read => chunk.push(b"read"),
        Fault::TooLargeInput => chunk.push(b"input too large"),
        Fault::TooManySlots => chunk.push(b"too many slots"),
        Fault::Slots { client, number } => push_slots(chunk, client, number),
        Fault::Numbers(counter) => push_numbers(chunk, counter),
        Fault::Memory => chunk.push(b"memory"),
    }
}

/// Puts where a script is faulty, and what is wrong there.
#[tactic(auto, using(std::proofs::Common::append_assoc))]
fn push_script_fault(chunk: &mut Chunk, line: u32, kind: ScriptKind)
    requires { length chunk.old + 64 ≤ SIZE }
    ensures text { chunk.new ≡ chunk.old ++ codes "line " ++ decimal line ++ codes " " ++ kind_text kind }
    ensures short { length chunk.new ≤ length chunk.old + 64 }
{
    push_word_and_number(chunk, b"line ", u64::from(line));
    chunk.push_byte(b' ');
    chunk.push(kind_words(kind));
}

/// Puts the call at which the slots ran out.
#[tactic(auto, using(std::proofs::Common::append_assoc))]
fn push_slots(chunk: &mut Chunk, client: u32, number: u32)
    requires { length chunk.old + 64 ≤ SIZE }
    ensures text { chunk.new ≡ chunk.old ++ codes "slots " ++ turn_text client number }
    ensures short { length chunk.new ≤ length chunk.old + 64 }
{
    chunk.push(b"slots ");
    push_turn(chunk, client, number);
}

/// Puts the counter whose numbers came to their end.
#[tactic(auto, using(std::proofs::Common::append_assoc))]
fn push_numbers(chunk: &mut Chunk, counter: Counter)
    requires { length chunk.old + 64 ≤ SIZE }
    ensures text { chunk.new ≡ chunk.old ++ codes "numbers " ++ counter_text counter }
    ensures short { length chunk.new ≤ length chunk.old + 64 }
{
    chunk.push(b"numbers ");
    chunk.push(counter_words(counter));
}

/// What is wrong with a line of a script, in words.
#[tactic(auto, unfolding(crate::specs::FaultLine::kind_text))]
fn kind_words(kind: ScriptKind) -> &'static [u8]
    ensures words { result.now ≡ kind_text kind }
    ensures short { length result.now ≤ 16 }
{
    match kind {
        ScriptKind::BadByte => b"bad byte",
        ScriptKind::UnknownWord => b"unknown word",
        ScriptKind::WordCount => b"word count",
        ScriptKind::BadNumber => b"bad number",
        ScriptKind::TooManyClients => b"too many clients",
        ScriptKind::TooManyLines => b"too many lines",
    }
}

/// The name of a counter.
#[tactic(auto, unfolding(crate::specs::FaultLine::counter_text))]
fn counter_words(counter: Counter) -> &'static [u8]
    ensures words { result.now ≡ counter_text counter }
    ensures short { length result.now ≤ 16 }
{
    match counter {
        Counter::Attempt => b"attempt",
        Counter::Install => b"install",
        Counter::Stamp => b"stamp",
        Counter::Version => b"version",
        Counter::Epoch => b"epoch",
    }
}
