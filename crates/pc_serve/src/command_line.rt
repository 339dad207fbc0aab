//! The words of a program's command line, and how it ends where it can't have them.
ghost use Rattle.std.specs.Prelude.{◌≡◌, ◌≢◌};
ghost use Rattle.pc_text.specs.Fault.{status_of};
ghost use Rattle.pc_text.specs.FaultLine.{WritesFault};

use crate::ending::{Outcome, refuse};
use pc_edge::Sink;
use pc_text::Fault;
use std::alloc::AllocGlobal;
use std::env::{Env, args};
use std::io;
use std::io::ErrorKind;

/// How a run ends where there is no memory for the words of the command line.
pub const NO_WORDS: Outcome = Outcome { status: 10 };

/// The words of the command line, the program's name first.
pub fn words_of<R: Env + AllocGlobal>(rt: &R) -> io::Result<Vec<String>> {
    let mut words = Vec::new(rt.alloc());
    for word in args(rt)? {
        words.push(word)?;
    }
    Ok(words)
}

/// A word that isn't UTF-8 makes a faulty command line. Where memory was wanting, nothing is written.
pub fn refuse_words<K: Sink>(sink: &mut K, error: ErrorKind) -> Outcome
    ensures usage { error ≡ ErrorKind.InvalidData → result.status ≡ status_of Fault.Usage }
    ensures line { error ≡ ErrorKind.InvalidData → WritesFault K.held K.faults sink.old sink.new Fault.Usage }
    ensures no_words { error ≢ ErrorKind.InvalidData → result ≡ NO_WORDS }
    ensures unwritten { error ≢ ErrorKind.InvalidData → sink.new ≡ sink.old }
{
    if error == ErrorKind::InvalidData {
        refuse(sink, &Fault::Usage)
    } else {
        NO_WORDS
    }
}
