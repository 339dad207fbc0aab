//! `pathmap` runs a script of commands on an ordered map and prints every reply in the order of one
//! history. Its work is the one call `serve`, over standard input and output.
#![tactic(auto)]

use pc_edge::{OpenGate, StdSink, StdSource};
pub use pc_serve::{Outcome, serve};
use pc_serve::{refuse_words, words_of};
use std::io;
use std::process::ExitCode;

fn main(rt: HostRuntime) -> ExitCode {
    let mut source = StdSource {
        inner: rt.reader(),
        faults: 0,
    };
    let mut sink = StdSink {
        inner: io::writer(&rt),
        faults: 0,
    };
    let outcome = match words_of(&rt) {
        Ok(words) => serve(&rt, rt.alloc(), &words, &mut source, &mut sink, &OpenGate),
        Err(error) => refuse_words(&mut sink, error.kind()),
    };
    ExitCode::from(outcome.status)
}
