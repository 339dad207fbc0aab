//! `pathmap_make` writes a script of commands that are drawn from a seed. Its work is the one call `serve_make`, over
//! standard output.
#![tactic(auto)]

use pc_edge::StdSink;
pub use pc_serve::{Outcome, serve_make};
use pc_serve::{refuse_words, words_of};
use std::io;
use std::process::ExitCode;

fn main(rt: HostRuntime) -> ExitCode {
    let mut sink = StdSink {
        inner: io::writer(&rt),
        faults: 0,
    };
    let outcome = match words_of(&rt) {
        Ok(words) => serve_make(&words, &mut sink),
        Err(error) => refuse_words(&mut sink, error.kind()),
    };
    ExitCode::from(outcome.status)
}
