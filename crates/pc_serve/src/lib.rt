//! The top calls of the programs: `serve`, which reads a script, runs it and prints the run, and `serve_make`, which
//! writes the script of a seed; and what either program does with the words of its command line.
#![tactic(auto)]

mod command_line;
mod ending;
mod making;
mod serving;

pub use command_line::{NO_WORDS, refuse_words, words_of};
pub use ending::{Outcome, STOPPED, refuse};
pub use making::{Asked, WRITTEN, serve_make};
pub use serving::{PRINTED, serve};
