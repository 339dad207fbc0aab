//! What a run of the program is made of, before anything is printed: the words of its command line, the input that is
//! read to its end, and the script that is run with a worker for each client, alone on a map of its own or with others
//! on one that they share.
#![tactic(auto)]

mod alone;
mod reading;
mod run;
mod shares;
mod together;
mod words;

pub use reading::{MADE_CLIENTS, MADE_COMMANDS, read_all, read_input};
pub use run::{Run, run_script};
pub use words::{Options, options_of};
