//! The text that the library reads and writes: the script of commands, what a run prints, and the
//! line of each fault. A script is read from its bytes in one pass. All that is written goes to a
//! sink through a chunk of some KiB, so printing takes no memory.
#![tactic(auto)]

mod cut;
mod fault;
mod kind;
mod laws;
mod limits;
mod line;
mod lines;
mod made;
mod number;
mod pieces;
mod print;
mod read;
mod script;
mod shape;
mod words;

pub use fault::{Fault, print_fault};
pub use kind::ScriptKind;
pub use laws::{
    empty_input_gives_empty_script, made_scripts_read_back, printed_run_fixes_history,
    written_clients_read_back, written_commands_read_back,
};
pub use limits::{GREATEST_NUMBER, MOST_BYTES, MOST_CLIENTS, MOST_COMMANDS};
pub use made::{make_script, write_made};
pub use number::read_number;
pub use print::{Extras, print_run};
pub use read::read_script;
pub use script::{Script, ScriptFault};
pub use shape::ShapeLine;
