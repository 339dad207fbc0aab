//! The board that passes share, and their steps on it. A board owns the words; a pass owns a seat at them, which no two
//! threads have. Each call `step_n` makes one atomic step on one word and nothing else; its condition is what the rule
//! of `pc_exchange_law` asks of that step, and it tells what the rule says that the pass knows then.
#![tactic(auto)]

mod board;
mod boards;
mod cells;
mod checks;
mod closed;
mod closing;
mod decisions;
mod exchanges;
mod held_slots;
mod life;
mod listed;
mod numbered;
mod opening;
mod own;
mod places;
mod reads;
mod recorded;
mod records;
mod refs;
mod slots;
mod steps;
mod stored;
mod visit;

pub use board::{Board, Pass};
pub use boards::{open_board, usual_starts};
pub use checks::{step_17, step_18, step_19};
pub use closed::Closed;
pub use closing::close_board;
pub use decisions::{step_13, step_14, step_14_own, step_15, step_16};
pub use exchanges::{step_9, step_10, step_11, step_11_fresh, step_12};
pub use opening::Place;
pub use pc_rule_law::{Share, Starts};
pub use reads::{step_5_read, step_5_visit, step_20, step_21, step_24};
pub use records::Carried;
pub use refs::{Ref, RefKind};
pub use slots::{step_22, step_23};
pub use steps::{step_3, step_4, step_5, step_6, step_7, step_8};
pub use visit::Visit;
