//! An exchange of several words, all or none (Harris, Fraser and Pratt): a pass lists its words (`listing`), publishes it
//! (`publishing`) and ends it (`finishing`); and whoever meets it may help it (`helping`). Its steps are those of `pc_rule` and the
//! installs of `pc_dcss` alone, so the rule of the board holds between any two of them.
//!
//! Its own pass and those that help it take its words by the same calls (`taking`, `hold`), and draw a stamp for it and decide it
//! (`deciding`), and clear its words (`clearing`). Another's exchange is read (`reading`), its words are taken in order (`collecting`), the
//! nodes that it visits are checked (`checking`), and its help ends (`concluding`); the own one ends as its words stopped (`answering`, `ending`).
#![tactic(auto)]

mod answering;
mod checking;
mod clearing;
mod collecting;
mod concluding;
mod deciding;
mod drawn;
mod ending;
mod finishing;
mod helped;
mod helping;
mod hold;
mod installing;
mod listing;
mod locking;
mod mode;
mod obstacle;
mod own;
mod own_checks;
mod own_deciding;
mod publishing;
mod reading;
mod taking;
mod verdict;
mod writing;

pub use finishing::{finish, finish_listed};
pub use helped::Helped;
pub use helping::help;
pub use installing::install_first;
pub use listing::word;
pub use mode::Mode;
pub use publishing::publish;
pub use verdict::Verdict;
