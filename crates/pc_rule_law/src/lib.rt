//! The rule of a board that several passes share without a lock: definitions and lemmas, without code that runs. A
//! board is words in memory; each pass steps on one of them at a time, and the rule says what holds of all words and
//! of all that the passes know between any two steps. Here stand the board as plain data, what the rule remembers of
//! the past, what a pass knows, the rule itself by topics, and that the steps of an install and those of an exchange up
//! to its publication keep it. The functions that make these steps stand in a crate above, so that an edit of one proves
//! no lemma again.
#![tactic(auto)]

mod law;
mod opening;
mod plays;
mod share;
mod view;

pub use law::Law;
pub use opening::{Given, Opening, Starts};
pub use plays::{
    JoinPass, LoadCell, LoadClock, LoadInstall, LoadStatus, LoadWord, MakePass, PlaceInstall,
    PublishAttempt, StoreInstall, StoreWord, TakeInstall,
};
pub use share::Share;
pub use view::PassView;
