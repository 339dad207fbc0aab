//! The tie between the words of a board and the protocol of exchanges: when a history of the protocol is that of a
//! board, whose past is remembered, and that each step on the board's words is a step of the protocol, or none. It has
//! definitions and laws alone, the laws each on a function with no code, and nothing that runs.
//!
//! Beside it stand what a pass will know of attempts, its own and those of others, and what it has to know before each
//! step of an exchange; and the whole rule of a board on which passes publish exchanges, which is the rule of installs and
//! this, with a lemma for each kind of step. The functions that make these steps stand in `pc_rule`.
#![tactic(auto)]

mod laws;
mod whole;

pub use laws::{
    attempt_notes_stay, attempts_are_known, board_tells, calms_serve, clock_ends,
    codes_are_inverse, descriptors_are_scripts, exchange_steps_go_on, loads_tell_passes,
    openings_are_tied, own_steps_are_known, run_leaves_sound_cells, run_tells, slots_are_counted,
    steps_keep_attempts, steps_stay_tied, successes_serve, view_notes_stay, words_serve,
};
pub use whole::{
    WholeCheck, WholeClear, WholeDecide, WholeDraw, WholeEndPath, WholeFill, WholeFirstVisit,
    WholeJoinPass, WholeLaw, WholeLoadCell, WholeLoadClock, WholeLoadInstall, WholeLoadStatus,
    WholeLoadWord, WholeLookFor, WholeMakePass, WholeOpenPath, WholePlace, WholePublish,
    WholePublishFresh, WholeRead, WholeReadDraw, WholeStoreInstall, WholeStoreWord, WholeTake,
    WholeTakeReference, WholeTakeSlot, WholeView, WholeVisit, WholeWithdraw,
};
