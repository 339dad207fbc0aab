//! Runs of exchanges on cells: at each stamp stands an exchange or nothing. It has definitions and laws alone,
//! the laws each on a function with no code, and nothing that runs.
//!
//! An exchange may be decided after others with greater stamps were, and yet enters the run at its own stamp,
//! below theirs: what it writes then misses all that those touch. So its place in the history can be drawn
//! before it is known whether it takes effect.
#![tactic(auto)]

mod laws;

pub use laws::{late_exchanges_enter, runs_are_world_runs, runs_stay_sound, versions_rise};
