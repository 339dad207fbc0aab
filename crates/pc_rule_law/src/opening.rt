//! What a table is told once, when it is made: its size, what its counters open at, and the exchanges that its passes
//! are given.
use crate::share::Share;
use pc_model::Field;
use std::marker::Model;

/// What the counters of a board open at. The usual ones are 0, 0, 1, 1 and 0.
#[derive(Clone, Copy)]
pub struct Starts {
    /// The number of each pass's last attempt, below 2^28.
    pub attempt: u64,
    /// The number of each pass's last install, below 2^54.
    pub install: u64,
    /// The clock, below 2^34.
    pub stamp: u64,
    /// The epoch, from 1 to 2^60.
    pub epoch: u64,
    /// The version of the sentinel, even. A slot's is one more.
    pub version: u64,
}

/// A change of a word of an exchange that a pass is given.
#[derive(Clone, Copy)]
pub struct Given {
    /// The seat of the pass.
    pub seat: usize,
    /// The node.
    pub node: u32,
    /// The field.
    pub field: Field,
    /// The number that it has.
    pub old: u64,
    /// The number that it gets.
    pub new: u64,
}

/// The size of a board, with what it opens with.
#[derive(Drop)]
pub struct Opening {
    /// How many passes there may be.
    pub seats: usize,
    /// How many slots there are.
    pub slots: usize,
    /// What each pass has of them, by seats.
    pub shares: Vec<Share>,
    /// What the counters open at.
    pub starts: Starts,
    /// The changes of the exchanges that passes are given.
    pub given: Vec<Given>,
    /// Whether passes are given exchanges. Then nothing is published.
    pub posted: bool,
}
