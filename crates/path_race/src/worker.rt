//! What a thread works with in a round.
ghost use Rattle.std.specs.Prelude.{◌≡◌};

use crate::hand::Hand;
use crate::record::Record;
use crate::walking::seen;
use pc_model::{Field, Loose};
use pc_rule::{Pass, Place};

/// A thread's pass, its hand, what its last read found, and what took effect in the round.
#[derive(Drop)]
pub(crate) struct Worker {
    /// The pass.
    pub(crate) pass: Pass<Loose>,
    /// What the thread keeps from round to round.
    pub(crate) hand: Hand,
    /// The words that its last read found.
    pub(crate) seen: [Place; 6],
    /// The operations that took effect.
    pub(crate) wins: Record,
}

impl Worker {
    /// A worker that has read nothing yet.
    pub(crate) fn new(pass: Pass<Loose>, hand: Hand, wins: Record) -> Worker
        ensures pass { result.pass ≡ pass }
        ensures wins { result.wins ≡ wins }
    {
        Worker {
            pass,
            hand,
            seen: [seen(Field::Version, 0); 6],
            wins,
        }
    }
}
