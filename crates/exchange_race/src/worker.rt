//! What a thread works with in a round.
use crate::hand::Hand;
use crate::record::Record;
use pc_model::Loose;
use pc_rule::Pass;

/// A thread's pass, its hand, and what it won in the round.
#[derive(Drop)]
pub(crate) struct Worker {
    /// The pass.
    pub(crate) pass: Pass<Loose>,
    /// What the thread keeps from round to round.
    pub(crate) hand: Hand,
    /// The exchanges that won.
    pub(crate) wins: Record,
}
