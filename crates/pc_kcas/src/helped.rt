//! What a help of another's exchange answers.
use crate::obstacle::Stuck;
use pc_model::Numbers;
use pc_rule::Ref;

/// What came of a help.
#[derive(Clone, Copy, Debug, PartialEq, Eq)]
pub enum Helped {
    /// The exchange is decided, and its words are clean of its reference.
    Decided,
    /// Its pass has come to a later exchange.
    Gone,
    /// Another reference than the exchange's stood in a word of an exchange that the call helped: one of two different ones of
    /// one kind that stood in one word, or the last one when as many links were followed as there are passes.
    Stopped {
        /// The reference.
        by: Ref,
    },
    /// The install number of the pass stands at its last value.
    Numbers(Numbers),
}

/// How far an exchange was helped, by one of the helps of a chain.
#[derive(Clone, Copy)]
pub(crate) enum Progress {
    /// It is decided, and its words are clean of its reference.
    Decided,
    /// Its pass has come to a later exchange.
    Gone,
    /// No more can be done for it.
    Stuck(Stuck),
    /// The install number of the pass stands at its last value.
    Numbers(Numbers),
}

/// How far an exchange was helped, and how many links may still be followed.
#[derive(Clone, Copy)]
pub(crate) struct Help {
    /// How far it was helped.
    pub(crate) progress: Progress,
    /// The number of links that are left.
    pub(crate) links: u32,
}
