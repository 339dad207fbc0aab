//! What the end of an exchange answers.
use pc_model::Numbers;
use pc_rule::Ref;

/// How an exchange ended.
#[derive(Clone, Copy, Debug, PartialEq, Eq)]
pub enum Verdict {
    /// It took effect at this stamp: all its words were changed.
    Won {
        /// The stamp.
        stamp: u64,
    },
    /// This node's version is above the one that the exchange covers.
    Changed {
        /// The node.
        node: u32,
    },
    /// Another pass has an exchange with this node's version, which wasn't cleared before this one was published.
    Locked {
        /// The node.
        node: u32,
        /// The number of that pass, from 1.
        by: u32,
    },
    /// Two different references stood in the way.
    Blocked {
        /// The one that stood in a word of the exchange.
        first: Ref,
        /// The one that stood there then, with the first one's kind; or the one by which the help of the first one was stopped.
        second: Ref,
    },
    /// A counter stands at its last value.
    Numbers(Numbers),
}
