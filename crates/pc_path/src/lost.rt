//! What is answered where an operation doesn't take effect.
use pc_model::Numbers;
use pc_rule::Ref;

/// Why an operation was lost.
#[derive(Clone, Copy, Debug, PartialEq, Eq)]
pub enum Lost {
    /// The version of a visited node is above the one at which it was visited first.
    Changed {
        /// The node.
        node: u32,
        /// The version that its first visit gave.
        seen: u64,
    },
    /// Another pass has an exchange with the version of a visited node. A validated read is never lost so.
    Locked {
        /// The node.
        node: u32,
        /// The number of that pass, from 1.
        by: u32,
    },
    /// Two different references stood in the way.
    Blocked {
        /// The one that stood in a word which this pass looked at.
        first: Ref,
        /// The one that stood there then, with the first one's kind; or the one by which the help of the first one was stopped.
        second: Ref,
    },
    /// A counter stands at its last value.
    Numbers(Numbers),
}
