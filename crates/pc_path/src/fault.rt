//! What reads and visits answer where they don't find a number.
use pc_model::Numbers;
use pc_rule::Ref;

/// Why a read found no number.
#[derive(Clone, Copy, Debug, PartialEq, Eq)]
pub enum ReadFault {
    /// Two different references stood in the way.
    Busy {
        /// The one that stood in the word.
        first: Ref,
        /// The one that stood there then, with the first one's kind; or the one by which the help of the first one was stopped.
        second: Ref,
    },
    /// The install number of the pass stands at its last value.
    Numbers(Numbers),
}

/// Why a visit found no version at which the node may be visited.
#[derive(Clone, Copy, Debug, PartialEq, Eq)]
pub enum VisitFault {
    /// Two different references stood in the way.
    Busy {
        /// The one that stood in the version's word.
        first: Ref,
        /// The one that stood there then, with the first one's kind; or the one by which the help of the first one was stopped.
        second: Ref,
    },
    /// The node is marked: its version is odd.
    Marked {
        /// The version.
        version: u64,
    },
    /// The pass has made as many visits as there are nodes.
    Long {
        /// The number of visits.
        visits: u32,
    },
    /// The install number of the pass, or the version, stands at its last value.
    Numbers(Numbers),
}
