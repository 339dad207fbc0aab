//! What an exchange may meet in one of its words in place of holding it.
use pc_model::Numbers;
use pc_rule::Ref;

/// Where no more can be done for an exchange that isn't decided.
#[derive(Clone, Copy)]
pub(crate) enum Stuck {
    /// These two different references of one kind stood in one of its words, one after the other.
    Two {
        /// The one that stood there first.
        first: Ref,
        /// The one that stood there then.
        second: Ref,
    },
    /// This exchange's reference was met in one of its words when no link was left to follow.
    NoLink {
        /// The reference.
        met: Ref,
    },
}

/// Why a word of an exchange doesn't hold its reference.
#[derive(Clone, Copy)]
pub(crate) enum Obstacle {
    /// The exchange isn't undecided any more.
    Decided,
    /// The version of the word's node is above the one that the exchange covers.
    Changed,
    /// It is stuck at what stood in the word.
    Stuck(Stuck),
    /// The help of the exchange whose reference stood in the word is stuck.
    Beyond {
        /// The reference that stood in the word.
        met: Ref,
        /// Where its help is stuck.
        stuck: Stuck,
    },
    /// The install number stands at its last value.
    Numbers(Numbers),
}
