//! How the operations of a thread ended.
use pc_path::Lost;

/// A kind of operation.
#[derive(Clone, Copy, PartialEq, Eq)]
pub(crate) enum Kind {
    /// A validated read.
    Read,
    /// An exchange by its path.
    Path,
    /// An exchange of words alone.
    Words,
    /// An exchange by its path whose pass stops for a while when it has installed some words.
    Stopped,
}

/// How many operations came to which end.
#[derive(Clone, Copy)]
pub(crate) struct Ends {
    /// A read took effect.
    pub(crate) read: u64,
    /// An exchange took effect.
    pub(crate) won: u64,
    /// A node had changed.
    pub(crate) changed: u64,
    /// A node was locked.
    pub(crate) locked: u64,
    /// Two references stood in the way.
    pub(crate) blocked: u64,
    /// A counter stood at its last value.
    pub(crate) numbers: u64,
}

impl Ends {
    /// No operation ended yet.
    pub(crate) fn none() -> Ends {
        Ends {
            read: 0,
            won: 0,
            changed: 0,
            locked: 0,
            blocked: 0,
            numbers: 0,
        }
    }

    /// One more operation ended so.
    pub(crate) fn count(&mut self, kind: Kind, answer: Result<u64, Lost>) {
        match answer {
            Ok(_) if kind == Kind::Read => self.read = self.read.saturating_add(1),
            Ok(_) => self.won = self.won.saturating_add(1),
            Err(Lost::Changed { .. }) => self.changed = self.changed.saturating_add(1),
            Err(Lost::Locked { .. }) => self.locked = self.locked.saturating_add(1),
            Err(Lost::Blocked { .. }) => self.blocked = self.blocked.saturating_add(1),
            Err(Lost::Numbers(_)) => self.numbers = self.numbers.saturating_add(1),
        }
    }

    /// The ends of two threads together.
    pub(crate) fn and(self, other: Ends) -> Ends {
        Ends {
            read: self.read.saturating_add(other.read),
            won: self.won.saturating_add(other.won),
            changed: self.changed.saturating_add(other.changed),
            locked: self.locked.saturating_add(other.locked),
            blocked: self.blocked.saturating_add(other.blocked),
            numbers: self.numbers.saturating_add(other.numbers),
        }
    }

    /// How many operations ended.
    pub(crate) fn all(self) -> u64 {
        let effect = self.read.saturating_add(self.won);
        let failed = self.changed.saturating_add(self.locked);
        let given_up = self.blocked.saturating_add(self.numbers);
        effect.saturating_add(failed).saturating_add(given_up)
    }
}
