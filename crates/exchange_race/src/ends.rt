//! How the exchanges of a thread ended.
use pc_kcas::Verdict;

/// How many exchanges came to which end.
#[derive(Clone, Copy)]
pub(crate) struct Ends {
    /// All its words were changed.
    pub(crate) won: u64,
    /// A node had changed.
    pub(crate) changed: u64,
    /// A node was locked.
    pub(crate) locked: u64,
    /// Two references stood in the way.
    pub(crate) blocked: u64,
    /// A counter stood at its last value.
    pub(crate) numbers: u64,
}

impl Ends {
    /// No exchange ended yet.
    pub(crate) fn none() -> Ends {
        Ends {
            won: 0,
            changed: 0,
            locked: 0,
            blocked: 0,
            numbers: 0,
        }
    }

    /// One more exchange ended so.
    pub(crate) fn count(&mut self, verdict: Verdict) {
        match verdict {
            Verdict::Won { .. } => self.won = self.won.saturating_add(1),
            Verdict::Changed { .. } => self.changed = self.changed.saturating_add(1),
            Verdict::Locked { .. } => self.locked = self.locked.saturating_add(1),
            Verdict::Blocked { .. } => self.blocked = self.blocked.saturating_add(1),
            Verdict::Numbers(_) => self.numbers = self.numbers.saturating_add(1),
        }
    }

    /// The ends of two threads together.
    pub(crate) fn and(self, other: Ends) -> Ends {
        Ends {
            won: self.won.saturating_add(other.won),
            changed: self.changed.saturating_add(other.changed),
            locked: self.locked.saturating_add(other.locked),
            blocked: self.blocked.saturating_add(other.blocked),
            numbers: self.numbers.saturating_add(other.numbers),
        }
    }

    /// How many exchanges ended.
    pub(crate) fn all(self) -> u64 {
        let failed = self.changed.saturating_add(self.locked);
        let given_up = self.blocked.saturating_add(self.numbers);
        self.won.saturating_add(failed).saturating_add(given_up)
    }
}
