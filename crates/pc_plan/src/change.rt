//! The exchange that a plan asks for: at most 24 words with their old and new numbers, at most one
//! fresh node and at most one marked node.
ghost use Rattle.std.specs.Prelude.{◌≡◌, ◌<◌, ◌≤◌, length};

use pc_model::{Field, Reply};
use std::marker::Model;

/// What a word gets: a number, or the fresh node's own number.
#[derive(Clone, Copy, PartialEq, Eq)]
pub enum To {
    /// This number.
    Number(u64),
    /// The number of the node that is added.
    Fresh,
}

/// A word to change.
#[derive(Clone, Copy, PartialEq, Eq)]
pub struct Add {
    /// A node that was visited.
    pub node: u32,
    /// The field.
    pub field: Field,
    /// The number that the plan was told.
    pub old: u64,
    /// What the word gets.
    pub new: To,
}

/// A node that the exchange adds. Its links are 0.
#[derive(Clone, Copy, PartialEq, Eq)]
pub struct Fresh {
    /// The key.
    pub key: u64,
    /// The value at the key.
    pub value: u64,
    /// In a balanced tree the node above, else 0.
    pub parent: u32,
    /// In a balanced tree the height, else 0.
    pub height: u64,
}

const BLANK: Add = Add {
    node: 0,
    field: Field::Version,
    old: 0,
    new: To::Fresh,
};

/// An exchange that a plan asks for, with the reply that it gives where the exchange is made.
#[derive(Drop)]
pub struct Change {
    adds: [Add; 24],
    added: usize,
    charged: [u64; 4],
    charges: usize,
    /// The node that is added.
    pub fresh: Option<Fresh>,
    /// The node that is marked as removed.
    pub mark: Option<u32>,
    /// What the plan answers.
    pub reply: Reply,
}

impl Model for Change {
    ghost use Rattle.std.specs.Prelude.{◌≤◌, take};
    ghost use Rattle.pc_plan.specs.Planned.{Planned};

    ghost Value = { Planned };

    ghost view = { λ c. record {
      adds = take c.added c.adds;
      charged = take c.charges c.charged;
      fresh = c.fresh;
      mark = c.mark;
      reply = c.reply;
    } };

    ghost invariant = { λ c. (c.added ≤ 24) × (c.charges ≤ 4) };
}

impl Change {
    ghost use Rattle.pc_plan.specs.Planned.{replying, with_add, with_charge, with_mark, raised, rewritten};

    /// Nothing to change yet.
    pub fn new(reply: Reply) -> Change
        ensures { result ≡ replying reply }
    {
        Change {
            adds: [BLANK; 24],
            added: 0,
            charged: [0; 4],
            charges: 0,
            fresh: None,
            mark: None,
            reply,
        }
    }

    /// Forgets the exchange that stood here: nothing to change yet.
    #[inline]
    pub fn restart(&mut self, reply: Reply)
        ensures { self.new ≡ replying reply }
    {
        self.added = 0;
        self.charges = 0;
        self.fresh = None;
        self.mark = None;
        self.reply = reply;
    }

    /// Adds a word to change, after the others.
    #[inline]
    pub fn push(&mut self, add: Add)
        requires { length self.old.adds < 24 }
        ensures { self.new ≡ with_add self.old add }
    {
        self.adds[self.added] = add;
        self.added += 1;
    }

    /// Raises the version of a node that was visited at it: with each change of a node its version goes up
    /// by two.
    #[inline]
    pub fn raise(&mut self, node: u32, version: u64)
        requires { length self.old.adds < 24 }
        ensures { self.new ≡ with_add self.old (raised node version) }
    {
        let new = To::Number(version.wrapping_add(2));
        self.push(Add {
            node,
            field: Field::Version,
            old: version,
            new,
        });
    }

    /// Changes a field of a node.
    #[inline]
    pub fn rewrite(&mut self, node: u32, field: Field, old: u64, new: To)
        requires { length self.old.adds < 24 }
        ensures { self.new ≡ with_add self.old (rewritten node field old new) }
    {
        self.push(Add {
            node,
            field,
            old,
            new,
        });
    }

    /// Marks a node that was visited at this version as removed: its version goes up by one.
    #[inline]
    pub fn mark_removed(&mut self, node: u32, version: u64)
        requires { length self.old.adds < 24 }
        ensures { self.new ≡ with_mark self.old node version }
    {
        let new = To::Number(version.wrapping_add(1));
        self.push(Add {
            node,
            field: Field::Version,
            old: version,
            new,
        });
        self.mark = Some(node);
    }

    /// Charges a key, after the others.
    pub fn charge(&mut self, key: u64)
        requires { length self.old.charged < 4 }
        ensures { self.new ≡ with_charge self.old key }
    {
        self.charged[self.charges] = key;
        self.charges += 1;
    }

    /// The words to change.
    pub fn adds(&self) -> &[Add]
        ensures words { result.now ≡ self.now.adds }
        ensures few { length self.now.adds ≤ 24 }
    {
        &self.adds[..self.added]
    }

    /// The charged keys.
    pub fn charged(&self) -> &[u64]
        ensures keys { result.now ≡ self.now.charged }
        ensures few { length self.now.charged ≤ 4 }
    {
        &self.charged[..self.charges]
    }
}
