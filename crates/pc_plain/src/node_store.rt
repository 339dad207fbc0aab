//! The words of all nodes of one tree, with a stack of the slots that are out of use.
ghost use Rattle.std.specs.Prelude.{◌≡◌, ◌+◌, ◌≤◌, IfOk, IfErr, OnErr, OnOk, IsSome};

use crate::node_words::{
    NodeWords, all_slots, give_slot, opening_words, take_slot, word, write_adds,
};
use pc_model::{Field, Memory, Reply};
use pc_plan::{Change, StillCells};
use std::alloc::Global;
use std::marker::Model;
use thiserror::Error;

/// The nodes of one tree.
#[derive(Debug, Drop)]
pub struct NodeStore {
    slots: u32,
    words: NodeWords,
    free: Vec<u32>,
}

impl Model for NodeStore {
    ghost use Rattle.std.specs.Prelude.{vec_capacity};
    ghost use Rattle.pc_plain.specs.PlainCells.{PlainWords, IsSoundPlain};

    ghost Value = { PlainWords };

    ghost view = { λ s. record { slots = s.slots; words = s.words } };

    ghost invariant = { λ s. IsSoundPlain s.slots s.words s.free.items (vec_capacity s.free) };
}

/// An exchange wanted a slot for a fresh node, and every slot is in use.
#[derive(Clone, Copy, Debug, PartialEq, Eq, Error)]
#[error("no slot is free")]
pub struct NoPlainSlot {
    /// How many slots are in use.
    pub live: u32,
}

impl NodeStore {
    ghost use Rattle.pc_model.specs.Trees.{plain, balanced};
    ghost use Rattle.pc_plain.specs.PlainCells.{cells_of, AreBelowLimits, AreOpening, IsEmptyTree};
    ghost use Rattle.pc_plain.specs.PlainRuns.{AllInUse};
    ghost use Rattle.pc_plain.specs.PlainWriting.{CanMake, IsWritten};

    /// The nodes of an empty tree with room for so many pairs.
    pub fn new(alloc: Global, slots: u32) -> Result<NodeStore, Memory>
        requires { slots ≤ 61000 }
        ensures slots { IfOk result (λ s. s.slots ≡ slots) }
        ensures opening { IfOk result AreOpening }
        ensures empty { IfOk result (IsEmptyTree plain) }
        ensures empty_balanced { IfOk result (IsEmptyTree balanced) }
    {
        let words = opening_words(alloc, slots)?;
        let free = all_slots(alloc, slots)?;
        Ok(NodeStore { slots, words, free })
    }

    /// How many slots there are.
    #[inline]
    pub fn slots(&self) -> u32
        ensures same { result ≡ self.now.slots }
        ensures few { self.now.slots ≤ 61000 }
        ensures fit { AreBelowLimits (cells_of self.now) }
    {
        self.slots
    }

    /// The number in a node's field.
    #[inline]
    pub fn word(&self, node: u32, field: Field) -> u64
        requires { node ≤ self.now.slots + 1 }
        ensures value { result ≡ cells_of self.now node field }
        ensures few { self.now.slots ≤ 61000 }
    {
        word(&self.words, node, field)
    }

    /// Makes an exchange, or answers that its fresh node finds no slot.
    pub fn make(&mut self, change: &Change) -> Result<Reply, NoPlainSlot>
        requires { CanMake self.old change.now }
        ensures size { self.new.slots ≡ self.old.slots }
        ensures reply { IfOk result (λ r. r ≡ change.now.reply) }
        ensures made { OnOk result (IsWritten self.old self.new change.now) }
        ensures live { IfErr result (λ e. e.live ≡ self.old.slots) }
        ensures wanted { OnErr result (IsSome change.now.fresh) }
        ensures full { OnErr result (AllInUse self.old) }
        ensures stays { OnErr result (self.new ≡ self.old) }
    {
        let Some(slot) = take_slot(&mut self.words, &mut self.free, change.fresh) else {
            return Err(NoPlainSlot { live: self.slots });
        };
        write_adds(&mut self.words, slot, change.adds());
        give_slot(&mut self.free, change.mark);
        Ok(change.reply)
    }
}

impl StillCells for NodeStore {
    ghost use Rattle.pc_plain.specs.PlainCells.{cells_of};

    ghost slots = { λ s. s.slots };

    ghost cells = { cells_of };

    #[inline(always)]
    fn word(&self, node: u32, field: Field) -> u64 {
        word(&self.words, node, field)
    }
}
