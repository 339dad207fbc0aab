//! What a board leaves. Its words can't change any more.
ghost use Rattle.std.specs.Prelude.{◌≡◌};
ghost use Rattle.std.specs.Mem.Slots.{slots_items, slots_len, IsFull};
ghost use Rattle.pc_rule_law.specs.Board.{words_of};
ghost use Rattle.pc_rule.specs.Sizes.{size_from, AreWithinLimits, IsOfClosed};

use pc_model::{Entry, Shape};
use pc_rule_law::{Share, Starts};
use std::alloc::Global;
use std::marker::PhantomData;

/// What a board leaves when it is closed: its words, and the recorded calls of its passes.
pub struct Closed<H: Shape> {
    pub(crate) table: atomic_table::Closed<bool, Global>,
    pub(crate) seats: usize,
    pub(crate) slots: usize,
    pub(crate) shares: Vec<Share>,
    pub(crate) starts: Starts,
    pub(crate) entries: Vec<Entry>,
    pub(crate) shape: PhantomData<H>,
    ghost small: { AreWithinLimits seats slots },
    ghost laid: { IsFull table.words × (slots_len table.words ≡ words_of (size_from seats slots shares.items starts)) × (slots_len table.slots ≡ 0) },
    ghost closed: { ∥ IsOfClosed H.form (size_from seats slots shares.items starts) (slots_items table.words) ∥₁ },
}

impl<H: Shape> Drop for Closed<H> {
    fn drop(self) {
        let Closed {
            table,
            seats: _,
            slots: _,
            shares: _,
            starts: _,
            entries: _,
            shape: _,
        } = self;
        table.free();
    }
}
