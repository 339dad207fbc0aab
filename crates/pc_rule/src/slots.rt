//! The steps on the slots of nodes, by the numbers of the kinds of step, and what a pass keeps of its slots beside.
ghost use Rattle.std.specs.Prelude.{◌≡◌, ℕ, ◌+◌, ◌^◌, ◌<◌, ◌≤◌, Some, None, IfSome};
ghost use Rattle.pc_model.specs.Cells.{IsNode, IsOdd};
ghost use Rattle.pc_words.specs.declared.word.WordKind.TheVariants.{Plain};
ghost use Rattle.pc_words.specs.Words.{kind, IsWord};
ghost use Rattle.pc_exchange_law.specs.ExchangeConditions.{MayTakeSlot};
ghost use Rattle.pc_exchange_law.specs.OwnSlots.{with_spare, with_filled, MakesOwn, makes_one};
ghost use Rattle.pc_rule.specs.Conditions.{MayFillWord};
ghost use Rattle.pc_rule.specs.HeldSlots.{filled_node};
ghost use Rattle.pc_rule.specs.Passes.{whole, view, knows, slots, fresh, told_won, board_size, IsPassOf, IsSameButSlots, OnlySlots, HasNode};

use crate::board::{Board, Pass};
use crate::held_slots::HeldSlots;
use pc_exchange_law::{WholeFill, WholeTakeSlot};
use pc_model::{Field, Shape};
use pc_words::{WordKind, kind_of};

// The number of a plain word.
fn plain_in(word: u64) -> u64
    requires word { IsWord word }
    requires plain { (v : ℕ) × (kind word ≡ Plain v) }
    ensures { kind word ≡ Plain result }
{
    match kind_of(word) {
        WordKind::Plain(number) => number,
        _ => unreachable!(),
    }
}

/// A load of the version of the next slot of the own share, by which the pass takes the slot as its spare. The version is plain, odd,
/// and the one that the slot opened with.
pub fn step_22<H: Shape>(board: &Board<H>, pass: &mut Pass<H>, node: u32) -> u64
    requires pass { IsPassOf board.now pass.old }
    requires inside { HasNode board.now node }
    requires may { MayTakeSlot (knows pass.old) node }
    ensures pass { IsSameButSlots pass.old pass.new }
    ensures makes { fresh pass.new ≡ None }
    ensures taken { (v : ℕ) × (kind result ≡ Plain v) × IsOdd v × (whole pass.new ≡ record (whole pass.old) { knows = record (knows pass.old) { slots = with_spare (slots pass.old) v } }) }
{
    let word = board.cell_word(node, Field::Version);
    let found = board
        .table
        .shared
        .load::<WholeTakeSlot>(&mut pass.seat, word);
    let version = plain_in(found);
    pass.slots = HeldSlots {
        next: node + 1,
        spare: Some(node),
        version,
        filled: false,
        named: false,
        ..pass.slots
    };
    found
}

/// A store of a number to a word of the own spare, while nothing is published. The version is filled with the number above the one that
/// was found.
pub fn step_23<H: Shape>(board: &Board<H>, pass: &mut Pass<H>, node: u32, field: Field, new: u64)
    requires pass { IsPassOf board.now pass.old }
    requires inside { HasNode board.now node }
    requires may { MayFillWord (knows pass.old) node field new }
    ensures pass { IsSameButSlots pass.old pass.new }
    ensures makes { fresh pass.new ≡ None }
    ensures filled { (v : ℕ) → kind new ≡ Plain v → whole pass.new ≡ record (whole pass.old) { knows = record (knows pass.old) { slots = with_filled (slots pass.old) field v } } }
{
    let word = board.cell_word(node, field);
    board
        .table
        .shared
        .store::<WholeFill>(&mut pass.seat, word, new);
    pass.slots.filled = false;
}

impl<H: Shape> Pass<H> {
    /// The slot that is its spare.
    pub fn spare(&self) -> Option<u32>
        ensures spare { result ≡ (slots self.now).spare }
        ensures inside { IfSome result (IsNode (view self.now).size.slots) }
    {
        self.slots.spare
    }

    /// The first slot of its share that it hasn't taken yet, where one is left.
    pub fn next_slot(&self) -> Option<u32>
        ensures next { IfSome result (λ n. (n ≡ (slots self.now).next) × (n < (slots self.now).until) × IsNode (view self.now).size.slots n) }
        ensures none { result ≡ None → (slots self.now).until ≤ (slots self.now).next }
    {
        if self.slots.next < self.slots.until {
            Some(self.slots.next)
        } else {
            None
        }
    }

    /// The version that it found in its spare.
    pub fn spare_version(&self) -> u64
        ensures found { result ≡ (slots self.now).version }
        ensures early { result ≤ (view self.now).size.starts.version + 1 }
    {
        self.slots.version
    }

    /// The next exchange of the running operation makes the spare's node, each word of which was filled.
    pub fn make_spare(&mut self)
        requires filled { MakesOwn (slots self.old) (Some (filled_node (slots self.old))) }
        ensures only { OnlySlots self.old self.new }
        ensures makes { fresh self.new ≡ Some (filled_node (slots self.old)) }
    {
        self.slots.filled = true;
    }

    /// The next exchange makes no node.
    pub fn make_none(&mut self)
        ensures only { OnlySlots self.old self.new }
        ensures makes { fresh self.new ≡ None }
    {
        self.slots.filled = false;
    }

    /// Whether the next exchange makes the spare's node.
    pub fn makes_node(&self) -> bool
        ensures { result ≡ makes_one (fresh self.now) }
    {
        self.slots.filled
    }

    /// Tells the pass whether its attempt that isn't cleared took effect.
    pub fn tell_won(&mut self, won: bool)
        ensures only { OnlySlots self.old self.new }
        ensures makes { fresh self.new ≡ fresh self.old }
        ensures won { told_won self.new ≡ won }
    {
        self.slots.won = won;
    }
}

impl<H: Shape> Board<H> {
    /// The version that a slot of the board opened with is small.
    pub fn knows_versions(&self)
        ensures { (board_size self.now).starts.version < 2 ^ 60 }
    {}
}
