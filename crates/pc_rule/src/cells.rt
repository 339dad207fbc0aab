//! The plain values of a closed board, looked up in its words.
ghost use Rattle.std.specs.Prelude.{◌≡◌, ◌≢◌, ℕ, ◌+◌, ◌*◌, ◌<◌, ◌≤◌, slice_index};
ghost use Rattle.pc_model.specs.Cells.{IsNode};
ghost use Rattle.pc_words.specs.declared.word.WordKind.TheVariants.{Exchange};
ghost use Rattle.pc_rule_law.specs.Board.{descriptor_words, stride, owns_begin, words_of};
ghost use Rattle.pc_rule_law.specs.Stages.{value_by};
ghost use Rattle.pc_rule_law.specs.Values.{IsPlainValue, HasPlainValue};
ghost use Rattle.pc_rule.specs.Closed.{closed_size};
ghost use Rattle.pc_rule.specs.Left.{words_left, board_left};

use crate::closed::Closed;
use crate::places::{cell_place, own_place};
use pc_model::{Field, Shape};
use pc_words::{Stage, WordKind, kind_of, unpack};

/// The value of a changed word by how far its exchange has come: the new one where it succeeded, else the old one.
fn value_for(stage: Stage, old: u64, new: u64) -> u64
    ensures { result ≡ value_by stage old new }
{
    match stage {
        Stage::Succeeded { .. } => new,
        _ => old,
    }
}

impl<H: Shape> Closed<H> {
    /// The plain value of a word: of a plain word its payload; of a reference to an exchange what the entry of this word in
    /// its pass's descriptor has, the new value where the exchange succeeded, and else the old one. No install stands in a
    /// closed board.
    /// - `node`: the sentinel or one of the board's slots.
    pub fn cell(&self, node: u32, field: Field) -> u64
        requires { IsNode (closed_size self.now).slots node }
        ensures plain { HasPlainValue (board_left self.now) node field result }
    {
        let word = self.word(cell_place(node, field));
        match kind_of(word) {
            WordKind::Plain(value) => value,
            WordKind::Install { .. } => unreachable!(),
            WordKind::Exchange { seat, .. } => self.exchanged(seat as usize, node, field),
        }
    }

    /// The value of a word that holds a reference to the exchange of the pass at this seat.
    fn exchanged(&self, seat: usize, node: u32, field: Field) -> u64
        requires inside { IsNode (closed_size self.now).slots node }
        requires held { let b = board_left self.now in b.cell node field ≡ Exchange seat (b.status seat).number }
        ensures { let b = board_left self.now in IsPlainValue b node field (b.cell node field) result }
    {
        let status = unpack(self.own(seat, 0));
        let entry = self.entry_of(seat, cell_place(node, field) as u64);
        let old = self.described(seat, 4 + 3 * entry);
        let new = self.described(seat, 5 + 3 * entry);
        value_for(status.stage, old, new)
    }

    /// Which of the changes in the descriptor of the pass at this seat is that of this word.
    fn entry_of(&self, seat: usize, word: u64) -> usize
        requires seat { seat < (closed_size self.now).seats }
        requires room { (board_left self.now).word seat 1 ≤ 25 + (closed_size self.now).slots }
        requires listed { let b = board_left self.now in ((i : ℕ) → i < b.word seat 1 → b.word seat (3 + 3 * i) ≢ word) → ⊥ }
        ensures { let b = board_left self.now in (result < b.word seat 1) × (b.word seat (3 + 3 * result) ≡ word) }
    {
        let count = self.described(seat, 1) as usize;
        for i in 0..count {
            if self.described(seat, 3 + 3 * i) == word {
                return i;
            }
        }
        unreachable!()
    }

    /// The word of the descriptor of the pass at this seat, at this place.
    fn described(&self, seat: usize, place: usize) -> u64
        requires { (seat < (closed_size self.now).seats) × (place < descriptor_words (closed_size self.now).slots) }
        ensures { result ≡ (board_left self.now).word seat place }
    {
        self.own(seat, 6 + place)
    }

    /// The word of the pass at this seat, at this place among its words.
    fn own(&self, seat: usize, offset: usize) -> u64
        requires { (seat < (closed_size self.now).seats) × (offset < stride (closed_size self.now)) }
        ensures { let z = closed_size self.now in result ≡ slice_index (words_left self.now) (owns_begin z + (seat * stride z + offset)) }
    {
        self.word(own_place(self.slots, seat, offset))
    }

    /// The word at this address.
    fn word(&self, at: usize) -> u64
        requires { at < words_of (closed_size self.now) }
        ensures { result ≡ slice_index (words_left self.now) at }
    {
        self.table.word(at)
    }
}
