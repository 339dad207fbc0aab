//! What the words of a board are when it opens. Each word is a function of its address, so they are written in one loop.
ghost use Rattle.std.specs.Prelude.{IfOk, ◌≡◌, ◌<◌, ◌≤◌, ◌^◌};
ghost use Rattle.pc_rule_law.specs.Board.{Place as At, address, Inside, shows, Represents};
ghost use Rattle.pc_rule_law.specs.Tables.{size_of};
ghost use Rattle.pc_rule.specs.Starting.{cell_number, own_number, starting_board};

use pc_model::Field;
use pc_rule_law::{Opening, Starts};
use pc_words::{Stage, Status, pack};
use std::alloc::{AllocError, Global};

/// A change of a word: of this field of this node, from the old number to the new one.
#[derive(Clone, Copy, PartialEq, Eq)]
pub struct Place {
    /// The node.
    pub node: u32,
    /// The field.
    pub field: Field,
    /// The number that it has.
    pub old: u64,
    /// The number that it gets.
    pub new: u64,
}

/// The word of a node at this place.
fn cell_start(version: u64, node: usize, place: usize) -> u64
    requires { version < 2 ^ 60 }
    ensures { result ≡ cell_number version node place }
{
    match (place, node) {
        (0, 1) => 4 * version,
        (0, _) => 4 * (version + 1),
        (1, 1) => 18446744073709551612,
        _ => 0,
    }
}

/// The word of a pass at this place among its words: its status, its announcement, its install descriptor and its
/// descriptor.
fn own_start(starts: &Starts, offset: usize) -> u64
    requires { starts.now.attempt < 2 ^ 28 }
    ensures { result ≡ own_number starts.now.attempt starts.now.install offset }
{
    match offset {
        0 => pack(Status {
            number: starts.attempt,
            stage: Stage::Idle,
        }),
        2 => starts.install,
        _ => 0,
    }
}

/// The word at this address.
fn word_start(opening: &Opening, at: usize) -> u64
    requires { (opening.now.slots ≤ 61000) × (opening.now.starts.attempt < 2 ^ 28) × (opening.now.starts.version < 2 ^ 60) }
    ensures { (p : At) → Inside (size_of opening.now) p → address (size_of opening.now) p ≡ at → result ≡ shows (starting_board opening.now) p }
{
    let begin = 24 + 8 * opening.slots;
    if at >= begin {
        let stride = 8 * ((93 + 5 * opening.slots) / 8);
        let own = at - begin;
        return own_start(&opening.starts, own % stride);
    }
    if at == 0 {
        return opening.starts.stamp;
    }
    if at == 16 + 8 * opening.slots {
        return opening.starts.epoch;
    }
    cell_start(opening.starts.version, at / 8, at % 8)
}

/// The words of a board that opens.
pub(crate) fn words_start(alloc: Global, opening: &Opening) -> Result<Vec<u64>, AllocError>
    requires { (opening.now.slots ≤ 61000) × (opening.now.seats ≤ 32) × (opening.now.starts.attempt < 2 ^ 28) × (opening.now.starts.version < 2 ^ 60) }
    ensures { IfOk result (λ words. Represents (size_of opening.now) words.items (starting_board opening.now)) }
{
    let stride = 8 * ((93 + 5 * opening.slots) / 8);
    let length = 24 + 8 * opening.slots + stride * opening.seats;
    let mut words = Vec::with_capacity(alloc, length)?;
    let mut at = 0;
    while at < length {
        words.push_reserved(word_start(opening, at));
        at += 1;
    }
    Ok(words)
}
