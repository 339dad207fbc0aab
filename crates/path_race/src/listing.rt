//! How a pass adds the words of an exchange: the version of the sentinel, and some of its other words.
ghost use Rattle.std.specs.Prelude.{◌≡◌, ◌+◌, ◌<◌, ◌≤◌, ◌^◌, true};
ghost use Rattle.pc_rule.specs.Passes.{IsSeatedAs};
ghost use Rattle.path_race.specs.Racing.{KeepsLinked, IsOpen, HasBegun, HasAdded};

use crate::hand::Hand;
use crate::walking::field_in;
use pc_model::{Field, Loose};
use pc_path::{add, read, visit};
use pc_rule::{Board, Pass};

// Each number of a word is below this one.
const LIMIT: u64 = 4_611_686_018_427_387_904;

// What a field gets in place of its old number. A link that names the sentinel names none then, and one that names none names
// the sentinel; any other field gets a number of the thread's own.
fn number_for(hand: &mut Hand, seat: u32, field: Field, old: u64) -> u64
    requires { seat < 32 }
    ensures fits { result < 2 ^ 62 }
    ensures keeps { KeepsLinked field result }
{
    match field {
        Field::Left => 1 - old.min(1),
        Field::Right => 0,
        Field::Parent => 0,
        Field::Version => 0,
        Field::Key => hand.number(seat),
        Field::Value => hand.number(seat),
        Field::Height => hand.number(seat),
        Field::Spare => hand.number(seat),
    }
}

// Visits the sentinel and adds its version, to be raised by two. False where it couldn't.
fn add_version(board: &Board<Loose>, pass: &mut Pass<Loose>) -> bool
    requires begun { IsOpen board.now pass.old }
    ensures seated { IsSeatedAs pass.old pass.new }
    ensures begun { HasBegun board.now pass.new }
    ensures added { result ≡ true → HasAdded board.now pass.new 1 }
{
    let Ok(version) = visit(board, pass, 1) else {
        return false;
    };
    add(board, pass, 1, Field::Version, version, version + 2);
    true
}

// Reads the field of this turn and adds it, with another number. False where it couldn't.
fn add_field(board: &Board<Loose>, pass: &mut Pass<Loose>, hand: &mut Hand, place: u32) -> bool
    requires added { HasAdded board.now pass.old place }
    requires place { (1 ≤ place) × (place ≤ 5) }
    ensures seated { IsSeatedAs pass.old pass.new }
    ensures begun { HasBegun board.now pass.new }
    ensures added { result ≡ true → HasAdded board.now pass.new (place + 1) }
{
    let field = field_in(place);
    let Ok(old) = read(board, pass, 1, field) else {
        return false;
    };
    if old >= LIMIT {
        return false;
    }
    let new = number_for(hand, board.seat_of(pass), field, old);
    add(board, pass, 1, field, old, new);
    true
}

/// Visits the sentinel and adds so many words of it. False where it couldn't.
pub(crate) fn add_words(
    board: &Board<Loose>,
    pass: &mut Pass<Loose>,
    hand: &mut Hand,
    count: u32,
) -> bool
    requires begun { IsOpen board.now pass.old }
    requires count { (2 ≤ count) × (count ≤ 6) }
    ensures seated { IsSeatedAs pass.old pass.new }
    ensures begun { HasBegun board.now pass.new }
    ensures added { result ≡ true → HasAdded board.now pass.new count }
{
    if !add_version(board, pass) {
        return false;
    }
    for place in 1..count {
        if !add_field(board, pass, hand, place) {
            return false;
        }
    }
    true
}
