//! How a pass lists the words of an exchange: the version of the sentinel, and some of its other words.
ghost use Rattle.std.specs.Prelude.{◌≡◌, ◌+◌, ◌<◌, ◌≤◌, ◌^◌, [], true, false};
ghost use Rattle.pc_rule.specs.Passes.{view, knows, listed, board_size, IsPassOf, IsSeatedAs};
ghost use Rattle.exchange_race.specs.Racing.{turn, KeepsLinked, MayRace, AreOfRace};

use crate::hand::Hand;
use crate::reading::read_number;
use pc_kcas::word;
use pc_model::{Field, Loose};
use pc_rule::{Board, Pass, Place};

// From this version on none is raised.
const MOST_VERSION: u64 = 4_611_686_018_427_387_902;

// The field that is listed in this turn, behind the version.
fn field_in(place: u32) -> Field
    requires { (1 ≤ place) × (place ≤ 5) }
    ensures { turn result ≡ place }
{
    match place {
        1 => Field::Value,
        2 => Field::Height,
        3 => Field::Spare,
        4 => Field::Key,
        _ => Field::Left,
    }
}

// What a field gets in place of its old number. A link that names the sentinel names none then, and one that names none names
// the sentinel; any other field gets a number of the thread's own.
fn number_for(hand: &mut Hand, seat: u32, field: Field, old: u64) -> u64
    requires { seat < 32 }
    ensures fits { result < 2 ^ 62 }
    ensures keeps { KeepsLinked field result }
{
    match field {
        Field::Left => 1 - old.min(1),
        Field::Right => 0,
        Field::Parent => 0,
        Field::Version => 0,
        Field::Key => hand.number(seat),
        Field::Value => hand.number(seat),
        Field::Height => hand.number(seat),
        Field::Spare => hand.number(seat),
    }
}

// Lists the version, to be raised by two. False where it can't be read now.
fn list_version(board: &Board<Loose>, pass: &mut Pass<Loose>) -> bool
    requires pass { IsPassOf board.now pass.old }
    requires may { MayRace (view pass.old) }
    requires none { listed pass.old ≡ [] }
    ensures seated { IsSeatedAs pass.old pass.new }
    ensures may { MayRace (view pass.new) }
    ensures listed { result ≡ true → AreOfRace (board_size board.now) (knows pass.new) (listed pass.new) 1 }
    ensures none { result ≡ false → listed pass.new ≡ [] }
{
    let Some(old) = read_number(board, pass, Field::Version) else {
        return false;
    };
    if old >= MOST_VERSION {
        return false;
    }
    if old % 2 != 0 {
        return false;
    }
    let version = Place {
        node: 1,
        field: Field::Version,
        old,
        new: old + 2,
    };
    word(pass, version);
    true
}

// Lists the field of this turn, with another number. False where it can't be read now.
fn list_field(board: &Board<Loose>, pass: &mut Pass<Loose>, hand: &mut Hand, place: u32) -> bool
    requires pass { IsPassOf board.now pass.old }
    requires may { MayRace (view pass.old) }
    requires place { (1 ≤ place) × (place ≤ 5) }
    requires listed { AreOfRace (board_size board.now) (knows pass.old) (listed pass.old) place }
    ensures seated { IsSeatedAs pass.old pass.new }
    ensures may { MayRace (view pass.new) }
    ensures listed { result ≡ true → AreOfRace (board_size board.now) (knows pass.new) (listed pass.new) (place + 1) }
{
    let field = field_in(place);
    let Some(old) = read_number(board, pass, field) else {
        return false;
    };
    let new = number_for(hand, board.seat_of(pass), field, old);
    let change = Place {
        node: 1,
        field,
        old,
        new,
    };
    word(pass, change);
    true
}

/// Lists so many words. False where one can't be read now; then none is listed.
pub(crate) fn list_words(
    board: &Board<Loose>,
    pass: &mut Pass<Loose>,
    hand: &mut Hand,
    count: u32,
) -> bool
    requires pass { IsPassOf board.now pass.old }
    requires may { MayRace (view pass.old) }
    requires count { (2 ≤ count) × (count ≤ 6) }
    requires none { listed pass.old ≡ [] }
    ensures seated { IsSeatedAs pass.old pass.new }
    ensures may { MayRace (view pass.new) }
    ensures listed { result ≡ true → AreOfRace (board_size board.now) (knows pass.new) (listed pass.new) count }
    ensures none { result ≡ false → listed pass.new ≡ [] }
{
    if !list_version(board, pass) {
        return false;
    }
    for place in 1..count {
        if !list_field(board, pass, hand, place) {
            pass.drop_listed();
            return false;
        }
    }
    true
}
