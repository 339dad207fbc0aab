//! The words of an exchange, stored in the own descriptor. One of the changes that has its value already isn't stored.
ghost use Rattle.std.specs.Prelude.{◌≡◌, ◌+◌, ◌<◌, ◌≤◌, true, length};
ghost use Rattle.pc_rule_law.specs.Board.{descriptor_words};
ghost use Rattle.pc_rule_law.specs.Conditions.{CanWrite};
ghost use Rattle.pc_rule_law.specs.Views.{word_in};
ghost use Rattle.pc_rule.specs.Passes.{view, knows, listed, visits as held_visits, board_size, IsPassOf, IsSamePass};
ghost use Rattle.pc_kcas.specs.Exchanges.{ListsTo, VisitsTo, SameBelow, OnlyWrote, OnlyStored, with_word, with_counts, with_change, with_visit_words};

use pc_model::Shape;
use pc_rule::{Board, Pass, Place, Visit, step_10};

// How many words of its descriptor a pass keeps.
const KEPT_WORDS: u32 = 75;

// Whether a word of the own descriptor is kept and stands already.
fn stands<H: Shape>(pass: &Pass<H>, place: u32, word: u64) -> bool
    ensures { result ≡ true → word_in (view pass.now).attempt.words place ≡ word }
{
    if place >= KEPT_WORDS {
        return false;
    }
    pass.attempt_word(place) == word
}

// A word of the own descriptor: it is stored, unless it is known to stand there already.
fn write_word<H: Shape>(board: &Board<H>, pass: &mut Pass<H>, place: u32, word: u64)
    requires pass { IsPassOf board.now pass.old }
    requires may { CanWrite (view pass.old) }
    requires place { place < descriptor_words (board_size board.now).slots }
    ensures pass { IsSamePass pass.old pass.new }
    ensures only { OnlyWrote (view pass.old) (view pass.new) }
    ensures beside { OnlyStored (knows pass.old) (knows pass.new) }
    ensures words { word_in (view pass.new).attempt.words ≡ with_word (word_in (view pass.old).attempt.words) place word }
{
    if stands(pass, place, word) {
        return;
    }
    step_10(board, pass, place, word);
}

// The mode, and the numbers of changes and of visits.
fn write_counts<H: Shape>(board: &Board<H>, pass: &mut Pass<H>, mode: u64, count: u32, visits: u32)
    requires pass { IsPassOf board.now pass.old }
    requires may { CanWrite (view pass.old) }
    ensures pass { IsSamePass pass.old pass.new }
    ensures only { OnlyWrote (view pass.old) (view pass.new) }
    ensures beside { OnlyStored (knows pass.old) (knows pass.new) }
    ensures words { word_in (view pass.new).attempt.words ≡ with_counts (word_in (view pass.old).attempt.words) mode count visits }
{
    write_word(board, pass, 0, mode);
    write_word(board, pass, 1, u64::from(count));
    write_word(board, pass, 2, u64::from(visits));
}

// The three words of one change.
fn write_change<H: Shape>(board: &Board<H>, pass: &mut Pass<H>, i: u32, place: Place)
    requires pass { IsPassOf board.now pass.old }
    requires may { CanWrite (view pass.old) }
    requires few { (i < 25 + (board_size board.now).slots) × (i < 61025) }
    ensures pass { IsSamePass pass.old pass.new }
    ensures only { OnlyWrote (view pass.old) (view pass.new) }
    ensures beside { OnlyStored (knows pass.old) (knows pass.new) }
    ensures words { word_in (view pass.new).attempt.words ≡ with_change (word_in (view pass.old).attempt.words) i place }
{
    write_word(board, pass, 3 + 3 * i, place.number());
    write_word(board, pass, 4 + 3 * i, place.old);
    write_word(board, pass, 5 + 3 * i, place.new);
}

/// Stores the mode, the numbers of changes and of visits, and the words of all that is listed.
pub(crate) fn write_listed<H: Shape>(board: &Board<H>, pass: &mut Pass<H>, mode: u64, visits: u32)
    requires pass { IsPassOf board.now pass.old }
    requires may { CanWrite (view pass.old) }
    ensures pass { IsSamePass pass.old pass.new }
    ensures only { OnlyWrote (view pass.old) (view pass.new) }
    ensures beside { OnlyStored (knows pass.old) (knows pass.new) }
    ensures words { ListsTo mode visits (listed pass.new) (word_in (view pass.new).attempt.words) (length (listed pass.new)) }
{
    let count = board.count_listed(pass);
    write_counts(board, pass, mode, count, visits);
    let mut i = 0;
    while i < count {
        let place = pass.listed()[i as usize];
        write_change(board, pass, i, place);
        i += 1;
    }
}

// The two words of one visit.
fn write_visit<H: Shape>(board: &Board<H>, pass: &mut Pass<H>, i: u32, visit: Visit)
    requires pass { IsPassOf board.now pass.old }
    requires may { CanWrite (view pass.old) }
    requires few { i ≤ (board_size board.now).slots }
    ensures pass { IsSamePass pass.old pass.new }
    ensures only { OnlyWrote (view pass.old) (view pass.new) }
    ensures beside { OnlyStored (knows pass.old) (knows pass.new) }
    ensures words { word_in (view pass.new).attempt.words ≡ with_visit_words (board_size board.now).slots (word_in (view pass.old).attempt.words) i visit }
{
    let place = board.visit_place(i);
    step_10(board, pass, place, u64::from(visit.node));
    step_10(board, pass, place + 1, visit.version);
}

/// Stores the words of so many of the visits that the pass holds, the first ones.
pub(crate) fn write_visits<H: Shape>(board: &Board<H>, pass: &mut Pass<H>, visits: u32)
    requires pass { IsPassOf board.now pass.old }
    requires may { CanWrite (view pass.old) }
    requires held { visits ≤ length (held_visits pass.old) }
    ensures pass { IsSamePass pass.old pass.new }
    ensures only { OnlyWrote (view pass.old) (view pass.new) }
    ensures beside { OnlyStored (knows pass.old) (knows pass.new) }
    ensures below { SameBelow (board_size board.now).slots (word_in (view pass.old).attempt.words) (word_in (view pass.new).attempt.words) }
    ensures words { VisitsTo (board_size board.now).slots (held_visits pass.new) (word_in (view pass.new).attempt.words) visits }
{
    let mut i = 0;
    while i < visits {
        let visit = pass.visits()[i as usize];
        write_visit(board, pass, i, visit);
        i += 1;
    }
}
