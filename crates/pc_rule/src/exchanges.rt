//! The steps of an exchange of several words, one call for each kind, by the numbers of the kinds of step: so far those up to
//! its publication, and those by which others read what it is. `of` is the number of the pass whose word is meant, from 1.
//! The words of a descriptor are, by their places: 0 the mode, 1 and 2 the numbers of changes and of visits, from 3 on
//! three words for each change (the word's number, its old and its new value), and behind the room for these two for each
//! visit (the node and its version).
ghost use Rattle.std.specs.Prelude.{◌≡◌, ◌-◌, ◌<◌};
ghost use Rattle.pc_rule_law.specs.Board.{descriptor_words};
ghost use Rattle.pc_rule_law.specs.Conditions.{CanWrite};
ghost use Rattle.pc_rule_law.specs.Plays.{ClockLoaded, after_write, after_publish, DescriptorLoaded};
ghost use Rattle.pc_exchange_law.specs.Knowing.{DescriptorLoaded as WordLoaded, after_own_store};
ghost use Rattle.pc_exchange_law.specs.WholePlays.{ClockSeen};
ghost use Rattle.pc_rule.specs.Conditions.{MayPublish, KnowsPublished, MayPublishFresh, KnowsPublishedFresh};
ghost use Rattle.pc_rule.specs.Passes.{whole, view, knows, aim, fresh, board_size, IsPassOf, IsSamePass, IsSameButSlots, HasPass};

use crate::board::{Board, Pass};
use crate::stored::keep_word;
use pc_exchange_law::{
    WholeLoadClock, WholeLoadWord, WholePublish, WholePublishFresh, WholeStoreWord,
};
use pc_model::Shape;

/// A load of the clock.
pub fn step_9<H: Shape>(board: &Board<H>, pass: &mut Pass<H>) -> u64
    requires pass { IsPassOf board.now pass.old }
    ensures pass { IsSamePass pass.old pass.new }
    ensures told { ClockLoaded (view pass.old) result (view pass.new) }
    ensures learnt { ClockSeen (whole pass.old).path (knows pass.old) result (knows pass.new) }
    ensures aim { aim pass.new ≡ aim pass.old }
{
    board.table.shared.load::<WholeLoadClock>(&mut pass.seat, 0)
}

/// A store to a word of the own descriptor, while nothing is published.
pub fn step_10<H: Shape>(board: &Board<H>, pass: &mut Pass<H>, place: u32, new: u64)
    requires pass { IsPassOf board.now pass.old }
    requires place { place < descriptor_words (board_size board.now).slots }
    requires may { CanWrite (view pass.old) }
    ensures pass { IsSamePass pass.old pass.new }
    ensures told { view pass.new ≡ after_write (view pass.old) place new }
    ensures learnt { knows pass.new ≡ after_own_store (knows pass.old) place new }
    ensures aim { aim pass.new ≡ aim pass.old }
{
    let word = board.word_of(pass, 6 + place as usize);
    board
        .table
        .shared
        .store::<WholeStoreWord>(&mut pass.seat, word, new);
    keep_word(&mut pass.words, place, new);
}

/// Publishes the own next attempt: a store of the status that says that it is undecided. Its words are those that stand in
/// the descriptor.
pub fn step_11<H: Shape>(board: &Board<H>, pass: &mut Pass<H>, new: u64)
    requires pass { IsPassOf board.now pass.old }
    requires may { MayPublish H.form (board_size board.now) (whole pass.old) new }
    ensures pass { IsSameButSlots pass.old pass.new }
    ensures told { view pass.new ≡ after_publish (view pass.old) }
    ensures learnt { KnowsPublished (whole pass.old) (knows pass.new) }
    ensures aim { aim pass.new ≡ aim pass.old }
{
    let word = board.word_of(pass, 0);
    board
        .table
        .shared
        .store::<WholePublish>(&mut pass.seat, word, new);
    pass.attempts += 1;
    pass.published = true;
    pass.slots.named = false;
}

/// Publishes the own next attempt, which makes the node of the own spare: a step 11.
pub fn step_11_fresh<H: Shape>(board: &Board<H>, pass: &mut Pass<H>, new: u64)
    requires pass { IsPassOf board.now pass.old }
    requires may { MayPublishFresh H.form (board_size board.now) (whole pass.old) new }
    ensures pass { IsSameButSlots pass.old pass.new }
    ensures told { view pass.new ≡ after_publish (view pass.old) }
    ensures learnt { KnowsPublishedFresh (whole pass.old) (knows pass.new) }
    ensures aim { aim pass.new ≡ aim pass.old }
{
    let word = board.word_of(pass, 0);
    board
        .table
        .shared
        .store::<WholePublishFresh>(&mut pass.seat, word, new);
    pass.attempts += 1;
    pass.published = true;
    pass.slots.named = true;
}

/// A load of a word of a descriptor.
pub fn step_12<H: Shape>(board: &Board<H>, pass: &mut Pass<H>, of: u32, place: u32) -> u64
    requires pass { IsPassOf board.now pass.old }
    requires of { HasPass board.now of }
    requires place { place < descriptor_words (board_size board.now).slots }
    ensures pass { IsSamePass pass.old pass.new }
    ensures told { DescriptorLoaded (view pass.old) (of - 1) place result (view pass.new) }
    ensures learnt { WordLoaded (knows pass.old) (of - 1) place result (knows pass.new) }
    ensures aim { aim pass.new ≡ aim pass.old }
{
    let word = board.own_word(of as usize - 1, 6 + place as usize);
    board
        .table
        .shared
        .load::<WholeLoadWord>(&mut pass.seat, word)
}
