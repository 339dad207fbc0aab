//! The steps of an install, one call for each kind. They have the numbers of the kinds of step: 1 and 2 are the making
//! and joining of passes. `of` is the number of the pass whose word is meant, from 1.
ghost use Rattle.std.specs.Prelude.{◌≡◌, ◌-◌, ◌<◌};
ghost use Rattle.pc_rule_law.specs.Conditions.{CanStore};
ghost use Rattle.pc_rule_law.specs.Plays.{after_store, InstallLoaded, InstallTried, StatusLoaded, InstallTaken};
ghost use Rattle.pc_exchange_law.specs.Knowing.{StatusSeen};
ghost use Rattle.pc_exchange_law.specs.Slots.{IsHeld};
ghost use Rattle.pc_exchange_law.specs.WholePlays.{CellSeen, IsNotCleared, OldDiffers, OwnVerdict, WordSwapped};
ghost use Rattle.pc_rule.specs.Conditions.{MayPlaceInstall, MayTakeInstall};
ghost use Rattle.pc_rule.specs.Passes.{whole, view, knows, aim, board_size, IsPassOf, IsSamePass, HasNode, HasPass};
ghost use Rattle.pc_words.specs.Statuses.{IsStatus, unpacked};

use crate::board::{Board, Pass};
use pc_exchange_law::{
    WholeLoadCell, WholeLoadInstall, WholeLoadStatus, WholePlace, WholeStoreInstall, WholeTake,
};
use pc_model::{Field, Shape};

/// A store to a word of the own install descriptor: 0 its number, then the exchange, the word and the word's old value.
pub fn step_3<H: Shape>(board: &Board<H>, pass: &mut Pass<H>, place: u32, new: u64)
    requires pass { IsPassOf board.now pass.old }
    requires place { place < 4 }
    requires may { CanStore (view pass.old) place new }
    ensures pass { IsSamePass pass.old pass.new }
    ensures told { view pass.new ≡ after_store (view pass.old) place new }
    ensures learnt { (knows pass.new ≡ knows pass.old) × (aim pass.new ≡ aim pass.old) }
{
    let word = board.word_of(pass, 2 + place as usize);
    board
        .table
        .shared
        .store::<WholeStoreInstall>(&mut pass.seat, word, new);
    pass.install.set(place, new);
}

/// A load of a word of an install descriptor, at a place from 0 to 3.
pub fn step_4<H: Shape>(board: &Board<H>, pass: &mut Pass<H>, of: u32, place: u32) -> u64
    requires pass { IsPassOf board.now pass.old }
    requires of { HasPass board.now of }
    requires place { place < 4 }
    ensures pass { IsSamePass pass.old pass.new }
    ensures told { InstallLoaded (view pass.old) (of - 1) place result (view pass.new) }
    ensures learnt { (knows pass.new ≡ knows pass.old) × (aim pass.new ≡ aim pass.old) }
{
    let word = board.own_word(of as usize - 1, 2 + place as usize);
    board
        .table
        .shared
        .load::<WholeLoadInstall>(&mut pass.seat, word)
}

/// A load of a word of a node. What stands there is noted: a version, an install, or a reference that is held; and that it is
/// clean of the own attempt, where that shows; and that the node which a link names is in use. The node is known to be in use.
pub fn step_5<H: Shape>(board: &Board<H>, pass: &mut Pass<H>, node: u32, field: Field) -> u64
    requires pass { IsPassOf board.now pass.old }
    requires inside { HasNode board.now node }
    requires held { IsHeld (knows pass.old) node }
    ensures pass { IsSamePass pass.old pass.new }
    ensures told { CellSeen (whole pass.old) node field result (whole pass.new) }
{
    let word = board.cell_word(node, field);
    board
        .table
        .shared
        .load::<WholeLoadCell>(&mut pass.seat, word)
}

/// The own install in place of a plain value: a compare_exchange, which answers the word that it found.
pub fn step_6<H: Shape>(
    board: &Board<H>,
    pass: &mut Pass<H>,
    node: u32,
    field: Field,
    old: u64,
    new: u64,
) -> u64
    requires pass { IsPassOf board.now pass.old }
    requires inside { HasNode board.now node }
    requires may { MayPlaceInstall (board_size board.now) (view pass.old) node field old new }
    ensures pass { IsSamePass pass.old pass.new }
    ensures told { InstallTried (view pass.old) node field old result (view pass.new) }
    ensures learnt { WordSwapped (whole pass.old) node field old new result (whole pass.new) }
    ensures outdated { OldDiffers (whole pass.old) node result old (whole pass.new) }
    ensures present { IsNotCleared (whole pass.old) result }
{
    let word = board.cell_word(node, field);
    board
        .table
        .shared
        .compare_exchange::<WholePlace>(&mut pass.seat, word, old, new)
}

/// A load of a status. The pass then aims at that attempt.
pub fn step_7<H: Shape>(board: &Board<H>, pass: &mut Pass<H>, of: u32) -> u64
    requires pass { IsPassOf board.now pass.old }
    requires of { HasPass board.now of }
    ensures pass { IsSamePass pass.old pass.new }
    ensures word { IsStatus result }
    ensures told { StatusLoaded (view pass.old) (of - 1) (unpacked result) (view pass.new) }
    ensures learnt { StatusSeen (knows pass.old) (of - 1) (unpacked result) (knows pass.new) }
    ensures aim { aim pass.new ≡ (of - 1, (unpacked result).number) }
    ensures own { OwnVerdict (whole pass.old) (of - 1) (unpacked result) (whole pass.new) }
{
    let word = board.own_word(of as usize - 1, 0);
    board
        .table
        .shared
        .load::<WholeLoadStatus>(&mut pass.seat, word)
}

/// The exchange's reference or the old value in place of an install: a compare_exchange, which answers the word that it
/// found.
pub fn step_8<H: Shape>(
    board: &Board<H>,
    pass: &mut Pass<H>,
    node: u32,
    field: Field,
    old: u64,
    new: u64,
) -> u64
    requires pass { IsPassOf board.now pass.old }
    requires inside { HasNode board.now node }
    requires may { MayTakeInstall (board_size board.now) (view pass.old) node field old new }
    ensures pass { IsSamePass pass.old pass.new }
    ensures told { InstallTaken (view pass.old) node field old new result (view pass.new) }
    ensures learnt { WordSwapped (whole pass.old) node field old new result (whole pass.new) }
{
    let word = board.cell_word(node, field);
    board
        .table
        .shared
        .compare_exchange::<WholeTake>(&mut pass.seat, word, old, new)
}
