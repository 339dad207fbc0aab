//! The steps by which an exchange is decided and cleared, one call for each kind, by the numbers of the kinds of step. Any pass
//! may make those of 13, 14 and 15, for its own attempt or for that of another. `of` is the number of the pass whose word is
//! meant, from 1.
ghost use Rattle.std.specs.Prelude.{◌≡◌, ◌-◌, ◌<◌, ◌≤◌, None};
ghost use Rattle.pc_words.specs.Statuses.{unpacked};
ghost use Rattle.pc_exchange_law.specs.Knowing.{after_draw, after_refusal, after_decision, after_withdrawal, after_clearing};
ghost use Rattle.pc_exchange_law.specs.Ties.{code, last_stamp};
ghost use Rattle.pc_exchange_law.specs.WholePlays.{StatusTried, ReferenceTaken, after_clear, after_decided, verdict_by};
ghost use Rattle.pc_protocol.specs.Histories.{Stage, withdrawn, aborted};
ghost use Rattle.pc_protocol.specs.Notes.{verdict};
ghost use Rattle.pc_rule_law.specs.Past.{Has};
ghost use Rattle.pc_rule.specs.declared.refs.RefKind.TheVariants.{Exchange};
ghost use Rattle.pc_rule.specs.Deciding.{MayDraw, MayDecide, MayWithdraw, MayPutNumber, MayClearOwn, KnowsOutcome};
ghost use Rattle.pc_rule.specs.Passes.{whole, view, knows, fresh, told_won, board_size, IsPassOf, IsSamePass, IsSameButSlots, HasNode, HasPass};

use crate::board::{Board, Pass};
use crate::refs::Ref;
use pc_exchange_law::{WholeClear, WholeDecide, WholeDraw, WholeTakeReference, WholeWithdraw};
use pc_model::{Field, Shape};

/// A draw of a stamp, for the exchange at which the pass aims. From the last stamp on it is refused.
pub fn step_13<H: Shape>(board: &Board<H>, pass: &mut Pass<H>, op: Ref) -> u64
    requires pass { IsPassOf board.now pass.old }
    requires exchange { op.kind ≡ Exchange }
    requires may { MayDraw (whole pass.old) op }
    ensures pass { IsSamePass pass.old pass.new }
    ensures drawn { result < last_stamp → whole pass.new ≡ record (whole pass.old) { knows = after_draw (knows pass.old) (code op.seat op.number) result } }
    ensures refused { last_stamp ≤ result → whole pass.new ≡ record (whole pass.old) { knows = after_refusal (knows pass.old) result } }
{
    let _ = op;
    board
        .table
        .shared
        .fetch_add::<WholeDraw>(&mut pass.seat, 0, 1)
}

/// An attempt takes effect at a stamp, or fails: a compare_exchange of its pass's status, which answers the status that it
/// found.
pub fn step_14<H: Shape>(board: &Board<H>, pass: &mut Pass<H>, of: u32, old: u64, new: u64) -> u64
    requires pass { IsPassOf board.now pass.old }
    requires of { HasPass board.now of }
    requires may { MayDecide (board_size board.now) (whole pass.old) (of - 1) old new }
    ensures pass { IsSamePass pass.old pass.new }
    ensures told { StatusTried (whole pass.old) (of - 1) old result (λ y. y ≡ record (whole pass.old) { view = after_decided (view pass.old) (of - 1) (unpacked old).number; knows = after_decision (knows pass.old) (code (of - 1) (unpacked old).number) (verdict_by (unpacked new).stage) }) (whole pass.new) }
{
    let word = board.own_word(of as usize - 1, 0);
    board
        .table
        .shared
        .compare_exchange::<WholeDecide>(&mut pass.seat, word, old, new)
}

/// The same step on the own status, by which the pass withdraws its own attempt. It asks for nothing but that these are the
/// status of an undecided attempt and that of a withdrawn one.
pub fn step_14_own<H: Shape>(board: &Board<H>, pass: &mut Pass<H>, old: u64, new: u64) -> u64
    requires pass { IsPassOf board.now pass.old }
    requires may { MayWithdraw (knows pass.old) old new }
    ensures pass { IsSamePass pass.old pass.new }
    ensures told { StatusTried (whole pass.old) (view pass.old).seat old result (λ y. y ≡ record (whole pass.old) { view = after_decided (view pass.old) (view pass.old).seat (knows pass.old).own.number; knows = after_withdrawal (knows pass.old) (code (view pass.old).seat (knows pass.old).own.number) (aborted withdrawn) }) (whole pass.new) }
{
    let word = board.word_of(pass, 0);
    board
        .table
        .shared
        .compare_exchange::<WholeWithdraw>(&mut pass.seat, word, old, new)
}

/// A number in place of the reference of a decided exchange: a compare_exchange, which answers the word that it found.
pub fn step_15<H: Shape>(
    board: &Board<H>,
    pass: &mut Pass<H>,
    node: u32,
    field: Field,
    old: u64,
    new: u64,
) -> u64
    requires pass { IsPassOf board.now pass.old }
    requires inside { HasNode board.now node }
    requires may { MayPutNumber (board_size board.now) (whole pass.old) node field old new }
    ensures pass { IsSamePass pass.old pass.new }
    ensures told { ReferenceTaken (whole pass.old) node field old new result (whole pass.new) }
{
    let word = board.cell_word(node, field);
    board
        .table
        .shared
        .compare_exchange::<WholeTakeReference>(&mut pass.seat, word, old, new)
}

/// The own attempt is cleared: a store of the status that says that it is idle. The pass was told whether it took effect: where it did,
/// and made the spare's node, the pass has no spare any more.
pub fn step_16<H: Shape>(board: &Board<H>, pass: &mut Pass<H>, new: u64)
    requires pass { IsPassOf board.now pass.old }
    requires may { MayClearOwn (whole pass.old) new }
    requires outcome { KnowsOutcome (whole pass.old) (told_won pass.old) }
    ensures pass { IsSameButSlots pass.old pass.new }
    ensures makes { fresh pass.new ≡ None }
    ensures told { (st : Stage) → Has (knows pass.old).told (verdict (code (view pass.old).seat (knows pass.old).own.number) st) → whole pass.new ≡ record (whole pass.old) { view = after_clear (view pass.old); knows = after_clearing (knows pass.old) st } }
{
    let word = board.word_of(pass, 0);
    board
        .table
        .shared
        .store::<WholeClear>(&mut pass.seat, word, new);
    pass.published = false;
    pass.slots = pass.slots.cleared();
}
