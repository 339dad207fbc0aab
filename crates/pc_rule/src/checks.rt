//! The steps by which an exchange that visits nodes is checked and decided, by the numbers of the kinds of step. Once a stamp is
//! drawn for it, the version of each visited node is loaded again; then it takes effect at the stamp, or fails, where a version
//! changed or another pass holds one. `of` is the number of the pass whose word is meant, from 1.
ghost use Rattle.std.specs.Prelude.{◌≡◌, ◌-◌};
ghost use Rattle.pc_model.specs.declared.cell.Field.TheVariants.{Version};
ghost use Rattle.pc_words.specs.Statuses.{unpacked};
ghost use Rattle.pc_exchange_law.specs.ExchangeConditions.{VisitsForDraw};
ghost use Rattle.pc_exchange_law.specs.Knowing.{after_decision, after_withdrawal};
ghost use Rattle.pc_exchange_law.specs.Ties.{code};
ghost use Rattle.pc_exchange_law.specs.WholePlays.{CellSeen, LookedFor, StatusTried, after_decided, verdict_by};
ghost use Rattle.pc_protocol.specs.Histories.{withdrawn, aborted};
ghost use Rattle.pc_rule.specs.declared.refs.RefKind.TheVariants.{Exchange};
ghost use Rattle.pc_rule.specs.Deciding.{HasDrawnFor, MayDecide, MayWithdraw};
ghost use Rattle.pc_rule.specs.Passes.{whole, view, knows, board_size, IsPassOf, IsSamePass, HasNode, HasPass};

use crate::board::{Board, Pass};
use crate::decisions::{step_14, step_14_own};
use crate::refs::Ref;
use pc_exchange_law::WholeLookFor;
use pc_model::{Field, Shape};

/// A load of the version of a node that an exchange is known to visit, once a stamp was drawn for it. It tells of the version at every stamp
/// that the pass knows of.
pub fn step_17<H: Shape>(board: &Board<H>, pass: &mut Pass<H>, op: Ref, node: u32) -> u64
    requires pass { IsPassOf board.now pass.old }
    requires exchange { op.kind ≡ Exchange }
    requires drawn { HasDrawnFor (knows pass.old) op }
    requires inside { HasNode board.now node }
    requires visited { VisitsForDraw (whole pass.old) node }
    ensures pass { IsSamePass pass.old pass.new }
    ensures told { CellSeen (whole pass.old) node Version result (whole pass.new) }
    ensures looked { LookedFor (whole pass.old) node result (whole pass.new) }
{
    let _ = op;
    let word = board.cell_word(node, Field::Version);
    board
        .table
        .shared
        .load::<WholeLookFor>(&mut pass.seat, word)
}

/// An exchange that visits nodes takes effect at a stamp, or fails: a compare_exchange of its pass's status, which answers the
/// status that it found. It is the step 14.
pub fn step_18<H: Shape>(board: &Board<H>, pass: &mut Pass<H>, of: u32, old: u64, new: u64) -> u64
    requires pass { IsPassOf board.now pass.old }
    requires of { HasPass board.now of }
    requires may { MayDecide (board_size board.now) (whole pass.old) (of - 1) old new }
    ensures pass { IsSamePass pass.old pass.new }
    ensures told { StatusTried (whole pass.old) (of - 1) old result (λ y. y ≡ record (whole pass.old) { view = after_decided (view pass.old) (of - 1) (unpacked old).number; knows = after_decision (knows pass.old) (code (of - 1) (unpacked old).number) (verdict_by (unpacked new).stage) }) (whole pass.new) }
{
    step_14(board, pass, of, old, new)
}

/// The same step on the own status, by which the pass withdraws its own attempt.
pub fn step_19<H: Shape>(board: &Board<H>, pass: &mut Pass<H>, old: u64, new: u64) -> u64
    requires pass { IsPassOf board.now pass.old }
    requires may { MayWithdraw (knows pass.old) old new }
    ensures pass { IsSamePass pass.old pass.new }
    ensures told { StatusTried (whole pass.old) (view pass.old).seat old result (λ y. y ≡ record (whole pass.old) { view = after_decided (view pass.old) (view pass.old).seat (knows pass.old).own.number; knows = after_withdrawal (knows pass.old) (code (view pass.old).seat (knows pass.old).own.number) (aborted withdrawn) }) (whole pass.new) }
{
    step_14_own(board, pass, old, new)
}
