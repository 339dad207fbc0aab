//! The beginning and the end of an operation.
ghost use Rattle.std.specs.Prelude.{◌≡◌, [], true, false, None, IsOk};
ghost use Rattle.pc_exchange_law.specs.Paths.{begun_path, ended_path};
ghost use Rattle.pc_rule.specs.Passes.{whole, view, knows, visits, path, listed, recorded, carried, IsPassOf, IsSeatedAs, SitsAs};

use crate::moved::Moved;
use pc_model::Shape;
use pc_rule::{Board, Pass, step_24};

/// Begins an operation of a pass at rest, which has visited and read nothing then, and lists no word. As long as the epoch of a
/// board stays what it was at the opening, it always begins.
pub fn start<H: Shape>(board: &Board<H>, pass: &mut Pass<H>) -> Result<(), Moved>
    requires pass { IsPassOf board.now pass.old }
    requires rest { (path pass.old).begun ≡ false }
    requires unpublished { (view pass.old).attempt.published ≡ false }
    ensures seated { IsSeatedAs pass.old pass.new }
    ensures same { (view pass.new ≡ view pass.old) × (knows pass.new ≡ knows pass.old) }
    ensures begun { path pass.new ≡ begun_path }
    ensures visits { visits pass.new ≡ [] }
    ensures adds { listed pass.new ≡ [] }
    ensures never { IsOk result }
{
    step_24(board, pass);
    pass.drop_listed();
    Ok(())
}

/// Ends the operation that a pass has begun. The pass is at rest then: it has visited and read nothing, lists no word, and takes no
/// call along.
pub fn end<H: Shape>(board: &Board<H>, pass: &mut Pass<H>)
    requires pass { IsPassOf board.now pass.old }
    requires open { (path pass.old).begun ≡ true }
    requires unpublished { (view pass.old).attempt.published ≡ false }
    ensures seated { SitsAs pass.old pass.new × IsPassOf board.now pass.new }
    ensures same { (view pass.new ≡ view pass.old) × (knows pass.new ≡ knows pass.old) }
    ensures recorded { recorded pass.new ≡ recorded pass.old }
    ensures carried { carried pass.new ≡ None }
    ensures ended { path pass.new ≡ ended_path }
    ensures visits { visits pass.new ≡ [] }
    ensures adds { listed pass.new ≡ [] }
{
    step_24(board, pass);
    pass.drop_listed();
    pass.drop_carried();
}
