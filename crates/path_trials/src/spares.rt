//! Slots that passes take as their spares: worked rows, each compared with what was worked out by hand.
ghost use Rattle.std.specs.Prelude.{◌≡◌};
ghost use Rattle.pc_rule_law.specs.Conditions.{IsFree};
ghost use Rattle.pc_rule.specs.Passes.{view, IsPassOf, IsSeatedAs};
ghost use Rattle.path_trials.specs.Operating.{IsAtRest};

use crate::trio::{closed, left, opened};
use pc_epoch::{NoSpare, spare};
use pc_model::{Loose, Memory};
use pc_rule::{Board, Pass, usual_starts};

/// The pass asks twice for a spare. Says what it was answered, whether it has one, and how many slots it has free.
fn asked(
    board: &Board<Loose>,
    pass: &mut Pass<Loose>,
) -> ((Result<(), NoSpare>, Result<(), NoSpare>), (bool, u32))
    requires pass { IsPassOf board.now pass.old }
    requires rest { IsAtRest pass.old }
    ensures seated { IsSeatedAs pass.old pass.new }
    ensures view { view pass.new ≡ view pass.old }
{
    let first = spare(board, pass);
    let second = spare(board, pass);
    ((first, second), (pass.has_spare(), pass.free()))
}

#[test]
fn a_pass_takes_the_slot_of_its_share_as_its_spare(rt: HostRuntime) -> Result<(), Memory> {
    let (board, mut trio) = opened(rt.alloc(), 0, usual_starts())?;
    let first = asked(&board, &mut trio.first);
    let second = asked(&board, &mut trio.second);
    let third = (trio.third.has_spare(), trio.third.free());
    let left = left(&closed(rt.alloc(), board, trio)?);
    assert_eq!(rt;
        (first, second),
        (((Ok(()), Ok(())), (true, 0)), ((Ok(()), Ok(())), (true, 0)))
    );
    assert_eq!(rt; (third, left), ((false, 1), (0, 0)));
    Ok(())
}
