//! A pass takes a spare.
ghost use Rattle.std.specs.Prelude.{◌≡◌, ◌⊎◌, ◌≤◌, ◌↔◌, false, None, IfErr, OnOk, OnErr, IsErr};
ghost use Rattle.pc_rule.specs.Passes.{view, slots, path, fresh, IsPassOf, IsSameButSlots};
ghost use Rattle.pc_epoch.specs.Spares.{HasSpare, HasNoSlot, HasTakenSpare, IfNoSlot, IfNumbers};

use crate::no_spare::NoSpare;
use pc_model::Shape;
use pc_rule::{Board, Pass, step_22};

/// The pass has a spare afterwards, a slot for a new node: the one that it had, or the next one of its share. It takes no memory.
pub fn spare<H: Shape>(board: &Board<H>, pass: &mut Pass<H>) -> Result<(), NoSpare>
    requires pass { IsPassOf board.now pass.old }
    requires rest { (path pass.old).begun ≡ false }
    requires unpublished { (view pass.old).attempt.published ≡ false }
    ensures seated { IsSameButSlots pass.old pass.new }
    ensures rests { (path pass.new).begun ≡ false }
    ensures view { view pass.new ≡ view pass.old }
    ensures has { OnOk result (HasSpare pass.new) }
    ensures stays { HasSpare pass.old → pass.new ≡ pass.old }
    ensures taken { OnOk result (HasSpare pass.old ⊎ HasTakenSpare pass.old pass.new) }

    // Why it has none.
    ensures none { IsErr result ↔ HasNoSlot pass.old }
    ensures no_slot { IfErr result (λ e. IfNoSlot e (λ limbo waits. (limbo ≡ 0) × (waits ≡ None))) }
    ensures never { IfErr result (λ e. IfNumbers e (λ n. ⊥)) }
    ensures nothing { OnErr result (pass.new ≡ pass.old) }
{
    if pass.has_spare() {
        return Ok(());
    }
    let Some(node) = pass.next_slot() else {
        return Err(NoSpare::NoSlot {
            limbo: pass.limbo(),
            waits: None,
        });
    };
    step_22(board, pass, node);
    Ok(())
}
