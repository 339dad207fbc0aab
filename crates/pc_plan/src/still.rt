//! Cells that stand still while a plan runs: what it asks for can be told at once.
ghost use Rattle.std.specs.Prelude.{◌≡◌, ℕ, IfOk, IfErr};
ghost use Rattle.pc_model.specs.Cells.{Cells, IsNode};
ghost use Rattle.pc_plan.specs.Asking.{asked};
ghost use Rattle.pc_plan.specs.Planned.{Planned};
ghost use Rattle.pc_plan.specs.Traces.{Tells};
ghost use Rattle.pc_plan.specs.Turns.{CanBeTold, last_ask};

use crate::plan::{End, Told, Turn};
use pc_model::Field;

/// Cells that stand still while a plan runs, as those that one thread has for itself.
pub trait StillCells {
    // How many slots there are.
    ghost slots: { Self → ℕ };

    // The numbers that stand in them.
    ghost cells: { Self → Cells };

    /// The number in a node's field.
    fn word(&self, node: u32, field: Field) -> u64
        requires { IsNode (slots self.now) node }
        ensures { result ≡ cells self.now node field };
}

/// What a plan is told of cells for what it asks by a turn, or how it has ended.
#[inline(always)]
pub fn tell<C: StillCells>(turn: Turn, cells: &C) -> Result<Told, End>
    requires { (p : Planned) × CanBeTold (C.slots cells.now) (C.cells cells.now) (asked turn p) }
    ensures told { IfOk result (λ told. (p : Planned) → Tells (C.cells cells.now) (asked turn p) told) }
    ensures ended { IfErr result (λ end. (p : Planned) → asked turn p ≡ last_ask end p) }
{
    match turn {
        Turn::Visit(node) => Ok(Told::Version(cells.word(node, Field::Version))),
        Turn::Read(node, field) => Ok(Told::Number(cells.word(node, field))),
        Turn::Change => Err(End::Exchange),
        Turn::Answer(reply) => Err(End::Answer(reply)),
    }
}
