//! The plan of the repair of the nearest key from a number up.
ghost use Rattle.std.specs.Prelude.{◌≡◌};
ghost use Rattle.pc_plan.specs.Asking.{asked};

use crate::repair::{Aim, Repair};
use pc_model::{Call, Reply, Settle};
use pc_plan::{Change, End, Plan, StillCells, Told, Turn};
use std::marker::Model;

/// The plan of the repair of the least key from a number up, which may be any. It answers `None` where there is no
/// such key, `Pair` of the key and 0 where its node is in balance, `Was` of the key where it changed the
/// node's height or rotated it, and `Value` of the key of a node below that is to be repaired first.
#[derive(Drop)]
pub struct AvlRepairFrom {
    repair: Repair,
}

impl Model for AvlRepairFrom {
    ghost use Rattle.pc_avl.specs.declared.repair.Repair.{Repair};

    ghost Value = { Repair };

    ghost view = { λ p. p.repair };
}

impl Plan for AvlRepairFrom {
    ghost use Rattle.pc_model.specs.Trees.{balanced};
    ghost use Rattle.pc_model.specs.TreeForms.{tree_form};
    ghost use Rattle.pc_avl.specs.declared.repair.Aim.TheVariants.{Nearest};
    ghost use Rattle.pc_avl.specs.Repairs.{repair_of, repair_moves};
    ghost use Rattle.pc_avl.specs.RepairTerms.{repair_terms};
    ghost use Rattle.pc_avl.specs.RepairLaws.{repair_laws};

    type Call = u64;

    ghost start = { repair_of Nearest };

    ghost moves = { repair_moves };

    ghost can_call = { λ k. Unit {0} };

    ghost terms = { repair_terms Nearest };

    ghost form = { tree_form balanced };

    ghost laws = { repair_laws Nearest };

    #[inline(always)]
    fn begin(call: u64) -> AvlRepairFrom {
        AvlRepairFrom {
            repair: Repair::new(Aim::Nearest, call),
        }
    }

    #[inline(always)]
    fn step(&mut self, told: Told, change: &mut Change) -> Turn {
        self.repair.step(told, change)
    }

    #[inline(always)]
    fn stride<C: StillCells>(
        &mut self,
        told: Told,
        cells: &C,
        change: &mut Change,
    ) -> Result<Told, End> {
        self.repair.stride(told, cells, change)
    }

    fn entry(_call: u64) -> Option<Call> {
        None
    }

    fn settles(_call: u64, reply: Reply) -> Settle {
        match reply {
            Reply::None => Settle::Raise(None),
            Reply::Pair(key, _) => Settle::Raise(Some(key.saturating_add(1))),
            Reply::Value(key) => Settle::First(key),
            Reply::New | Reply::Was(_) => Settle::Nothing,
        }
    }
}
