//! The plan of a get: the same on a balanced tree as on a plain one.
ghost use Rattle.std.specs.Prelude.{◌≡◌};
ghost use Rattle.pc_plan.specs.Asking.{asked};

use pc_bst::BstGet;
use pc_model::{Call, Reply, Settle};
use pc_plan::{Change, End, Plan, StillCells, Told, Turn};
use std::marker::Model;

/// The plan of a get.
#[derive(Drop)]
pub struct AvlGet {
    get: BstGet,
}

impl Model for AvlGet {
    ghost use Rattle.pc_bst.specs.declared.get.BstGet.{BstGet};

    ghost Value = { BstGet };

    ghost view = { λ g. g.get };
}

impl Plan for AvlGet {
    ghost use Rattle.pc_model.specs.declared.call.Call.TheVariants.{Get};
    ghost use Rattle.pc_model.specs.Map.{IsKey};
    ghost use Rattle.pc_model.specs.Trees.{balanced};
    ghost use Rattle.pc_model.specs.TreeForms.{tree_form};
    ghost use Rattle.pc_plan.specs.Terms.{map_terms};
    ghost use Rattle.pc_bst.specs.Gets.{get_of, get_moves};
    ghost use Rattle.pc_bst.specs.GetLaws.{get_laws};

    type Call = u64;

    ghost start = { get_of };

    ghost moves = { get_moves };

    ghost can_call = { IsKey };

    ghost terms = { λ k. map_terms (Get k) };

    ghost form = { tree_form balanced };

    ghost laws = { get_laws balanced };

    fn begin(call: u64) -> AvlGet {
        AvlGet {
            get: BstGet::begin(call),
        }
    }

    #[inline(always)]
    fn step(&mut self, told: Told, change: &mut Change) -> Turn {
        self.get.step(told, change)
    }

    #[inline(always)]
    fn stride<C: StillCells>(
        &mut self,
        told: Told,
        cells: &C,
        change: &mut Change,
    ) -> Result<Told, End> {
        self.get.stride(told, cells, change)
    }

    fn entry(call: u64) -> Option<Call> {
        Some(Call::Get { key: call })
    }

    fn settles(_call: u64, _reply: Reply) -> Settle {
        Settle::Nothing
    }
}
