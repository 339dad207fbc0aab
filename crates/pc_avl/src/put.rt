//! The plan of a put: a leaf has a parent and a height, and the key of the node above it is charged.
ghost use Rattle.std.specs.Prelude.{◌≡◌};
ghost use Rattle.pc_plan.specs.Asking.{asked};

use pc_bst::{NodeKind, TreePut};
use pc_model::{Call, Reply, Settle};
use pc_plan::{Change, End, Plan, StillCells, Told, Turn};
use std::marker::Model;

/// The plan of a put.
#[derive(Drop)]
pub struct AvlPut {
    put: TreePut,
}

impl Model for AvlPut {
    ghost use Rattle.pc_bst.specs.declared.tree_put.TreePut.{TreePut};

    ghost Value = { TreePut };

    ghost view = { λ p. p.put };
}

impl Plan for AvlPut {
    ghost use Rattle.pc_model.specs.declared.call.Call.TheVariants.{Put};
    ghost use Rattle.pc_model.specs.Map.{IsPair};
    ghost use Rattle.pc_model.specs.Trees.{balanced};
    ghost use Rattle.pc_model.specs.TreeForms.{tree_form};
    ghost use Rattle.pc_plan.specs.Terms.{map_terms};
    ghost use Rattle.pc_bst.specs.declared.kind.NodeKind.TheVariants.{Balanced};
    ghost use Rattle.pc_bst.specs.Puts.{put_of, put_moves};
    ghost use Rattle.pc_bst.specs.PutLaws.{put_laws};

    type Call = (u64, u64);

    ghost start = { put_of Balanced };

    ghost moves = { put_moves };

    ghost can_call = { IsPair };

    ghost terms = { λ p. map_terms (Put p.0 p.1) };

    ghost form = { tree_form balanced };

    ghost laws = { put_laws Balanced };

    fn begin(call: (u64, u64)) -> AvlPut {
        AvlPut {
            put: TreePut::new(NodeKind::Balanced, call),
        }
    }

    #[inline(always)]
    fn step(&mut self, told: Told, change: &mut Change) -> Turn {
        self.put.step(told, change)
    }

    #[inline(always)]
    fn stride<C: StillCells>(
        &mut self,
        told: Told,
        cells: &C,
        change: &mut Change,
    ) -> Result<Told, End> {
        self.put.stride(told, cells, change)
    }

    fn entry(call: (u64, u64)) -> Option<Call> {
        Some(Call::Put {
            key: call.0,
            value: call.1,
        })
    }

    fn settles(_call: (u64, u64), _reply: Reply) -> Settle {
        Settle::Nothing
    }
}
