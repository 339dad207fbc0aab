//! The plan of a ceil: the search from its key up.
ghost use Rattle.std.specs.Prelude.{◌≡◌};
ghost use Rattle.pc_plan.specs.Asking.{asked};

use crate::search::Search;
use pc_model::{Call, Reply, Settle, Side};
use pc_plan::{Change, End, Plan, StillCells, Told, Turn};
use std::marker::Model;

/// The plan of a ceil.
#[derive(Drop)]
pub struct CeilPlan {
    search: Search,
}

impl Model for CeilPlan {
    ghost use Rattle.pc_order.specs.declared.search.Search.{Search};

    ghost Value = { Search };

    ghost view = { λ p. p.search };
}

impl Plan for CeilPlan {
    ghost use Rattle.pc_model.specs.declared.call.Call.TheVariants.{Ceil};
    ghost use Rattle.pc_model.specs.declared.cell.Side.TheVariants.{Right};
    ghost use Rattle.pc_model.specs.Map.{IsKey};
    ghost use Rattle.pc_model.specs.TreeForms.{ordered_form};
    ghost use Rattle.pc_plan.specs.Terms.{map_terms};
    ghost use Rattle.pc_order.specs.Searches.{search_of, search_moves};
    ghost use Rattle.pc_order.specs.SearchLaws.{search_laws};

    type Call = u64;

    ghost start = { search_of Right };

    ghost moves = { search_moves };

    ghost can_call = { IsKey };

    ghost terms = { λ k. map_terms (Ceil k) };

    ghost form = { ordered_form };

    ghost laws = { search_laws Right };

    fn begin(call: u64) -> CeilPlan {
        CeilPlan {
            search: Search::new(Side::Right, call),
        }
    }

    fn step(&mut self, told: Told, _change: &mut Change) -> Turn {
        self.search.step(told)
    }

    #[inline(always)]
    fn stride<C: StillCells>(
        &mut self,
        told: Told,
        cells: &C,
        change: &mut Change,
    ) -> Result<Told, End> {
        self.search.stride(told, cells, change)
    }

    fn entry(call: u64) -> Option<Call> {
        Some(Call::Ceil { key: call })
    }

    fn settles(_call: u64, _reply: Reply) -> Settle {
        Settle::Nothing
    }
}
