//! The plan of a floor: the search from its key down.
ghost use Rattle.std.specs.Prelude.{◌≡◌};
ghost use Rattle.pc_plan.specs.Asking.{asked};

use crate::search::Search;
use pc_model::{Call, Reply, Settle, Side};
use pc_plan::{Change, End, Plan, StillCells, Told, Turn};
use std::marker::Model;

/// The plan of a floor.
#[derive(Drop)]
pub struct FloorPlan {
    search: Search,
}

impl Model for FloorPlan {
    ghost use Rattle.pc_order.specs.declared.search.Search.{Search};

    ghost Value = { Search };

    ghost view = { λ p. p.search };
}

impl Plan for FloorPlan {
    ghost use Rattle.pc_model.specs.declared.call.Call.TheVariants.{Floor};
    ghost use Rattle.pc_model.specs.declared.cell.Side.TheVariants.{Left};
    ghost use Rattle.pc_model.specs.Map.{IsKey};
    ghost use Rattle.pc_model.specs.TreeForms.{ordered_form};
    ghost use Rattle.pc_plan.specs.Terms.{map_terms};
    ghost use Rattle.pc_order.specs.Searches.{search_of, search_moves};
    ghost use Rattle.pc_order.specs.SearchLaws.{search_laws};

    type Call = u64;

    ghost start = { search_of Left };

    ghost moves = { search_moves };

    ghost can_call = { IsKey };

    ghost terms = { λ k. map_terms (Floor k) };

    ghost form = { ordered_form };

    ghost laws = { search_laws Left };

    fn begin(call: u64) -> FloorPlan {
        FloorPlan {
            search: Search::new(Side::Left, call),
        }
    }

    fn step(&mut self, told: Told, _change: &mut Change) -> Turn {
        self.search.step(told)
    }

    #[inline(always)]
    fn stride<C: StillCells>(
        &mut self,
        told: Told,
        cells: &C,
        change: &mut Change,
    ) -> Result<Told, End> {
        self.search.stride(told, cells, change)
    }

    fn entry(call: u64) -> Option<Call> {
        Some(Call::Floor { key: call })
    }

    fn settles(_call: u64, _reply: Reply) -> Settle {
        Settle::Nothing
    }
}
