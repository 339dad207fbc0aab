//! The plan of a get: the walk, and where it finds the key, the value there. On cells that stand still its walk passes
//! nodes at once.
ghost use Rattle.std.specs.Prelude.{◌≡◌};
ghost use Rattle.pc_plan.specs.Asking.{asked};
ghost use Rattle.pc_plan.specs.Turns.{CanGoOn, GoesOn};
ghost use Rattle.pc_bst.specs.Gets.{get_walked, get_ended, get_moves};

use pc_model::{Call, Field, Reply, Settle};
use pc_plan::{Change, Descent, End, Plan, Step, StillCells, Told, Turn, Walk, tell};

/// Where a get is.
#[derive(Clone, Copy)]
pub enum GetPhase {
    /// On its walk.
    Walking,
    /// Waiting for the value of the node that the walk has come to.
    Reading,
    /// At its end.
    Ended,
}

/// The plan of a get.
#[derive(Drop)]
pub struct BstGet {
    walk: Walk,
    phase: GetPhase,
}

impl Plan for BstGet {
    ghost use Rattle.pc_model.specs.declared.call.Call.TheVariants.{Get};
    ghost use Rattle.pc_model.specs.Map.{IsKey};
    ghost use Rattle.pc_model.specs.Trees.{plain};
    ghost use Rattle.pc_model.specs.TreeForms.{tree_form};
    ghost use Rattle.pc_plan.specs.Terms.{map_terms};
    ghost use Rattle.pc_bst.specs.Gets.{get_of};
    ghost use Rattle.pc_bst.specs.GetLaws.{get_laws};

    type Call = u64;

    ghost start = { get_of };

    ghost moves = { get_moves };

    ghost can_call = { IsKey };

    ghost terms = { λ k. map_terms (Get k) };

    ghost form = { tree_form plain };

    ghost laws = { get_laws plain };

    fn begin(call: u64) -> BstGet {
        BstGet {
            walk: Walk::new(call),
            phase: GetPhase::Walking,
        }
    }

    #[inline(always)]
    fn step(&mut self, told: Told, _change: &mut Change) -> Turn {
        match (self.phase, told) {
            (GetPhase::Walking, told) => self.walk_on(told),
            (GetPhase::Reading, Told::Number(value)) => self.end(Reply::Value(value)),
            _ => self.end(Reply::None),
        }
    }

    #[inline(always)]
    fn stride<C: StillCells>(
        &mut self,
        told: Told,
        cells: &C,
        change: &mut Change,
    ) -> Result<Told, End> {
        let next = self.descend(told, cells);
        tell(self.step(next, change), cells)
    }

    fn entry(call: u64) -> Option<Call> {
        Some(Call::Get { key: call })
    }

    fn settles(_call: u64, _reply: Reply) -> Settle {
        Settle::Nothing
    }
}

impl BstGet {
    ghost use Rattle.pc_plan.specs.Planned.{Planned};
    ghost use Rattle.pc_plan.specs.Walks.{walk_step};

    /// Lets the walk pass nodes, where it is on its way down, and finds what it is to be told then.
    #[inline(always)]
    fn descend<C: StillCells>(&mut self, told: Told, cells: &C) -> Told
        requires { CanGoOn get_moves (C.slots cells.now) (C.cells cells.now) (get_moves self.old told) }
        ensures { GoesOn get_moves (C.cells cells.now) (get_moves self.old told) 0 self.new result }
    {
        let GetPhase::Walking = self.phase else {
            return told;
        };
        let Some(descent) = Descent::of(self.walk, 0, told, cells) else {
            return told;
        };
        self.walk = descent.walk;
        Told::Version(descent.version)
    }

    /// Tells the walk something, and asks for what it does next.
    #[inline]
    fn walk_on(&mut self, told: Told) -> Turn
        ensures { (p : Planned)
            → (self.new, asked result p) ≡ get_walked self.old (walk_step self.old.walk told).0
            (walk_step self.old.walk told).1 }
    {
        match self.walk.step(told) {
            Step::Visit(node) => Turn::Visit(node),
            Step::Read(node, field) => Turn::Read(node, field),
            Step::Here(key) if key == self.walk.key => {
                self.phase = GetPhase::Reading;
                Turn::Read(self.walk.node, Field::Value)
            }
            Step::Here(key) => self.walk.go_on(key),
            Step::Missing(_, _) | Step::Astray => self.end(Reply::None),
        }
    }

    #[inline]
    fn end(&mut self, reply: Reply) -> Turn
        ensures { (p : Planned) → (self.new, asked result p) ≡ get_ended self.old.walk reply }
    {
        self.phase = GetPhase::Ended;
        Turn::Answer(reply)
    }
}
