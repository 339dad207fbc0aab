//! The put into a search tree of either kind: the walk, and where it finds the key, a change of the value
//! there, else a fresh node at the link where the walk ended.
ghost use Rattle.std.specs.Prelude.{◌≡◌, IfOk, IfErr};
ghost use Rattle.pc_plan.specs.Asking.{asked};
ghost use Rattle.pc_plan.specs.NodeChanges.{planned_by};
ghost use Rattle.pc_plan.specs.Turns.{CanGoOn, GoesOn, ComesFrom, last_ask};
ghost use Rattle.pc_bst.specs.Puts.{put_of, put_moves, put_walks, put_gives_up, value_changed, leaf_added};

use crate::kind::{NodeKind, charge_key_of};
use pc_model::{Field, Reply, Side};
use pc_plan::{Change, Descent, End, Fresh, Step, StillCells, To, Told, Turn, Walk, tell};

/// Where a put is.
#[derive(Clone, Copy)]
pub enum PutPhase {
    /// On its walk.
    Walking,
    /// Waiting for the old value of the node that the walk has come to.
    Reading,
    /// At its end.
    Ended,
}

/// A put into a tree of one kind. On its way it keeps the key of the node above the one that it has come to;
/// where the walk has ended that is the node that a leaf hangs below. The phase comes first: at the end, before
/// padding, the machine asks for it anew at each turn.
#[derive(Clone, Copy)]
pub struct TreePut {
    phase: PutPhase,
    kind: NodeKind,
    walk: Walk,
    value: u64,
    above_key: u64,
}

impl TreePut {
    ghost use Rattle.pc_plan.specs.Planned.{Planned};

    /// The put of a key with a value, before it begins.
    #[inline]
    pub fn new(kind: NodeKind, call: (u64, u64)) -> TreePut
        ensures { result ≡ put_of kind call }
    {
        TreePut {
            phase: PutPhase::Walking,
            kind,
            walk: Walk::new(call.0),
            value: call.1,
            above_key: 0,
        }
    }

    /// Tells the put something, and answers what it asks next.
    #[inline(always)]
    pub fn step(&mut self, told: Told, change: &mut Change) -> Turn
        ensures { (self.new, asked result change.new) ≡ put_moves self.old told }
    {
        match (self.phase, told) {
            (PutPhase::Walking, told) => self.walk_on(told, change),
            (PutPhase::Reading, Told::Number(old)) => {
                self.phase = PutPhase::Ended;
                self.change_value(old, change);
                Turn::Change
            }
            _ => self.give_up(),
        }
    }

    /// Takes some turns on cells that stand still: the walk passes nodes at once, and then comes one turn.
    #[inline(always)]
    pub fn stride<C: StillCells>(
        &mut self,
        told: Told,
        cells: &C,
        change: &mut Change,
    ) -> Result<Told, End>
        requires { CanGoOn put_moves (C.slots cells.now) (C.cells cells.now) (put_moves self.old told) }
        ensures goes_on { IfOk result (GoesOn put_moves (C.cells cells.now) (put_moves self.old told) 1 self.new) }
        ensures ends { IfErr result (λ end.
            ComesFrom put_moves (C.cells cells.now) (put_moves self.old told) (last_ask end change.new)) }
    {
        let next = self.descend(told, cells);
        tell(self.step(next, change), cells)
    }

    /// Lets the walk pass nodes, where it is on its way down, and finds what it is to be told then.
    #[inline(always)]
    fn descend<C: StillCells>(&mut self, told: Told, cells: &C) -> Told
        requires { CanGoOn put_moves (C.slots cells.now) (C.cells cells.now) (put_moves self.old told) }
        ensures { GoesOn put_moves (C.cells cells.now) (put_moves self.old told) 0 self.new result }
    {
        let PutPhase::Walking = self.phase else {
            return told;
        };
        let Some(descent) = Descent::of(self.walk, self.above_key, told, cells) else {
            return told;
        };
        self.walk = descent.walk;
        self.above_key = descent.above_key;
        Told::Version(descent.version)
    }

    /// Tells the walk something, and asks for what it does next.
    #[inline]
    fn walk_on(&mut self, told: Told, change: &mut Change) -> Turn
        ensures { (self.new, asked result change.new) ≡ put_walks self.old told }
    {
        match self.walk.step(told) {
            Step::Visit(node) => Turn::Visit(node),
            Step::Read(node, field) => Turn::Read(node, field),
            Step::Here(key) if key == self.walk.key => {
                self.phase = PutPhase::Reading;
                Turn::Read(self.walk.node, Field::Value)
            }
            Step::Here(key) => {
                self.above_key = key;
                self.walk.go_on(key)
            }
            Step::Missing(side, link) => {
                self.phase = PutPhase::Ended;
                self.add_leaf(side, link, change);
                Turn::Change
            }
            Step::Astray => self.give_up(),
        }
    }

    /// Changes the value of the node that the walk has come to. It takes the put by value, so that a run can
    /// keep the put out of memory.
    #[inline(never)]
    fn change_value(self, old: u64, change: &mut Change)
        ensures { change.new ≡ planned_by (value_changed self.walk old self.value) }
    {
        change.restart(Reply::Was(old));
        change.raise(self.walk.node, self.walk.version);
        change.rewrite(self.walk.node, Field::Value, old, To::Number(self.value));
    }

    /// Hangs a fresh node at a link of the node that the walk has come to.
    #[inline(never)]
    fn add_leaf(self, side: Side, link: u64, change: &mut Change)
        ensures { change.new ≡ planned_by (leaf_added self side link) }
    {
        let above = self.walk.node;
        change.restart(Reply::New);
        change.raise(above, self.walk.version);
        change.rewrite(above, side.link(), link, To::Fresh);
        let (parent, height) = match self.kind {
            NodeKind::Plain => (0, 0),
            NodeKind::Balanced => (above, 1),
        };
        change.fresh = Some(Fresh {
            key: self.walk.key,
            value: self.value,
            parent,
            height,
        });
        if self.kind == NodeKind::Balanced {
            charge_key_of(change, above, self.above_key);
        }
    }

    #[inline]
    fn give_up(&mut self) -> Turn
        ensures { (p : Planned) → (self.new, asked result p) ≡ put_gives_up self.old }
    {
        self.phase = PutPhase::Ended;
        Turn::Answer(Reply::None)
    }
}
