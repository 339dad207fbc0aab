//! The plan of a remove: the walk, and where it finds the key, one exchange. A node with at most one
//! child is unlinked; one with two children gets the key and the value of its successor, the first
//! node of its right tree, which is unlinked in its place.
ghost use Rattle.std.specs.Prelude.{◌≡◌};
ghost use Rattle.pc_model.specs.Cells.{node_at};
ghost use Rattle.pc_plan.specs.Asking.{asked};
ghost use Rattle.pc_plan.specs.NodeChanges.{planned_by};
ghost use Rattle.pc_bst.specs.Removes.{remove_walked, remove_reads, remove_gives_up, remove_ends, unlinked, lifted};
ghost use Rattle.pc_plan.specs.Turns.{CanGoOn, GoesOn};
ghost use Rattle.pc_bst.specs.Removes.{remove_moves, chosen, following, going_below};

use pc_model::{Call, Field, Reply, Settle, Side};
use pc_plan::{
    Above, Change, Descent, End, Plan, Step, StillCells, To, Told, Turn, Walk, leads_back, node_of,
    tell,
};

/// Where a remove is: on its walk, at its end, or what it waits for.
#[derive(Clone, Copy)]
pub enum RemovePhase {
    /// On its walk.
    Walking,
    /// For the left link of the node with the key.
    ReadingLeft,
    /// For the right link of that node.
    ReadingRight,
    /// For the value of that node.
    ReadingValue,
    /// For the version of a node on the way to the successor.
    Visiting,
    /// For the left link of that node.
    ReadingNext,
    /// For the key of the successor.
    ReadingNextKey,
    /// For the value of the successor.
    ReadingNextValue,
    /// For the right link of the successor.
    ReadingNextRight,
    /// For nothing.
    Ended,
}

/// A node on the way to the successor, or the successor: the version that it was visited at, the node
/// above it, and the key and the value that it was told of it.
#[derive(Clone, Copy)]
pub struct Next {
    pub node: u32,
    pub version: u64,
    pub above: Above,
    pub key: u64,
    pub value: u64,
}

/// The plan of a remove. The walk stays at the node with the key.
#[derive(Clone, Copy)]
pub struct BstRemove {
    phase: RemovePhase,
    walk: Walk,
    left: u64,
    right: u64,
    value: u64,
    next: Next,
}

impl Plan for BstRemove {
    ghost use Rattle.pc_model.specs.declared.call.Call.TheVariants.{Remove};
    ghost use Rattle.pc_model.specs.Map.{IsKey};
    ghost use Rattle.pc_model.specs.Trees.{plain};
    ghost use Rattle.pc_model.specs.TreeForms.{tree_form};
    ghost use Rattle.pc_plan.specs.Terms.{map_terms};
    ghost use Rattle.pc_bst.specs.Removes.{remove_of};
    ghost use Rattle.pc_bst.specs.RemoveLaws.{remove_laws};

    type Call = u64;

    ghost start = { remove_of };

    ghost moves = { remove_moves };

    ghost can_call = { IsKey };

    ghost terms = { λ k. map_terms (Remove k) };

    ghost form = { tree_form plain };

    ghost laws = { remove_laws };

    fn begin(call: u64) -> BstRemove {
        let walk = Walk::new(call);
        BstRemove {
            walk,
            left: 0,
            right: 0,
            value: 0,
            next: Next {
                node: 0,
                version: 0,
                above: walk.above,
                key: 0,
                value: 0,
            },
            phase: RemovePhase::Walking,
        }
    }

    #[inline(always)]
    fn step(&mut self, told: Told, change: &mut Change) -> Turn {
        match (self.phase, told) {
            (RemovePhase::Walking, told) => self.walk_on(told),
            (RemovePhase::ReadingLeft, Told::Number(left)) => {
                self.left = left;
                self.read(RemovePhase::ReadingRight, self.walk.node, Field::Right)
            }
            (RemovePhase::ReadingRight, Told::Number(right)) => {
                self.right = right;
                self.read(RemovePhase::ReadingValue, self.walk.node, Field::Value)
            }
            (RemovePhase::ReadingValue, Told::Number(value)) => {
                self.value = value;
                self.choose(change)
            }
            (RemovePhase::Visiting, Told::Version(version)) => {
                self.next.version = version;
                self.read(RemovePhase::ReadingNext, self.next.node, Field::Left)
            }
            (RemovePhase::ReadingNext, Told::Number(left)) => self.follow(left),
            (RemovePhase::ReadingNextKey, Told::Number(key)) => {
                self.next.key = key;
                self.read(RemovePhase::ReadingNextValue, self.next.node, Field::Value)
            }
            (RemovePhase::ReadingNextValue, Told::Number(value)) => {
                self.next.value = value;
                self.read(RemovePhase::ReadingNextRight, self.next.node, Field::Right)
            }
            (RemovePhase::ReadingNextRight, Told::Number(right)) => self.lift(right, change),
            _ => self.give_up(),
        }
    }

    #[inline(always)]
    fn stride<C: StillCells>(
        &mut self,
        told: Told,
        cells: &C,
        change: &mut Change,
    ) -> Result<Told, End> {
        let next = self.descend(told, cells);
        tell(self.step(next, change), cells)
    }

    fn entry(call: u64) -> Option<Call> {
        Some(Call::Remove { key: call })
    }

    fn settles(_call: u64, _reply: Reply) -> Settle {
        Settle::Nothing
    }
}

impl BstRemove {
    ghost use Rattle.pc_plan.specs.Planned.{Planned};
    ghost use Rattle.pc_plan.specs.Walks.{walk_step};

    /// Lets the walk pass nodes, where it is on its way down, and finds what it is to be told then.
    #[inline(always)]
    fn descend<C: StillCells>(&mut self, told: Told, cells: &C) -> Told
        requires { CanGoOn remove_moves (C.slots cells.now) (C.cells cells.now) (remove_moves self.old told) }
        ensures { GoesOn remove_moves (C.cells cells.now) (remove_moves self.old told) 0 self.new result }
    {
        let RemovePhase::Walking = self.phase else {
            return told;
        };
        let Some(descent) = Descent::of(self.walk, 0, told, cells) else {
            return told;
        };
        self.walk = descent.walk;
        Told::Version(descent.version)
    }

    /// Tells the walk something, and asks for what it does next.
    #[inline]
    fn walk_on(&mut self, told: Told) -> Turn
        ensures { (p : Planned)
            → (self.new, asked result p) ≡ remove_walked self.old (walk_step self.old.walk told).0
            (walk_step self.old.walk told).1 }
    {
        match self.walk.step(told) {
            Step::Visit(node) => Turn::Visit(node),
            Step::Read(node, field) => Turn::Read(node, field),
            Step::Here(key) if key == self.walk.key => {
                self.read(RemovePhase::ReadingLeft, self.walk.node, Field::Left)
            }
            Step::Here(key) => self.walk.go_on(key),
            Step::Missing(_, _) | Step::Astray => self.give_up(),
        }
    }

    /// Unlinks the node with the key where it has at most one child, else goes to its successor.
    #[inline(always)]
    fn choose(&mut self, change: &mut Change) -> Turn
        ensures { (self.new, asked result change.new) ≡ chosen self.old (node_at self.old.left)
            (node_at self.old.right) }
    {
        match (node_of(self.left), node_of(self.right)) {
            (Some(_), Some(below)) => {
                let above = Above {
                    node: self.walk.node,
                    side: Side::Right,
                    version: self.walk.version,
                };
                self.go_below(above, below)
            }
            (Some(_), None) => self.unlink(self.left, change),
            (None, _) => self.unlink(self.right, change),
        }
    }

    /// Goes left from a node on the way to the successor, which is the node with no left child.
    #[inline(always)]
    fn follow(&mut self, left: u64) -> Turn
        ensures { (p : Planned) → (self.new, asked result p) ≡ following self.old (node_at left) }
    {
        match node_of(left) {
            Some(below) => {
                let above = Above {
                    node: self.next.node,
                    side: Side::Left,
                    version: self.next.version,
                };
                self.go_below(above, below)
            }
            None => self.read(RemovePhase::ReadingNextKey, self.next.node, Field::Key),
        }
    }

    /// Visits a node on the way to the successor, unless the link to it leads back.
    #[inline(always)]
    fn go_below(&mut self, above: Above, node: u32) -> Turn
        ensures { (p : Planned) → (self.new, asked result p) ≡ going_below self.old above node }
    {
        if leads_back(node, &[self.walk.node, above.node]) {
            return self.give_up();
        }
        self.next.node = node;
        self.next.above = above;
        self.phase = RemovePhase::Visiting;
        Turn::Visit(node)
    }

    /// Unlinks the node with the key: the link to it goes to its child, or to none.
    #[inline(always)]
    fn unlink(&mut self, child: u64, change: &mut Change) -> Turn
        ensures { (self.new, asked result change.new) ≡ remove_ends self.old (unlinked self.old child) }
    {
        self.write_unlinking(child, change);
        self.phase = RemovePhase::Ended;
        Turn::Change
    }

    /// Lifts the key and the value of the successor to the node with the key, and unlinks the successor:
    /// the link to it goes to its right child, or to none.
    #[inline(always)]
    fn lift(&mut self, right: u64, change: &mut Change) -> Turn
        ensures { (self.new, asked result change.new) ≡ remove_ends self.old (lifted self.old right) }
    {
        self.write_lifting(right, change);
        self.phase = RemovePhase::Ended;
        Turn::Change
    }

    /// Writes the exchange of an unlinking. It takes the plan by value, so that a run can keep the plan out
    /// of memory.
    #[inline(never)]
    fn write_unlinking(self, child: u64, change: &mut Change)
        ensures { change.new ≡ planned_by (unlinked self child) }
    {
        let above = self.walk.above;
        change.restart(Reply::Value(self.value));
        change.raise(above.node, above.version);
        let link = u64::from(self.walk.node);
        change.rewrite(above.node, above.side.link(), link, To::Number(child));
        change.mark_removed(self.walk.node, self.walk.version);
    }

    /// Writes the exchange of a lifting.
    #[inline(never)]
    fn write_lifting(self, right: u64, change: &mut Change)
        ensures { change.new ≡ planned_by (lifted self right) }
    {
        let node = self.walk.node;
        let above = self.next.above;
        change.restart(Reply::Value(self.value));
        change.raise(node, self.walk.version);
        change.rewrite(node, Field::Key, self.walk.key, To::Number(self.next.key));
        change.rewrite(node, Field::Value, self.value, To::Number(self.next.value));
        if above.node != node {
            change.raise(above.node, above.version);
        }
        let link = u64::from(self.next.node);
        change.rewrite(above.node, above.side.link(), link, To::Number(right));
        change.mark_removed(self.next.node, self.next.version);
    }

    #[inline]
    fn read(&mut self, phase: RemovePhase, node: u32, field: Field) -> Turn
        ensures { (p : Planned) → (self.new, asked result p) ≡ remove_reads self.old phase node field }
    {
        self.phase = phase;
        Turn::Read(node, field)
    }

    #[inline]
    fn give_up(&mut self) -> Turn
        ensures { (p : Planned) → (self.new, asked result p) ≡ remove_gives_up self.old }
    {
        self.phase = RemovePhase::Ended;
        Turn::Answer(Reply::None)
    }
}
