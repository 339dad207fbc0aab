//! The plan of a remove: the walk, and where it finds the key, one exchange. A node with at most one
//! child leaves; from one with two children its successor leaves, the first node of its right tree, whose
//! key and value come up to it. The only child of the node that leaves, its heir, takes its place: the link
//! to the one goes to the other, and the heir's parent is the node above now.
ghost use Rattle.std.specs.Prelude.{◌≡◌, ◌<◌, length};
ghost use Rattle.pc_model.specs.Cells.{node_at};
ghost use Rattle.pc_plan.specs.Asking.{asked};
ghost use Rattle.pc_plan.specs.NodeChanges.{planned_by};
ghost use Rattle.pc_plan.specs.Turns.{CanGoOn, GoesOn};
ghost use Rattle.pc_avl.specs.Removes.{remove_moves, heir_of, heir_link, with_heir, remove_walks, remove_told, remove_reads};
ghost use Rattle.pc_avl.specs.Removes.{remove_gives_up, remove_ends, unlinked, lifted, removal, choosing};
ghost use Rattle.pc_avl.specs.Removes.{following, going_below, visiting_heir, lifting};

use pc_bst::charge_key_of;
use pc_model::{Call, Field, Reply, Settle, Side};
use pc_plan::{
    Above, Change, Descent, End, Plan, Step, StillCells, To, Told, Turn, Walk, leads_back, node_of,
    tell,
};

/// The node that leaves.
#[derive(Clone, Copy)]
pub enum Leaving {
    /// The node with the key.
    Target,
    /// Its successor.
    Next,
}

/// The child that takes the place of the node that leaves: the version that it was visited at, and the
/// parent that it had.
#[derive(Clone, Copy)]
pub struct Heir {
    /// The node.
    pub node: u32,
    /// The version.
    pub version: u64,
    /// The parent.
    pub parent: u64,
}

impl Heir {
    #[inline]
    fn new(node: u32, version: u64, parent: u64) -> Heir
        ensures { result ≡ heir_of node version parent }
    {
        Heir {
            node,
            version,
            parent,
        }
    }
}

/// Where a remove is: on its walk, at its end, or what it waits for.
#[derive(Clone, Copy)]
pub enum RemovePhase {
    /// On its walk.
    Walking,
    /// For the left link of the node with the key.
    ReadingLeft,
    /// For the right link of that node.
    ReadingRight,
    /// For the value of that node.
    ReadingValue,
    /// For the version of a node on the way to the successor.
    Visiting,
    /// For the key of that node.
    ReadingNextKey,
    /// For the left link of that node.
    ReadingNext,
    /// For the value of the successor.
    ReadingNextValue,
    /// For the right link of the successor.
    ReadingNextRight,
    /// For the version of the heir.
    VisitingHeir {
        /// Whose heir it is.
        leaving: Leaving,
        /// The heir.
        node: u32,
    },
    /// For the parent of the heir.
    ReadingParent {
        /// Whose heir it is.
        leaving: Leaving,
        /// The heir.
        node: u32,
        /// The version that it was visited at.
        version: u64,
    },
    /// For nothing.
    Ended,
}

/// A node on the way to the successor, or the successor: the version that it was visited at, the node
/// above it with its key, and the key and the value that it was told of it.
#[derive(Clone, Copy)]
pub struct Next {
    /// The node.
    pub node: u32,
    /// The version.
    pub version: u64,
    /// The node above.
    pub above: Above,
    /// The key of the node above.
    pub above_key: u64,
    /// The key.
    pub key: u64,
    /// The value.
    pub value: u64,
}

/// The plan of a remove. The walk stays at the node with the key; on its way it keeps the key of the node
/// above the one that it has come to.
#[derive(Clone, Copy)]
pub struct AvlRemove {
    phase: RemovePhase,
    walk: Walk,
    above_key: u64,
    left: u64,
    right: u64,
    value: u64,
    next: Next,
}

/// The link to an heir, or to none.
#[inline]
fn heir_link(heir: Option<Heir>) -> u64
    ensures { result ≡ heir_link heir }
{
    match heir {
        Some(heir) => u64::from(heir.node),
        None => 0,
    }
}

/// An heir, if there is one, comes to hang below a node.
#[inline]
fn rehang(change: &mut Change, above: u32, heir: Option<Heir>)
    requires { length change.old.adds < 23 }
    ensures { change.new ≡ with_heir change.old above heir }
{
    if let Some(heir) = heir {
        change.raise(heir.node, heir.version);
        let new = To::Number(u64::from(above));
        change.rewrite(heir.node, Field::Parent, heir.parent, new);
    }
}

impl Plan for AvlRemove {
    ghost use Rattle.pc_model.specs.declared.call.Call.TheVariants.{Remove};
    ghost use Rattle.pc_model.specs.Map.{IsKey};
    ghost use Rattle.pc_model.specs.Trees.{balanced};
    ghost use Rattle.pc_model.specs.TreeForms.{tree_form};
    ghost use Rattle.pc_plan.specs.Terms.{map_terms};
    ghost use Rattle.pc_avl.specs.Removes.{remove_of};
    ghost use Rattle.pc_avl.specs.RemoveLaws.{remove_laws};

    type Call = u64;

    ghost start = { remove_of };

    ghost moves = { remove_moves };

    ghost can_call = { IsKey };

    ghost terms = { λ k. map_terms (Remove k) };

    ghost form = { tree_form balanced };

    ghost laws = { remove_laws };

    fn begin(call: u64) -> AvlRemove {
        let walk = Walk::new(call);
        AvlRemove {
            walk,
            above_key: 0,
            left: 0,
            right: 0,
            value: 0,
            next: Next {
                node: 0,
                version: 0,
                above: walk.above,
                above_key: 0,
                key: 0,
                value: 0,
            },
            phase: RemovePhase::Walking,
        }
    }

    #[inline(always)]
    fn step(&mut self, told: Told, change: &mut Change) -> Turn {
        match told {
            Told::Begin => self.set_out(),
            Told::Version(version) => self.arrive(version),
            Told::Number(number) => self.read_on(number, change),
        }
    }

    #[inline(always)]
    fn stride<C: StillCells>(
        &mut self,
        told: Told,
        cells: &C,
        change: &mut Change,
    ) -> Result<Told, End> {
        let next = self.descend(told, cells);
        tell(self.step(next, change), cells)
    }

    fn entry(call: u64) -> Option<Call> {
        Some(Call::Remove { key: call })
    }

    fn settles(_call: u64, _reply: Reply) -> Settle {
        Settle::Nothing
    }
}

impl AvlRemove {
    ghost use Rattle.pc_plan.specs.Planned.{Planned};
    ghost use Rattle.pc_plan.specs.declared.plan.Told.TheVariants.{Begin, Version, Number as NumberTold};

    /// Begins its walk.
    #[inline(always)]
    fn set_out(&mut self) -> Turn
        ensures { (p : Planned) → (self.new, asked result p) ≡ remove_told self.old self.old.phase Begin }
    {
        match self.phase {
            RemovePhase::Walking => self.walk_on(Told::Begin),
            _ => self.give_up(),
        }
    }

    /// Takes the version of the node that it visits, and asks for what it needs next.
    #[inline(always)]
    fn arrive(&mut self, version: u64) -> Turn
        ensures { (p : Planned) → (self.new, asked result p) ≡ remove_told self.old self.old.phase (Version version) }
    {
        match self.phase {
            RemovePhase::Walking => self.walk_on(Told::Version(version)),
            RemovePhase::Visiting => {
                self.next.version = version;
                self.read(RemovePhase::ReadingNextKey, self.next.node, Field::Key)
            }
            RemovePhase::VisitingHeir { leaving, node } => {
                let phase = RemovePhase::ReadingParent {
                    leaving,
                    node,
                    version,
                };
                self.read(phase, node, Field::Parent)
            }
            _ => self.give_up(),
        }
    }

    /// Lets the walk pass nodes, where it is on its way down, and finds what it is to be told then.
    #[inline(always)]
    fn descend<C: StillCells>(&mut self, told: Told, cells: &C) -> Told
        requires { CanGoOn remove_moves (C.slots cells.now) (C.cells cells.now) (remove_moves self.old told) }
        ensures { GoesOn remove_moves (C.cells cells.now) (remove_moves self.old told) 0 self.new result }
    {
        let RemovePhase::Walking = self.phase else {
            return told;
        };
        let Some(descent) = Descent::of(self.walk, self.above_key, told, cells) else {
            return told;
        };
        self.walk = descent.walk;
        self.above_key = descent.above_key;
        Told::Version(descent.version)
    }

    /// Tells the walk something, and asks for what it does next.
    #[inline(always)]
    fn walk_on(&mut self, told: Told) -> Turn
        ensures { (p : Planned) → (self.new, asked result p) ≡ remove_walks self.old told }
    {
        match self.walk.step(told) {
            Step::Visit(node) => Turn::Visit(node),
            Step::Read(node, field) => Turn::Read(node, field),
            Step::Here(key) if key == self.walk.key => {
                self.read(RemovePhase::ReadingLeft, self.walk.node, Field::Left)
            }
            Step::Here(key) => {
                self.above_key = key;
                self.walk.go_on(key)
            }
            Step::Missing(_, _) | Step::Astray => self.give_up(),
        }
    }

    /// Takes the number that it waits for, and asks for what it needs next.
    #[inline(always)]
    fn read_on(&mut self, number: u64, change: &mut Change) -> Turn
        ensures { (self.new, asked result change.new) ≡ remove_told self.old self.old.phase (NumberTold number) }
    {
        match self.phase {
            RemovePhase::Walking => self.walk_on(Told::Number(number)),
            RemovePhase::ReadingLeft => {
                self.left = number;
                self.read(RemovePhase::ReadingRight, self.walk.node, Field::Right)
            }
            RemovePhase::ReadingRight => {
                self.right = number;
                self.read(RemovePhase::ReadingValue, self.walk.node, Field::Value)
            }
            RemovePhase::ReadingValue => {
                self.value = number;
                self.choose(change)
            }
            RemovePhase::ReadingNextKey => {
                self.next.key = number;
                self.read(RemovePhase::ReadingNext, self.next.node, Field::Left)
            }
            RemovePhase::ReadingNext => self.follow(number),
            RemovePhase::ReadingNextValue => {
                self.next.value = number;
                self.read(RemovePhase::ReadingNextRight, self.next.node, Field::Right)
            }
            RemovePhase::ReadingNextRight => self.come_up(number, change),
            RemovePhase::ReadingParent {
                leaving,
                node,
                version,
            } => self.end(leaving, Some(Heir::new(node, version, number)), change),
            _ => self.give_up(),
        }
    }

    /// Lets the node with the key leave where it has at most one child, else goes to its successor.
    #[inline(always)]
    fn choose(&mut self, change: &mut Change) -> Turn
        ensures { (self.new, asked result change.new) ≡ choosing self.old }
    {
        match (node_of(self.left), node_of(self.right)) {
            (Some(_), Some(below)) => {
                let above = Above {
                    node: self.walk.node,
                    side: Side::Right,
                    version: self.walk.version,
                };
                self.go_below(above, self.walk.key, below)
            }
            (Some(child), None) | (None, Some(child)) => {
                let met = [self.walk.node, self.walk.above.node];
                self.visit_heir(Leaving::Target, child, &met)
            }
            (None, None) => self.end(Leaving::Target, None, change),
        }
    }

    /// Goes left from a node on the way to the successor, which is the node with no left child.
    #[inline(always)]
    fn follow(&mut self, left: u64) -> Turn
        ensures { (p : Planned) → (self.new, asked result p) ≡ following self.old (node_at left) }
    {
        match node_of(left) {
            Some(below) => {
                let above = Above {
                    node: self.next.node,
                    side: Side::Left,
                    version: self.next.version,
                };
                self.go_below(above, self.next.key, below)
            }
            None => self.read(RemovePhase::ReadingNextValue, self.next.node, Field::Value),
        }
    }

    /// Visits a node on the way to the successor, unless the link to it leads back.
    #[inline(always)]
    fn go_below(&mut self, above: Above, above_key: u64, node: u32) -> Turn
        ensures { (p : Planned) → (self.new, asked result p) ≡ going_below self.old above above_key node }
    {
        if leads_back(node, &[self.walk.node, above.node]) {
            return self.give_up();
        }
        self.next.node = node;
        self.next.above = above;
        self.next.above_key = above_key;
        self.phase = RemovePhase::Visiting;
        Turn::Visit(node)
    }

    /// Lets the successor leave, by way of its right child, if it has one.
    #[inline(always)]
    fn come_up(&mut self, right: u64, change: &mut Change) -> Turn
        ensures { (self.new, asked result change.new) ≡ lifting self.old (node_at right) }
    {
        match node_of(right) {
            Some(child) => {
                let met = [self.walk.node, self.next.node, self.next.above.node];
                self.visit_heir(Leaving::Next, child, &met)
            }
            None => self.end(Leaving::Next, None, change),
        }
    }

    /// Visits an heir, unless it is one of these nodes, which no tree has.
    #[inline(always)]
    fn visit_heir(&mut self, leaving: Leaving, node: u32, met: &[u32]) -> Turn
        ensures { (p : Planned) → (self.new, asked result p) ≡ visiting_heir self.old leaving node met.now }
    {
        if leads_back(node, met) {
            return self.give_up();
        }
        self.phase = RemovePhase::VisitingHeir { leaving, node };
        Turn::Visit(node)
    }

    /// Ends by the exchange in which a node leaves and its heir, if it has one, takes its place.
    #[inline(always)]
    fn end(&mut self, leaving: Leaving, heir: Option<Heir>, change: &mut Change) -> Turn
        ensures { (self.new, asked result change.new) ≡ remove_ends self.old (removal self.old leaving heir) }
    {
        match leaving {
            Leaving::Target => self.unlink(heir, change),
            Leaving::Next => self.lift(heir, change),
        }
        self.phase = RemovePhase::Ended;
        Turn::Change
    }

    /// The node with the key leaves. It takes the plan by value, so that a run can keep the plan out of memory.
    #[inline(never)]
    fn unlink(self, heir: Option<Heir>, change: &mut Change)
        ensures { change.new ≡ planned_by (unlinked self heir) }
    {
        let above = self.walk.above;
        change.restart(Reply::Value(self.value));
        change.raise(above.node, above.version);
        let link = u64::from(self.walk.node);
        let new = To::Number(heir_link(heir));
        change.rewrite(above.node, above.side.link(), link, new);
        rehang(change, above.node, heir);
        change.mark_removed(self.walk.node, self.walk.version);
        charge_key_of(change, above.node, self.above_key);
    }

    /// The successor leaves, and its key and its value come up to the node with the key.
    #[inline(never)]
    fn lift(self, heir: Option<Heir>, change: &mut Change)
        ensures { change.new ≡ planned_by (lifted self heir) }
    {
        let node = self.walk.node;
        let above = self.next.above;
        change.restart(Reply::Value(self.value));
        change.charge(self.next.key);
        change.raise(node, self.walk.version);
        change.rewrite(node, Field::Key, self.walk.key, To::Number(self.next.key));
        change.rewrite(node, Field::Value, self.value, To::Number(self.next.value));
        if above.node != node {
            change.raise(above.node, above.version);
            change.charge(self.next.above_key);
        }
        let link = u64::from(self.next.node);
        let new = To::Number(heir_link(heir));
        change.rewrite(above.node, above.side.link(), link, new);
        rehang(change, above.node, heir);
        change.mark_removed(self.next.node, self.next.version);
    }

    #[inline(always)]
    fn read(&mut self, phase: RemovePhase, node: u32, field: Field) -> Turn
        ensures { (p : Planned) → (self.new, asked result p) ≡ remove_reads self.old phase node field }
    {
        self.phase = phase;
        Turn::Read(node, field)
    }

    #[inline(always)]
    fn give_up(&mut self) -> Turn
        ensures { (p : Planned) → (self.new, asked result p) ≡ remove_gives_up self.old }
    {
        self.phase = RemovePhase::Ended;
        Turn::Answer(Reply::None)
    }
}
