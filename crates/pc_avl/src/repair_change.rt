//! The exchanges of a repair, written from what it was told of the nodes.
ghost use Rattle.std.specs.Prelude.{◌≡◌, ◌≤◌, ◌+◌, ◌<◌, ◌∷◌, [], length};
ghost use Rattle.pc_model.specs.Sides.{opposite};
ghost use Rattle.pc_model.specs.TreeForms.{height_over};
ghost use Rattle.pc_plan.specs.NodeChanges.{planned_by};
ghost use Rattle.pc_plan.specs.Planned.{with_add, rewritten};
ghost use Rattle.pc_plan.specs.declared.change.To.TheVariants.{Number as ToNumber};
ghost use Rattle.pc_avl.specs.RepairChanges.{with_nodes, rehung, relinked, turned, turned_whole};
ghost use Rattle.pc_avl.specs.RepairChanges.{reheighting, rotating, rotating_twice};
ghost use Rattle.pc_avl.specs.Repairs.{child, sibling};

use crate::look::Looked;
use crate::repair::{Repair, Upper};
use pc_bst::charge_key_of;
use pc_model::{Field, Reply, Side};
use pc_plan::{Above, Change, To};

/// The greatest height that a node stores.
const GREATEST_HEIGHT: u64 = (1 << 62) - 1;

/// One more than the greater of two stored heights.
#[inline]
pub fn height_over(left: u64, right: u64) -> u64
    ensures { result ≡ height_over left right }
{
    left.max(right).min(GREATEST_HEIGHT - 1) + 1
}

/// The other side of a node.
#[inline]
pub fn opposite(side: Side) -> Side
    ensures { result ≡ opposite side }
{
    match side {
        Side::Left => Side::Right,
        Side::Right => Side::Left,
    }
}

/// Changes a field of a node to a number.
#[inline]
fn renumber(change: &mut Change, node: u32, field: Field, old: u64, new: u64)
    requires { length change.old.adds < 24 }
    ensures { change.new ≡ with_add change.old (rewritten node field old (ToNumber new)) }
{
    change.rewrite(node, field, old, To::Number(new));
}

/// The link to a node goes to another one.
fn relink(change: &mut Change, above: Above, old: u32, new: u32)
    requires { length change.old.adds < 23 }
    ensures { change.new ≡ with_nodes change.old (relinked above old new ∷ []) }
{
    change.raise(above.node, above.version);
    renumber(
        change,
        above.node,
        above.side.link(),
        u64::from(old),
        u64::from(new),
    );
}

/// A node, if it is one, comes to hang below another.
fn rehang(change: &mut Change, node: &Looked, above: u32)
    requires { length change.old.adds < 23 }
    ensures hung { change.new ≡ with_nodes change.old (rehung above node.now) }
    ensures few { length change.new.adds ≤ length change.old.adds + 2 }
{
    if node.node != 0 {
        change.raise(node.node, node.version);
        renumber(
            change,
            node.node,
            Field::Parent,
            node.parent,
            u64::from(above),
        );
    }
}

/// A node gets another link on a side, another parent and another height.
fn turn(change: &mut Change, node: &Looked, side: Side, link: u32, parent: u32, height: u64)
    requires { length change.old.adds < 21 }
    ensures { change.new ≡ with_nodes change.old (turned node.now side link parent height ∷ []) }
{
    change.raise(node.node, node.version);
    renumber(
        change,
        node.node,
        side.link(),
        node.link(side),
        u64::from(link),
    );
    renumber(
        change,
        node.node,
        Field::Parent,
        node.parent,
        u64::from(parent),
    );
    renumber(change, node.node, Field::Height, node.height, height);
}

/// The numbers of the nodes that come to hang on a side and on the other.
#[derive(Clone, Copy)]
pub struct Ends {
    near: u32,
    far: u32,
}

/// A node gets both links, from a side to the other, another parent and another height.
fn turn_whole(change: &mut Change, node: &Looked, side: Side, ends: Ends, parent: u32, height: u64)
    requires { length change.old.adds < 20 }
    ensures { change.new ≡ with_nodes change.old (turned_whole node.now side ends.near ends.far parent height ∷ []) }
{
    let other = opposite(side);
    change.raise(node.node, node.version);
    renumber(
        change,
        node.node,
        side.link(),
        node.link(side),
        u64::from(ends.near),
    );
    renumber(
        change,
        node.node,
        other.link(),
        node.link(other),
        u64::from(ends.far),
    );
    renumber(
        change,
        node.node,
        Field::Parent,
        node.parent,
        u64::from(parent),
    );
    renumber(change, node.node, Field::Height, node.height, height);
}

/// A node below this one gets another height.
#[inline(never)]
pub fn reheight(above: Upper, node: &Looked, height: u64, change: &mut Change)
    ensures { change.new ≡ planned_by (reheighting above.above above.key node.now height) }
{
    change.restart(Reply::Was(node.key));
    change.raise(node.node, node.version);
    renumber(change, node.node, Field::Height, node.height, height);
    charge_key_of(change, above.above.node, above.key);
}

impl Repair {
    /// The child of the node on the side that it leans to.
    #[inline]
    pub fn child(&self) -> &Looked
        ensures { result.now ≡ child self.now }
    {
        match self.side {
            Side::Left => &self.left,
            Side::Right => &self.right,
        }
    }

    /// The child of the node on the other side.
    #[inline]
    pub fn sibling(&self) -> &Looked
        ensures { result.now ≡ sibling self.now }
    {
        match self.side {
            Side::Left => &self.right,
            Side::Right => &self.left,
        }
    }

    /// The child takes the node's place.
    pub fn rotate(&self, change: &mut Change)
        ensures { change.new ≡ planned_by (rotating self.now.side self.now.above.above self.now.above.key
            self.now.node (child self.now) (sibling self.now) self.now.outer self.now.inner) }
    {
        let above = self.above.above;
        let (node, child, middle) = (&self.node, self.child(), &self.inner);
        let lower = height_over(middle.height, self.sibling().height);
        let upper = height_over(self.outer.height, lower);
        change.restart(Reply::Was(node.key));
        relink(change, above, node.node, child.node);
        turn(
            change,
            child,
            opposite(self.side),
            node.node,
            above.node,
            upper,
        );
        turn(change, node, self.side, middle.node, child.node, lower);
        rehang(change, middle, node.node);
        change.charge(node.key);
        change.charge(child.key);
        charge_key_of(change, above.node, self.above.key);
    }

    /// The inner child of the child takes the node's place.
    pub fn rotate_twice(&self, change: &mut Change)
        ensures { change.new ≡ planned_by (rotating_twice self.now.side self.now.above.above self.now.above.key
            self.now.node (child self.now) self.now.inner (sibling self.now) self.now.outer self.now.near
            self.now.far) }
    {
        let above = self.above.above;
        let (node, child, inner) = (&self.node, self.child(), &self.inner);
        let (near, far) = (&self.near, &self.far);
        let left_behind = height_over(self.outer.height, near.height);
        let lower = height_over(far.height, self.sibling().height);
        let ends = Ends {
            near: child.node,
            far: node.node,
        };
        change.restart(Reply::Was(node.key));
        relink(change, above, node.node, inner.node);
        turn_whole(
            change,
            inner,
            self.side,
            ends,
            above.node,
            height_over(left_behind, lower),
        );
        turn(
            change,
            child,
            opposite(self.side),
            near.node,
            inner.node,
            left_behind,
        );
        turn(change, node, self.side, far.node, inner.node, lower);
        rehang(change, near, child.node);
        rehang(change, far, node.node);
        change.charge(node.key);
        change.charge(child.key);
        change.charge(inner.key);
        charge_key_of(change, above.node, self.above.key);
    }
}
