//! The way of a walk down cells that stand still, taken a node at once.
ghost use Rattle.std.specs.Prelude.{◌≡◌, ℕ, Some, IfSome};
ghost use Rattle.pc_model.specs.Cells.{IsNode, node_at};
ghost use Rattle.pc_model.specs.declared.cell.Field.TheVariants.{Left as LeftLink};
ghost use Rattle.pc_plan.specs.Descents.{on_side, visit_below, entering, way_down, Passes};
ghost use Rattle.pc_plan.specs.Descents.{Leads, IsLeg, node_below, onward, leg_visit, version_at};
ghost use Rattle.pc_plan.specs.Descents.{HasDescended, DescendsByNodes};

use crate::plan::Told;
use crate::still::StillCells;
use crate::walk::{Above, Awaited, SENTINEL, Walk, leads_back, node_of, side_toward};
use pc_model::{Field, Side};

/// How many nodes are passed at once at most.
const MOST_PASSES: u32 = 64;

/// A walk on its way down, and what it keeps meanwhile.
#[derive(Clone, Copy)]
pub struct Descent {
    /// The walk, which waits for the version of the node that it visits.
    pub walk: Walk,
    /// That version.
    pub version: u64,
    /// The key of the node above.
    pub above_key: u64,
}

/// The one of two links on a side.
#[inline(always)]
fn on_side(side: Side, left: u64, right: u64) -> u64
    ensures { result ≡ on_side side left right }
{
    match side {
        Side::Left => left,
        Side::Right => right,
    }
}

impl Descent {
    /// The way down of a walk that is told this, where it is on its way: past nodes with other keys, each by the
    /// link on whose side its key lies.
    #[inline(always)]
    pub fn of<C: StillCells>(walk: Walk, above_key: u64, told: Told, cells: &C) -> Option<Descent>
        requires { DescendsByNodes (C.slots cells.now) (C.cells cells.now) walk above_key told }
        ensures { IfSome result (HasDescended (C.cells cells.now) walk above_key told) }
    {
        let begun = Descent::begin(walk, above_key, told, cells)?;
        Some(begun.go_down(cells))
    }

    /// The walk as it sets out from the sentinel, or as it is on its way.
    #[inline(always)]
    fn begin<C: StillCells>(walk: Walk, above_key: u64, told: Told, cells: &C) -> Option<Descent>
        requires { DescendsByNodes (C.slots cells.now) (C.cells cells.now) walk above_key told }
        ensures { result ≡ way_down (C.cells cells.now) walk above_key told }
    {
        match (walk.awaited, told) {
            (Awaited::Begin, Told::Begin) if walk.node == SENTINEL => {
                Descent::enter(walk, above_key, cells)
            }
            (Awaited::Version, Told::Version(version)) if walk.node != SENTINEL => Some(Descent {
                walk,
                version,
                above_key,
            }),
            _ => None,
        }
    }

    /// Visits the root, if there is one.
    #[inline(always)]
    fn enter<C: StillCells>(walk: Walk, above_key: u64, cells: &C) -> Option<Descent>
        requires { (d : Descent) → entering (C.cells cells.now) walk above_key
            (node_at (C.cells cells.now 1 LeftLink)) ≡ Some d → IsNode (C.slots cells.now) d.walk.node }
        ensures { result ≡ entering (C.cells cells.now) walk above_key (node_at (C.cells cells.now 1 LeftLink)) }
    {
        let node = node_of(cells.word(SENTINEL, Field::Left))?;
        if leads_back(node, &[SENTINEL, SENTINEL]) {
            return None;
        }
        let version = cells.word(SENTINEL, Field::Version);
        let above = Above {
            node: SENTINEL,
            side: Side::Left,
            version,
        };
        Some(Descent::at(walk.key, node, above, above_key, cells))
    }

    /// The walk at its visit of a node.
    #[inline(always)]
    fn at<C: StillCells>(key: u64, node: u32, above: Above, above_key: u64, cells: &C) -> Descent
        requires { IsNode (C.slots cells.now) node }
        ensures { result ≡ visit_below (C.cells cells.now) key node above above_key }
    {
        Descent {
            walk: Walk {
                key,
                node,
                awaited: Awaited::Version,
                version: above.version,
                above,
            },
            version: cells.word(node, Field::Version),
            above_key,
        }
    }

    /// Passes nodes.
    #[inline(always)]
    fn go_down<C: StillCells>(self, cells: &C) -> Descent
        requires { (m : ℕ) (d : Descent) → Passes (C.cells cells.now) self m d
            → IsNode (C.slots cells.now) d.walk.node }
        ensures { (m : ℕ) × Passes (C.cells cells.now) self m result }
    {
        let leg = way_from(self.walk.key, self.walk.node, cells);
        if leg.node == self.walk.node {
            return self;
        }
        self.at_leg(leg, cells)
    }

    /// The walk at its visit of the node that a leg of its way leads to.
    #[inline(always)]
    fn at_leg<C: StillCells>(self, leg: Leg, cells: &C) -> Descent
        requires above { IsNode (C.slots cells.now) leg.above }
        requires node { IsNode (C.slots cells.now) leg.node }
        ensures { result ≡ leg_visit (C.cells cells.now) self leg.above leg.node }
    {
        let key = cells.word(leg.above, Field::Key);
        let above = Above {
            node: leg.above,
            side: side_toward(self.walk.key, key),
            version: self.version_at(leg.above, cells),
        };
        Descent::at(self.walk.key, leg.node, above, key, cells)
    }

    /// The version of a node: what the walk was told of the one that it visits, and else what stands there.
    #[inline(always)]
    fn version_at<C: StillCells>(&self, node: u32, cells: &C) -> u64
        requires { IsNode (C.slots cells.now) node }
        ensures { result ≡ version_at (C.cells cells.now) self.now node }
    {
        if node == self.walk.node {
            self.version
        } else {
            cells.word(node, Field::Version)
        }
    }
}

/// The last nodes of a way down: the one that it leads to, and the one above, if nodes were passed. The way keeps no
/// more, so that the machine keeps it out of memory.
#[derive(Clone, Copy)]
struct Leg {
    above: u32,
    node: u32,
}

/// The way to a key from a node down, past nodes with other keys.
#[inline(never)]
fn way_from<C: StillCells>(key: u64, node: u32, cells: &C) -> Leg
    requires { (m : ℕ) (n : ℕ) → Leads (C.cells cells.now) key node m n → IsNode (C.slots cells.now) n }
    ensures { IsLeg (C.cells cells.now) key node result.above result.node }
{
    let mut leg = Leg { above: 0, node };
    for _pass in 0..MOST_PASSES {
        match node_below(key, leg.node, cells) {
            Some(below) => {
                leg = Leg {
                    above: leg.node,
                    node: below,
                }
            }
            None => return leg,
        }
    }
    leg
}

/// The node below one on the way to a key, where the node has another key and its link leads on. Both links are read
/// and tested, so that neither waits for the key.
#[inline(always)]
fn node_below<C: StillCells>(key: u64, node: u32, cells: &C) -> Option<u32>
    requires { IsNode (C.slots cells.now) node }
    ensures { result ≡ node_below (C.cells cells.now) key node }
{
    let here = cells.word(node, Field::Key);
    if here == key {
        return None;
    }
    let (left, right) = (
        cells.word(node, Field::Left),
        cells.word(node, Field::Right),
    );
    if left == 0 && right == 0 {
        return None;
    }
    leading_on(node, on_side(side_toward(key, here), left, right))
}

/// The node that a link of a node names, where it leads on.
#[inline(always)]
fn leading_on(node: u32, link: u64) -> Option<u32>
    ensures { result ≡ onward node (node_at link) }
{
    if link <= 1 || link > 0xffff_ffff {
        return None;
    }
    let below = link as u32;
    if below == node {
        return None;
    }
    Some(below)
}
