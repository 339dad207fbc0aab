//! The walk from the sentinel to a key, which every plan of a search tree begins with. At each node it
//! visits it, reads its key, and hands that to the plan. The plan may then read more of the node, and
//! either stops there or lets the walk go on by the link on whose side its key lies.
ghost use Rattle.std.specs.Prelude.{◌≡◌};
ghost use Rattle.pc_model.specs.Cells.{node_at};
ghost use Rattle.pc_model.specs.Debts.{has};
ghost use Rattle.pc_plan.specs.Walks.{side_toward, walk_of, walk_step, visiting, reading_link, arriving, meeting};
ghost use Rattle.pc_plan.specs.Walks.{following, on_way, way};
ghost use Rattle.pc_plan.specs.declared.plan.Turn.TheVariants.{Read as ToRead};

use crate::plan::{Told, Turn};
use pc_model::{Field, Side};

/// The number of the sentinel. The root is its left child.
pub const SENTINEL: u32 = 1;

/// The side of a node with a key on which another key lies.
#[inline]
pub fn side_toward(key: u64, of_node: u64) -> Side
    ensures { result ≡ side_toward key of_node }
{
    if key < of_node {
        Side::Left
    } else {
        Side::Right
    }
}

/// A node that was left by one of its links: the version that it was visited at, and the side.
#[derive(Clone, Copy)]
pub struct Above {
    /// The node.
    pub node: u32,
    /// The side of the link.
    pub side: Side,
    /// The version.
    pub version: u64,
}

/// What a walk waits for.
#[derive(Clone, Copy)]
pub enum Awaited {
    /// To be told to begin.
    Begin,
    /// The version of the node that it visits.
    Version,
    /// The key of that node.
    Key,
    /// The plan's choice at that node.
    Choice,
    /// The number in the link on this side of that node.
    Link(Side),
}

/// A walk to a key: the node that it has come to, with the version that it was told, and the node above.
#[derive(Clone, Copy)]
pub struct Walk {
    /// The key that it walks to.
    pub key: u64,
    /// The node that it has come to.
    pub node: u32,
    /// What it waits for.
    pub awaited: Awaited,
    /// The version of that node, once it was told.
    pub version: u64,
    /// The node above.
    pub above: Above,
}

/// What a walk does next.
#[derive(Clone, Copy, PartialEq, Eq)]
pub enum Step {
    /// It visits this node.
    Visit(u32),
    /// It reads this field of this node, the one that it has come to.
    Read(u32, Field),
    /// The node that it has come to has this key: the plan chooses what to do.
    Here(u64),
    /// The link on this side of the node that it has come to has this number, which names no node: the
    /// key isn't in the tree.
    Missing(Side, u64),
    /// It was told what it didn't ask for, or of a link that leads back, which no tree has.
    Astray,
}

/// The node that a link names, if it names one.
#[inline]
pub fn node_of(link: u64) -> Option<u32>
    ensures { result ≡ node_at link }
{
    if link == 0 || link > 0xffff_ffff {
        return None;
    }
    Some(link as u32)
}

/// Whether a link to this node leads back to one that was met before.
#[inline]
pub fn leads_back(node: u32, met: &[u32]) -> bool
    ensures { result ≡ has node met.now }
{
    met.contains(&node)
}

impl Walk {
    /// The walk to a key, before it begins.
    #[inline]
    pub fn new(key: u64) -> Walk
        ensures { result ≡ walk_of key }
    {
        Walk {
            key,
            node: SENTINEL,
            awaited: Awaited::Begin,
            version: 0,
            above: Above {
                node: 0,
                side: Side::Left,
                version: 0,
            },
        }
    }

    /// Tells the walk something, and answers what it does next.
    #[inline]
    pub fn step(&mut self, told: Told) -> Step
        ensures { (self.new, result) ≡ walk_step self.old told }
    {
        match (self.awaited, told) {
            (Awaited::Begin, Told::Begin) => self.visit(self.node),
            (Awaited::Version, Told::Version(version)) => self.arrive(version),
            (Awaited::Key, Told::Number(key)) => self.meet(key),
            (Awaited::Link(side), Told::Number(link)) => self.follow(side, link),
            _ => Step::Astray,
        }
    }

    /// Goes on from a node with this key, by the link on whose side the walk's key lies.
    #[inline]
    pub fn go_on(&mut self, key: u64) -> Turn
        ensures walk { self.new ≡ on_way self.old key }
        ensures turn { result ≡ ToRead self.old.node (way self.old key) }
    {
        let side = side_toward(self.key, key);
        self.awaited = Awaited::Link(side);
        Turn::Read(self.node, side.link())
    }

    #[inline]
    fn visit(&mut self, node: u32) -> Step
        ensures { (self.new, result) ≡ visiting self.old node }
    {
        self.node = node;
        self.awaited = Awaited::Version;
        Step::Visit(node)
    }

    #[inline]
    fn read_link(&mut self, side: Side) -> Step
        ensures { (self.new, result) ≡ reading_link self.old side }
    {
        self.awaited = Awaited::Link(side);
        Step::Read(self.node, side.link())
    }

    #[inline]
    fn arrive(&mut self, version: u64) -> Step
        ensures { (self.new, result) ≡ arriving self.old version }
    {
        self.version = version;
        if self.node == SENTINEL {
            return self.read_link(Side::Left);
        }
        self.awaited = Awaited::Key;
        Step::Read(self.node, Field::Key)
    }

    #[inline]
    fn meet(&mut self, key: u64) -> Step
        ensures { (self.new, result) ≡ meeting self.old key }
    {
        self.awaited = Awaited::Choice;
        Step::Here(key)
    }

    #[inline]
    fn follow(&mut self, side: Side, link: u64) -> Step
        ensures { (self.new, result) ≡ following self.old side link (node_at link) }
    {
        let Some(node) = node_of(link) else {
            return Step::Missing(side, link);
        };
        if leads_back(node, &[self.node, SENTINEL]) {
            return Step::Astray;
        }
        self.above = Above {
            node: self.node,
            side,
            version: self.version,
        };
        self.visit(node)
    }
}
