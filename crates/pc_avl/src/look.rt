//! A look at a node: its visit, and the reads of all that a repair needs of it.
ghost use Rattle.std.specs.Prelude.{◌≡◌};
ghost use Rattle.std.specs.Prelude.{Some};
ghost use Rattle.pc_model.specs.Cells.{IsNode};
ghost use Rattle.pc_avl.specs.Looks.{missing, link_at, look_for, look_on, look_step, told_all, whole_look};

use pc_model::{Field, Side};
use pc_plan::{StillCells, Told};

/// What was told of a node. Where a link names no node it is node 0, whose height is 0.
#[derive(Clone, Copy)]
pub struct Looked {
    /// The node.
    pub node: u32,
    /// The version that it was visited at.
    pub version: u64,
    /// The key.
    pub key: u64,
    /// The left link.
    pub left: u64,
    /// The right link.
    pub right: u64,
    /// The parent.
    pub parent: u64,
    /// The stored height.
    pub height: u64,
}

/// No node.
pub const MISSING: Looked = Looked {
    node: 0,
    version: 0,
    key: 0,
    left: 0,
    right: 0,
    parent: 0,
    height: 0,
};

/// What a look waits for.
#[derive(Clone, Copy)]
pub enum Unread {
    /// The version of its node.
    Version,
    /// The key.
    Key,
    /// The left link.
    Left,
    /// The right link.
    Right,
    /// The parent.
    Parent,
    /// The height.
    Height,
}

/// A look at a node: what it was told so far, and what it waits for.
#[derive(Clone, Copy)]
pub struct Look {
    /// What it was told.
    pub seen: Looked,
    /// What it waits for.
    pub unread: Unread,
}

/// What a look does next.
#[derive(Clone, Copy)]
pub enum LookStep {
    /// It reads this field of its node.
    Read(Field),
    /// It was told all.
    Done,
    /// It was told what it didn't ask for.
    Astray,
}

impl Looked {
    /// The link on a side.
    #[inline]
    pub fn link(&self, side: Side) -> u64
        ensures { result ≡ link_at self.now side }
    {
        match side {
            Side::Left => self.left,
            Side::Right => self.right,
        }
    }
}

impl Look {
    ghost use Rattle.pc_avl.specs.declared.look.Look.{Look};

    /// A look at a node that is to be visited.
    #[inline]
    pub fn new(node: u32) -> Look
        ensures { result ≡ look_for node }
    {
        Look {
            seen: Looked { node, ..MISSING },
            unread: Unread::Version,
        }
    }

    /// The rest of a look at a node that was visited at this version, and whose key was read.
    #[inline]
    pub fn after_key(node: u32, version: u64, key: u64) -> Look
        ensures { result ≡ look_on node version key }
    {
        Look {
            seen: Looked {
                node,
                version,
                key,
                ..MISSING
            },
            unread: Unread::Left,
        }
    }

    /// Tells the look something, and answers what it does next.
    #[inline]
    pub fn step(&mut self, told: Told) -> LookStep
        ensures { (self.new, result) ≡ look_step self.old told }
    {
        match (self.unread, told) {
            (Unread::Version, Told::Version(version)) => {
                self.seen.version = version;
                self.read(Unread::Key, Field::Key)
            }
            (Unread::Key, Told::Number(key)) => {
                self.seen.key = key;
                self.read(Unread::Left, Field::Left)
            }
            (Unread::Left, Told::Number(left)) => {
                self.seen.left = left;
                self.read(Unread::Right, Field::Right)
            }
            (Unread::Right, Told::Number(right)) => {
                self.seen.right = right;
                self.read(Unread::Parent, Field::Parent)
            }
            (Unread::Parent, Told::Number(parent)) => {
                self.seen.parent = parent;
                self.read(Unread::Height, Field::Height)
            }
            (Unread::Height, Told::Number(height)) => {
                self.seen.height = height;
                LookStep::Done
            }
            _ => LookStep::Astray,
        }
    }

    /// The look as it ends on cells that stand still, where it is told what it waits for at its visit, or at its
    /// left link.
    #[inline(always)]
    pub fn at_once<C: StillCells>(&self, told: Told, cells: &C) -> Option<Look>
        requires { (l : Look) → whole_look (C.cells cells.now) self.now told ≡ Some l
            → IsNode (C.slots cells.now) self.now.seen.node }
        ensures { result ≡ whole_look (C.cells cells.now) self.now told }
    {
        let seen = &self.seen;
        match (self.unread, told) {
            (Unread::Version, Told::Version(version)) => {
                let key = cells.word(seen.node, Field::Key);
                let left = cells.word(seen.node, Field::Left);
                Some(Look::told_all(seen.node, version, key, left, cells))
            }
            (Unread::Left, Told::Number(left)) => Some(Look::told_all(
                seen.node,
                seen.version,
                seen.key,
                left,
                cells,
            )),
            _ => None,
        }
    }

    /// A look at its end, on cells that stand still.
    #[inline(always)]
    fn told_all<C: StillCells>(node: u32, version: u64, key: u64, left: u64, cells: &C) -> Look
        requires { IsNode (C.slots cells.now) node }
        ensures { result ≡ told_all (C.cells cells.now) node version key left }
    {
        Look {
            seen: Looked {
                node,
                version,
                key,
                left,
                right: cells.word(node, Field::Right),
                parent: cells.word(node, Field::Parent),
                height: cells.word(node, Field::Height),
            },
            unread: Unread::Height,
        }
    }

    #[inline]
    fn read(&mut self, unread: Unread, field: Field) -> LookStep
        ensures look { self.new ≡ record self.old { unread = unread } }
        ensures step { result ≡ LookStep.Read field }
    {
        self.unread = unread;
        LookStep::Read(field)
    }
}
