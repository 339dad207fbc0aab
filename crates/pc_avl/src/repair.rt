//! The repair of one node of a balanced tree, as a machine. It goes to the node, by a walk to its key or by a
//! search for the nearest key from a number up, and looks at its children. Where their heights are close the
//! node gets the height that they ask for; else the higher child is looked at, and what hangs below it, and
//! the node is rotated. A node below that is out of balance itself is to be repaired first. On cells that stand still a
//! repair that makes no rotation is told all at once.
ghost use Rattle.std.specs.Prelude.{◌≡◌, ℕ, false, true, [], ◌∷◌, length, IfOk, IfErr, IfSome};
ghost use Rattle.std.specs.Bool.{OnTrue};
ghost use Rattle.pc_model.specs.Cells.{IsNode, node_at};
ghost use Rattle.pc_model.specs.Debts.{has};
ghost use Rattle.pc_model.specs.TreeForms.{height_over};
ghost use Rattle.pc_plan.specs.Asking.{asked};
ghost use Rattle.pc_plan.specs.Planned.{Planned};
ghost use Rattle.pc_plan.specs.Turns.{CanGoOn, GoesOn, ComesFrom, last_ask};
ghost use Rattle.pc_plan.specs.declared.plan.Told.TheVariants.{Version as VersionTold};
ghost use Rattle.pc_plan.specs.Walks.{walk_step};
ghost use Rattle.pc_avl.specs.Balances.{are_close, is_in_balance, heavier_side};
ghost use Rattle.pc_avl.specs.Repairs.{repair_of, first_phase, nowhere, answers, ends, at_place, placed, met};
ghost use Rattle.pc_avl.specs.Repairs.{sought, looks, child_on, turns_twice, seeks_far, seeks_near, turns};
ghost use Rattle.pc_avl.specs.Repairs.{seeks_inner, seeks_outer, leans, balanced_reply, weighs, seeks_right};
ghost use Rattle.pc_avl.specs.Repairs.{seeks_left, after_look, looked, upper, going_down, going_to, finds};
ghost use Rattle.pc_avl.specs.Repairs.{keeps_below, passes, begins_search, searched, walks_on, arrives, walked};
ghost use Rattle.pc_avl.specs.Repairs.{repair_moves, changes};
ghost use Rattle.pc_avl.specs.Closings.{IsBlank, height_at, number_of, closing};
ghost use Rattle.pc_avl.specs.Looks.{look_step};

use crate::look::{Look, LookStep, Looked, MISSING};
use crate::repair_change::{height_over, opposite, reheight};
use pc_model::{Field, Reply, Side};
use pc_plan::{
    Above, Change, Descent, End, SENTINEL, Step, StillCells, Told, Turn, Walk, leads_back, node_of,
    tell,
};

/// What a repair is of.
#[derive(Clone, Copy)]
pub enum Aim {
    /// The node with a key.
    Exact,
    /// The node with the least key from a number up.
    Nearest,
}

/// A node that was left by one of its links, and its key.
#[derive(Clone, Copy)]
pub struct Upper {
    /// The node.
    pub above: Above,
    /// Its key.
    pub key: u64,
}

/// Which node is looked at: the one that is repaired, or one below it. The child is that on the side with
/// the greater height.
#[derive(Clone, Copy)]
pub enum Place {
    /// The node.
    Node,
    /// Its left child.
    Left,
    /// Its right child.
    Right,
    /// The child's child on the same side.
    Outer,
    /// The child's child on the other side.
    Inner,
    /// The inner child's child on the child's side.
    Near,
    /// The inner child's child on the other side.
    Far,
}

/// Where a repair is.
#[derive(Clone, Copy)]
pub enum RepairPhase {
    /// On its walk to the key.
    Walking,
    /// Before its search for the nearest key.
    Beginning,
    /// On its search for the nearest key.
    Searching,
    /// At the look for a place.
    Looking(Place),
    /// At its end.
    Ended,
}

/// How a node comes to its place.
#[derive(Clone, Copy)]
enum Sought {
    /// It stands there.
    Known,
    /// It is to be visited.
    Away(u32),
    /// The link to it leads back, which no tree has.
    Back,
}

/// A repair: how it goes to its node, and what it was told of the nodes that it has met.
#[derive(Drop)]
pub struct Repair {
    /// What it is of.
    pub aim: Aim,
    /// The walk to the key; a search has the number as its key.
    pub walk: Walk,
    /// The look at a node.
    pub look: Look,
    /// The node that a search left last.
    pub last: Upper,
    /// The node above the one that is repaired.
    pub above: Upper,
    /// The node that is repaired.
    pub node: Looked,
    /// Its left child.
    pub left: Looked,
    /// Its right child.
    pub right: Looked,
    /// The outer child of the child on the side.
    pub outer: Looked,
    /// The inner child of that one.
    pub inner: Looked,
    /// The inner one's child on the side.
    pub near: Looked,
    /// The inner one's child on the other side.
    pub far: Looked,
    /// The side with the greater height.
    pub side: Side,
    /// Where it is.
    pub phase: RepairPhase,
}

const NOWHERE: Upper = Upper {
    above: Above {
        node: 0,
        side: Side::Left,
        version: 0,
    },
    key: 0,
};

/// Whether two stored heights differ by at most one.
#[inline]
fn are_close(left: u64, right: u64) -> bool
    ensures { result ≡ are_close left right }
{
    left.max(right) - left.min(right) <= 1
}

/// Whether a node is right to store a height over its children's, which are close.
#[inline]
fn is_in_balance(left: u64, right: u64, own: u64) -> bool
    ensures { result ≡ is_in_balance left right own }
{
    own == height_over(left, right) && are_close(left, right)
}

/// The side with the greater stored height.
#[inline]
fn heavier_side(left: u64, right: u64) -> Side
    ensures { result ≡ heavier_side left right }
{
    if left <= right {
        Side::Right
    } else {
        Side::Left
    }
}

/// What a repair answers where its node is in balance.
#[inline]
fn balanced_reply(aim: Aim, key: u64) -> Reply
    ensures { result ≡ balanced_reply aim key }
{
    match aim {
        Aim::Exact => Reply::None,
        Aim::Nearest => Reply::Pair(key, 0),
    }
}

/// The number of the node that a link names, or 0.
#[inline(always)]
fn number_of(link: u64) -> u32
    ensures { result ≡ number_of (node_at link) }
{
    match node_of(link) {
        Some(node) => node,
        None => 0,
    }
}

/// The stored height of the node that a link names, unless that was met; where it names none, 0.
#[inline(always)]
fn height_at<C: StillCells>(link: u64, met: &[u32], cells: &C) -> Option<u64>
    requires { IfSome (node_at link) (λ n. has n met.now ≡ false → IsNode (C.slots cells.now) n) }
    ensures { result ≡ height_at (C.cells cells.now) met.now (node_at link) }
{
    let Some(node) = node_of(link) else {
        return Some(0);
    };
    if leads_back(node, met) {
        return None;
    }
    Some(cells.word(node, Field::Height))
}

/// How the repair of a node ends that hangs over nodes of these heights, where they are close.
#[inline(always)]
fn close_over(
    aim: Aim,
    above: Upper,
    node: &Looked,
    left: u64,
    right: u64,
    change: &mut Change,
) -> Option<End>
    ensures close { IfSome result (λ end. are_close left right ≡ true) }
    ensures end { IfSome result (λ end. closing aim above node.now left right ≡ last_ask end change.new) }
{
    if !are_close(left, right) {
        return None;
    }
    let height = height_over(left, right);
    if node.height == height {
        return Some(End::Answer(balanced_reply(aim, node.key)));
    }
    reheight(above, node, height, change);
    Some(End::Exchange)
}

impl Upper {
    #[inline]
    fn of(node: &Looked, side: Side) -> Upper
        ensures { result ≡ upper node.now side }
    {
        Upper {
            above: Above {
                node: node.node,
                side,
                version: node.version,
            },
            key: node.key,
        }
    }
}

impl Repair {
    /// The repair of a key, or of the nearest key from a number up, before it begins.
    #[inline(always)]
    pub fn new(aim: Aim, key: u64) -> Repair
        ensures { result ≡ repair_of aim key }
    {
        Repair {
            aim,
            walk: Walk::new(key),
            look: Look::new(SENTINEL),
            last: NOWHERE,
            above: NOWHERE,
            node: MISSING,
            left: MISSING,
            right: MISSING,
            outer: MISSING,
            inner: MISSING,
            near: MISSING,
            far: MISSING,
            side: Side::Left,
            phase: match aim {
                Aim::Exact => RepairPhase::Walking,
                Aim::Nearest => RepairPhase::Beginning,
            },
        }
    }

    /// Tells the repair something, and answers what it asks next.
    #[inline(never)]
    pub fn step(&mut self, told: Told, change: &mut Change) -> Turn
        ensures { (self.new, asked result change.new) ≡ repair_moves self.old told }
    {
        match self.phase {
            RepairPhase::Walking => self.walk_on(told),
            RepairPhase::Beginning => self.begin_search(),
            RepairPhase::Searching => self.search_on(told, change),
            RepairPhase::Looking(place) => self.look_on(place, told, change),
            RepairPhase::Ended => self.answer(Reply::None),
        }
    }

    /// Takes some turns on cells that stand still: the way down of the walk to a key at once, and all that comes then
    /// if the repair makes no rotation; or all that is left of a look; and else one turn.
    #[inline(always)]
    pub fn stride<C: StillCells>(
        &mut self,
        told: Told,
        cells: &C,
        change: &mut Change,
    ) -> Result<Told, End>
        requires { CanGoOn repair_moves (C.slots cells.now) (C.cells cells.now) (repair_moves self.old told) }
        ensures goes_on { IfOk result
            (GoesOn repair_moves (C.cells cells.now) (repair_moves self.old told) 1 self.new) }
        ensures ends { IfErr result (λ end.
            ComesFrom repair_moves (C.cells cells.now) (repair_moves self.old told) (last_ask end change.new)) }
    {
        match self.phase {
            RepairPhase::Walking => self.go_all_the_way(told, cells, change),
            RepairPhase::Looking(place) => self.look_at_once(place, told, cells, change),
            _ => tell(self.step(told, change), cells),
        }
    }

    /// Goes down to the node with the key, and closes the repair there where that makes no rotation.
    #[inline(always)]
    fn go_all_the_way<C: StillCells>(
        &mut self,
        told: Told,
        cells: &C,
        change: &mut Change,
    ) -> Result<Told, End>
        requires walks { self.old.phase ≡ RepairPhase.Walking }
        requires can { CanGoOn repair_moves (C.slots cells.now) (C.cells cells.now) (repair_moves self.old told) }
        ensures goes_on { IfOk result
            (GoesOn repair_moves (C.cells cells.now) (repair_moves self.old told) 1 self.new) }
        ensures ends { IfErr result (λ end.
            ComesFrom repair_moves (C.cells cells.now) (repair_moves self.old told) (last_ask end change.new)) }
    {
        let next = self.go_down(told, cells)?;
        match self.close(next, cells, change) {
            Some(end) => Err(end),
            None => Ok(next),
        }
    }

    /// How the repair ends where it looks at its node, has met no other than the one above, and makes no rotation.
    #[inline(always)]
    fn close<C: StillCells>(&self, told: Told, cells: &C, change: &mut Change) -> Option<End>
        requires { CanGoOn repair_moves (C.slots cells.now) (C.cells cells.now) (repair_moves self.now told) }
        ensures { IfSome result (λ end.
            ComesFrom repair_moves (C.cells cells.now) (repair_moves self.now told) (last_ask end change.new)) }
    {
        let RepairPhase::Looking(place) = self.phase else {
            return None;
        };
        let Place::Node = place else {
            return None;
        };
        if !self.is_blank() {
            return None;
        }
        let node = self.look.at_once(told, cells)?.seen;
        let above = self.above.above.node;
        let left = height_at(node.left, &[above, node.node], cells)?;
        let right = height_at(node.right, &[above, node.node, number_of(node.left)], cells)?;
        close_over(self.aim, self.above, &node, left, right, change)
    }

    /// Whether no node is kept but the one above.
    #[inline(always)]
    fn is_blank(&self) -> bool
        ensures { OnTrue result (IsBlank self.now) }
    {
        self.last.above.node == 0
            && self.left.node == 0
            && self.right.node == 0
            && self.outer.node == 0
            && self.inner.node == 0
            && self.near.node == 0
            && self.far.node == 0
    }

    /// Passes the nodes on the walk to the key at once, and comes to the look at the node that has it.
    #[inline(always)]
    fn go_down<C: StillCells>(&mut self, told: Told, cells: &C) -> Result<Told, End>
        requires walks { self.old.phase ≡ RepairPhase.Walking }
        requires can { CanGoOn repair_moves (C.slots cells.now) (C.cells cells.now) (repair_moves self.old told) }
        ensures goes_on { IfOk result
            (GoesOn repair_moves (C.cells cells.now) (repair_moves self.old told) 1 self.new) }
        ensures ends { IfErr result (λ end. (p : Planned) →
            ComesFrom repair_moves (C.cells cells.now) (repair_moves self.old told) (last_ask end p)) }
    {
        let Some(descent) = Descent::of(self.walk, self.above.key, told, cells) else {
            return tell(self.walk_on(told), cells);
        };
        self.walk = descent.walk;
        self.above.key = descent.above_key;
        self.come_to(descent.version, cells)
    }

    /// Tells the walk the version of the node that it visits, and its key.
    #[inline(always)]
    fn come_to<C: StillCells>(&mut self, version: u64, cells: &C) -> Result<Told, End>
        requires walks { self.old.phase ≡ RepairPhase.Walking }
        requires can { CanGoOn repair_moves (C.slots cells.now) (C.cells cells.now)
            (repair_moves self.old (VersionTold version)) }
        ensures goes_on { IfOk result
            (GoesOn repair_moves (C.cells cells.now) (repair_moves self.old (VersionTold version)) 1 self.new) }
        ensures ends { IfErr result (λ end. (p : Planned) → ComesFrom repair_moves (C.cells cells.now)
            (repair_moves self.old (VersionTold version)) (last_ask end p)) }
    {
        let key = tell(self.walk_on(Told::Version(version)), cells)?;
        match self.phase {
            RepairPhase::Walking => tell(self.walk_on(key), cells),
            _ => Ok(key),
        }
    }

    /// Takes all that is left of a look at once.
    #[inline(always)]
    fn look_at_once<C: StillCells>(
        &mut self,
        place: Place,
        told: Told,
        cells: &C,
        change: &mut Change,
    ) -> Result<Told, End>
        requires looks { self.old.phase ≡ RepairPhase.Looking place }
        requires can { CanGoOn repair_moves (C.slots cells.now) (C.cells cells.now) (repair_moves self.old told) }
        ensures goes_on { IfOk result
            (GoesOn repair_moves (C.cells cells.now) (repair_moves self.old told) 1 self.new) }
        ensures ends { IfErr result (λ end.
            ComesFrom repair_moves (C.cells cells.now) (repair_moves self.old told) (last_ask end change.new)) }
    {
        let Some(look) = self.look.at_once(told, cells) else {
            return tell(self.step(told, change), cells);
        };
        self.look.seen = look.seen;
        self.look.unread = look.unread;
        tell(self.keep(place, change), cells)
    }

    /// Tells the walk something, and asks for what it does next.
    #[inline(always)]
    fn walk_on(&mut self, told: Told) -> Turn
        ensures { (p : Planned) → (self.new, asked result p)
            ≡ walked self.old (walk_step self.old.walk told).0 (walk_step self.old.walk told).1 }
    {
        match self.walk.step(told) {
            Step::Visit(node) => Turn::Visit(node),
            Step::Read(node, field) => Turn::Read(node, field),
            Step::Here(key) if key == self.walk.key => self.arrive(key),
            Step::Here(key) => {
                self.above.key = key;
                self.walk.go_on(key)
            }
            Step::Missing(_, _) | Step::Astray => self.answer(Reply::None),
        }
    }

    /// Looks at the node with the key.
    #[inline(always)]
    fn arrive(&mut self, key: u64) -> Turn
        ensures { (p : Planned) → (self.new, asked result p) ≡ arrives self.old self.old.walk key }
    {
        self.above.above = self.walk.above;
        self.look = Look::after_key(self.walk.node, self.walk.version, key);
        self.phase = RepairPhase::Looking(Place::Node);
        Turn::Read(self.walk.node, Field::Left)
    }

    /// Begins the search at the sentinel.
    fn begin_search(&mut self) -> Turn
        ensures { (p : Planned) → (self.new, asked result p) ≡ begins_search self.old }
    {
        self.phase = RepairPhase::Searching;
        Turn::Visit(SENTINEL)
    }

    /// Tells the look of a search something, and asks for what comes next.
    fn search_on(&mut self, told: Told, change: &mut Change) -> Turn
        ensures { (self.new, asked result change.new)
            ≡ searched self.old (look_step self.old.look told).0 (look_step self.old.look told).1 }
    {
        match self.look.step(told) {
            LookStep::Read(field) => Turn::Read(self.look.seen.node, field),
            LookStep::Done => self.pass(change),
            LookStep::Astray => self.answer(Reply::None),
        }
    }

    /// Goes on from the node that a search has looked at.
    fn pass(&mut self, change: &mut Change) -> Turn
        ensures { (self.new, asked result change.new) ≡ passes self.old self.old.look.seen }
    {
        let seen = self.look.seen;
        if seen.node == SENTINEL {
            return self.go_to(&seen, Side::Left, change);
        }
        if self.walk.key == seen.key {
            self.find(seen);
            return self.seek_left(change);
        }
        if self.walk.key < seen.key {
            self.find(seen);
            return self.go_to(&seen, Side::Left, change);
        }
        self.keep_below(seen);
        self.go_to(&seen, Side::Right, change)
    }

    /// The node is the nearest one so far.
    fn find(&mut self, node: Looked)
        ensures { self.new ≡ finds self.old node }
    {
        self.above = self.last;
        self.node = node;
        self.left = MISSING;
        self.inner = MISSING;
        self.far = MISSING;
    }

    /// The node is kept if it is one of the first three below the nearest one.
    fn keep_below(&mut self, node: Looked)
        ensures { self.new ≡ keeps_below self.old node }
    {
        if self.node.node == 0 {
            return;
        }
        if self.left.node == 0 {
            self.left = node;
        } else if self.inner.node == 0 {
            self.inner = node;
        } else if self.far.node == 0 {
            self.far = node;
        }
    }

    /// Goes on by a link of a node, or from the link's end to the node that it has found.
    fn go_to(&mut self, node: &Looked, side: Side, change: &mut Change) -> Turn
        ensures { (self.new, asked result change.new) ≡ going_to self.old node.now side }
    {
        self.last = Upper::of(node, side);
        match node_of(node.link(side)) {
            Some(below) if leads_back(below, &self.met()) => self.answer(Reply::None),
            Some(below) => {
                self.look = Look::new(below);
                Turn::Visit(below)
            }
            None if self.node.node == 0 => self.answer(Reply::None),
            None => self.seek_left(change),
        }
    }

    /// Tells the look for a place something, and asks for what comes next.
    #[inline(always)]
    fn look_on(&mut self, place: Place, told: Told, change: &mut Change) -> Turn
        ensures { (self.new, asked result change.new)
            ≡ looked self.old place (look_step self.old.look told).0 (look_step self.old.look told).1 }
    {
        match self.look.step(told) {
            LookStep::Read(field) => Turn::Read(self.look.seen.node, field),
            LookStep::Done => self.keep(place, change),
            LookStep::Astray => self.answer(Reply::None),
        }
    }

    /// Puts the node that was looked at to its place, and goes on.
    #[inline(never)]
    fn keep(&mut self, place: Place, change: &mut Change) -> Turn
        ensures { (self.new, asked result change.new) ≡ after_look place (placed self.old place self.old.look.seen) }
    {
        let seen = self.look.seen;
        match place {
            Place::Node => {
                self.node = seen;
                self.seek_left(change)
            }
            Place::Left => {
                self.left = seen;
                self.seek_right(change)
            }
            Place::Right => {
                self.right = seen;
                self.weigh(change)
            }
            Place::Outer => {
                self.outer = seen;
                self.seek_inner(change)
            }
            Place::Inner => {
                self.inner = seen;
                self.turn(change)
            }
            Place::Near => {
                self.near = seen;
                self.seek_far(change)
            }
            Place::Far => {
                self.far = seen;
                self.turn_twice(change)
            }
        }
    }

    #[inline]
    fn seek_left(&mut self, change: &mut Change) -> Turn
        ensures { (self.new, asked result change.new) ≡ seeks_left self.old }
    {
        match self.seek(Place::Left, self.node.left) {
            Sought::Known => self.seek_right(change),
            Sought::Away(node) => Turn::Visit(node),
            Sought::Back => self.answer(Reply::None),
        }
    }

    #[inline]
    fn seek_right(&mut self, change: &mut Change) -> Turn
        ensures { (self.new, asked result change.new) ≡ seeks_right self.old }
    {
        match self.seek(Place::Right, self.node.right) {
            Sought::Known => self.weigh(change),
            Sought::Away(node) => Turn::Visit(node),
            Sought::Back => self.answer(Reply::None),
        }
    }

    /// Compares the heights of both children.
    fn weigh(&mut self, change: &mut Change) -> Turn
        ensures { (self.new, asked result change.new) ≡ weighs self.old }
    {
        let (left, right) = (self.left.height, self.right.height);
        if !are_close(left, right) {
            self.side = heavier_side(left, right);
            return self.seek_outer(change);
        }
        let height = height_over(left, right);
        if self.node.height == height {
            return self.answer(balanced_reply(self.aim, self.node.key));
        }
        reheight(self.above, &self.node, height, change);
        self.end()
    }

    fn seek_outer(&mut self, change: &mut Change) -> Turn
        ensures { (self.new, asked result change.new) ≡ seeks_outer self.old }
    {
        let link = self.child().link(self.side);
        match self.seek(Place::Outer, link) {
            Sought::Known => self.seek_inner(change),
            Sought::Away(node) => Turn::Visit(node),
            Sought::Back => self.answer(Reply::None),
        }
    }

    fn seek_inner(&mut self, change: &mut Change) -> Turn
        ensures { (self.new, asked result change.new) ≡ seeks_inner self.old }
    {
        let link = self.child().link(opposite(self.side));
        match self.seek(Place::Inner, link) {
            Sought::Known => self.turn(change),
            Sought::Away(node) => Turn::Visit(node),
            Sought::Back => self.answer(Reply::None),
        }
    }

    /// Lets the child take the node's place, unless the child is out of balance itself, or its inner child
    /// is the higher one.
    fn turn(&mut self, change: &mut Change) -> Turn
        ensures { (self.new, asked result change.new) ≡ turns self.old }
    {
        let (outer, inner) = (self.outer.height, self.inner.height);
        if !is_in_balance(outer, inner, self.child().height) {
            return self.answer(Reply::Value(self.child().key));
        }
        if outer < inner {
            return self.seek_near(change);
        }
        self.rotate(change);
        self.end()
    }

    fn seek_near(&mut self, change: &mut Change) -> Turn
        ensures { (self.new, asked result change.new) ≡ seeks_near self.old }
    {
        let link = self.inner.link(self.side);
        match self.seek(Place::Near, link) {
            Sought::Known => self.seek_far(change),
            Sought::Away(node) => Turn::Visit(node),
            Sought::Back => self.answer(Reply::None),
        }
    }

    fn seek_far(&mut self, change: &mut Change) -> Turn
        ensures { (self.new, asked result change.new) ≡ seeks_far self.old }
    {
        let link = self.inner.link(opposite(self.side));
        match self.seek(Place::Far, link) {
            Sought::Known => self.turn_twice(change),
            Sought::Away(node) => Turn::Visit(node),
            Sought::Back => self.answer(Reply::None),
        }
    }

    /// Lets the inner child take the node's place, unless it is out of balance itself.
    fn turn_twice(&mut self, change: &mut Change) -> Turn
        ensures { (self.new, asked result change.new) ≡ turns_twice self.old }
    {
        if !is_in_balance(self.near.height, self.far.height, self.inner.height) {
            return self.answer(Reply::Value(self.inner.key));
        }
        self.rotate_twice(change);
        self.end()
    }

    /// Brings the node that a link names to its place, or begins to look at it.
    #[inline]
    fn seek(&mut self, place: Place, link: u64) -> Sought
        ensures { (self.new, result) ≡ sought self.old place link }
    {
        let Some(node) = node_of(link) else {
            self.put(place, MISSING);
            return Sought::Known;
        };
        if self.at(place).node == node {
            return Sought::Known;
        }
        if leads_back(node, &self.met()) {
            return Sought::Back;
        }
        self.look = Look::new(node);
        self.phase = RepairPhase::Looking(place);
        Sought::Away(node)
    }

    /// What stands at a place.
    #[inline]
    fn at(&self, place: Place) -> &Looked
        ensures { result.now ≡ at_place self.now place }
    {
        match place {
            Place::Node => &self.node,
            Place::Left => &self.left,
            Place::Right => &self.right,
            Place::Outer => &self.outer,
            Place::Inner => &self.inner,
            Place::Near => &self.near,
            Place::Far => &self.far,
        }
    }

    #[inline]
    fn put(&mut self, place: Place, node: Looked)
        ensures { self.new ≡ placed self.old place node }
    {
        match place {
            Place::Node => self.node = node,
            Place::Left => self.left = node,
            Place::Right => self.right = node,
            Place::Outer => self.outer = node,
            Place::Inner => self.inner = node,
            Place::Near => self.near = node,
            Place::Far => self.far = node,
        }
    }

    /// The nodes that it has met and still knows of.
    #[inline]
    fn met(&self) -> [u32; 9]
        ensures { result ≡ met self.now }
    {
        [
            self.last.above.node,
            self.above.above.node,
            self.node.node,
            self.left.node,
            self.right.node,
            self.outer.node,
            self.inner.node,
            self.near.node,
            self.far.node,
        ]
    }

    #[inline]
    fn end(&mut self) -> Turn
        ensures { (p : Planned) → (self.new, asked result p) ≡ changes self.old p }
    {
        self.phase = RepairPhase::Ended;
        Turn::Change
    }

    #[inline]
    fn answer(&mut self, reply: Reply) -> Turn
        ensures { (p : Planned) → (self.new, asked result p) ≡ answers self.old reply }
    {
        self.phase = RepairPhase::Ended;
        Turn::Answer(reply)
    }
}
