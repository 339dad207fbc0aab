//! The steps by which a pass visits nodes and reads words, and makes one read of all that, by the numbers of the kinds of
//! step. An operation begins; nodes are visited, and words of them read; a stamp is drawn for the read; and each visit is
//! checked for it, in the order of the visits. With the last check that passes the read takes effect at its stamp: the
//! nodes had these versions then, and the words these numbers. Where a check doesn't pass, the visits are dropped, and the
//! next visit begins anew.
ghost use Rattle.std.specs.Prelude.{◌≡◌, ◌≢◌, ◌+◌, ◌<◌, ◌≤◌, ◌++◌, nat_le, [], true, false, if◌then◌else◌, length, map, vec_capacity};
ghost use Rattle.std.specs.List.{All};
ghost use Rattle.pc_model.specs.declared.cell.Field.TheVariants.{Version};
ghost use Rattle.pc_words.specs.Words.{kind, IsWord};
ghost use Rattle.pc_rule_law.specs.Board.{at_epoch, address};
ghost use Rattle.pc_rule_law.specs.Plays.{SameSeat, IsWell};
ghost use Rattle.pc_exchange_law.specs.Paths.{dropped, begun_path, ended_path, with_visit, with_read, with_stamp, MayCheck};
ghost use Rattle.pc_exchange_law.specs.Slots.{IsHeld};
ghost use Rattle.pc_exchange_law.specs.Ties.{last_stamp};
ghost use Rattle.pc_exchange_law.specs.WholePlays.{CellSeen, ReadDrawn, PathChecked};
ghost use Rattle.pc_rule.specs.Passes.{whole, view, knows, aim, visits, path, board_size, IsPassOf, StaysSeated, OnlyVisited, HasNode};
ghost use Rattle.pc_rule.specs.Walking.{visited_of, visits_in, visit_list, turned, FitsVisit, VersionsRise};

use crate::board::{Board, Pass};
use crate::visit::Visit;
use atomic_table::Seat;
use pc_exchange_law::{
    WholeCheck, WholeEndPath, WholeFirstVisit, WholeOpenPath, WholeRead, WholeReadDraw, WholeView,
    WholeVisit,
};
use pc_model::{Field, Shape};
use pc_words::{WordKind, kind_of};

// The last version of a node.
const LAST_VERSION: u64 = 1_152_921_504_606_846_970;

/// The visit of a node in whose version word this was found, where that is plain, even, and below the last version.
fn visit_in(node: u32, word: u64) -> Option<Visit>
    requires { IsWord word }
    ensures { visit_list result ≡ visits_in node (kind word) }
{
    let WordKind::Plain(version) = kind_of(word) else {
        return None;
    };
    if version % 2 == 0 && version < LAST_VERSION {
        Some(Visit { node, version })
    } else {
        None
    }
}

/// Keeps a visit, where there is one.
fn keep_visit(visits: &mut Vec<Visit>, visit: Option<Visit>)
    requires { length visits.old.items < vec_capacity visits.old }
    ensures items { visits.new.items ≡ visits.old.items ++ visit_list visit }
    ensures capacity { vec_capacity visits.new ≡ vec_capacity visits.old }
{
    if let Some(visit) = visit {
        visits.push_reserved(visit);
    }
}

/// A load of a version that counts as a visit: the first one of a path that begins anew, or one more.
fn load_visit<H: Shape>(
    board: &Board<H>,
    seat: &mut Seat<bool, WholeView>,
    node: u32,
    first: bool,
) -> u64
    requires seat { (seat.old.table_id ≡ board.now.table.shared.table_id) × (seat.old.me.0.view.size ≡ board_size board.now) }
    requires open { (seat.old.me.0.view.live ≡ true) × (seat.old.me.0.path.begun ≡ true) }
    requires inside { HasNode board.now node }
    requires held { IsHeld seat.old.me.0.knows node }
    ensures seat { (seat.new.table_id ≡ seat.old.table_id) × (seat.new.me.1 ≡ seat.old.me.1) × SameSeat seat.old.me.0.view seat.new.me.0.view × IsWell seat.new.me.0.view }
    ensures told { CellSeen seat.old.me.0 node Version result seat.new.me.0 }
    ensures path { seat.new.me.0.path ≡ with_visit (if first then dropped seat.old.me.0.path else seat.old.me.0.path) node (kind result) }
{
    let word = board.cell_word(node, Field::Version);
    if first {
        board.table.shared.load::<WholeFirstVisit>(seat, word)
    } else {
        board.table.shared.load::<WholeVisit>(seat, word)
    }
}

/// A load of the epoch, with which the operation ends that has begun, or one begins.
fn load_epoch<H: Shape>(board: &Board<H>, seat: &mut Seat<bool, WholeView>, begun: bool) -> u64
    requires seat { (seat.old.table_id ≡ board.now.table.shared.table_id) × (seat.old.me.0.view.size ≡ board_size board.now) }
    requires live { seat.old.me.0.view.live ≡ true }
    ensures seat { (seat.new.table_id ≡ seat.old.table_id) × (seat.new.me.1 ≡ seat.old.me.1) × IsWell seat.new.me.0.view }
    ensures told { seat.new.me.0 ≡ record (seat.old.me.0) { path = if begun then ended_path else begun_path } }
{
    let word = board.epoch_word();
    if begun {
        board.table.shared.load::<WholeEndPath>(seat, word)
    } else {
        board.table.shared.load::<WholeOpenPath>(seat, word)
    }
}

/// A load of a node's version that counts as a visit, where it is plain, even, and below the last version. There is room for a visit of each node. The node
/// is known to be in use.
pub fn step_5_visit<H: Shape>(board: &Board<H>, pass: &mut Pass<H>, node: u32) -> u64
    requires pass { IsPassOf board.now pass.old }
    requires open { (path pass.old).begun ≡ true }
    requires inside { HasNode board.now node }
    requires held { IsHeld (knows pass.old) node }
    requires room { length (visits pass.old) ≤ (board_size board.now).slots }
    ensures pass { StaysSeated pass.old pass.new }
    ensures told { CellSeen (whole pass.old) node Version result (whole pass.new) }
    ensures path { path pass.new ≡ with_visit (path pass.old) node (kind result) }
    ensures visits { visits pass.new ≡ visits pass.old ++ visits_in node (kind result) }
{
    let first = pass.visits.is_empty();
    let found = load_visit(board, &mut pass.seat, node, first);
    keep_visit(&mut pass.visits, visit_in(node, found));
    found
}

/// A load of a word of a node that counts as a read, where it is plain, no version, and the node was visited. The node is known to
/// be in use.
pub fn step_5_read<H: Shape>(board: &Board<H>, pass: &mut Pass<H>, node: u32, field: Field) -> u64
    requires pass { IsPassOf board.now pass.old }
    requires inside { HasNode board.now node }
    requires held { IsHeld (knows pass.old) node }
    ensures pass { StaysSeated pass.old pass.new }
    ensures told { CellSeen (whole pass.old) node field result (whole pass.new) }
    ensures path { path pass.new ≡ with_read (path pass.old) node field (kind result) }
    ensures visits { visits pass.new ≡ visits pass.old }
{
    let word = board.cell_word(node, field);
    board.table.shared.load::<WholeRead>(&mut pass.seat, word)
}

/// A draw of a stamp for the read of all that was visited and read. From the last stamp on it is refused.
pub fn step_20<H: Shape>(board: &Board<H>, pass: &mut Pass<H>) -> u64
    requires pass { IsPassOf board.now pass.old }
    requires ready { (knows pass.old).ready ≡ true }
    requires visited { visits pass.old ≢ [] }
    ensures pass { StaysSeated pass.old pass.new }
    ensures told { ReadDrawn (whole pass.old) result (whole pass.new) }
    ensures drawn { result < last_stamp → path pass.new ≡ with_stamp (path pass.old) result }
    ensures refused { last_stamp ≤ result → path pass.new ≡ path pass.old }
    ensures visits { visits pass.new ≡ visits pass.old }
{
    board
        .table
        .shared
        .fetch_add::<WholeReadDraw>(&mut pass.seat, 0, 1)
}

/// A load of the version of the next visit that is to be checked for the stamp. Where it is as it was visited, it has
/// passed, and with the last one the read takes effect.
pub fn step_21<H: Shape>(board: &Board<H>, pass: &mut Pass<H>, node: u32) -> u64
    requires pass { IsPassOf board.now pass.old }
    requires inside { HasNode board.now node }
    requires next { MayCheck (path pass.old) node }
    ensures pass { StaysSeated pass.old pass.new }
    ensures told { CellSeen (whole pass.old) node Version result (whole pass.new) }
    ensures checked { PathChecked (path pass.old) result (path pass.new) (knows pass.new) }
    ensures visits { visits pass.new ≡ visits pass.old }
{
    let word = board.cell_word(node, Field::Version);
    board.table.shared.load::<WholeCheck>(&mut pass.seat, word)
}

/// A load of the epoch, with which a pass at rest begins an operation, or the operation ends, while nothing is published.
pub fn step_24<H: Shape>(board: &Board<H>, pass: &mut Pass<H>) -> u64
    requires pass { IsPassOf board.now pass.old }
    requires may { (path pass.old).begun ≡ true → (view pass.old).attempt.published ≡ false }
    ensures pass { StaysSeated pass.old pass.new }
    ensures told { (view pass.new ≡ view pass.old) × (knows pass.new ≡ knows pass.old) × (aim pass.new ≡ aim pass.old) }
    ensures path { path pass.new ≡ turned (path pass.old) }
    ensures visits { visits pass.new ≡ [] }
{
    let found = load_epoch(board, &mut pass.seat, pass.begun);
    pass.begun = !pass.begun;
    pass.visits.clear();
    found
}

impl<H: Shape> Pass<H> {
    /// The nodes that it visited, each with its version, in order.
    pub fn visits(&self) -> &[Visit]
        ensures visits { result.now ≡ visits self.now }
        ensures few { length (visits self.now) ≤ (view self.now).size.slots + 1 }
        ensures fit { All (FitsVisit (view self.now).size.slots) (visits self.now) }
        ensures rising { VersionsRise (visits self.now) }
        ensures path { (path self.now).visits ≡ map visited_of (visits self.now) }
    {
        self.visits.as_slice()
    }

    /// Drops what it visited and read, which takes no step: its next visit begins anew.
    pub fn drop_visits(&mut self)
        ensures only { OnlyVisited self.old self.new }
        ensures none { visits self.new ≡ [] }
        ensures path { path self.new ≡ dropped (path self.old) }
    {
        self.visits.clear();
    }
}

impl<H: Shape> Board<H> {
    /// Whether a pass has room for one visit more: it has for as many as there are nodes.
    pub fn has_room_to_visit(&self, pass: &Pass<H>) -> bool
        ensures { result ≡ nat_le (length (visits pass.now)) (board_size self.now).slots }
    {
        pass.visits.len() <= self.slots
    }
}
