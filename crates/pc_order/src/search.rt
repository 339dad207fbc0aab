//! The search on one side of a key: the walk to the key, which remembers each pair that it meets on that
//! side. The last one is the nearest. The plans of ceil and floor are this machine.
ghost use Rattle.std.specs.Prelude.{◌≡◌, IfOk, IfErr};
ghost use Rattle.pc_model.specs.Map.{pair_or_nothing};
ghost use Rattle.pc_plan.specs.Asking.{asked};
ghost use Rattle.pc_plan.specs.Planned.{Planned};
ghost use Rattle.pc_plan.specs.Turns.{CanGoOn, GoesOn, ComesFrom, last_ask};
ghost use Rattle.pc_order.specs.Searches.{is_on, search_of, search_moves};
ghost use Rattle.pc_order.specs.Searches.{walked_on, reading_value, remembering, ended};

use pc_model::{Field, Reply, Side};
use pc_plan::{Change, End, Step, StillCells, Told, Turn, Walk, tell};

/// Where a search is.
#[derive(Clone, Copy)]
pub enum SearchPhase {
    /// On its walk.
    Walking,
    /// Waiting for the value of the node that the walk has come to.
    Reading,
    /// At its end.
    Ended,
}

/// A search on one side of a key.
#[derive(Drop)]
pub struct Search {
    /// The walk to the key.
    pub walk: Walk,
    /// The side of the key on which the nearest pair is searched.
    pub side: Side,
    /// Where the search is.
    pub phase: SearchPhase,
    /// The key of the last node whose value was asked for.
    pub met: u64,
    /// The nearest pair so far.
    pub nearest: Option<(u64, u64)>,
}

/// Whether a node's key lies on this side of the key that is asked for. That key itself lies on both.
#[inline]
fn is_on(side: Side, asked: u64, key: u64) -> bool
    ensures { result ≡ is_on side asked key }
{
    match side {
        Side::Left => key <= asked,
        Side::Right => asked <= key,
    }
}

#[inline]
fn reply_of(nearest: Option<(u64, u64)>) -> Reply
    ensures { result ≡ pair_or_nothing nearest }
{
    match nearest {
        Some((key, value)) => Reply::Pair(key, value),
        None => Reply::None,
    }
}

impl Search {
    /// The search on this side of a key, before it begins.
    #[inline]
    pub fn new(side: Side, key: u64) -> Search
        ensures { result ≡ search_of side key }
    {
        Search {
            walk: Walk::new(key),
            side,
            phase: SearchPhase::Walking,
            met: 0,
            nearest: None,
        }
    }

    /// Tells the search something, and answers what it asks next. It asks for no exchange.
    #[inline]
    pub fn step(&mut self, told: Told) -> Turn
        ensures { (p : Planned) → (self.new, asked result p) ≡ search_moves self.old told }
    {
        match (self.phase, told) {
            (SearchPhase::Walking, told) => self.walk_on(told),
            (SearchPhase::Reading, Told::Number(value)) => self.remember(value),
            _ => self.end(Reply::None),
        }
    }

    /// Takes a turn on cells that stand still.
    #[inline(always)]
    pub fn stride<C: StillCells>(
        &mut self,
        told: Told,
        cells: &C,
        _change: &mut Change,
    ) -> Result<Told, End>
        requires { CanGoOn search_moves (C.slots cells.now) (C.cells cells.now) (search_moves self.old told) }
        ensures goes_on { IfOk result
            (GoesOn search_moves (C.cells cells.now) (search_moves self.old told) 1 self.new) }
        ensures ends { IfErr result (λ end.
            ComesFrom search_moves (C.cells cells.now) (search_moves self.old told) (last_ask end _change.new)) }
    {
        tell(self.step(told), cells)
    }

    /// Tells the walk something, and asks for what it does next.
    #[inline]
    fn walk_on(&mut self, told: Told) -> Turn
        ensures { (p : Planned) → (self.new, asked result p) ≡ walked_on self.old told }
    {
        match self.walk.step(told) {
            Step::Visit(node) => Turn::Visit(node),
            Step::Read(node, field) => Turn::Read(node, field),
            Step::Here(key) if is_on(self.side, self.walk.key, key) => self.read_value(key),
            Step::Here(key) => self.walk.go_on(key),
            Step::Missing(_, _) => self.end(reply_of(self.nearest)),
            Step::Astray => self.end(Reply::None),
        }
    }

    /// Reads the value of the node that the walk has come to, which has this key.
    #[inline]
    fn read_value(&mut self, key: u64) -> Turn
        ensures { (p : Planned) → (self.new, asked result p) ≡ reading_value self.old key }
    {
        self.met = key;
        self.phase = SearchPhase::Reading;
        Turn::Read(self.walk.node, Field::Value)
    }

    /// Remembers the pair that was met, and goes on unless its key is the one that is asked for.
    #[inline]
    fn remember(&mut self, value: u64) -> Turn
        ensures { (p : Planned) → (self.new, asked result p) ≡ remembering self.old value }
    {
        self.nearest = Some((self.met, value));
        self.phase = SearchPhase::Walking;
        if self.met == self.walk.key {
            return self.end(Reply::Pair(self.met, value));
        }
        self.walk.go_on(self.met)
    }

    #[inline]
    fn end(&mut self, reply: Reply) -> Turn
        ensures { (p : Planned) → (self.new, asked result p) ≡ ended self.old reply }
    {
        self.phase = SearchPhase::Ended;
        Turn::Answer(reply)
    }
}
