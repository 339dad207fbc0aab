//! The board, and what a pass steps on it with.
ghost use Rattle.std.specs.Option.{ForSome};
ghost use Rattle.std.specs.Prelude.{◌≡◌, ℕ, ◌+◌, ◌*◌, ◌^◌, ◌<◌, ◌≤◌, [], true, false, length, vec_capacity};
ghost use Rattle.pc_rule_law.specs.Board.{owns_begin, start_of, stride, words_of};
ghost use Rattle.pc_rule_law.specs.Tables.{size_of};
ghost use Rattle.pc_rule.specs.Attempts.{AgreeOnAttempt};
ghost use Rattle.pc_rule.specs.HeldSlots.{HoldsSlots};
ghost use Rattle.pc_rule.specs.Listed.{AreListed};
ghost use Rattle.pc_rule.specs.Stored.{install_of, HoldsWords};
ghost use Rattle.pc_rule.specs.Walking.{HoldsPath};

use crate::held_slots::HeldSlots;
use crate::opening::Place;
use crate::records::Records;
use crate::stored::InstallWords;
use crate::visit::Visit;
use atomic_table::{Seat, Table};
use pc_exchange_law::{WholeLaw, WholeView};
use pc_model::Shape;
use pc_rule_law::{Opening, Share, Starts};
use std::alloc::Global;
use std::marker::PhantomData;

/// The words that passes share.
#[derive(Drop)]
pub struct Board<H: Shape> {
    pub(crate) table: Table<bool, WholeView, Opening, WholeLaw<H>, Global>,
    pub(crate) seats: usize,
    pub(crate) slots: usize,
    pub(crate) starts: Starts,
    /// What each pass has of the board, by seats.
    pub(crate) shares: Vec<Share>,
    ghost started: { starts ≡ table.shared.key.starts },
    ghost sized: { (seats ≡ table.shared.key.seats) × (slots ≡ table.shared.key.slots) × (shares.items ≡ table.shared.key.shares.items) },
    ghost wide: { (table.shared.table_id.words ≡ words_of (size_of table.shared.key)) × (table.shared.table_id.slots ≡ 0) },
    ghost small: { (seats ≤ 32) × (slots ≤ 61000) },
    ghost early: { starts.version < 2 ^ 60 },
    ghost shared: { (j : ℕ) → start_of (size_of table.shared.key) j ≤ slots + 2 },
}

/// A seat at a board, with what its pass knows, the words that stand in its own descriptors, the calls that it recorded and the one
/// that it is to record, the words that it lists for its exchange, the nodes that it visited in the operation that it has begun, and what it has of its slots. The pass with the highest seat
/// has room for the calls of all passes, which it takes in at the closing.
#[derive(Drop)]
pub struct Pass<H: Shape> {
    pub(crate) seat: Seat<bool, WholeView>,
    pub(crate) index: usize,
    /// Where its words begin.
    pub(crate) begin: usize,
    /// The words of its install's descriptor.
    pub(crate) install: InstallWords,
    pub(crate) attempts: u64,
    pub(crate) published: bool,
    /// The first words of its descriptor.
    pub(crate) words: Vec<u64>,
    pub(crate) share: Share,
    pub(crate) slots: HeldSlots,
    pub(crate) records: Records,
    pub(crate) listed: Vec<Place>,
    pub(crate) begun: bool,
    pub(crate) visits: Vec<Visit>,
    pub(crate) shape: PhantomData<H>,
    ghost live: { seat.me.0.view.live ≡ true },
    ghost numbered: { seat.me.0.view.seat ≡ index },
    ghost placed: { begin ≡ owns_begin seat.me.0.view.size + index * stride seat.me.0.view.size },
    ghost counted: { seat.me.0.view.install ≡ install_of install },
    ghost tried: { seat.me.0.view.attempt.number ≡ attempts },
    ghost pending: { seat.me.0.view.attempt.published ≡ published },
    ghost written: { HoldsWords seat.me.0.view.attempt.words words.items },
    ghost holds_none: { seat.me.1 ≡ [] },
    ghost one_attempt: { AgreeOnAttempt seat.me.0 },
    ghost few: { index < 32 },
    ghost roomy: { share.calls ≤ vec_capacity records.entries },
    ghost carrying: { ForSome records.carried (λ c. length records.entries.items < share.calls) },
    ghost ample: { 25 + seat.me.0.view.size.slots ≤ vec_capacity listed },
    ghost listing: { AreListed seat.me.0.view.size.slots listed.items },
    ghost walking: { HoldsPath seat.me.0 begun visits.items (vec_capacity visits) },
    ghost holding: { HoldsSlots seat.me.0 slots },
    ghost resting: { published ≡ false → slots.named ≡ false },
}
