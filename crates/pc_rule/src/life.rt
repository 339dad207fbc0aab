//! How a board is opened with its passes.
ghost use Rattle.std.specs.Prelude.{IfOk, true, false, [], ◌≡◌, ◌++◌, ◌+◌, ◌<◌, ◌≤◌, ◌^◌, length, vec_capacity};
ghost use Rattle.std.specs.List.Sorted.{IsPermutation};
ghost use mathlib.Core.Option.{some};
ghost use lib.ListN.{get_elem?};
ghost use Rattle.pc_model.specs.Forms.{IsSound};
ghost use Rattle.pc_model.specs.Linked.{opening_cells};
ghost use Rattle.std.specs.Mem.Slots.{slots_items, slots_len, IsFull};
ghost use Rattle.pc_rule_law.specs.Board.{words_of};
ghost use Rattle.pc_rule_law.specs.Conditions.{IsFree};
ghost use Rattle.pc_rule_law.specs.Openings.{MayOpen};
ghost use Rattle.pc_rule_law.specs.Seats.{joined_by};
ghost use Rattle.pc_rule_law.specs.Tables.{size_of};
ghost use Rattle.pc_exchange_law.specs.OwnSlots.{first_slots};
ghost use Rattle.pc_exchange_law.specs.Ties.{last_stamp};
ghost use Rattle.pc_exchange_law.specs.WholeSeats.{first_whole, whole_maker, whole_made, IsWholeClosed};
ghost use Rattle.pc_rule.specs.Passes.{whole, view, knows, board_size, share_of, recorded, listed, IsBlank, SitsAt, IsPassOf};
ghost use Rattle.pc_rule.specs.Recorded.{calls_of, recorded_by, HasRoomFor};
ghost use Rattle.pc_exchange_law.specs.Wholes.{all_slots_at};
ghost use Rattle.pc_rule.specs.Left.{told_by, slots_by};
ghost use Rattle.pc_rule.specs.Opened.{AreOpened, AreInOrder};
ghost use Rattle.pc_rule.specs.Shares.{slots_of};
ghost use Rattle.pc_rule.specs.Stored.{HoldsWords};

use crate::board::{Board, Pass};
use crate::held_slots::HeldSlots;
use crate::listed::list_room;
use crate::opening::{Place, words_start};
use crate::places::own_place;
use crate::recorded::{copied, room_for};
use crate::records::Records;
use crate::stored::{install_start, words_room};
use crate::visit::{Visit, visit_room};
use atomic_table::{Closed, Table};
use pc_exchange_law::{WholeJoinPass, WholeLaw, WholeMakePass, WholeView};
use pc_model::{Entry, Shape};
use pc_rule_law::{Opening, Share};
use std::alloc::{AllocError, Global};
use std::marker::PhantomData;

impl<H: Shape> Board<H> {
    /// A board that opens, with its first pass.
    fn first(
        alloc: Global,
        opening: &Opening,
        shares: &[Share],
    ) -> Result<(Board<H>, Pass<H>), AllocError>
        requires small { (opening.now.slots ≤ 61000) × (opening.now.seats ≤ 32) × (opening.now.starts.attempt < 2 ^ 28) × (opening.now.starts.version < 2 ^ 60) }
        requires may { MayOpen (IsSound H.form) (size_of opening.now) (opening_cells opening.now.starts.version) false [] }
        requires early { opening.now.starts.stamp ≤ last_stamp }
        requires shares { (length shares.now ≡ opening.now.seats) × (1 ≤ length shares.now) }
        requires kept { opening.now.shares.items ≡ shares.now }
        requires slots { slots_of shares.now ≤ opening.now.slots }
        ensures opened { IfOk result (λ r. (board_size r.0 ≡ size_of opening.now) × (r.0.shares.items ≡ shares.now) × IsPassOf r.0 r.1 × (whole r.1 ≡ first_whole (size_of opening.now))) }
        ensures room { IfOk result (λ r. IsBlank r.1 × (1 ≡ length shares.now → HasRoomFor shares.now r.1)) }
        ensures list { IfOk result (λ r. listed r.1 ≡ []) }
    {
        let entries = room_for(alloc, shares, 0)?;
        let stored = words_room(alloc)?;
        let listed = list_room(alloc, opening.slots)?;
        let visits = visit_room(alloc, opening.slots)?;
        let kept = copied(alloc, shares)?;
        let words = words_start(alloc, opening)?;
        let (table, seat) = Table::<bool, WholeView, Opening, WholeLaw<H>, Global>::of_words(
            alloc,
            words.as_slice(),
            opening,
        )?;
        let board = Board {
            table,
            seats: opening.seats,
            slots: opening.slots,
            starts: opening.starts,
            shares: kept,
        };
        let pass = Pass {
            seat,
            index: 0,
            begin: own_place(opening.slots, 0, 0),
            install: install_start(opening.starts.install),
            attempts: opening.starts.attempt,
            published: false,
            words: stored,
            share: shares[0],
            slots: HeldSlots::new(2, shares[0].slots),
            records: Records {
                entries,
                carried: None,
            },
            listed,
            begun: false,
            visits,
            shape: PhantomData,
        };
        Ok((board, pass))
    }

    /// The last pass makes another, with this share, and this room for its calls, for what stands in its descriptor, for the words that
    /// it lists and for its visits.
    fn another(
        &self,
        last: &mut Pass<H>,
        index: usize,
        share: Share,
        entries: Vec<Entry>,
        words: Vec<u64>,
        places: Vec<Place>,
        visits: Vec<Visit>,
    ) -> Pass<H>
        requires pass { IsPassOf self.now last.old × ((view last.old).last ≡ true) }
        requires index { ((view last.old).seat + 1 ≡ index) × (index < (board_size self.now).seats) }
        requires slots { (knows last.old).slots ≡ first_slots (board_size self.now) (view last.old).seat }
        requires share { get_elem? self.now.shares.items index ≡ some share }
        requires room { (entries.items ≡ []) × (share.calls ≤ vec_capacity entries) }
        requires words { HoldsWords [] words.items }
        requires list { (places.items ≡ []) × (25 + (board_size self.now).slots ≤ vec_capacity places) }
        requires visits { (visits.items ≡ []) × ((board_size self.now).slots + 1 ≤ vec_capacity visits) }
        ensures pass { IsPassOf self.now last.new × (whole last.new ≡ whole_maker (whole last.old)) }
        ensures kept { (last.new.records ≡ last.old.records) × (listed last.new ≡ listed last.old) }
        ensures made { IsPassOf self.now result × (whole result ≡ whole_made (whole last.old)) }
        ensures room { IsBlank result × (vec_capacity result.records.entries ≡ vec_capacity entries) }
        ensures list { listed result ≡ [] }
    {
        let seat = self
            .table
            .shared
            .split_seat::<WholeMakePass>(&mut last.seat);
        Pass {
            seat,
            index,
            begin: own_place(self.slots, index, 0),
            install: install_start(self.starts.install),
            attempts: self.starts.attempt,
            published: false,
            words,
            share,
            slots: HeldSlots::new(last.slots.until, share.slots),
            records: Records {
                entries,
                carried: None,
            },
            listed: places,
            begun: false,
            visits,
            shape: PhantomData,
        }
    }

    /// A board that opens, with all its passes: each has what was given in its notes, and the last one knows that it is.
    pub(crate) fn open(
        alloc: Global,
        opening: &Opening,
        shares: &[Share],
    ) -> Result<(Board<H>, Vec<Pass<H>>), AllocError>
        requires small { (opening.now.slots ≤ 61000) × (opening.now.seats ≤ 32) × (opening.now.starts.attempt < 2 ^ 28) × (opening.now.starts.version < 2 ^ 60) }
        requires may { MayOpen (IsSound H.form) (size_of opening.now) (opening_cells opening.now.starts.version) false [] }
        requires early { opening.now.starts.stamp ≤ last_stamp }
        requires shares { (length shares.now ≡ opening.now.seats) × (1 ≤ length shares.now) }
        requires kept { opening.now.shares.items ≡ shares.now }
        requires slots { slots_of shares.now ≤ opening.now.slots }
        ensures { IfOk result (λ r. (board_size r.0 ≡ size_of opening.now) × (r.0.shares.items ≡ shares.now) × AreOpened r.0 opening.now r.1.items) }
    {
        let mut passes = Vec::with_capacity(alloc, opening.seats)?;
        let (board, mut last) = Board::first(alloc, opening, shares)?;
        let mut made = 0;
        while made + 1 < opening.seats {
            let entries = room_for(alloc, shares, made + 1)?;
            let words = words_room(alloc)?;
            let listed = list_room(alloc, opening.slots)?;
            let visits = visit_room(alloc, opening.slots)?;
            let next = board.another(
                &mut last,
                made + 1,
                shares[made + 1],
                entries,
                words,
                listed,
                visits,
            );
            passes.push_reserved(last);
            last = next;
            made += 1;
        }
        passes.push_reserved(last);
        Ok((board, passes))
    }

    /// The last pass takes in another, of which no install stands, with the calls that it recorded.
    fn take_in(&self, last: &mut Pass<H>, other: Pass<H>)
        requires passes { SitsAt self.now last.old × SitsAt self.now other }
        requires rest { (view last.old).rest ≡ (view other).seat + 1 }
        requires free { IsFree (view other) }
        requires room { length (recorded last.old) + length (recorded other) ≤ vec_capacity last.old.records.entries }
        ensures pass { SitsAt self.now last.new × (view last.new ≡ joined_by (view last.old) (view other)) }
        ensures told { (knows last.new).told ≡ (knows other).told ++ (knows last.old).told }
        ensures slots { all_slots_at (whole last.new) ≡ all_slots_at (whole other) ++ all_slots_at (whole last.old) }
        ensures entries { recorded last.new ≡ recorded last.old ++ recorded other }
        ensures capacity { vec_capacity last.old.records.entries ≤ vec_capacity last.new.records.entries }
    {
        let Pass {
            seat,
            mut records,
            ..
        } = other;
        self.table
            .shared
            .join_seat::<WholeJoinPass>(&mut last.seat, seat);
        last.records.carried = None;
        let Ok(()) = last.records.entries.append(&mut records.entries) else {
            unreachable!()
        };
    }

    /// The last pass takes in all others, from the highest seat down, with the calls that they recorded.
    pub(crate) fn take_all(&self, last: &mut Pass<H>, mut others: Vec<Pass<H>>)
        requires last { IsPassOf self.now last.old × ((view last.old).seat ≡ length others.items) × ((view last.old).rest ≡ length others.items) }
        requires others { AreInOrder self.now others.items × (length others.items + 1 ≡ length self.now.shares.items) }
        requires room { HasRoomFor self.now.shares.items last.old }
        ensures pass { SitsAt self.now last.new × (view last.new ≡ record (view last.old) { rest = 0 }) }
        ensures entries { IsPermutation (recorded_by others.items ++ recorded last.old) (recorded last.new) }
        ensures told { (knows last.new).told ≡ told_by others.items ++ (knows last.old).told }
        ensures slots { all_slots_at (whole last.new) ≡ slots_by others.items ++ all_slots_at (whole last.old) }
    {
        while let Some(other) = others.pop() {
            self.take_in(last, other);
        }
    }

    /// Ends the board, when the last pass has taken in all others and no install of its own stands: the words that are left
    /// are those of a closed board.
    pub(crate) fn end(self, last: Pass<H>) -> (Closed<bool, Global>, Vec<Entry>, Vec<Share>)
        requires pass { SitsAt self last × ((view last).last ≡ true) × ((view last).rest ≡ 0) }
        requires free { IsFree (view last) }
        ensures closed { IsWholeClosed H.form (board_size self) (whole last) (slots_items result.0.words) }
        ensures laid { IsFull result.0.words × (slots_len result.0.words ≡ words_of (board_size self)) × (slots_len result.0.slots ≡ 0) }
        ensures entries { result.1.items ≡ recorded last }
        ensures shares { result.2 ≡ self.shares }
    {
        let Board { table, shares, .. } = self;
        let Pass { seat, records, .. } = last;
        (table.close_with(seat), records.entries, shares)
    }
}
