//! An exchange that is decided is cleared: each of its words gets a number in place of the reference, the new one where the exchange
//! took effect and else the old one. No word can get the reference again: an install that may put it there is completed. Any pass
//! may clear words; the exchange's own pass then makes its status idle.
ghost use Rattle.std.specs.Prelude.{◌≡◌, ◌≢◌, ◌<◌, ◌≤◌, ℕ, true, false, None, length, if◌then◌else◌};
ghost use Rattle.pc_model.specs.Exchanges.{Exchange};
ghost use Rattle.pc_words.specs.Words.{kind, IsWord};
ghost use Rattle.pc_words.specs.declared.word.WordKind.TheVariants.{Install};
ghost use Rattle.pc_rule_law.specs.Past.{Has};
ghost use Rattle.pc_rule_law.specs.Views.{clean, removed, IsAttempt};
ghost use Rattle.pc_protocol.specs.Histories.{Stage as StageOf, aborted, ended};
ghost use Rattle.pc_protocol.specs.Notes.{clock_was, outdated, published, verdict};
ghost use Rattle.pc_protocol.specs.Seeing.{Covers};
ghost use Rattle.pc_exchange_law.specs.Knowing.{after_clearing};
ghost use Rattle.pc_exchange_law.specs.Ties.{code, last_stamp};
ghost use Rattle.pc_exchange_law.specs.WholePlays.{after_clear};
ghost use Rattle.pc_rule.specs.Listed.{FitsWord};
ghost use Rattle.pc_rule.specs.Deciding.{MayClearOwn, KnowsOutcome as KnowsOwnOutcome};
ghost use Rattle.pc_rule.specs.Passes.{whole, view, knows, listed, fresh, board_size, IsPassOf, IsSamePass, IsSameButSlots};
ghost use Rattle.pc_dcss.specs.Installs.{HasMet};
ghost use Rattle.pc_kcas.specs.Exchanges.{IsUncleared};
ghost use Rattle.pc_kcas.specs.Clearing.{KnowsOutcomeOf, KnowsOutcome, KnowsEntryOf, IsCleanAt, HasCleared};
ghost use Rattle.pc_kcas.specs.Settling.{HasLearnt};

use crate::own::own_ref;
use pc_dcss::complete;
use pc_model::Shape;
use pc_rule::{Board, Pass, Place, Ref, RefKind, step_9, step_15, step_16};
use pc_words::{Stage, Status, WordKind, exchange_ref, kind_of, pack, plain};

// Completes the install that was found in a word, where one was. Says whether one was.
fn complete_found<H: Shape>(board: &Board<H>, pass: &mut Pass<H>, found: u64) -> bool
    requires pass { IsPassOf board.now pass.old }
    requires word { IsWord found }
    requires met { (q : ℕ) (k : ℕ) → kind found ≡ Install q k → HasMet (view pass.old) q k }
    ensures pass { IsSamePass pass.old pass.new }
    ensures learnt { HasLearnt (whole pass.old) (whole pass.new) }
    ensures removed { result ≡ true → (q : ℕ) × (k : ℕ) × (kind found ≡ Install q k) × Has (view pass.new).notes (removed q k) }
    ensures none { result ≡ false → (q : ℕ) (k : ℕ) → kind found ≢ Install q k }
{
    match kind_of(found) {
        WordKind::Plain(_) => false,
        WordKind::Exchange { .. } => false,
        WordKind::Install { seat, number } => {
            let install = Ref {
                kind: RefKind::Install,
                seat,
                number,
            };
            complete(board, pass, install);
            true
        }
    }
}

// What a word is worth by how its exchange was decided.
fn worth(place: Place, won: bool) -> u64
    ensures { result ≡ (if won then place.new else place.old) }
{
    if won {
        return place.new;
    }
    place.old
}

/// Clears a word of an exchange that is decided, whosever it is: the word gets a number in place of the reference. Where an install
/// stands there that may put the reference again, that is completed, and the word is cleared once more.
/// - `won`: whether the exchange took effect.
pub(crate) fn clear_word<H: Shape>(
    board: &Board<H>,
    pass: &mut Pass<H>,
    op: Ref,
    place: Place,
    won: bool,
)
    requires pass { IsPassOf board.now pass.old }
    requires attempt { IsAttempt (board_size board.now) op.seat op.number }
    requires fits { FitsWord (board_size board.now).slots place }
    requires entry { KnowsEntryOf (whole pass.old) op place }
    requires decided { KnowsOutcomeOf (whole pass.old) op.seat op.number won }
    ensures pass { IsSamePass pass.old pass.new }
    ensures learnt { HasLearnt (whole pass.old) (whole pass.new) }
    ensures clean { Has (view pass.new).notes (clean op.seat op.number place.node place.field) }
{
    let reference = exchange_ref(op.seat, op.number);
    let number = plain(worth(place, won));
    let found = step_15(board, pass, place.node, place.field, reference, number);
    if !complete_found(board, pass, found) {
        return;
    }
    step_15(board, pass, place.node, place.field, reference, number);
}

// Clears the word at this index.
fn clear_at<H: Shape>(board: &Board<H>, pass: &mut Pass<H>, i: u32, won: bool)
    requires pass { IsPassOf board.now pass.old }
    requires published { IsUncleared pass.old }
    requires index { i < length (listed pass.old) }
    requires decided { KnowsOutcome (whole pass.old) won }
    ensures pass { IsSamePass pass.old pass.new }
    ensures learnt { HasLearnt (whole pass.old) (whole pass.new) }
    ensures clean { IsCleanAt pass.new i }
{
    let place = pass.listed()[i as usize];
    let op = own_ref(board, pass);
    clear_word(board, pass, op, place, won);
}

/// Clears each word of the pass's published exchange.
/// - `won`: whether it took effect.
pub(crate) fn clear_listed<H: Shape>(board: &Board<H>, pass: &mut Pass<H>, won: bool)
    requires pass { IsPassOf board.now pass.old }
    requires published { IsUncleared pass.old }
    requires decided { KnowsOutcome (whole pass.old) won }
    ensures pass { IsSamePass pass.old pass.new }
    ensures learnt { HasLearnt (whole pass.old) (whole pass.new) }
    ensures clean { (i : ℕ) → i < length (listed pass.new) → IsCleanAt pass.new i }
{
    let count = board.count_listed(pass);
    let mut i = 0;
    while i < count {
        clear_at(board, pass, i, won);
        i += 1;
    }
}

// Makes the status of the pass's exchange idle, which it knows to be decided so.
fn make_idle<H: Shape>(board: &Board<H>, pass: &mut Pass<H>, idle: u64, won: bool)
    requires pass { IsPassOf board.now pass.old }
    requires may { MayClearOwn (whole pass.old) idle }
    requires outcome { KnowsOwnOutcome (whole pass.old) won }
    ensures pass { IsSameButSlots pass.old pass.new }
    ensures makes { fresh pass.new ≡ None }
    ensures told { (st : StageOf) → Has (knows pass.old).told (verdict (code (view pass.old).seat (knows pass.old).own.number) st) → whole pass.new ≡ record (whole pass.old) { view = after_clear (view pass.old); knows = after_clearing (knows pass.old) st } }
{
    pass.tell_won(won);
    step_16(board, pass, idle);
}

/// Clears the pass's published exchange, whose outcome it knows. Afterwards the pass may publish another. The answer is the clock
/// once all words were clean.
/// - `won`: whether it took effect.
pub(crate) fn clear<H: Shape>(board: &Board<H>, pass: &mut Pass<H>, won: bool) -> u64
    requires pass { IsPassOf board.now pass.old }
    requires published { IsUncleared pass.old }
    requires decided { KnowsOutcome (whole pass.old) won }
    ensures pass { IsSameButSlots pass.old pass.new }
    ensures makes { fresh pass.new ≡ None }
    ensures cleared { HasCleared (whole pass.old) (whole pass.new) }
    ensures clean { (i : ℕ) → i < length (listed pass.new) → IsCleanAt pass.new i }
    ensures clock { Has (knows pass.new).told (clock_was result) }
    ensures covers { (x n c : ℕ) (e : Exchange) → Has (knows pass.old).told (outdated x n) → Has (knows pass.old).told (published x e c) → (v : ℕ) × Covers e n v }
    ensures last { (x : ℕ) → Has (knows pass.old).told (verdict x (aborted ended)) → last_stamp ≤ result }
{
    clear_listed(board, pass, won);
    let clock = step_9(board, pass);
    let idle = pack(Status {
        number: pass.attempts(),
        stage: Stage::Idle,
    });
    make_idle(board, pass, idle, won);
    clock
}
