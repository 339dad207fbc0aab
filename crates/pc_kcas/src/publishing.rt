//! The publication of an exchange.
ghost use Rattle.std.specs.Prelude.{◌≡◌, ◌+◌, ◌<◌, ◌≤◌, List, [], length, IfErr, OnOk, OnErr, IsErr};
ghost use Rattle.std.specs.List.Sorted.{IsPermutation, IsNonDecreasingBy};
ghost use Rattle.pc_model.specs.declared.cell.Counter.TheVariants.{Attempt};
ghost use Rattle.pc_model.specs.Exchanges.{Visited};
ghost use Rattle.pc_rule_law.specs.Conditions.{CanWrite};
ghost use Rattle.pc_rule.specs.Listed.{word_number};
ghost use Rattle.pc_rule.specs.Passes.{whole, view, knows, listed, visits, path, board_size, IsPassOf, IsSeatedAs, KeepsPath};
ghost use Rattle.pc_kcas.specs.Exchanges.{RaisesVersions, FitsByMode, KnowsOldValues, OnlyPrepared, IsDescribed, OnlyPublished, IsPublished, KnowsListed, KnowsExchange, KnowsAbove, VisitsHeld, exchange_by, visit_count, visits_by, mode_word as mode_word_of, last_attempt};
ghost use Rattle.pc_kcas.specs.Locks.{words_by, WhereLocked, CanLock};
ghost use Rattle.pc_kcas.specs.Verdicts.{KeepsAll};

use crate::locking::list_by;
use crate::mode::Mode;
use crate::writing::{write_listed, write_visits};
use pc_model::{Counter, Numbers, Shape};
use pc_rule::{Board, Pass, step_9, step_11};
use pc_words::{Stage, Status, pack};

// The last number of an attempt.
const LAST_ATTEMPT: u64 = 268_435_455;

// How many of the pass's visits stand in the descriptor of an exchange of this mode.
fn visits_of<H: Shape>(board: &Board<H>, pass: &Pass<H>, mode: Mode) -> u32
    requires pass { IsPassOf board.now pass.now }
    ensures count { result ≡ length (visits_by mode (path pass.now)) }
    ensures held { result ≤ length (visits pass.now) }
{
    let _ = board;
    match mode {
        Mode::Words => 0,
        Mode::Path => pass.visits().len() as u32,
        Mode::LockedPath => 0,
    }
}

// The mode word of an exchange, along a path with so many visits.
fn mode_word(mode: Mode, visited: usize) -> u64
    ensures { (visits : List Visited) → length visits ≡ visited → result ≡ mode_word_of mode visits }
{
    if visited == 0 {
        return 0;
    }
    match mode {
        Mode::Words => 0,
        Mode::Path => 1,
        Mode::LockedPath => 2,
    }
}

// Loads the clock, which is the answer, and stores the descriptor of the exchange of the words that are listed, with the locks of its
// path where the mode asks for them.
fn prepare<H: Shape>(board: &Board<H>, pass: &mut Pass<H>, mode: Mode) -> u64
    requires pass { IsPassOf board.now pass.old }
    requires open { CanWrite (view pass.old) }
    requires locks { WhereLocked mode (CanLock (visits pass.old) (listed pass.old)) }
    ensures seated { IsSeatedAs pass.old pass.new }
    ensures path { KeepsPath pass.old pass.new }
    ensures only { OnlyPrepared (whole pass.old) (whole pass.new) result }
    ensures each { IsPermutation (words_by mode (path pass.old) (listed pass.old)) (listed pass.new) }
    ensures rising { IsNonDecreasingBy word_number (listed pass.new) }
    ensures described { IsDescribed mode pass.new }
    ensures visits { VisitsHeld (view pass.new) (visits pass.new) }
{
    let clock = step_9(board, pass);
    list_by(pass, mode);
    pass.sort_listed();
    let visits = visits_of(board, pass, mode);
    let word = mode_word(mode, pass.visits().len());
    write_listed(board, pass, word, visits);
    write_visits(board, pass, visits);
    clock
}

/// Publishes the words that are listed as the pass's next attempt, in the order of their numbers. Afterwards it is undecided,
/// and each of these words may be installed. It is refused exactly where the attempt number stands at its last value: then
/// nothing was written, and the list is dropped. It takes no memory.
///
/// Of each word the old value is known to have stood there while its node had the listed version: the pass read it, or the board
/// opened so, or an exchange that took effect wrote both. The clock before the publication is above each stamp that the pass has seen.
/// - `mode`: by `Path` and `LockedPath` the exchange takes effect only where each node that the pass visited has the version of its
///   visit then. By `Path` these are checked before it takes effect; by `LockedPath` the version of each visited node is one more of its
///   words, with the same new value where none was listed, so no other exchange may hold it meanwhile.
/// Source: Harris, Fraser and Pratt (2002), with numbered descriptors as those of Arbel-Raviv and Brown (2017).
pub fn publish<H: Shape>(board: &Board<H>, pass: &mut Pass<H>, mode: Mode) -> Result<(), Numbers>
    requires pass { IsPassOf board.now pass.old }
    requires open { CanWrite (view pass.old) }
    requires some { 0 < length (listed pass.old) }
    requires raises { RaisesVersions (listed pass.old) }
    requires fits { FitsByMode H.form (view pass.old).size.slots mode (path pass.old) (listed pass.old) }
    requires old { KnowsOldValues (board_size board.now) (knows pass.old) (listed pass.old) }
    requires locks { WhereLocked mode (CanLock (visits pass.old) (listed pass.old)) }
    ensures seated { IsSeatedAs pass.old pass.new }
    ensures path { KeepsPath pass.old pass.new }
    ensures kept { KeepsAll (whole pass.old) (whole pass.new) }
    ensures only { OnOk result (OnlyPublished (view pass.old) (view pass.new)) }
    ensures published { OnOk result (IsPublished pass.new) }
    ensures each { OnOk result (IsPermutation (words_by mode (path pass.old) (listed pass.old)) (listed pass.new)) }
    ensures rising { OnOk result (IsNonDecreasingBy word_number (listed pass.new)) }
    ensures known { OnOk result (KnowsListed pass.new) }
    ensures noted { OnOk result (KnowsExchange (whole pass.new) (exchange_by mode (path pass.old) (listed pass.new))) }
    ensures visits { OnOk result (visit_count (view pass.new) ≡ length (visits_by mode (path pass.old))) }
    ensures above { OnOk result (KnowsAbove (knows pass.old).told (whole pass.new) (exchange_by mode (path pass.old) (listed pass.new))) }
    ensures refused { IfErr result (λ n. (n.counter ≡ Attempt) × (n.at ≡ (view pass.old).attempt.number) × (last_attempt ≤ n.at)) }
    ensures dropped { OnErr result ((view pass.new ≡ view pass.old) × (listed pass.new ≡ [])) }
    ensures last { last_attempt ≤ (view pass.old).attempt.number → IsErr result }
{
    let last = pass.attempts();
    if last >= LAST_ATTEMPT {
        pass.drop_listed();
        return Err(Numbers {
            counter: Counter::Attempt,
            at: last,
        });
    }
    prepare(board, pass, mode);
    let status = pack(Status {
        number: last + 1,
        stage: Stage::Undecided,
    });
    step_11(board, pass, status);
    Ok(())
}
