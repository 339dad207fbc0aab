//! The exchange of an operation.
ghost use Rattle.std.specs.Prelude.{◌≡◌, ◌+◌, ◌<◌, ◌≤◌, ◌++◌, List, [], true, None, length, IfOk, IfErr, OnOk, OnErr, IsErr};
ghost use Rattle.std.specs.List.Sorted.{IsPermutation};
ghost use Rattle.pc_model.specs.Exchanges.{Exchange};
ghost use Rattle.pc_rule_law.specs.Conditions.{CanWrite, IsFree};
ghost use Rattle.pc_protocol.specs.Notes.{Note};
ghost use Rattle.pc_exchange_law.specs.Paths.{dropped};
ghost use Rattle.pc_rule.specs.Passes.{whole, view, knows, visits, path, listed, recorded, carried, taken_down, board_size, IsPassOf, IsSeatedAs, SitsAs, KeepsPath};
ghost use Rattle.pc_kcas.specs.declared.mode.Mode.TheVariants.{Words, Path as OfPath};
ghost use Rattle.pc_kcas.specs.Bounds.{most_in_end};
ghost use Rattle.pc_kcas.specs.Exchanges.{RaisesVersions, FitsByMode, KnowsOldValues, KnowsAbove, IsPublished, exchange_by, visit_count, visits_by, last_attempt};
ghost use Rattle.pc_kcas.specs.Locks.{words_by, WhereLocked, CanLock};
ghost use Rattle.pc_kcas.specs.Verdicts.{KeepsAll, IsAtLast};
ghost use Rattle.pc_path.specs.Exchanges.{HasTakenPlace, HasExchanged, HasFailed, HasNoEffect, HasRival, IsPast, IsAtLastAttempt, IsOutOfNumbers, WasInTheWay};
ghost use Rattle.pc_path.specs.Losses.{IfChanged, IfLocked, IfBlocked, IfNumbers};
ghost use Rattle.pc_path.specs.Tries.{HasTried, IfTried};

use crate::concluding::conclude;
use crate::finishing::ended;
use crate::lost::Lost;
use pc_kcas::{Mode, publish};
use pc_model::{Numbers, Shape};
use pc_rule::{Board, Pass};

// Publishes the exchange of all changes that were added, in a mode. Where it is refused, the pass has no adds, no visits and no reads, and
// takes no call along.
fn begun<H: Shape>(board: &Board<H>, pass: &mut Pass<H>, mode: Mode) -> Result<(), Numbers>
    requires pass { IsPassOf board.now pass.old }
    requires unpublished { CanWrite (view pass.old) }
    requires free { IsFree (view pass.old) }
    requires some { 0 < length (listed pass.old) }
    requires raises { RaisesVersions (listed pass.old) }
    requires fits { FitsByMode H.form (view pass.old).size.slots mode (path pass.old) (listed pass.old) }
    requires old { KnowsOldValues (board_size board.now) (knows pass.old) (listed pass.old) }
    requires locks { WhereLocked mode (CanLock (visits pass.old) (listed pass.old)) }
    ensures seated { SitsAs pass.old pass.new × IsPassOf board.now pass.new }
    ensures free { IsFree (view pass.new) }
    ensures kept { KeepsAll (whole pass.old) (whole pass.new) }
    ensures recorded { recorded pass.new ≡ recorded pass.old }
    ensures attempts { (view pass.new).attempt.number ≤ (view pass.old).attempt.number + 1 }
    ensures no_install { (view pass.new).install.number ≡ (view pass.old).install.number }

    // What is published.
    ensures published { OnOk result (IsPublished pass.new) }
    ensures noted { OnOk result (KnowsAbove (knows pass.old).told (whole pass.new) (exchange_by mode (path pass.old) (listed pass.new))) }
    ensures each { OnOk result (IsPermutation (words_by mode (path pass.old) (listed pass.old)) (listed pass.new)) }
    ensures counted { OnOk result (visit_count (view pass.new) ≡ length (visits_by mode (path pass.old))) }
    ensures same { OnOk result (IsSeatedAs pass.old pass.new × KeepsPath pass.old pass.new) }
    ensures once { OnOk result ((view pass.new).attempt.number ≡ (view pass.old).attempt.number + 1) }

    // Why it isn't.
    ensures refused { IfErr result (IsAtLastAttempt (view pass.old)) }
    ensures last { last_attempt ≤ (view pass.old).attempt.number → IsErr result }
    ensures nothing { OnErr result (view pass.new ≡ view pass.old) }
    ensures adds { OnErr result (listed pass.new ≡ []) }
    ensures visits { OnErr result (visits pass.new ≡ []) }
    ensures path { OnErr result (path pass.new ≡ dropped (path pass.old)) }
    ensures carried { OnErr result (carried pass.new ≡ None) }
{
    match publish(board, pass, mode) {
        Ok(()) => Ok(()),
        Err(numbers) => {
            conclude(pass, Err(Lost::Numbers(numbers)));
            Err(numbers)
        }
    }
}

/// Makes one exchange of all changes that were added, in a mode.
pub(crate) fn exchanged<H: Shape>(
    board: &Board<H>,
    pass: &mut Pass<H>,
    mode: Mode,
) -> Result<u64, Lost>
    requires pass { IsPassOf board.now pass.old }
    requires unpublished { CanWrite (view pass.old) }
    requires free { IsFree (view pass.old) }
    requires some { 0 < length (listed pass.old) }
    requires raises { RaisesVersions (listed pass.old) }
    requires fits { FitsByMode H.form (view pass.old).size.slots mode (path pass.old) (listed pass.old) }
    requires old { KnowsOldValues (board_size board.now) (knows pass.old) (listed pass.old) }
    requires locks { WhereLocked mode (CanLock (visits pass.old) (listed pass.old)) }
    ensures seated { SitsAs pass.old pass.new × IsPassOf board.now pass.new }
    ensures unpublished { CanWrite (view pass.new) }
    ensures free { IsFree (view pass.new) }
    ensures kept { KeepsAll (whole pass.old) (whole pass.new) }
    ensures adds { listed pass.new ≡ [] }
    ensures visits { visits pass.new ≡ [] }
    ensures path { path pass.new ≡ dropped (path pass.old) }
    ensures recorded { IfOk result (λ s. recorded pass.new ≡ recorded pass.old ++ taken_down pass.old s) }
    ensures not_recorded { OnErr result (recorded pass.new ≡ recorded pass.old) }
    ensures carried { carried pass.new ≡ None }
    ensures done { IfOk result (HasExchanged (knows pass.old).told (whole pass.new) mode (path pass.old) (listed pass.old)) }
    ensures lost { OnErr result (HasNoEffect (view pass.old) (whole pass.new)) }
    ensures tried { IfErr result (λ e. IfTried e (HasTried mode (path pass.old) (listed pass.old) (view pass.old) (whole pass.new))) }
    ensures changed { IfErr result (λ e. IfChanged e (IsPast (visits pass.old) (words_by mode (path pass.old) (listed pass.old)) (whole pass.new))) }
    ensures locked { IfErr result (λ e. IfLocked e (HasRival (whole pass.new))) }
    ensures walked { IfErr result (λ e. IfLocked e (λ n by. 0 < length (visits_by mode (path pass.old)))) }
    ensures blocked { IfErr result (λ e. IfBlocked e (WasInTheWay (board_size board.now).seats (view pass.old) (whole pass.new))) }
    ensures numbers { IfErr result (λ e. IfNumbers e (IsOutOfNumbers (view pass.old) (whole pass.new))) }
    ensures attempts { (view pass.new).attempt.number ≤ (view pass.old).attempt.number + 1 }
    ensures bounded { (view pass.new).install.number ≤ (view pass.old).install.number + most_in_end (board_size board.now) (length (words_by mode (path pass.old) (listed pass.old))) }
{
    match begun(board, pass, mode) {
        Ok(()) => ended(board, pass),
        Err(numbers) => Err(Lost::Numbers(numbers)),
    }
}

/// Makes one exchange of all changes that were added, all or none. The answer is a stamp: at that moment each changed word had its
/// old number, and gets its new one. It looks at no visits. It waits for nobody and takes no memory.
///
/// Where a version has changed, or references are in the way, the exchange is lost and changes nothing. Either way the pass has no
/// adds, no visits and no reads afterwards, and its operation goes on. The call that it takes along is recorded where the exchange took
/// effect, and else dropped.
/// Source: Harris, Fraser and Pratt (2002), with the version words of PathCAS (Brown, Sigouin and Alistarh 2022).
pub fn exec<H: Shape>(board: &Board<H>, pass: &mut Pass<H>) -> Result<u64, Lost>
    requires pass { IsPassOf board.now pass.old }
    requires open { (path pass.old).begun ≡ true }
    requires unpublished { CanWrite (view pass.old) }
    requires free { IsFree (view pass.old) }
    requires some { 0 < length (listed pass.old) }
    requires raises { RaisesVersions (listed pass.old) }
    requires fits { FitsByMode H.form (view pass.old).size.slots Words (path pass.old) (listed pass.old) }
    requires old { KnowsOldValues (board_size board.now) (knows pass.old) (listed pass.old) }
    ensures seated { SitsAs pass.old pass.new × IsPassOf board.now pass.new }
    ensures unpublished { CanWrite (view pass.new) }
    ensures free { IsFree (view pass.new) }
    ensures kept { KeepsAll (whole pass.old) (whole pass.new) }
    ensures adds { listed pass.new ≡ [] }
    ensures visits { visits pass.new ≡ [] }
    ensures path { path pass.new ≡ dropped (path pass.old) }

    // What is recorded of the call that was taken along.
    ensures recorded { IfOk result (λ s. recorded pass.new ≡ recorded pass.old ++ taken_down pass.old s) }
    ensures not_recorded { OnErr result (recorded pass.new ≡ recorded pass.old) }
    ensures carried { carried pass.new ≡ None }

    // The exchange, and its stamp.
    ensures done { IfOk result (HasExchanged (knows pass.old).told (whole pass.new) Words (path pass.old) (listed pass.old)) }

    // Why it was lost.
    ensures lost { OnErr result (HasNoEffect (view pass.old) (whole pass.new)) }
    ensures tried { IfErr result (λ e. IfTried e (HasTried Words (path pass.old) (listed pass.old) (view pass.old) (whole pass.new))) }
    ensures changed { IfErr result (λ e. IfChanged e (IsPast (visits pass.old) (listed pass.old) (whole pass.new))) }
    ensures never_locked { IfErr result (λ e. IfLocked e (λ n by. ⊥)) }
    ensures blocked { IfErr result (λ e. IfBlocked e (WasInTheWay (board_size board.now).seats (view pass.old) (whole pass.new))) }
    ensures numbers { IfErr result (λ e. IfNumbers e (IsOutOfNumbers (view pass.old) (whole pass.new))) }

    // The most attempts and installs that it makes.
    ensures attempts { (view pass.new).attempt.number ≤ (view pass.old).attempt.number + 1 }
    ensures bounded { (view pass.new).install.number ≤ (view pass.old).install.number + most_in_end (board_size board.now) (length (listed pass.old)) }
{
    exchanged(board, pass, Mode::Words)
}

/// Makes one exchange of all changes that were added, all or none, where the path still stands. The answer is a stamp: at that moment
/// every visited node had the version of its visit, every word that was read after a visit of its node the number that was read, and
/// each changed word its old number; and the changed words get their new ones. It waits for nobody and takes no memory.
///
/// Where a visited node has changed, another pass holds its version, or references are in the way, the exchange is lost and changes
/// nothing. Either way the pass has no adds, no visits and no reads afterwards, and its operation goes on. The call that it takes along is
/// recorded where the exchange took effect, and else dropped.
/// Source: PathCAS (Brown, Sigouin and Alistarh 2022), with a stamp from one clock.
pub fn vexec<H: Shape>(board: &Board<H>, pass: &mut Pass<H>) -> Result<u64, Lost>
    requires pass { IsPassOf board.now pass.old }
    requires open { (path pass.old).begun ≡ true }
    requires unpublished { CanWrite (view pass.old) }
    requires free { IsFree (view pass.old) }
    requires some { 0 < length (listed pass.old) }
    requires raises { RaisesVersions (listed pass.old) }
    requires fits { FitsByMode H.form (view pass.old).size.slots OfPath (path pass.old) (listed pass.old) }
    requires old { KnowsOldValues (board_size board.now) (knows pass.old) (listed pass.old) }
    ensures seated { SitsAs pass.old pass.new × IsPassOf board.now pass.new }
    ensures unpublished { CanWrite (view pass.new) }
    ensures free { IsFree (view pass.new) }
    ensures kept { KeepsAll (whole pass.old) (whole pass.new) }
    ensures adds { listed pass.new ≡ [] }
    ensures visits { visits pass.new ≡ [] }
    ensures path { path pass.new ≡ dropped (path pass.old) }

    // What is recorded of the call that was taken along.
    ensures recorded { IfOk result (λ s. recorded pass.new ≡ recorded pass.old ++ taken_down pass.old s) }
    ensures not_recorded { OnErr result (recorded pass.new ≡ recorded pass.old) }
    ensures carried { carried pass.new ≡ None }

    // The exchange, and its stamp.
    ensures done { IfOk result (HasExchanged (knows pass.old).told (whole pass.new) OfPath (path pass.old) (listed pass.old)) }

    // Why it was lost.
    ensures lost { OnErr result (HasNoEffect (view pass.old) (whole pass.new)) }
    ensures tried { IfErr result (λ e. IfTried e (HasTried OfPath (path pass.old) (listed pass.old) (view pass.old) (whole pass.new))) }
    ensures changed { IfErr result (λ e. IfChanged e (IsPast (visits pass.old) (listed pass.old) (whole pass.new))) }
    ensures locked { IfErr result (λ e. IfLocked e (HasRival (whole pass.new))) }
    ensures blocked { IfErr result (λ e. IfBlocked e (WasInTheWay (board_size board.now).seats (view pass.old) (whole pass.new))) }
    ensures numbers { IfErr result (λ e. IfNumbers e (IsOutOfNumbers (view pass.old) (whole pass.new))) }

    // The most attempts and installs that it makes.
    ensures attempts { (view pass.new).attempt.number ≤ (view pass.old).attempt.number + 1 }
    ensures bounded { (view pass.new).install.number ≤ (view pass.old).install.number + most_in_end (board_size board.now) (length (listed pass.old)) }
{
    exchanged(board, pass, Mode::Path)
}

/// The first part of `vexec`: the exchange is published, and not ended yet. It is refused exactly where the attempt number stands at its
/// last value: then the pass has no adds, no visits and no reads, and takes no call along, and its operation goes on.
pub fn begin_vexec<H: Shape>(board: &Board<H>, pass: &mut Pass<H>) -> Result<(), Numbers>
    requires pass { IsPassOf board.now pass.old }
    requires open { (path pass.old).begun ≡ true }
    requires unpublished { CanWrite (view pass.old) }
    requires free { IsFree (view pass.old) }
    requires some { 0 < length (listed pass.old) }
    requires raises { RaisesVersions (listed pass.old) }
    requires fits { FitsByMode H.form (view pass.old).size.slots OfPath (path pass.old) (listed pass.old) }
    requires old { KnowsOldValues (board_size board.now) (knows pass.old) (listed pass.old) }
    ensures seated { SitsAs pass.old pass.new × IsPassOf board.now pass.new }
    ensures free { IsFree (view pass.new) }
    ensures kept { KeepsAll (whole pass.old) (whole pass.new) }
    ensures recorded { recorded pass.new ≡ recorded pass.old }
    ensures attempts { (view pass.new).attempt.number ≤ (view pass.old).attempt.number + 1 }
    ensures no_install { (view pass.new).install.number ≡ (view pass.old).install.number }

    // What is published.
    ensures published { OnOk result (IsPublished pass.new) }
    ensures noted { OnOk result (KnowsAbove (knows pass.old).told (whole pass.new) (exchange_by OfPath (path pass.old) (listed pass.new))) }
    ensures each { OnOk result (IsPermutation (listed pass.old) (listed pass.new)) }
    ensures same { OnOk result (IsSeatedAs pass.old pass.new × KeepsPath pass.old pass.new) }
    ensures once { OnOk result ((view pass.new).attempt.number ≡ (view pass.old).attempt.number + 1) }

    // Why it isn't.
    ensures refused { IfErr result (IsAtLastAttempt (view pass.old)) }
    ensures last { last_attempt ≤ (view pass.old).attempt.number → IsErr result }
    ensures nothing { OnErr result (view pass.new ≡ view pass.old) }
    ensures adds { OnErr result (listed pass.new ≡ []) }
    ensures visits { OnErr result (visits pass.new ≡ []) }
    ensures path { OnErr result (path pass.new ≡ dropped (path pass.old)) }
    ensures carried { OnErr result (carried pass.new ≡ None) }
{
    begun(board, pass, Mode::Path)
}

/// The second part of `vexec`: the exchange that was published is ended, as `vexec` says.
pub fn finish_vexec<H: Shape>(board: &Board<H>, pass: &mut Pass<H>) -> Result<u64, Lost>
    requires pass { IsPassOf board.now pass.old }
    requires published { IsPublished pass.old }
    requires free { IsFree (view pass.old) }
    ensures seated { SitsAs pass.old pass.new × IsPassOf board.now pass.new }
    ensures unpublished { CanWrite (view pass.new) }
    ensures free { IsFree (view pass.new) }
    ensures kept { KeepsAll (whole pass.old) (whole pass.new) }
    ensures adds { listed pass.new ≡ [] }
    ensures visits { visits pass.new ≡ [] }
    ensures path { path pass.new ≡ dropped (path pass.old) }

    // What is recorded of the call that was taken along.
    ensures recorded { IfOk result (λ s. recorded pass.new ≡ recorded pass.old ++ taken_down pass.old s) }
    ensures not_recorded { OnErr result (recorded pass.new ≡ recorded pass.old) }
    ensures carried { carried pass.new ≡ None }

    // The exchange, and its stamp.
    ensures done { (seen : List Note) (e : Exchange) → KnowsAbove seen (whole pass.old) e → IfOk result (HasTakenPlace seen (whole pass.new) e) }

    // Why it was lost.
    ensures lost { OnErr result (HasFailed (whole pass.new)) }
    ensures once { (view pass.new).attempt.number ≡ (view pass.old).attempt.number }
    ensures changed { IfErr result (λ e. IfChanged e (IsPast (visits pass.old) (listed pass.old) (whole pass.new))) }
    ensures locked { IfErr result (λ e. IfLocked e (HasRival (whole pass.new))) }
    ensures blocked { IfErr result (λ e. IfBlocked e (WasInTheWay (board_size board.now).seats (view pass.old) (whole pass.new))) }
    ensures numbers { IfErr result (λ e. IfNumbers e (IsAtLast (whole pass.new))) }

    // The most attempts and installs that it makes.
    ensures number { (view pass.new).attempt.number ≡ (view pass.old).attempt.number }
    ensures bounded { (view pass.new).install.number ≤ (view pass.old).install.number + most_in_end (board_size board.now) (length (listed pass.old)) }
{
    ended(board, pass)
}
