//! The exchange of an operation that locks its path.
ghost use Rattle.std.specs.Prelude.{◌≡◌, ◌+◌, ◌<◌, ◌≤◌, ◌++◌, [], true, None, length, IfOk, IfErr, IfSome, IfNone, OnErr, ◌⊎◌, All};
ghost use Rattle.pc_model.specs.Cells.{IsEven};
ghost use Rattle.pc_rule_law.specs.Conditions.{CanWrite, IsFree};
ghost use Rattle.pc_exchange_law.specs.Paths.{dropped};
ghost use Rattle.pc_rule.specs.Passes.{whole, view, knows, visits, path, listed, recorded, carried, taken_down, board_size, IsPassOf, SitsAs};
ghost use Rattle.pc_rule.specs.Walking.{VersionsRise};
ghost use Rattle.pc_kcas.specs.declared.mode.Mode.TheVariants.{LockedPath, Path as OfPath};
ghost use Rattle.pc_kcas.specs.Bounds.{most_in_end};
ghost use Rattle.pc_kcas.specs.Exchanges.{RaisesVersions, FitsByMode, KnowsOldValues};
ghost use Rattle.pc_kcas.specs.Locks.{words_by};
ghost use Rattle.pc_kcas.specs.Verdicts.{KeepsAll};
ghost use Rattle.pc_path.specs.Adds.{AreFromVisits, AreAtOneVersion};
ghost use Rattle.pc_path.specs.Exchanges.{HasExchanged, HasNoEffect, HasMoved, IsOutOfNumbers, WasInTheWay, lost_at};
ghost use Rattle.pc_path.specs.Losses.{IfChanged, IfLocked, IfBlocked, IfNumbers, WasSeenToMove};
ghost use Rattle.pc_path.specs.Tries.{HasTried};

use crate::checking::first_seen;
use crate::concluding::conclude;
use crate::exchanging::exchanged;
use crate::lost::Lost;
use pc_kcas::Mode;
use pc_model::Shape;
use pc_rule::{Board, Pass, Visit};

// A node that was visited at two versions, with that of its first visit, where one was.
fn find_moved(visits: &[Visit]) -> Option<Visit>
    requires rising { VersionsRise visits.now }
    ensures moved { IfSome result (λ u. WasSeenToMove visits.now u.node u.version) }
    ensures none { IfNone result (AreAtOneVersion visits.now) }
{
    let mut at = 0;
    while at < visits.len() {
        let version = first_seen(visits, at);
        if visits[at].version != version {
            return Some(Visit {
                node: visits[at].node,
                version,
            });
        }
        at += 1;
    }
    None
}

// Drops all that was added, visited and read, and the call that the pass takes along, since a visited node has changed.
fn give_up<H: Shape>(board: &Board<H>, pass: &mut Pass<H>, moved: Visit) -> Lost
    requires pass { IsPassOf board.now pass.old }
    requires unpublished { CanWrite (view pass.old) }
    ensures seated { SitsAs pass.old pass.new × IsPassOf board.now pass.new }
    ensures same { whole pass.new ≡ whole pass.old }
    ensures adds { listed pass.new ≡ [] }
    ensures visits { visits pass.new ≡ [] }
    ensures path { path pass.new ≡ dropped (path pass.old) }
    ensures recorded { recorded pass.new ≡ recorded pass.old }
    ensures carried { carried pass.new ≡ None }
    ensures lost { result ≡ lost_at moved }
{
    let _ = board;
    let lost = Lost::Changed {
        node: moved.node,
        seen: moved.version,
    };
    pass.drop_listed();
    conclude(pass, Err(lost));
    lost
}

/// Makes one exchange of all changes that were added, all or none, where the path still stands, as `vexec` does. It locks the path: the
/// version of each visited node is one of its words, also where nothing of the node changes, and then it stays. So no other exchange
/// holds a visited node when this one takes effect. At most 24 changes were added, each version from what a visit of its node gave. The
/// exchange has to fit the shape as that of `vexec` has: then it fits with its locks too.
///
/// It is lost as `vexec` is, but never since another pass holds the version of a visited node; and also where two visits of one node gave
/// different versions: then nothing is published.
/// Source: PathCAS (Brown, Sigouin and Alistarh 2022), with a stamp from one clock.
pub fn vexec_locked<H: Shape>(board: &Board<H>, pass: &mut Pass<H>) -> Result<u64, Lost>
    requires pass { IsPassOf board.now pass.old }
    requires open { (path pass.old).begun ≡ true }
    requires unpublished { CanWrite (view pass.old) }
    requires free { IsFree (view pass.old) }
    requires some { 0 < length (listed pass.old) }
    requires few { length (listed pass.old) ≤ 24 }
    requires raises { RaisesVersions (listed pass.old) }
    requires visited { AreFromVisits (visits pass.old) (listed pass.old) }
    requires even { All (λ v. IsEven v.version) (visits pass.old) }
    requires fits { FitsByMode H.form (view pass.old).size.slots OfPath (path pass.old) (listed pass.old) }
    requires old { KnowsOldValues (board_size board.now) (knows pass.old) (listed pass.old) }
    ensures seated { SitsAs pass.old pass.new × IsPassOf board.now pass.new }
    ensures unpublished { CanWrite (view pass.new) }
    ensures free { IsFree (view pass.new) }
    ensures kept { KeepsAll (whole pass.old) (whole pass.new) }
    ensures adds { listed pass.new ≡ [] }
    ensures visits { visits pass.new ≡ [] }
    ensures path { path pass.new ≡ dropped (path pass.old) }

    // What is recorded of the call that was taken along.
    ensures recorded { IfOk result (λ s. recorded pass.new ≡ recorded pass.old ++ taken_down pass.old s) }
    ensures not_recorded { OnErr result (recorded pass.new ≡ recorded pass.old) }
    ensures carried { carried pass.new ≡ None }

    // The exchange, and its stamp.
    ensures done { IfOk result (HasExchanged (knows pass.old).told (whole pass.new) LockedPath (path pass.old) (listed pass.old)) }

    // Why it was lost.
    ensures lost { OnErr result (HasNoEffect (view pass.old) (whole pass.new)) }
    ensures tried { IfErr result (λ e. IfChanged e (λ n seen. HasTried LockedPath (path pass.old) (listed pass.old) (view pass.old) (whole pass.new) ⊎ WasSeenToMove (visits pass.old) n seen)) }
    ensures changed { IfErr result (λ e. IfChanged e (HasMoved (visits pass.old) (words_by LockedPath (path pass.old) (listed pass.old)) (whole pass.new))) }
    ensures never_locked { IfErr result (λ e. IfLocked e (λ n by. ⊥)) }
    ensures blocked { IfErr result (λ e. IfBlocked e (WasInTheWay (board_size board.now).seats (view pass.old) (whole pass.new))) }
    ensures numbers { IfErr result (λ e. IfNumbers e (IsOutOfNumbers (view pass.old) (whole pass.new))) }

    // The most attempts and installs that it makes.
    ensures attempts { (view pass.new).attempt.number ≤ (view pass.old).attempt.number + 1 }
    ensures bounded { (view pass.new).install.number ≤ (view pass.old).install.number + most_in_end (board_size board.now) (length (words_by LockedPath (path pass.old) (listed pass.old))) }
{
    match find_moved(pass.visits()) {
        Some(moved) => Err(give_up(board, pass, moved)),
        None => exchanged(board, pass, Mode::LockedPath),
    }
}
