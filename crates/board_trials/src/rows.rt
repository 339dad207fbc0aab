//! Installs for exchanges that are decided: worked rows, each compared with what was worked out by hand.
ghost use Rattle.std.specs.Prelude.{◌≡◌, ◌<◌, ◌≤◌, [], length, vec_len};
ghost use Rattle.pc_rule_law.specs.Conditions.{IsFree, CanWrite};
ghost use Rattle.pc_rule_law.specs.Past.{Has};
ghost use Rattle.pc_protocol.specs.Notes.{outdated};
ghost use Rattle.pc_exchange_law.specs.Ties.{code};
ghost use Rattle.pc_rule.specs.Passes.{view, knows, listed, board_size, IsPassOf, IsSeatedAs, IsSamePass};
ghost use Rattle.pc_rule.specs.declared.opening.Place.{Place};
ghost use Rattle.pc_dcss.specs.Installs.{KnowsPlace};
ghost use Rattle.pc_kcas.specs.Exchanges.{IsPublished, own_exchange};
ghost use Rattle.pc_rule.specs.Shares.{AreAll, NoneTried};

use crate::exchanges::{height, installed, published, value, version};
use crate::withdrawals::withdrawn;
use pc_dcss::Installed;
use pc_kcas::{Verdict, finish};
use pc_model::{Field, Loose, Memory};
use pc_rule::{Board, Pass, Place, Share, close_board, open_board, step_14, usual_starts};
use pc_words::{Stage, Status, pack};

/// The pass publishes the version and a value of the sentinel, withdraws, and installs both words after that.
fn withdrawn_and_installed(
    board: &Board<Loose>,
    pass: &mut Pass<Loose>,
) -> Option<(bool, Installed, Installed)>
    requires pass { IsPassOf board.now pass.old }
    requires open { CanWrite (view pass.old) × (listed pass.old ≡ []) }
    requires free { IsFree (view pass.old) }
    requires start { (board_size board.now).starts.version ≡ 0 }
    ensures seated { IsSeatedAs pass.old pass.new }
    ensures free { IsFree (view pass.new) }
{
    let one = version();
    let two = value(50);
    let Ok(()) = published(board, pass, one, two) else {
        return None;
    };
    let undecided = withdrawn(board, pass);
    let first = installed(board, pass, one);
    let second = installed(board, pass, two);
    Some((undecided, first, second))
}

/// The same by the first of all passes of the board.
fn withdrawn_and_installed_by(
    board: &Board<Loose>,
    passes: &mut Vec<Pass<Loose>>,
) -> Option<(bool, Installed, Installed)>
    requires all { AreAll board.now passes.old.items }
    requires some { 0 < vec_len passes.old }
    requires open { NoneTried passes.old.items }
    requires start { (board_size board.now).starts.version ≡ 0 }
    ensures { AreAll board.now passes.new.items }
{
    withdrawn_and_installed(board, &mut passes[0])
}

#[test]
fn installs_for_a_withdrawn_exchange_find_it_decided(rt: HostRuntime) -> Result<(), Memory> {
    let share = Share { slots: 1, calls: 0 };
    let (board, mut passes) = open_board(rt.alloc(), Loose, &[share], usual_starts())?;
    let answers = withdrawn_and_installed_by(&board, &mut passes);
    let closed = close_board(board, passes);
    let left = (closed.cell(1, Field::Version), closed.cell(1, Field::Value));
    let wanted = (true, Installed::Decided, Installed::Decided);
    assert_eq!(rt; (answers, left), (Some(wanted), (0, 0)));
    Ok(())
}

/// The own exchange fails since the sentinel has changed. Says whether it was undecided until then.
fn failed(board: &Board<Loose>, pass: &mut Pass<Loose>) -> bool
    requires pass { IsPassOf board.now pass.old }
    requires free { IsFree (view pass.old) }
    requires published { IsPublished pass.old }
    requires outdated { Has (knows pass.old).told (outdated (code (view pass.old).seat (view pass.old).attempt.number) 1) }
    ensures same { IsSamePass pass.old pass.new }
    ensures free { IsFree (view pass.new) }
    ensures published { IsPublished pass.new }
    ensures keeps { (x : Place) → KnowsPlace (view pass.old) (own_exchange pass.old) x → KnowsPlace (view pass.new) (own_exchange pass.new) x }
{
    let of = pass.number();
    let number = pass.attempts();
    let undecided = pack(Status {
        number,
        stage: Stage::Undecided,
    });
    let changed = pack(Status {
        number,
        stage: Stage::Changed { node: 1 },
    });
    step_14(board, pass, of, undecided, changed) == undecided
}

/// The pass installs both words of its exchange. Where the first one differs, the exchange fails before the second is installed. Says
/// both answers, whether it was undecided until it failed, and how it ended.
fn fails_and_installs(
    board: &Board<Loose>,
    pass: &mut Pass<Loose>,
    one: Place,
    two: Place,
) -> Option<(Installed, bool, Installed, Verdict)>
    requires pass { IsPassOf board.now pass.old }
    requires free { IsFree (view pass.old) }
    requires published { IsPublished pass.old }
    requires one { KnowsPlace (view pass.old) (own_exchange pass.old) one × (one.node ≡ 1) }
    requires two { KnowsPlace (view pass.old) (own_exchange pass.old) two }
    ensures seated { IsSeatedAs pass.old pass.new }
    ensures free { IsFree (view pass.new) }
{
    let first = installed(board, pass, one);
    let Installed::Differs(_) = first else {
        return None;
    };
    let undecided = failed(board, pass);
    let second = installed(board, pass, two);
    Some((first, undecided, second, finish(board, pass)))
}

/// The first pass publishes the version and a value of the sentinel, and the second the version and its height. The second ends its
/// exchange. Then the first installs its words, of which one differs.
fn install_is_late(
    board: &Board<Loose>,
    first: &mut Pass<Loose>,
    second: &mut Pass<Loose>,
) -> Option<(Verdict, (Installed, bool, Installed, Verdict))>
    requires passes { IsPassOf board.now first.old × IsPassOf board.now second.old }
    requires free { IsFree (view first.old) × IsFree (view second.old) }
    requires start { (board_size board.now).starts.version ≡ 0 }
    requires one { CanWrite (view first.old) × (listed first.old ≡ []) }
    requires two { CanWrite (view second.old) × (listed second.old ≡ []) }
    ensures same { IsSeatedAs first.old first.new × IsSeatedAs second.old second.new }
    ensures free { IsFree (view first.new) × IsFree (view second.new) }
{
    let one = version();
    let two = value(50);
    let Ok(()) = published(board, first, one, two) else {
        return None;
    };
    let Ok(()) = published(board, second, one, height(6)) else {
        return None;
    };
    let won = finish(board, second);
    let late = fails_and_installs(board, first, one, two)?;
    Some((won, late))
}

/// The same by the first two of all passes of the board.
fn install_is_late_by(
    board: &Board<Loose>,
    passes: &mut [Pass<Loose>],
) -> Option<(Verdict, (Installed, bool, Installed, Verdict))>
    requires all { AreAll board.now passes.old }
    requires two { 2 ≤ length passes.old }
    requires open { NoneTried passes.old }
    requires start { (board_size board.now).starts.version ≡ 0 }
    ensures { AreAll board.now passes.new }
{
    let (front, back) = passes.split_at_mut(1);
    install_is_late(board, &mut front[0], &mut back[0])
}

#[test]
fn an_install_after_another_exchange_differs(rt: HostRuntime) -> Result<(), Memory> {
    let share = Share { slots: 1, calls: 0 };
    let (board, mut passes) = open_board(rt.alloc(), Loose, &[share, share], usual_starts())?;
    let answers = install_is_late_by(&board, passes.as_mut_slice());
    let closed = close_board(board, passes);
    let version = closed.cell(1, Field::Version);
    let left = (closed.cell(1, Field::Value), closed.cell(1, Field::Height));
    let late = (
        Installed::Differs(2),
        true,
        Installed::Decided,
        Verdict::Changed { node: 1 },
    );
    let wanted = (Verdict::Won { stamp: 1 }, late);
    assert_eq!(rt; (answers, version, left), (Some(wanted), 2, (0, 6)));
    Ok(())
}
