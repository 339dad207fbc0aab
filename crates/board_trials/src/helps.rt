//! Exchanges that other passes help, and such as stand in each other's way: worked rows, each compared with what was worked out by
//! hand.
ghost use Rattle.std.specs.Prelude.{◌≡◌, ◌≤◌, IfSome, [], length};
ghost use Rattle.pc_rule_law.specs.Conditions.{IsFree, CanWrite};
ghost use Rattle.pc_rule.specs.Passes.{whole, view, listed, board_size, IsPassOf, IsSeatedAs, IsSamePass};
ghost use Rattle.pc_rule.specs.Shares.{AreAll, NoneTried};
ghost use Rattle.pc_rule.specs.declared.refs.RefKind.TheVariants.{Exchange};
ghost use Rattle.pc_dcss.specs.Installs.{KnowsPlace};
ghost use Rattle.pc_dcss.specs.declared.installed.Installed.TheVariants.{Met};
ghost use Rattle.pc_kcas.specs.Exchanges.{IsPublished, own_exchange};
ghost use Rattle.pc_kcas.specs.Readings.{HasComeTo};

use crate::exchanges::{exchange_of, installed, published, published_from, value, version};
use pc_dcss::{Installed, install};
use pc_kcas::{Helped, Verdict, finish, help, install_first};
use pc_model::{Field, Loose, Memory};
use pc_rule::{Board, Pass, Place, Ref, RefKind, Share, close_board, open_board, usual_starts};

/// The exchange whose reference the answer names, if it names one.
fn exchange_in(answer: Installed) -> Option<Ref>
    ensures { IfSome result (λ r. (answer ≡ Met r) × (r.kind ≡ Exchange)) }
{
    match answer {
        Installed::Met(met) => match met.kind {
            RefKind::Exchange => Some(met),
            RefKind::Install => None,
        },
        _ => None,
    }
}

/// The exchange that the pass meets as it installs this word of its own one, if it meets one.
fn met_exchange(board: &Board<Loose>, pass: &mut Pass<Loose>, place: Place) -> Option<Ref>
    requires pass { IsPassOf board.now pass.old }
    requires free { IsFree (view pass.old) }
    requires published { IsPublished pass.old }
    requires known { KnowsPlace (view pass.old) (own_exchange pass.old) place }
    ensures same { IsSamePass pass.old pass.new }
    ensures free { IsFree (view pass.new) }
    ensures published { IsPublished pass.new }
    ensures exchange { IfSome result (λ r. r.kind ≡ Exchange) }
    ensures come { IfSome result (HasComeTo (whole pass.new)) }
{
    let op = exchange_of(board, pass);
    let answer = install(board, pass, op, place);
    exchange_in(answer)
}

/// Both passes publish the version and a value of the sentinel. The first installs its version. The second meets that exchange and
/// helps it, and ends its own; last the first ends its own.
fn second_helps(
    board: &Board<Loose>,
    first: &mut Pass<Loose>,
    second: &mut Pass<Loose>,
) -> Option<(Helped, Verdict, Verdict)>
    requires passes { IsPassOf board.now first.old × IsPassOf board.now second.old }
    requires free { IsFree (view first.old) × IsFree (view second.old) }
    requires start { (board_size board.now).starts.version ≡ 0 }
    requires one { CanWrite (view first.old) × (listed first.old ≡ []) }
    requires two { CanWrite (view second.old) × (listed second.old ≡ []) }
    ensures same { IsSeatedAs first.old first.new × IsSeatedAs second.old second.new }
    ensures free { IsFree (view first.new) × IsFree (view second.new) }
{
    let Ok(()) = published(board, first, version(), value(50)) else {
        return None;
    };
    let both = version();
    let Ok(()) = published(board, second, both, value(60)) else {
        return None;
    };
    install_first(board, first, 1);
    let met = met_exchange(board, second, both)?;
    let helped = help(board, second, met);
    let then = finish(board, second);
    Some((helped, then, finish(board, first)))
}

/// The same by the first two of all passes of the board.
fn second_helps_by(
    board: &Board<Loose>,
    passes: &mut [Pass<Loose>],
) -> Option<(Helped, Verdict, Verdict)>
    requires all { AreAll board.now passes.old }
    requires two { 2 ≤ length passes.old }
    requires open { NoneTried passes.old }
    requires start { (board_size board.now).starts.version ≡ 0 }
    ensures { AreAll board.now passes.new }
{
    let (front, back) = passes.split_at_mut(1);
    second_helps(board, &mut front[0], &mut back[0])
}

#[test]
fn a_help_carries_out_an_exchange_that_was_met(rt: HostRuntime) -> Result<(), Memory> {
    let share = Share { slots: 1, calls: 0 };
    let (board, mut passes) = open_board(rt.alloc(), Loose, &[share, share], usual_starts())?;
    let answers = second_helps_by(&board, passes.as_mut_slice());
    let closed = close_board(board, passes);
    let left = (closed.cell(1, Field::Version), closed.cell(1, Field::Value));
    let wanted = (
        Helped::Decided,
        Verdict::Changed { node: 1 },
        Verdict::Won { stamp: 1 },
    );
    assert_eq!(rt; (answers, left), (Some(wanted), (2, 50)));
    Ok(())
}

/// Both passes publish the version and a value of the sentinel. The first installs its version, and the second meets that exchange.
/// The first ends it and publishes another of the same words. Then the second helps the exchange that it met, and ends its own.
fn second_helps_late(
    board: &Board<Loose>,
    first: &mut Pass<Loose>,
    second: &mut Pass<Loose>,
) -> Option<(u64, Helped, Verdict)>
    requires passes { IsPassOf board.now first.old × IsPassOf board.now second.old }
    requires free { IsFree (view first.old) × IsFree (view second.old) }
    requires start { (board_size board.now).starts.version ≡ 0 }
    requires one { CanWrite (view first.old) × (listed first.old ≡ []) }
    requires two { CanWrite (view second.old) × (listed second.old ≡ []) }
    ensures same { IsSeatedAs first.old first.new × IsSeatedAs second.old second.new }
    ensures free { IsFree (view first.new) × IsFree (view second.new) }
{
    let Ok(()) = published(board, first, version(), value(50)) else {
        return None;
    };
    let both = version();
    let Ok(()) = published(board, second, both, value(60)) else {
        return None;
    };
    install_first(board, first, 1);
    let met = met_exchange(board, second, both)?;
    let Verdict::Won { stamp } = finish(board, first) else {
        return None;
    };
    let one = Place {
        node: 1,
        field: Field::Version,
        old: 2,
        new: 4,
    };
    let two = Place {
        node: 1,
        field: Field::Value,
        old: 50,
        new: 70,
    };
    let Ok(()) = published_from(board, first, one, two) else {
        return None;
    };
    let helped = help(board, second, met);
    Some((stamp, helped, finish(board, second)))
}

/// The same by the first two of all passes of the board.
fn second_helps_late_by(
    board: &Board<Loose>,
    passes: &mut [Pass<Loose>],
) -> Option<(u64, Helped, Verdict)>
    requires all { AreAll board.now passes.old }
    requires two { 2 ≤ length passes.old }
    requires open { NoneTried passes.old }
    requires start { (board_size board.now).starts.version ≡ 0 }
    ensures { AreAll board.now passes.new }
{
    let (front, back) = passes.split_at_mut(1);
    second_helps_late(board, &mut front[0], &mut back[0])
}

#[test]
fn a_help_after_the_next_exchange_finds_its_own_gone(rt: HostRuntime) -> Result<(), Memory> {
    let share = Share { slots: 1, calls: 0 };
    let (board, mut passes) = open_board(rt.alloc(), Loose, &[share, share], usual_starts())?;
    let answers = second_helps_late_by(&board, passes.as_mut_slice());
    let closed = close_board(board, passes);
    let left = (closed.cell(1, Field::Version), closed.cell(1, Field::Value));
    let wanted = (1, Helped::Gone, Verdict::Changed { node: 1 });
    assert_eq!(rt; (answers, left), (Some(wanted), (2, 50)));
    Ok(())
}

/// Both passes publish the version and a value of the sentinel. The first installs its version, and the second its value. Then the
/// first ends its exchange, and then the second.
fn each_holds_one(
    board: &Board<Loose>,
    first: &mut Pass<Loose>,
    second: &mut Pass<Loose>,
) -> Option<([Installed; 2], [Verdict; 2])>
    requires passes { IsPassOf board.now first.old × IsPassOf board.now second.old }
    requires free { IsFree (view first.old) × IsFree (view second.old) }
    requires start { (board_size board.now).starts.version ≡ 0 }
    requires one { CanWrite (view first.old) × (listed first.old ≡ []) }
    requires two { CanWrite (view second.old) × (listed second.old ≡ []) }
    ensures same { IsSeatedAs first.old first.new × IsSeatedAs second.old second.new }
    ensures free { IsFree (view first.new) × IsFree (view second.new) }
{
    let low = version();
    let high = value(60);
    let Ok(()) = published(board, first, low, value(50)) else {
        return None;
    };
    let Ok(()) = published(board, second, version(), high) else {
        return None;
    };
    let one = installed(board, first, low);
    let two = installed(board, second, high);
    let blocked = finish(board, first);
    Some(([one, two], [blocked, finish(board, second)]))
}

/// The same by the first two of all passes of the board.
fn each_holds_one_by(
    board: &Board<Loose>,
    passes: &mut [Pass<Loose>],
) -> Option<([Installed; 2], [Verdict; 2])>
    requires all { AreAll board.now passes.old }
    requires two { 2 ≤ length passes.old }
    requires open { NoneTried passes.old }
    requires start { (board_size board.now).starts.version ≡ 0 }
    ensures { AreAll board.now passes.new }
{
    let (front, back) = passes.split_at_mut(1);
    each_holds_one(board, &mut front[0], &mut back[0])
}

#[test]
fn an_exchange_is_blocked_by_one_that_it_blocks(rt: HostRuntime) -> Result<(), Memory> {
    let share = Share { slots: 1, calls: 0 };
    let (board, mut passes) = open_board(rt.alloc(), Loose, &[share, share], usual_starts())?;
    let answers = each_holds_one_by(&board, passes.as_mut_slice());
    let closed = close_board(board, passes);
    let left = (closed.cell(1, Field::Version), closed.cell(1, Field::Value));
    let of_first = Ref {
        kind: RefKind::Exchange,
        seat: 0,
        number: 1,
    };
    let of_second = Ref {
        kind: RefKind::Exchange,
        seat: 1,
        number: 1,
    };
    let blocked = Verdict::Blocked {
        first: of_second,
        second: of_first,
    };
    let held = [Installed::Held, Installed::Held];
    let wanted = (held, [blocked, Verdict::Won { stamp: 1 }]);
    assert_eq!(rt; (answers, left), (Some(wanted), (2, 60)));
    Ok(())
}
