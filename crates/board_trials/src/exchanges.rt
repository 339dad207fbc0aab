//! Exchanges that passes list, publish and end: worked rows, each compared with what was worked out by hand. Every call is made
//! from what the opening and the calls before it tell.
ghost use Rattle.std.specs.Prelude.{◌≡◌, ◌+◌, ◌<◌, ◌≤◌, ◌^◌, OnOk, [], ◌∷◌, length};
ghost use Rattle.std.specs.List.Sorted.{IsPermutation};
ghost use Rattle.pc_model.specs.Cells.{IsEven};
ghost use Rattle.pc_model.specs.declared.cell.Field.TheVariants.{Version, Value, Height};
ghost use Rattle.pc_rule_law.specs.Conditions.{IsFree, CanWrite};
ghost use Rattle.pc_exchange_law.specs.Knowing.{Learns};
ghost use Rattle.pc_rule.specs.Passes.{view, knows, listed, board_size, IsPassOf, IsSeatedAs, IsSamePass};
ghost use Rattle.pc_rule.specs.Shares.{AreAll, NoneTried};
ghost use Rattle.pc_dcss.specs.Installs.{HasMet, KnowsPlace, KnowsOutdated, KeepsNotes, KeepsAttempt, IfDiffers, IfMet};
ghost use Rattle.pc_rule.specs.declared.opening.Place.{Place};
ghost use Rattle.pc_rule.specs.declared.refs.RefKind.TheVariants.{Install};
ghost use Rattle.pc_kcas.specs.Exchanges.{IsUncleared, IsPublished, KnowsOldValues, own_exchange};
ghost use Rattle.board_trials.specs.Words.{IsOther};

use pc_dcss::{Installed, complete, install, place_install};
use pc_kcas::{Mode, Verdict, finish, install_first, publish, word};
use pc_model::{Field, Loose, Memory, Numbers};
use pc_rule::{Board, Pass, Place, Ref, RefKind, Share, close_board, open_board, usual_starts};

/// The version of the sentinel, from 0 to 2.
pub(crate) fn version() -> Place
    ensures word { (result.node ≡ 1) × (result.field ≡ Version) }
    ensures numbers { (result.old ≡ 0) × (result.new ≡ 2) }
{
    Place {
        node: 1,
        field: Field::Version,
        old: 0,
        new: 2,
    }
}

/// The value of the sentinel, from 0 to this one.
pub(crate) fn value(new: u32) -> Place
    ensures word { (result.node ≡ 1) × (result.field ≡ Value) }
    ensures numbers { (result.old ≡ 0) × (result.new ≡ new) }
{
    Place {
        node: 1,
        field: Field::Value,
        old: 0,
        new: u64::from(new),
    }
}

/// The height of the sentinel, from 0 to this one.
pub(crate) fn height(new: u32) -> Place
    ensures word { (result.node ≡ 1) × (result.field ≡ Height) }
    ensures numbers { (result.old ≡ 0) × (result.new ≡ new) }
{
    Place {
        node: 1,
        field: Field::Height,
        old: 0,
        new: u64::from(new),
    }
}

/// The exchange of a pass's last attempt.
pub(crate) fn exchange_of(board: &Board<Loose>, pass: &Pass<Loose>) -> Ref
    requires { IsPassOf board.now pass.now }
    ensures { result ≡ own_exchange pass.now }
{
    Ref {
        kind: RefKind::Exchange,
        seat: board.seat_of(pass),
        number: pass.attempts(),
    }
}

/// The pass lists both words, whose old values it knows, and publishes them.
pub(crate) fn published_from(
    board: &Board<Loose>,
    pass: &mut Pass<Loose>,
    one: Place,
    two: Place,
) -> Result<(), Numbers>
    requires pass { IsPassOf board.now pass.old }
    requires open { CanWrite (view pass.old) × (listed pass.old ≡ []) }
    requires free { IsFree (view pass.old) }
    requires old { KnowsOldValues (board_size board.now) (knows pass.old) (one ∷ two ∷ []) }
    requires one { (one.node ≡ 1) × (one.field ≡ Version) × IsEven one.old × (one.new ≡ one.old + 2) }
    requires two { (two.node ≡ 1) × IsOther two.field × (two.old < 2 ^ 62) × (two.new < 2 ^ 62) }
    requires small { one.new < 2 ^ 62 }
    ensures seated { IsSeatedAs pass.old pass.new }
    ensures free { IsFree (view pass.new) }
    ensures published { OnOk result (IsPublished pass.new) }
    ensures each { OnOk result (IsPermutation (one ∷ two ∷ []) (listed pass.new)) }
    ensures known { OnOk result (KnowsPlace (view pass.new) (own_exchange pass.new) one) }
    ensures second { OnOk result (KnowsPlace (view pass.new) (own_exchange pass.new) two) }
{
    word(pass, one);
    word(pass, two);
    publish(board, pass, Mode::Words)
}

/// The same of words whose old values are those that the board opened with.
pub(crate) fn published(
    board: &Board<Loose>,
    pass: &mut Pass<Loose>,
    one: Place,
    two: Place,
) -> Result<(), Numbers>
    requires pass { IsPassOf board.now pass.old }
    requires open { CanWrite (view pass.old) × (listed pass.old ≡ []) }
    requires free { IsFree (view pass.old) }
    requires start { (board_size board.now).starts.version ≡ 0 }
    requires one { (one.node ≡ 1) × (one.field ≡ Version) × (one.old ≡ 0) × (one.new ≡ 2) }
    requires two { (two.node ≡ 1) × IsOther two.field × (two.old ≡ 0) × (two.new < 2 ^ 62) }
    ensures seated { IsSeatedAs pass.old pass.new }
    ensures free { IsFree (view pass.new) }
    ensures published { OnOk result (IsPublished pass.new) }
    ensures each { OnOk result (IsPermutation (one ∷ two ∷ []) (listed pass.new)) }
    ensures known { OnOk result (KnowsPlace (view pass.new) (own_exchange pass.new) one) }
    ensures second { OnOk result (KnowsPlace (view pass.new) (own_exchange pass.new) two) }
{
    published_from(board, pass, one, two)
}

/// Completes the install that an answer names, if it names one.
fn complete_met(board: &Board<Loose>, pass: &mut Pass<Loose>, answer: Installed)
    requires pass { IsPassOf board.now pass.old }
    requires met { IfMet answer (λ r. r.kind ≡ Install → HasMet (view pass.old) r.seat r.number) }
    ensures same { IsSamePass pass.old pass.new }
    ensures learns { Learns (knows pass.old) (knows pass.new) }
    ensures free { IsFree (view pass.old) → IsFree (view pass.new) }
    ensures keeps { KeepsNotes (view pass.old) (view pass.new) }
    ensures attempt { KeepsAttempt (view pass.old) (view pass.new) }
{
    if let Installed::Met(met) = answer {
        if met.kind == RefKind::Install {
            complete(board, pass, met);
        }
    }
}

/// An install of one word of the pass's exchange. An install of another pass that it meets is completed.
pub(crate) fn installed(board: &Board<Loose>, pass: &mut Pass<Loose>, place: Place) -> Installed
    requires pass { IsPassOf board.now pass.old }
    requires free { IsFree (view pass.old) }
    requires published { IsUncleared pass.old }
    requires known { KnowsPlace (view pass.old) (own_exchange pass.old) place }
    ensures same { IsSamePass pass.old pass.new }
    ensures learns { Learns (knows pass.old) (knows pass.new) }
    ensures attempt { KeepsAttempt (view pass.old) (view pass.new) }
    ensures free { IsFree (view pass.new) }
    ensures published { IsUncleared pass.new }
    ensures known { KnowsPlace (view pass.new) (own_exchange pass.new) place }
    ensures keeps { (x : Place) → KnowsPlace (view pass.old) (own_exchange pass.old) x → KnowsPlace (view pass.new) (own_exchange pass.new) x }
    ensures outdated { IfDiffers result (λ x. KnowsOutdated (knows pass.new) (own_exchange pass.old) place) }
{
    let op = exchange_of(board, pass);
    let answer = install(board, pass, op, place);
    complete_met(board, pass, answer);
    answer
}

/// Both passes publish the version and a value of the sentinel. The first installs both words, and the second meets it. Then the
/// second ends its exchange, and last the first.
fn second_meets(
    board: &Board<Loose>,
    first: &mut Pass<Loose>,
    second: &mut Pass<Loose>,
) -> Option<(u32, Installed, Verdict, Verdict)>
    requires passes { IsPassOf board.now first.old × IsPassOf board.now second.old }
    requires free { IsFree (view first.old) × IsFree (view second.old) }
    requires start { (board_size board.now).starts.version ≡ 0 }
    requires one { CanWrite (view first.old) × (listed first.old ≡ []) }
    requires two { CanWrite (view second.old) × (listed second.old ≡ []) }
    ensures same { IsSeatedAs first.old first.new × IsSeatedAs second.old second.new }
    ensures free { IsFree (view first.new) × IsFree (view second.new) }
{
    let Ok(()) = published(board, first, version(), value(50)) else {
        return None;
    };
    let both = version();
    let Ok(()) = published(board, second, both, value(60)) else {
        return None;
    };
    let held = install_first(board, first, 2);
    let met = installed(board, second, both);
    let then = finish(board, second);
    Some((held, met, then, finish(board, first)))
}

/// The same by the first two of all passes of the board.
fn second_meets_by(
    board: &Board<Loose>,
    passes: &mut [Pass<Loose>],
) -> Option<(u32, Installed, Verdict, Verdict)>
    requires all { AreAll board.now passes.old }
    requires two { 2 ≤ length passes.old }
    requires open { NoneTried passes.old }
    requires start { (board_size board.now).starts.version ≡ 0 }
    ensures { AreAll board.now passes.new }
{
    let (front, back) = passes.split_at_mut(1);
    second_meets(board, &mut front[0], &mut back[0])
}

#[test]
fn an_exchange_that_is_met_is_helped(rt: HostRuntime) -> Result<(), Memory> {
    let share = Share { slots: 1, calls: 0 };
    let (board, mut passes) = open_board(rt.alloc(), Loose, &[share, share], usual_starts())?;
    let answers = second_meets_by(&board, passes.as_mut_slice());
    let closed = close_board(board, passes);
    let left = (closed.cell(1, Field::Version), closed.cell(1, Field::Value));
    let met = Ref {
        kind: RefKind::Exchange,
        seat: 0,
        number: 1,
    };
    let wanted = (
        2,
        Installed::Met(met),
        Verdict::Changed { node: 1 },
        Verdict::Won { stamp: 1 },
    );
    assert_eq!(rt; (answers, left), (Some(wanted), (2, 50)));
    Ok(())
}

/// Both passes publish the version and a value of the sentinel. The second ends its exchange, and then the first.
fn second_ends(
    board: &Board<Loose>,
    first: &mut Pass<Loose>,
    second: &mut Pass<Loose>,
) -> Option<(Verdict, Verdict)>
    requires passes { IsPassOf board.now first.old × IsPassOf board.now second.old }
    requires free { IsFree (view first.old) × IsFree (view second.old) }
    requires start { (board_size board.now).starts.version ≡ 0 }
    requires one { CanWrite (view first.old) × (listed first.old ≡ []) }
    requires two { CanWrite (view second.old) × (listed second.old ≡ []) }
    ensures same { IsSeatedAs first.old first.new × IsSeatedAs second.old second.new }
    ensures free { IsFree (view first.new) × IsFree (view second.new) }
{
    let Ok(()) = published(board, first, version(), value(50)) else {
        return None;
    };
    let Ok(()) = published(board, second, version(), value(60)) else {
        return None;
    };
    let then = finish(board, second);
    Some((then, finish(board, first)))
}

/// The same by the first two of all passes of the board.
fn second_ends_by(board: &Board<Loose>, passes: &mut [Pass<Loose>]) -> Option<(Verdict, Verdict)>
    requires all { AreAll board.now passes.old }
    requires two { 2 ≤ length passes.old }
    requires open { NoneTried passes.old }
    requires start { (board_size board.now).starts.version ≡ 0 }
    ensures { AreAll board.now passes.new }
{
    let (front, back) = passes.split_at_mut(1);
    second_ends(board, &mut front[0], &mut back[0])
}

#[test]
fn an_exchange_that_ends_first_takes_effect(rt: HostRuntime) -> Result<(), Memory> {
    let share = Share { slots: 1, calls: 0 };
    let (board, mut passes) = open_board(rt.alloc(), Loose, &[share, share], usual_starts())?;
    let answers = second_ends_by(&board, passes.as_mut_slice());
    let closed = close_board(board, passes);
    let left = (closed.cell(1, Field::Version), closed.cell(1, Field::Value));
    let wanted = (Verdict::Won { stamp: 1 }, Verdict::Changed { node: 1 });
    assert_eq!(rt; (answers, left), (Some(wanted), (2, 60)));
    Ok(())
}

/// Both passes publish the version and a value of the sentinel. The second meets a half install of the first and completes it,
/// and meets then its exchange. The first ends its half install; then the second ends its exchange, and last the first.
fn half_met(
    board: &Board<Loose>,
    first: &mut Pass<Loose>,
    second: &mut Pass<Loose>,
) -> Option<(Ref, [Installed; 2], [Verdict; 2])>
    requires passes { IsPassOf board.now first.old × IsPassOf board.now second.old }
    requires free { IsFree (view first.old) × IsFree (view second.old) }
    requires start { (board_size board.now).starts.version ≡ 0 }
    requires one { CanWrite (view first.old) × (listed first.old ≡ []) }
    requires two { CanWrite (view second.old) × (listed second.old ≡ []) }
    ensures same { IsSeatedAs first.old first.new × IsSeatedAs second.old second.new }
    ensures free { IsFree (view first.new) × IsFree (view second.new) }
{
    let both = version();
    let Ok(()) = published(board, first, both, value(50)) else {
        return None;
    };
    let Ok(()) = published(board, second, both, value(60)) else {
        return None;
    };
    let op = exchange_of(board, first);
    let Ok(own) = place_install(board, first, op, both) else {
        return None;
    };
    let met = installed(board, second, both);
    let then = installed(board, second, both);
    complete(board, first, own);
    let end = finish(board, second);
    Some((own, [met, then], [end, finish(board, first)]))
}

/// The same by the first two of all passes of the board.
fn half_met_by(
    board: &Board<Loose>,
    passes: &mut [Pass<Loose>],
) -> Option<(Ref, [Installed; 2], [Verdict; 2])>
    requires all { AreAll board.now passes.old }
    requires two { 2 ≤ length passes.old }
    requires open { NoneTried passes.old }
    requires start { (board_size board.now).starts.version ≡ 0 }
    ensures { AreAll board.now passes.new }
{
    let (front, back) = passes.split_at_mut(1);
    half_met(board, &mut front[0], &mut back[0])
}

#[test]
fn a_half_install_of_a_published_exchange_is_met(rt: HostRuntime) -> Result<(), Memory> {
    let share = Share { slots: 1, calls: 0 };
    let (board, mut passes) = open_board(rt.alloc(), Loose, &[share, share], usual_starts())?;
    let answers = half_met_by(&board, passes.as_mut_slice());
    let closed = close_board(board, passes);
    let left = (closed.cell(1, Field::Version), closed.cell(1, Field::Value));
    let own = Ref {
        kind: RefKind::Install,
        seat: 0,
        number: 1,
    };
    let exchange = Ref {
        kind: RefKind::Exchange,
        seat: 0,
        number: 1,
    };
    let met = [Installed::Met(own), Installed::Met(exchange)];
    let ends = [Verdict::Changed { node: 1 }, Verdict::Won { stamp: 1 }];
    assert_eq!(rt; (answers, left), (Some((own, met, ends)), (2, 50)));
    Ok(())
}
