//! Parts of a published exchange that a pass makes before it stops.
ghost use Rattle.std.specs.Prelude.{◌≡◌, IfSome, IfNone};
ghost use Rattle.pc_rule_law.specs.Conditions.{IsFree};
ghost use Rattle.pc_rule.specs.Passes.{view, IsPassOf, IsSamePass};
ghost use Rattle.pc_kcas.specs.Exchanges.{IsPublished, own_exchange};
ghost use Rattle.path_trials.specs.Operating.{IsOwnInstall};

use pc_dcss::{Installed, complete, install, place_install};
use pc_model::Loose;
use pc_rule::{Board, Pass, Ref, RefKind};

/// The exchange of a pass's last attempt.
fn own(board: &Board<Loose>, pass: &Pass<Loose>) -> Ref
    requires { IsPassOf board.now pass.now }
    ensures { result ≡ own_exchange pass.now }
{
    Ref {
        kind: RefKind::Exchange,
        seat: board.seat_of(pass),
        number: pass.attempts(),
    }
}

/// The pass makes the first half of an install of the word at this index of its exchange, the lowest address first.
pub(crate) fn half(board: &Board<Loose>, pass: &mut Pass<Loose>, at: usize) -> Option<Ref>
    requires pass { IsPassOf board.now pass.old }
    requires published { IsPublished pass.old }
    requires free { IsFree (view pass.old) }
    ensures same { IsSamePass pass.old pass.new }
    ensures published { IsPublished pass.new }
    ensures own { IfSome result (IsOwnInstall pass.new) }
    ensures free { IfNone result (IsFree (view pass.new)) }
{
    if at >= pass.listed().len() {
        return None;
    }
    let op = own(board, pass);
    let place = pass.listed()[at];
    match place_install(board, pass, op, place) {
        Ok(install) => Some(install),
        Err(_) => None,
    }
}

/// It completes that.
pub(crate) fn whole_half(board: &Board<Loose>, pass: &mut Pass<Loose>, half: Option<Ref>)
    requires pass { IsPassOf board.now pass.old }
    requires published { IsPublished pass.old }
    requires own { IfSome half (IsOwnInstall pass.old) }
    requires free { IfNone half (IsFree (view pass.old)) }
    ensures same { IsSamePass pass.old pass.new }
    ensures published { IsPublished pass.new }
    ensures free { IsFree (view pass.new) }
{
    if let Some(install) = half {
        complete(board, pass, install);
    }
}

/// It installs the word at this index.
pub(crate) fn held(board: &Board<Loose>, pass: &mut Pass<Loose>, at: usize) -> Option<Installed>
    requires pass { IsPassOf board.now pass.old }
    requires published { IsPublished pass.old }
    requires free { IsFree (view pass.old) }
    ensures same { IsSamePass pass.old pass.new }
    ensures published { IsPublished pass.new }
    ensures free { IsFree (view pass.new) }
{
    if at >= pass.listed().len() {
        return None;
    }
    let op = own(board, pass);
    let place = pass.listed()[at];
    Some(install(board, pass, op, place))
}
