//! The exchange that a pass published itself.
ghost use Rattle.std.specs.Prelude.{◌≡◌};
ghost use Rattle.pc_rule.specs.Passes.{IsPassOf};
ghost use Rattle.pc_kcas.specs.Exchanges.{own_exchange};

use pc_model::Shape;
use pc_rule::{Board, Pass, Ref, RefKind};

/// The reference of the pass's last exchange.
pub(crate) fn own_ref<H: Shape>(board: &Board<H>, pass: &Pass<H>) -> Ref
    requires { IsPassOf board.now pass.now }
    ensures { result ≡ own_exchange pass.now }
{
    Ref {
        kind: RefKind::Exchange,
        seat: board.seat_of(pass),
        number: pass.attempts(),
    }
}
