//! The end of an operation's exchange or read, by its answer.
ghost use Rattle.std.specs.Prelude.{◌≡◌, ◌≤◌, ◌++◌, [], None, length, IfOk, OnErr};
ghost use Rattle.pc_exchange_law.specs.Paths.{dropped};
ghost use Rattle.pc_rule.specs.Carrying.{HasTakenEffect};
ghost use Rattle.pc_rule.specs.Passes.{whole, visits, path, share_of, recorded, carried, taken_down};
ghost use Rattle.pc_path.specs.Endings.{OnlyConcluded};

use crate::lost::Lost;
use pc_model::Shape;
use pc_rule::Pass;

// Records the call that the pass takes along, at the stamp of its exchange or read, and drops what it visited and read.
fn settle<H: Shape>(pass: &mut Pass<H>, stamp: u64)
    requires effect { HasTakenEffect (whole pass.old) stamp }
    ensures only { OnlyConcluded pass.old pass.new }
    ensures few { length (recorded pass.old) ≤ (share_of pass.old).calls → length (recorded pass.new) ≤ (share_of pass.new).calls }
    ensures recorded { recorded pass.new ≡ recorded pass.old ++ taken_down pass.old stamp }
    ensures carried { carried pass.new ≡ None }
    ensures visits { visits pass.new ≡ [] }
    ensures path { path pass.new ≡ dropped (path pass.old) }
{
    pass.take_down(stamp);
    pass.drop_visits();
}

// Drops the call that the pass takes along, and what it visited and read.
fn give_up<H: Shape>(pass: &mut Pass<H>)
    ensures only { OnlyConcluded pass.old pass.new }
    ensures few { length (recorded pass.old) ≤ (share_of pass.old).calls → length (recorded pass.new) ≤ (share_of pass.new).calls }
    ensures recorded { recorded pass.new ≡ recorded pass.old }
    ensures carried { carried pass.new ≡ None }
    ensures visits { visits pass.new ≡ [] }
    ensures path { path pass.new ≡ dropped (path pass.old) }
{
    pass.drop_carried();
    pass.drop_visits();
}

/// Drops what the pass visited and read, and the call that it takes along, which is recorded first where the exchange or read took
/// effect.
pub(crate) fn conclude<H: Shape>(pass: &mut Pass<H>, answer: Result<u64, Lost>)
    requires effect { IfOk answer (HasTakenEffect (whole pass.old)) }
    ensures only { OnlyConcluded pass.old pass.new }
    ensures few { length (recorded pass.old) ≤ (share_of pass.old).calls → length (recorded pass.new) ≤ (share_of pass.new).calls }
    ensures recorded { IfOk answer (λ s. recorded pass.new ≡ recorded pass.old ++ taken_down pass.old s) }
    ensures not_recorded { OnErr answer (recorded pass.new ≡ recorded pass.old) }
    ensures carried { carried pass.new ≡ None }
    ensures visits { visits pass.new ≡ [] }
    ensures path { path pass.new ≡ dropped (path pass.old) }
{
    match answer {
        Ok(stamp) => settle(pass, stamp),
        Err(_) => give_up(pass),
    }
}
