//! The call that an operation takes along.
ghost use Rattle.std.specs.Prelude.{◌≡◌, ◌-◌, ◌≤◌, None, Some, true, length};
ghost use Rattle.pc_rule.specs.Passes.{path, share_of, recorded, carried, OnlyCarried};

use pc_model::{Call, Reply, Shape};
use pc_rule::Pass;

/// Takes a call along with its reply. Where the next exchange or read of the operation takes effect, they are recorded with its stamp,
/// as one entry of the pass's own list. Where it is lost, or the operation ends before, they are dropped.
pub fn carry<H: Shape>(pass: &mut Pass<H>, call: Call, reply: Reply)
    requires open { (path pass.old).begun ≡ true }
    requires room { 1 ≤ (share_of pass.old).calls - length (recorded pass.old) }
    requires nothing { carried pass.old ≡ None }
    ensures only { OnlyCarried pass.old pass.new }
    ensures carried { carried pass.new ≡ Some (record { call = call; reply = reply }) }
{
    pass.carry(call, reply);
}
