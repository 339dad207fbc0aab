//! Running a plan on plain cells: the plan is told what stands in them until it answers or asks for
//! an exchange, which is then made.
ghost use Rattle.std.specs.Prelude.{◌≡◌, ◌≤◌, IfOk, IfErr, OnErr, OnOk};
ghost use Rattle.pc_plain.specs.PlainCells.{cells_of, AreBelowLimits};
ghost use Rattle.pc_plain.specs.PlainRuns.{HoldsPairs, ComesTo, IsRunOf, RunsRight};
ghost use Rattle.pc_plain.specs.PlainRuns.{ComesToWantSlot, AllInUse, HasPairPerSlot};
ghost use Rattle.pc_plan.specs.Turns.{last_ask, CanGoOn, GoesOn, ComesFrom};

use crate::node_store::{NoPlainSlot, NodeStore};
use crate::plain::PlainCells;
use pc_model::Reply;
use pc_plan::{Change, End, Plan, Told};

#[inline(always)]
fn take_two_strides<P: Plan>(
    plan: &mut P,
    nodes: &NodeStore,
    told: Told,
    change: &mut Change,
) -> Result<Told, End>
    requires { CanGoOn P.moves nodes.now.slots (cells_of nodes.now) (P.moves plan.old told) }
    ensures goes_on { IfOk result (GoesOn P.moves (cells_of nodes.now) (P.moves plan.old told) 2 plan.new) }
    ensures ends { IfErr result (λ end.
        ComesFrom P.moves (cells_of nodes.now) (P.moves plan.old told) (last_ask end change.new)) }
{
    let second = plan.stride(told, nodes, change)?;
    plan.stride(second, nodes, change)
}

/// As many strides as a walk mostly has turns at a node: its version, its key and a link.
#[inline(always)]
fn take_three_strides<P: Plan>(
    plan: &mut P,
    nodes: &NodeStore,
    told: Told,
    change: &mut Change,
) -> Result<Told, End>
    requires { CanGoOn P.moves nodes.now.slots (cells_of nodes.now) (P.moves plan.old told) }
    ensures goes_on { IfOk result (GoesOn P.moves (cells_of nodes.now) (P.moves plan.old told) 3 plan.new) }
    ensures ends { IfErr result (λ end.
        ComesFrom P.moves (cells_of nodes.now) (P.moves plan.old told) (last_ask end change.new)) }
{
    let second = plan.stride(told, nodes, change)?;
    take_two_strides(plan, nodes, second, change)
}

/// Tells the plan of a call what stands in the nodes, to its end. An exchange stands in `change` then.
pub(crate) fn end_of<P: Plan>(nodes: &NodeStore, call: P::Call, change: &mut Change) -> End
    requires call { P.can_call call }
    requires sound { HoldsPairs P.form nodes.now }
    ensures comes { ComesTo P.start P.moves nodes.now call (last_ask result change.new) }
    ensures few { nodes.now.slots ≤ 61000 }
    ensures fit { AreBelowLimits (cells_of nodes.now) }
{
    let mut plan = P::begin(call);
    let mut told = Told::Begin;
    for _round in 0..3 * (nodes.slots() + 2) {
        match take_three_strides(&mut plan, nodes, told, change) {
            Ok(next) => told = next,
            Err(end) => return end,
        }
    }
    unreachable!()
}

/// Runs the plan of a call on plain cells. Where its fresh node finds no slot, nothing changes.
pub fn run_plan<P: Plan>(cells: &mut PlainCells, call: P::Call) -> Result<Reply, NoPlainSlot>
    requires call { P.can_call call }
    requires sound { HoldsPairs P.form cells.old }

    ensures size { cells.new.slots ≡ cells.old.slots }
    ensures run { IfOk result (IsRunOf P.start P.moves P.form call cells.old cells.new) }
    ensures right { IfOk result (RunsRight P.form (P.terms call) cells.old cells.new) }
    ensures sound { OnOk result (HoldsPairs P.form cells.new) }

    // Only where a fresh node is wanted and every slot is in use.
    ensures live { IfErr result (λ e. e.live ≡ cells.old.slots) }
    ensures wanted { OnErr result (ComesToWantSlot P.start P.moves call cells.old) }
    ensures full { OnErr result (AllInUse cells.old) }
    ensures pairs { OnErr result (HasPairPerSlot P.form cells.old) }
    ensures stays { OnErr result (cells.new ≡ cells.old) }
{
    match end_of::<P>(&cells.nodes, call, &mut cells.change) {
        End::Answer(reply) => Ok(reply),
        End::Exchange => cells.nodes.make(&cells.change),
    }
}
