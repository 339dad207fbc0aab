//! Running a plan for a client that owes: what its call settles and what its exchange charges are taken up.
ghost use Rattle.std.specs.Prelude.{◌≡◌, IfOk, IfErr, OnErr, OnOk};
ghost use Rattle.pc_model.specs.Debts.{taken_up};
ghost use Rattle.pc_plain.specs.OwedRuns.{AnswersForDebts, BeginsInReach, IsOwedRunOf, IsRefused};
ghost use Rattle.pc_plain.specs.PlainRuns.{HoldsPairs, RunsRight};

use crate::node_store::NoPlainSlot;
use crate::plain::PlainCells;
use crate::run::end_of;
use pc_model::{Owed, Reply, Settle};
use pc_plan::{End, Plan};

/// Settles what a call settles, and then enters the charges that came with it. It is no call of its own, so that no
/// settlement is copied: the copy would wait until all that the exchange wrote has left the processor.
#[inline(always)]
fn take_up(owed: &mut Owed, settlement: Settle, charges: &[u64])
    ensures { owed.new ≡ taken_up settlement charges.now owed.old }
{
    owed.settle(settlement);
    for key in charges {
        owed.charge(*key);
    }
}

/// Runs the plan of a call on plain cells, for a client that owes: what the call settles is settled, and
/// then the keys that its exchange charges are owed. Where its fresh node finds no slot, nothing changes.
pub fn run_owed<P: Plan>(
    cells: &mut PlainCells,
    call: P::Call,
    owed: &mut Owed,
) -> Result<Reply, NoPlainSlot>
    requires call { P.can_call call }
    requires sound { HoldsPairs P.form cells.old }

    ensures size { cells.new.slots ≡ cells.old.slots }
    ensures run { IfOk result
        (IsOwedRunOf P.start P.moves P.form (P.terms call) call cells.old cells.new owed.old owed.new) }
    ensures right { IfOk result (RunsRight P.form (P.terms call) cells.old cells.new) }
    ensures sound { OnOk result (HoldsPairs P.form cells.new) }
    ensures answers { OnOk result (BeginsInReach (P.terms call) owed.old
        → AnswersForDebts P.form cells.old owed.old → AnswersForDebts P.form cells.new owed.new) }

    // Only where a fresh node is wanted and every slot is in use.
    ensures refused { IfErr result (IsRefused P.start P.moves P.form call cells.old) }
    ensures stays { OnErr result (cells.new ≡ cells.old) }
    ensures debts_stay { OnErr result (owed.new ≡ owed.old) }
{
    match end_of::<P>(&cells.nodes, call, &mut cells.change) {
        End::Answer(reply) => {
            owed.settle(P::settles(call, reply));
            Ok(reply)
        }
        End::Exchange => {
            let reply = cells.nodes.make(&cells.change)?;
            take_up(owed, P::settles(call, reply), cells.change.charged());
            Ok(reply)
        }
    }
}
