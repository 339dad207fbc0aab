//! What a plan is: a machine that is told and asks.
ghost use Rattle.std.specs.Prelude.{◌≡◌, IfOk, IfErr};
ghost use Rattle.pc_model.specs.declared.call.Reply.{Reply as MapReply};
ghost use Rattle.pc_model.specs.declared.owed.Settle.{Settle as Settled};
ghost use Rattle.pc_model.specs.Forms.{Form};
ghost use Rattle.pc_plan.specs.declared.plan.Ask.{Ask as Asked};
ghost use Rattle.pc_plan.specs.declared.plan.Told.{Told as Heard};
ghost use Rattle.pc_plan.specs.Asking.{asked};
ghost use Rattle.pc_plan.specs.Laws.{PlanLaws};
ghost use Rattle.pc_plan.specs.Terms.{Terms};
ghost use Rattle.pc_plan.specs.Turns.{CanGoOn, GoesOn, ComesFrom, last_ask};

use crate::change::Change;
use crate::still::StillCells;
use pc_model::{Call, Field, Reply, Settle};

/// What a plan asks next.
#[derive(Drop)]
pub enum Ask {
    /// To visit a node: its version is told.
    Visit(u32),
    /// To read a field of a node that was visited: its number is told.
    Read(u32, Field),
    /// To make an exchange. The plan has ended.
    Change(Change),
    /// Nothing more: this is the reply.
    Answer(Reply),
}

/// What a plan asks next, where an exchange stands in the change that was lent to it.
#[derive(Clone, Copy, PartialEq, Eq)]
pub enum Turn {
    /// To visit a node: its version is told.
    Visit(u32),
    /// To read a field of a node that was visited: its number is told.
    Read(u32, Field),
    /// To make the exchange that it wrote. The plan has ended.
    Change,
    /// Nothing more: this is the reply.
    Answer(Reply),
}

/// How a plan ends, where an exchange stands in the change that was lent to it.
#[derive(Clone, Copy)]
pub enum End {
    /// It wrote an exchange.
    Exchange,
    /// It answered.
    Answer(Reply),
}

/// What a plan is told.
#[derive(Clone, Copy)]
pub enum Told {
    /// To begin.
    Begin,
    /// The version of the node that it visits.
    Version(u64),
    /// The number that it reads.
    Number(u64),
}

/// A plan: what one call does to a tree, step by step. It keeps no memory and can't be refused.
pub trait Plan: Drop {
    /// What the plan is begun with.
    type Call: Copy;

    // The plan of a call before it is told anything.
    ghost start: { Self.Call → Self };

    // Told something, the plan comes to a next state and asks.
    ghost moves: { Self → Heard → Self × Asked };

    // The calls that the plan may be begun with.
    ghost can_call: { Self.Call → Type 0 };

    // What a call comes to: its entry, its step on the pairs, and what it settles.
    ghost terms: { Self.Call → Terms };

    // When cells are sound for the plan, with which pairs, and which keys are in debt in them.
    ghost form: { Form };

    /// Begins the plan of a call.
    fn begin(call: Self::Call) -> Self
        requires { can_call call }
        ensures { result ≡ start call };

    /// Tells the plan something, and answers what it asks next. An exchange that it asks for is written
    /// into `change`, whatever stood there.
    fn step(&mut self, told: Told, change: &mut Change) -> Turn
        ensures { (self.new, asked result change.new) ≡ moves self.old told };

    /// Tells the plan something, and answers what it asks next.
    fn next(&mut self, told: Told) -> Ask
        ensures { (self.new, result) ≡ moves self.old told }
    {
        let mut change = Change::new(Reply::None);
        match self.step(told, &mut change) {
            Turn::Visit(node) => Ask::Visit(node),
            Turn::Read(node, field) => Ask::Read(node, field),
            Turn::Change => Ask::Change(change),
            Turn::Answer(reply) => Ask::Answer(reply),
        }
    }

    /// Takes some turns on cells that stand still, at least one: the plan is told this, and then what stands in
    /// the cells. Answers what it is to be told next, or how it has ended. The two links have arms of their own: the
    /// machine then goes on along the one that it expects, and doesn't wait for the key first.
    #[inline(always)]
    fn stride<C: StillCells>(
        &mut self,
        told: Told,
        cells: &C,
        change: &mut Change,
    ) -> Result<Told, End>
        requires { CanGoOn moves (C.slots cells.now) (C.cells cells.now) (moves self.old told) }
        ensures goes_on { IfOk result (GoesOn moves (C.cells cells.now) (moves self.old told) 1 self.new) }
        ensures ends { IfErr result (λ end.
            ComesFrom moves (C.cells cells.now) (moves self.old told) (last_ask end change.new)) }
    {
        match self.step(told, change) {
            Turn::Visit(node) => Ok(Told::Version(cells.word(node, Field::Version))),
            Turn::Read(node, Field::Left) => Ok(Told::Number(cells.word(node, Field::Left))),
            Turn::Read(node, Field::Right) => Ok(Told::Number(cells.word(node, Field::Right))),
            Turn::Read(node, field) => Ok(Told::Number(cells.word(node, field))),
            Turn::Change => Err(End::Exchange),
            Turn::Answer(reply) => Err(End::Answer(reply)),
        }
    }

    /// The call that an entry of a history has for this plan.
    fn entry(call: Self::Call) -> Option<Call>
        ensures { result ≡ (terms call).entry };

    /// What a call that was answered so settles of its client's debts.
    fn settles(call: Self::Call, reply: Reply) -> Settle
        ensures { result ≡ (terms call).settles reply };

    // What holds of every plan.
    ghost laws: { PlanLaws start moves can_call terms form };
}
