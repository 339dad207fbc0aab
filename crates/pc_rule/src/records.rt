//! What a pass records: the calls that it made, and the one that its running operation is to record.
ghost use Rattle.std.specs.Prelude.{◌≡◌, ◌+◌, ◌-◌, ◌<◌, ◌≤◌, ◌++◌, None, Some, length};
ghost use Rattle.pc_rule.specs.Carrying.{HasTakenEffect};
ghost use Rattle.pc_rule.specs.Passes.{whole, view, share_of, recorded, carried, taken_down, OnlyCarried, OnlyRecorded};

use crate::board::Pass;
use pc_model::{Call, Entry, Reply, Shape};

/// A call with its reply, which is recorded where its operation takes effect.
#[derive(Clone, Copy, Debug, PartialEq, Eq)]
pub struct Carried {
    /// What was asked.
    pub call: Call,
    /// What is answered.
    pub reply: Reply,
}

/// The calls that a pass recorded, and the one that its running operation is to record.
#[derive(Drop)]
pub(crate) struct Records {
    pub(crate) entries: Vec<Entry>,
    pub(crate) carried: Option<Carried>,
}

impl<H: Shape> Pass<H> {
    /// The call that its running operation is to record, with the reply.
    pub fn carried(&self) -> Option<Carried>
        ensures { result ≡ carried self.now }
    {
        self.records.carried
    }

    /// The number of the call that it records next, for which there is room.
    fn next_number(&self) -> u32
        requires room { length (recorded self.now) < (share_of self.now).calls }
        ensures { result ≡ length (recorded self.now) + 1 }
    {
        self.share.calls - self.room() + 1
    }

    /// Takes a call along with its reply: where the running operation takes effect, it is recorded. There must be room for it, and
    /// none is taken along yet.
    pub fn carry(&mut self, call: Call, reply: Reply)
        requires room { 1 ≤ (share_of self.old).calls - length (recorded self.old) }
        requires nothing { carried self.old ≡ None }
        ensures only { OnlyCarried self.old self.new }
        ensures carried { carried self.new ≡ Some (record { call = call; reply = reply }) }
    {
        self.records.carried = Some(Carried { call, reply });
    }

    /// Drops what it takes along.
    pub fn drop_carried(&mut self)
        ensures only { OnlyCarried self.old self.new }
        ensures none { carried self.new ≡ None }
    {
        self.records.carried = None;
    }

    /// Records what it takes along, where it does, as its next call, at a stamp at which an exchange or a read of its own is known to
    /// have taken effect.
    pub fn take_down(&mut self, stamp: u64)
        requires effect { HasTakenEffect (whole self.old) stamp }
        ensures only { OnlyRecorded self.old self.new }
        ensures few { length (recorded self.old) ≤ (share_of self.old).calls → length (recorded self.new) ≤ (share_of self.new).calls }
        ensures recorded { recorded self.new ≡ recorded self.old ++ taken_down self.old stamp }
        ensures none { carried self.new ≡ None }
    {
        let Some(carried) = self.records.carried else {
            return;
        };
        let pass = self.number();
        let number = self.next_number();
        self.records.entries.push_reserved(Entry {
            pass,
            number,
            call: carried.call,
            reply: carried.reply,
            stamp,
        });
        self.records.carried = None;
    }
}
