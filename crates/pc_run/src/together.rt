//! Several clients on one map behind a lock, each in a thread of its own. What they did behind the lock no clause
//! tells; that each call was made once, in its client's order, tests show.
ghost use Rattle.std.specs.Prelude.{◌≡◌, ◌≤◌, length, All, IfOk};
ghost use Rattle.pc_pool.specs.Working.{IsFresh, up_to};
ghost use Rattle.pc_text.specs.ScriptFacts.{AreFew, AreInRange};
ghost use Rattle.pc_run.specs.Runs.{IsSettled};
ghost use Rattle.pc_run.specs.Shares.{lists_of};

use crate::shares::room_for;
use pc_avl::TreeKind;
use pc_edge::Gate;
use pc_locked::{LockedMap, LockedState, settle};
use pc_model::{Call, Memory};
use pc_pool::{Worker, run_clients};
use pc_text::MOST_CLIENTS;
use std::alloc::Global;
use std::marker::Model;
use std::sync::Wait;
use std::thread::Threads;

/// A client that shares the map with others. A call that is refused stops it.
#[derive(Drop)]
struct Sharer<'a> {
    map: &'a LockedMap,
    tree: TreeKind,
    client: u32,
    calls: &'a [Call],
    done: u32,
    stopped: bool,
}

impl<'a> Model for Sharer<'a> {
    ghost use Rattle.pc_run.specs.Together.{IsDoable, SharerView};

    ghost Value = { SharerView };

    ghost view = { λ w. record {
      client = w.client;
      calls = w.calls.now;
      done = w.done;
      stopped = w.stopped;
    } };

    ghost invariant = { λ w. IsDoable w.client w.calls.now };
}

impl Worker for Sharer<'_> {
    ghost use Rattle.std.specs.Prelude.{length};
    ghost use Rattle.pc_pool.specs.Working.{up_to};
    ghost use Rattle.pc_run.specs.Together.{SharerTask};

    ghost Task = { SharerTask };

    ghost task = { λ w. record { client = w.client; calls = w.calls } };

    ghost client_of = { λ task. task.client };

    ghost commands_of = { λ task. length task.calls };

    ghost done = { λ w. up_to w.done };

    ghost stopped = { λ w. w.stopped };

    fn client(&self) -> u32 {
        self.client
    }

    fn commands(&self) -> u32 {
        self.calls.len() as u32
    }

    #[tactic(auto, using(pc_pool::proofs::UpTo::up_to_next))]
    fn step<R: Threads + Wait + Sync>(&mut self, rt: &R, number: u32) -> bool {
        let call = self.calls[number as usize - 1];
        let is_made = if may_owe(self.tree, call) {
            self.map.call_and_settle(rt, self.client, call).is_ok()
        } else {
            self.map.call(rt, self.client, call).is_ok()
        };
        self.done = number;
        self.stopped = !is_made;
        is_made
    }
}

// Whether a call may bring keys into debt.
fn may_owe(tree: TreeKind, call: Call) -> bool {
    tree == TreeKind::Avl && matches!(call, Call::Put { .. } | Call::Remove { .. })
}

/// Runs the calls of all clients beside each other on one map, whose tree is of this kind, and pays what is owed
/// then.
pub fn run_together<R: Threads + Wait + Sync, G: Gate + Sync>(
    rt: &R,
    alloc: Global,
    tree: TreeKind,
    lists: &[Vec<Call>],
    gate: &G,
) -> Result<LockedState, Memory>
    requires clients { length lists.now ≤ MOST_CLIENTS }
    requires few { AreFew (lists_of lists.now) }
    requires in_range { AreInRange (lists_of lists.now) }
    ensures kind { IfOk result (λ map. map.kind ≡ tree) }
    ensures settled { IfOk result IsSettled }
{
    let room = room_for(lists);
    let map = LockedMap::new(alloc, tree, room.slots, room.calls)?;
    let mut sharers = sharers_of(alloc, &map, tree, lists)?;
    run_clients(rt, &mut sharers, gate);
    drop(sharers);
    let mut state = map.into_state();
    settle(rt, &mut state);
    Ok(state)
}

// A worker for each client, none of which has begun.
fn sharers_of<'a>(
    alloc: Global,
    map: &'a LockedMap,
    tree: TreeKind,
    lists: &'a [Vec<Call>],
) -> Result<Vec<Sharer<'a>>, Memory>
    requires clients { length lists.now ≤ MOST_CLIENTS }
    requires few { AreFew (lists_of lists.now) }
    requires in_range { AreInRange (lists_of lists.now) }
    ensures fresh { IfOk result (λ sharers. All (λ w. IsFresh (up_to w.done) w.stopped) sharers.items) }
{
    let Ok(mut sharers) = Vec::with_capacity(alloc, lists.len()) else {
        return Err(Memory);
    };
    for (place, calls) in lists.iter().enumerate() {
        sharers.push_reserved(Sharer {
            map,
            tree,
            client: place as u32 + 1,
            calls,
            done: 0,
            stopped: false,
        });
    }
    Ok(sharers)
}
