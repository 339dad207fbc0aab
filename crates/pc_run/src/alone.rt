//! One client on a map of its own, which needs no lock: what it runs is known to the last entry.
ghost use Rattle.std.specs.Prelude.{◌≡◌, ◌+◌, ◌<◌, ◌≤◌, ◌∷◌, [], ◌++◌, length, All, IfOk};
ghost use Rattle.pc_model.specs.History.{IsHistoryOf};
ghost use Rattle.pc_model.specs.Map.{reply_of};
ghost use Rattle.pc_model.specs.Replay.{fold_of};
ghost use Rattle.pc_text.specs.ScriptFacts.{IsCallInRange};
ghost use Rattle.pc_locked.specs.States.{HasRoom, IsSameMap, next_entry};
ghost use Rattle.pc_run.specs.Runs.{IsSettled};

use crate::shares::share_of;
use pc_avl::TreeKind;
use pc_edge::Gate;
use pc_locked::{LockedState, apply, open_state, settle};
use pc_model::{Call, Memory};
use pc_pool::{Worker, run_client};
use pc_text::MOST_COMMANDS;
use std::alloc::Global;
use std::marker::Model;
use std::sync::Wait;
use std::thread::Threads;

/// Client 1, which has the map for itself. It has done as many steps as there are entries.
#[derive(Drop)]
struct Lone<'a> {
    map: LockedState,
    calls: &'a [Call],
}

impl<'a> Model for Lone<'a> {
    ghost use Rattle.pc_run.specs.Alone.{HasRunFirst, LoneView};

    ghost Value = { LoneView };

    ghost view = { λ w. record { map = w.map; calls = w.calls.now } };

    ghost invariant = { λ w. HasRunFirst w.calls.now w.map };
}

impl Lone<'_> {
    // The map, once all calls were run.
    fn into_map(self) -> LockedState
        requires all { length self.map.entries ≡ length self.calls }
        ensures whole { IsHistoryOf (self.entry.calls ∷ []) result.entries }
        ensures kind { result.kind ≡ self.entry.map.kind }
        ensures settled { IsSettled result }
    {
        let Lone { map, .. } = self;
        let _right = map.history();
        map
    }
}

impl Worker for Lone<'_> {
    ghost use Rattle.std.specs.Prelude.{false, length};
    ghost use Rattle.pc_pool.specs.Working.{up_to};
    ghost use Rattle.pc_run.specs.Alone.{LoneTask};

    ghost Task = { LoneTask };

    ghost task = { λ w. record { kind = w.map.kind; calls = w.calls } };

    ghost client_of = { λ task. 1 };

    ghost commands_of = { λ task. length task.calls };

    ghost done = { λ w. up_to (length w.map.entries) };

    ghost stopped = { λ w. false };

    fn client(&self) -> u32 {
        1
    }

    fn commands(&self) -> u32 {
        self.calls.len() as u32
    }

    fn step<R: Threads + Wait + Sync>(&mut self, rt: &R, number: u32) -> bool {
        let call = self.calls[number as usize - 1];
        run_call(rt, &mut self.map, call);
        true
    }
}

/// Runs the calls of client 1 on a map of its own, whose tree is of this kind.
pub fn run_alone<R: Threads + Wait + Sync, G: Gate + Sync>(
    rt: &R,
    alloc: Global,
    tree: TreeKind,
    calls: &[Call],
    gate: &G,
) -> Result<LockedState, Memory>
    requires few { length calls.now ≤ MOST_COMMANDS }
    requires in_range { All IsCallInRange calls.now }
    ensures whole { IfOk result (λ map. IsHistoryOf (calls.now ∷ []) map.entries) }
    ensures kind { IfOk result (λ map. map.kind ≡ tree) }
    ensures settled { IfOk result IsSettled }
{
    let map = open_state(alloc, tree, share_of(calls), calls.len() as u32)?;
    let mut lone = Lone { map, calls };
    run_client(rt, &mut lone, gate);
    Ok(lone.into_map())
}

// Runs a call of client 1 on a map that has a slot left, and then pays what is owed.
fn run_call<R: Wait>(rt: &R, map: &mut LockedState, call: Call)
    requires room { HasRoom map.old }
    requires slots { length (fold_of map.old.entries) < map.old.cells.slots }
    requires in_range { IsCallInRange call }
    ensures entries { map.new.entries ≡ map.old.entries
        ++ next_entry map.old.entries 1 call (reply_of call (fold_of map.old.entries)) ∷ [] }
    ensures same { IsSameMap map.old map.new }
    ensures settled { IsSettled map.new }
{
    match apply(map, 1, call) {
        Ok(_) => settle(rt, map),
        Err(_) => unreachable!(),
    }
}
