//! The map for callers in several threads: the whole map with its history stands under one lock, so that one call at
//! a time runs on it. Each time that the lock is taken, what is under it is a right state of the map's kind of tree.
ghost use Rattle.std.specs.Prelude.{◌≡◌, ◌≤◌, IfOk};
ghost use Rattle.std.specs.Int.{IsInRange};
ghost use Rattle.pc_text.specs.ScriptFacts.{IsCallInRange};
ghost use Rattle.pc_locked.specs.Kinds.{kind_numbered};
ghost use Rattle.pc_locked.specs.States.{IsRightState};

use crate::fault::LockedFault;
use crate::payment::settle;
use crate::state::{LockedState, open_state, try_apply};
use pc_avl::TreeKind;
use pc_model::{Call, Memory, Reply};
use std::alloc::Global;
use std::marker::Model;
use std::sync::{Mutex, Wait};

/// The number of the plain kind of tree.
const PLAIN: u8 = TreeKind::Bst as u8;

/// The number of the balanced kind of tree.
const BALANCED: u8 = TreeKind::Avl as u8;

/// The map under the lock, with its kind of tree as a number, since a type can't take a kind itself.
#[derive(Drop)]
struct Kept<const KIND: u8> {
    state: LockedState,
    ghost of_kind: { state.kind ≡ kind_numbered KIND },
}

/// The lock, with the kind of tree that stands under it.
#[derive(Drop)]
enum Locked {
    Plain(Mutex<Kept<PLAIN>>),
    Balanced(Mutex<Kept<BALANCED>>),
}

/// An ordered map that threads share, with the history of their calls and what it owes. In a clause it is its kind of
/// tree, which never changes.
#[derive(Drop)]
pub struct LockedMap {
    kept: Locked,
}

impl Model for LockedMap {
    ghost use Rattle.pc_avl.specs.declared.tree_kind.TreeKind.{TreeKind};

    ghost Value = { TreeKind };

    ghost use Rattle.pc_locked.specs.LockedKinds.{kind_under};

    ghost view = { λ map. kind_under map.kept };
}

impl LockedMap {
    /// Opens a map with an empty tree of this kind, which has so many slots, and with room for so many entries.
    pub fn new(alloc: Global, kind: TreeKind, slots: u32, calls: u32) -> Result<LockedMap, Memory>
        requires { slots ≤ 61000 }
        ensures { IfOk result (λ map. map ≡ kind) }
    {
        let state = open_state(alloc, kind, slots, calls)?;
        let kept = match kind {
            TreeKind::Bst => Locked::Plain(Mutex::new(Kept { state })),
            TreeKind::Avl => Locked::Balanced(Mutex::new(Kept { state })),
        };
        Ok(LockedMap { kept })
    }

    /// Makes a call of the map for a pass by [`try_apply`], while no other call runs. It waits for those that do.
    ///
    /// No clause can tell what was done under the lock. Tests show that the reply or the refusal is that of
    /// `try_apply`, and that the history has the entry.
    pub fn call<R: Wait>(&self, rt: &R, pass: u32, call: Call) -> Result<Reply, LockedFault>
        requires pass { IsInRange 1 32 pass }
        requires call { IsCallInRange call }
    {
        match &self.kept {
            Locked::Plain(lock) => call_under(rt, lock, pass, call),
            Locked::Balanced(lock) => call_under(rt, lock, pass, call),
        }
    }

    /// Repairs until nothing is owed, by [`pay`], while no other call runs. Whether that ends isn't promised.
    ///
    /// No clause can tell what was done under the lock. Tests show that nothing is owed then.
    pub fn settle<R: Wait>(&self, rt: &R) {
        match &self.kept {
            Locked::Plain(lock) => settle_under(rt, lock),
            Locked::Balanced(lock) => settle_under(rt, lock),
        }
    }

    /// Makes a call as [`LockedMap::call`] does and, where it isn't refused, repairs until nothing is owed as
    /// [`LockedMap::settle`] does, before any other call runs: the lock is taken once for both.
    ///
    /// No clause can tell what was done under the lock. Tests show what they show of the two.
    pub fn call_and_settle<R: Wait>(
        &self,
        rt: &R,
        pass: u32,
        call: Call,
    ) -> Result<Reply, LockedFault>
        requires pass { IsInRange 1 32 pass }
        requires call { IsCallInRange call }
    {
        match &self.kept {
            Locked::Plain(lock) => call_and_settle_under(rt, lock, pass, call),
            Locked::Balanced(lock) => call_and_settle_under(rt, lock, pass, call),
        }
    }

    /// Gives the map with its history, which no thread shares any more.
    pub fn into_state(self) -> LockedState
        ensures kind { result.kind ≡ self }
        ensures right { IsRightState result }
    {
        match self.kept {
            Locked::Plain(lock) => state_of(lock.into_inner()),
            Locked::Balanced(lock) => state_of(lock.into_inner()),
        }
    }
}

/// Makes a call of the map under the lock.
fn call_under<R: Wait, const KIND: u8>(
    rt: &R,
    lock: &Mutex<Kept<KIND>>,
    pass: u32,
    call: Call,
) -> Result<Reply, LockedFault>
    requires pass { IsInRange 1 32 pass }
    requires call { IsCallInRange call }
{
    try_apply(&mut lock.lock(rt).state, pass, call)
}

/// Repairs until nothing is owed, under the lock.
fn settle_under<R: Wait, const KIND: u8>(rt: &R, lock: &Mutex<Kept<KIND>>) {
    settle(rt, &mut lock.lock(rt).state);
}

/// Makes a call of the map under the lock, and repairs then until nothing is owed.
fn call_and_settle_under<R: Wait, const KIND: u8>(
    rt: &R,
    lock: &Mutex<Kept<KIND>>,
    pass: u32,
    call: Call,
) -> Result<Reply, LockedFault>
    requires pass { IsInRange 1 32 pass }
    requires call { IsCallInRange call }
{
    let mut kept = lock.lock(rt);
    let reply = try_apply(&mut kept.state, pass, call)?;
    settle(rt, &mut kept.state);
    Ok(reply)
}

/// Takes the map out of what was under the lock.
fn state_of<const KIND: u8>(kept: Kept<KIND>) -> LockedState
    ensures kind { result.kind ≡ kind_numbered KIND }
    ensures right { IsRightState result }
{
    let Kept { state } = kept;
    let _ = state.history();
    state
}
