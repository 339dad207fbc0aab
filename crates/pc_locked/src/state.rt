//! A map that keeps its history and its debts.
ghost use Rattle.std.specs.Prelude.{◌≡◌, ◌≤◌, ◌<◌, ◌+◌, ◌-◌, ◌∷◌, [], ◌++◌, length};
ghost use Rattle.std.specs.Prelude.{IfOk, IfErr, OnErr, OnOk, slice_index, slice_set};
ghost use Rattle.std.specs.Int.{IsInRange};
ghost use Rattle.pc_model.specs.Map.{reply_of};
ghost use Rattle.pc_model.specs.Replay.{fold_of};
ghost use Rattle.pc_text.specs.ScriptFacts.{IsCallInRange};
ghost use Rattle.pc_locked.specs.Answers.{AreCharged, IsRefusal, WantsSlotInVain};
ghost use Rattle.pc_avl.specs.declared.tree_kind.TreeKind.TheVariants.{Avl};
ghost use Rattle.pc_locked.specs.Repairs.{IsInFullBalance};
ghost use Rattle.pc_locked.specs.States.{AreCounts, HasRoom, IsOpened, IsRightState, IsSameMap, next_entry};

use crate::answer::answer;
use crate::fault::LockedFault;
use pc_avl::TreeKind;
use pc_model::{Call, Entry, Memory, Owed, Reply};
use pc_plain::{NoPlainSlot, PlainCells};
use std::alloc::Global;
use std::marker::Model;

/// A map of either tree kind, with the history of its calls and what it owes.
#[derive(Drop)]
pub struct LockedState {
    kind: TreeKind,
    pub(crate) cells: PlainCells,
    entries: Vec<Entry>,
    /// For how many entries there is room in all.
    calls: u32,
    pub(crate) owed: Owed,
    /// How many entries each pass has, pass 1's first.
    counts: [u32; 32],
}

impl Model for LockedState {
    ghost use Rattle.std.specs.Prelude.{◌≤◌, vec_capacity};
    ghost use Rattle.pc_locked.specs.States.{MapState, IsRightState, AreCounts};

    ghost Value = { MapState };

    ghost view = { λ s. record {
      kind = s.kind;
      cells = s.cells;
      entries = s.entries.items;
      calls = s.calls;
      owed = s.owed;
    } };

    ghost invariant = { λ s.
        IsRightState (record {
          kind = s.kind;
          cells = s.cells;
          entries = s.entries.items;
          calls = s.calls;
          owed = s.owed;
        })
        × AreCounts s.counts s.entries.items × (s.calls ≤ vec_capacity s.entries) };
}

impl LockedState {
    /// The entries of the calls so far, by their stamps.
    pub fn history(&self) -> &[Entry]
        ensures entries { result.now ≡ self.now.entries }
        ensures right { IsRightState self.now }
    {
        self.entries.as_slice()
    }

    /// The cells of the tree.
    pub fn cells(&self) -> &PlainCells
        ensures cells { result.now ≡ self.now.cells }
        ensures right { IsRightState self.now }
    {
        &self.cells
    }

    /// For how many entries more there is room.
    pub fn room(&self) -> u32
        ensures { result ≡ self.now.calls - length self.now.entries }
    {
        self.calls - self.entries.len() as u32
    }
}

/// Opens a map with an empty tree of this kind, which has so many slots, and with room for so many entries.
pub fn open_state(
    alloc: Global,
    kind: TreeKind,
    slots: u32,
    calls: u32,
) -> Result<LockedState, Memory>
    requires { slots ≤ 61000 }
    ensures opened { IfOk result (IsOpened kind slots calls) }
    ensures balanced { IfOk result (λ s. kind ≡ Avl → IsInFullBalance s.cells) }
{
    let cells = PlainCells::new(alloc, slots)?;
    let Ok(entries) = Vec::with_capacity(alloc, calls as usize) else {
        return Err(Memory);
    };
    Ok(LockedState {
        kind,
        cells,
        entries,
        calls,
        owed: Owed::none(),
        counts: [0; 32],
    })
}

/// Makes a call of the map for a pass, and enters it behind the others. It takes no memory.
pub fn apply(state: &mut LockedState, pass: u32, call: Call) -> Result<Reply, NoPlainSlot>
    requires pass { IsInRange 1 32 pass }
    requires call { IsCallInRange call }
    requires room { HasRoom state.old }
    ensures same { IsSameMap state.old state.new }
    ensures reply { IfOk result (λ reply. reply ≡ reply_of call (fold_of state.old.entries)) }
    ensures entry { IfOk result (λ reply. state.new.entries
        ≡ state.old.entries ++ next_entry state.old.entries pass call reply ∷ []) }
    ensures charged { OnOk result (AreCharged state.old.owed state.new.owed) }

    // Exactly where the key is new and every slot has a pair.
    ensures granted { OnOk result
        (WantsSlotInVain call (fold_of state.old.entries) state.old.cells.slots → ⊥) }
    ensures refused { OnErr result
        (WantsSlotInVain call (fold_of state.old.entries) state.old.cells.slots) }
    ensures live { IfErr result (λ e. e.live ≡ state.old.cells.slots) }
    ensures stays { OnErr result (state.new ≡ state.old) }
{
    let reply = answer(state.kind, &mut state.cells, &mut state.owed, call)?;
    let number = count_one(&mut state.counts, pass);
    let stamp = state.entries.len() as u64 + 1;
    state.entries.push_reserved(Entry {
        pass,
        number,
        call,
        reply,
        stamp,
    });
    Ok(reply)
}

/// Makes a call of the map for a pass, as [`apply`], where there is room for its entry. A refusal changes nothing. It
/// takes no memory.
pub fn try_apply(state: &mut LockedState, pass: u32, call: Call) -> Result<Reply, LockedFault>
    requires pass { IsInRange 1 32 pass }
    requires call { IsCallInRange call }
    ensures same { IsSameMap state.old state.new }
    ensures reply { IfOk result (λ reply. reply ≡ reply_of call (fold_of state.old.entries)) }
    ensures entry { IfOk result (λ reply. state.new.entries
        ≡ state.old.entries ++ next_entry state.old.entries pass call reply ∷ []) }
    ensures charged { OnOk result (AreCharged state.old.owed state.new.owed) }

    // Exactly where as many entries are held as there is room for, or the key is new and every slot has a pair.
    ensures room { OnOk result (HasRoom state.old) }
    ensures granted { OnOk result
        (WantsSlotInVain call (fold_of state.old.entries) state.old.cells.slots → ⊥) }
    ensures refused { IfErr result (IsRefusal call state.old) }
    ensures stays { OnErr result (state.new ≡ state.old) }
{
    if state.room() == 0 {
        return Err(LockedFault::Room { calls: state.calls });
    }
    Ok(apply(state, pass, call)?)
}

/// Counts one entry more of a pass, and answers how many it has then.
fn count_one(counts: &mut [u32; 32], pass: u32) -> u32
    requires pass { IsInRange 1 32 pass }
    requires room { slice_index counts.old (pass - 1) < 4294967295 }
    ensures number { result ≡ slice_index counts.old (pass - 1) + 1 }
    ensures counts { counts.new ≡ slice_set counts.old (pass - 1) result }
{
    let place = pass as usize - 1;
    counts[place] += 1;
    counts[place]
}
