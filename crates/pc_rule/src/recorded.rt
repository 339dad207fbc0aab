//! What a pass has of a board, and the calls that it recorded.
ghost use Rattle.std.specs.Prelude.{IfOk, ◌≡◌, [], ◌+◌, ◌-◌, ◌<◌, ◌≤◌, not, None, is_some, length, vec_capacity};
ghost use mathlib.Core.Option.{some};
ghost use lib.ListN.{get_elem?};
ghost use Rattle.pc_rule.specs.Passes.{view, path, slots, share_of, recorded};
ghost use Rattle.pc_rule.specs.Recorded.{calls_of};
ghost use Rattle.pc_rule_law.specs.declared.share.Share.{Share as Part};

use crate::board::Pass;
use pc_model::{Entry, Shape};
use pc_rule_law::Share;
use std::alloc::{AllocError, Global};

/// The same shares, on their own.
pub(crate) fn copied(alloc: Global, shares: &[Share]) -> Result<Vec<Share>, AllocError>
    ensures { IfOk result (λ r. r.items ≡ shares.now) }
{
    let mut kept = Vec::new(alloc);
    kept.extend_from_slice(shares)?;
    Ok(kept)
}

/// For how many calls these shares have room.
fn all_calls(shares: &[Share]) -> usize
    requires { length shares.now ≤ 32 }
    ensures { result ≡ calls_of shares.now }
{
    let mut calls = 0;
    let mut i = 0;
    while i < shares.len() {
        calls += shares[i].calls as usize;
        i += 1;
    }
    calls
}

/// For how many calls the pass at a seat has room: for its own, and at the highest seat for those of all passes.
fn calls_at(shares: &[Share], seat: usize) -> usize
    requires few { length shares.now ≤ 32 }
    requires seat { seat < length shares.now }
    ensures own { (s : Part) → get_elem? shares.now seat ≡ some s → s.calls ≤ result }
    ensures all { seat + 1 ≡ length shares.now → result ≡ calls_of shares.now }
{
    if seat + 1 < shares.len() {
        return shares[seat].calls as usize;
    }
    all_calls(shares)
}

/// The room for the calls of the pass at a seat, in which none is recorded yet.
pub(crate) fn room_for(
    alloc: Global,
    shares: &[Share],
    seat: usize,
) -> Result<Vec<Entry>, AllocError>
    requires few { length shares.now ≤ 32 }
    requires seat { seat < length shares.now }
    ensures none { IfOk result (λ r. r.items ≡ []) }
    ensures own { IfOk result (λ r. (s : Part) → get_elem? shares.now seat ≡ some s → s.calls ≤ vec_capacity r) }
    ensures all { IfOk result (λ r. seat + 1 ≡ length shares.now → calls_of shares.now ≤ vec_capacity r) }
{
    let entries = Vec::with_capacity(alloc, calls_at(shares, seat))?;
    Ok(entries)
}

impl<H: Shape> Pass<H> {
    /// The calls that it recorded: none, until calls are recorded.
    pub fn entries(&self) -> &[Entry]
        ensures { result.now ≡ recorded self.now }
    {
        self.records.entries.as_slice()
    }

    /// How many calls can still be recorded.
    pub fn room(&self) -> u32
        ensures { result ≡ (share_of self.now).calls - length (recorded self.now) }
    {
        let recorded = self.records.entries.len();
        (self.share.calls as usize).saturating_sub(recorded) as u32
    }

    /// How many slots of its share are free, as it hasn't taken them yet.
    pub fn free(&self) -> u32
        ensures { result ≡ (slots self.now).until - (slots self.now).next }
    {
        self.slots.until - self.slots.next
    }

    /// Whether it has a spare, a slot that it took for a new node.
    pub fn has_spare(&self) -> bool
        ensures { result ≡ is_some (slots self.now).spare }
    {
        self.slots.spare.is_some()
    }

    /// How many slots it retired that aren't free yet: none, until passes retire slots.
    pub fn limbo(&self) -> u32
        ensures { result ≡ 0 }
    {
        0
    }

    /// Whether it is at rest: it has begun no operation, or ended the last one.
    pub fn at_rest(&self) -> bool
        ensures { result ≡ not (path self.now).begun }
    {
        !self.begun
    }

    /// Whether it has published an exchange that isn't finished.
    pub fn published(&self) -> bool
        ensures { result ≡ (view self.now).attempt.published }
    {
        self.published
    }

    /// How many keys it owes a repair: none, until exchanges charge keys.
    pub fn debts(&self) -> u32
        ensures { result ≡ 0 }
    {
        0
    }

    /// The number from which on it owes every key a repair: none, until exchanges charge keys.
    pub fn owes_from(&self) -> Option<u64>
        ensures { result ≡ None }
    {
        None
    }
}
