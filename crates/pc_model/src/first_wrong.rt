//! Replaying a list of entries on an ordered map, to see whether each reply is the map's.
ghost use Rattle.std.specs.Prelude.{◌≡◌, ◌↔◌, None, IfOk, IfSome, OnOk};
ghost use Rattle.pc_model.specs.Map.{reply_of, pairs_after, value_at, put, ceil_of, floor_of, was_or_new};
ghost use Rattle.pc_model.specs.Map.{value_or_nothing, pair_or_nothing};
ghost use Rattle.pc_model.specs.Replay.{IsRight};
ghost use Rattle.pc_model.specs.FirstWrong.{IsFirstWrong};

use crate::call::{Call, Entry, Memory, Reply};
use std::alloc::Global;
use std::collections::BTreeMap;

/// The first entry of a list whose reply is wrong.
#[derive(Clone, Copy, Debug, PartialEq, Eq)]
pub struct Wrong {
    /// The place of the entry in the list, from 0.
    pub place: usize,
    /// What an ordered map replies there.
    pub expected: Reply,
}

/// Finds the first entry whose reply isn't the ordered map's at its place, from the empty map on.
pub fn replay(alloc: Global, list: &[Entry]) -> Result<Option<Wrong>, Memory>
    ensures right { IfOk result (λ found. (found ≡ None) ↔ IsRight list.now) }
    ensures wrong { IfOk result (λ found. IfSome found (IsFirstWrong list.now)) }
{
    let mut map = BTreeMap::new(alloc);
    for (place, entry) in list.iter().enumerate() {
        let expected = answer(&mut map, entry.call)?;
        if expected != entry.reply {
            return Ok(Some(Wrong { place, expected }));
        }
    }
    Ok(None)
}

// Makes a call on the map, and gives the map's reply.
fn answer(map: &mut BTreeMap<u64, u64>, call: Call) -> Result<Reply, Memory>
    ensures reply { IfOk result (λ reply. reply ≡ reply_of call map.old.entries) }
    ensures pairs { OnOk result (map.new.entries ≡ pairs_after call map.old.entries) }
{
    match call {
        Call::Put { key, value } => put(map, key, value),
        Call::Get { key } => Ok(value_reply(map.get(&key).copied())),
        Call::Remove { key } => Ok(value_reply(map.remove(&key))),
        Call::Ceil { key } => Ok(pair_reply(ceil(map, key))),
        Call::Floor { key } => Ok(pair_reply(floor(map, key))),
    }
}

// Puts a value at a key.
fn put(map: &mut BTreeMap<u64, u64>, key: u64, value: u64) -> Result<Reply, Memory>
    ensures reply { IfOk result (λ reply. reply ≡ was_or_new (value_at key map.old.entries)) }
    ensures pairs { OnOk result (map.new.entries ≡ put key value map.old.entries) }
{
    match map.insert(key, value) {
        Ok(Some(old)) => Ok(Reply::Was(old)),
        Ok(None) => Ok(Reply::New),
        Err(_) => Err(Memory),
    }
}

// The pair with the least key that is at least this one.
fn ceil(map: &BTreeMap<u64, u64>, key: u64) -> Option<(u64, u64)>
    ensures { result ≡ ceil_of key map.now.entries }
{
    let (key, value) = map.range(key..).next()?;
    Some((*key, *value))
}

// The pair with the greatest key that is at most this one.
fn floor(map: &BTreeMap<u64, u64>, key: u64) -> Option<(u64, u64)>
    ensures { result ≡ floor_of key map.now.entries }
{
    let (key, value) = map.range(..=key).next_back()?;
    Some((*key, *value))
}

// The reply with a value that was found.
fn value_reply(found: Option<u64>) -> Reply
    ensures { result ≡ value_or_nothing found }
{
    match found {
        Some(value) => Reply::Value(value),
        None => Reply::None,
    }
}

// The reply with a pair that was found.
fn pair_reply(found: Option<(u64, u64)>) -> Reply
    ensures { result ≡ pair_or_nothing found }
{
    match found {
        Some((key, value)) => Reply::Pair(key, value),
        None => Reply::None,
    }
}
