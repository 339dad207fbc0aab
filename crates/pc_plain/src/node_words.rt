//! The words of nodes in two lists, four a node in each: how one word, a fresh node and the words of an
//! exchange are written.
ghost use Rattle.std.specs.Prelude.{◌≡◌, ◌+◌, ◌*◌, ◌^◌, ◌<◌, ◌≤◌, [], ◌++◌, length, vec_len, vec_capacity};
ghost use Rattle.std.specs.Prelude.{IfOk, IfSome, IfNone, IsSome, option_to_list};
ghost use Rattle.pc_model.specs.Cells.{written, with_node};
ghost use Rattle.pc_plan.specs.Runs.{number_at, fresh_fields};
ghost use Rattle.pc_plain.specs.PlainCells.{cells_in, is_near, place_of, kept};
ghost use Rattle.pc_plain.specs.PlainWriting.{with_adds, CanTakeSlot, TakesSlot, ReachWords, AddsReach};
ghost use Rattle.pc_plain.specs.PlainWriting.{OpensCells, HasEachSlot};

use pc_model::{Field, Memory};
use pc_plan::{Add, Fresh, SENTINEL, To};
use std::alloc::Global;
use std::marker::Model;

/// From this version on a version is set back.
const VERSION_LIMIT: u64 = 1152921504606846970;

/// The key of the sentinel, above every key.
const SENTINEL_KEY: u64 = 4611686018427387903;

/// The words of nodes. Those that a walk reads stand in a list of their own, so that more of them are at hand: a node
/// has half a line of the cache there.
#[derive(Debug, Drop)]
pub struct NodeWords {
    /// The version, the key and the links of each node.
    near: Vec<u64>,
    /// The value, the parent, the height and the spare word of each node.
    far: Vec<u64>,
}

impl Model for NodeWords {
    ghost use Rattle.std.specs.Prelude.{◌≡◌, length};
    ghost use Rattle.pc_plain.specs.PlainCells.{SplitWords};

    ghost Value = { SplitWords };

    ghost view = { λ w. record { near = w.near.items; far = w.far.items } };

    ghost invariant = { λ w. length w.near.items ≡ length w.far.items };
}

/// Whether a walk reads the field.
#[inline]
fn is_near(field: Field) -> bool
    ensures { result ≡ is_near field }
{
    matches!(
        field,
        Field::Version | Field::Key | Field::Left | Field::Right
    )
}

/// The place of a field's word among the four of its node.
#[inline]
fn place_of(field: Field) -> usize
    ensures { result ≡ place_of field }
{
    match field {
        Field::Version | Field::Value => 0,
        Field::Key | Field::Parent => 1,
        Field::Left | Field::Height => 2,
        Field::Right | Field::Spare => 3,
    }
}

/// The word of a node's field.
#[inline]
pub fn word(words: &NodeWords, node: u32, field: Field) -> u64
    requires { ReachWords node (length words.now.near) }
    ensures { result ≡ cells_in words.now node field }
{
    let at = 4 * node as usize + place_of(field);
    if is_near(field) {
        words.near[at]
    } else {
        words.far[at]
    }
}

/// Writes a number into a node's field.
#[inline]
pub fn write(words: &mut NodeWords, node: u32, field: Field, number: u64)
    requires { ReachWords node (length words.old.near) }
    ensures cells { cells_in words.new ≡ written node field number (cells_in words.old) }
    ensures long { length words.new.near ≡ length words.old.near }
    ensures even { length words.new.near ≡ length words.new.far }
{
    let at = 4 * node as usize + place_of(field);
    if is_near(field) {
        words.near[at] = number;
    } else {
        words.far[at] = number;
    }
}

/// The number that a field gets: a version that is too great is set back.
#[inline]
fn kept_number(field: Field, number: u64) -> u64
    ensures { result ≡ kept field number }
{
    if field == Field::Version && number >= VERSION_LIMIT {
        number % 2
    } else {
        number
    }
}

#[inline]
fn number_for(slot: u32, to: To) -> u64
    ensures { result ≡ number_at slot to }
{
    match to {
        To::Number(number) => number,
        To::Fresh => u64::from(slot),
    }
}

/// Writes the fields of a fresh node, one version above its slot's.
#[inline]
fn write_fresh(words: &mut NodeWords, slot: u32, version: u64, fresh: Fresh)
    requires reach { ReachWords slot (length words.old.near) }
    requires room { version + 1 < 2 ^ 64 }
    ensures cells { cells_in words.new ≡
        with_node slot (λ f. kept f (fresh_fields version fresh f)) (cells_in words.old) }
    ensures long { length words.new.near ≡ length words.old.near }
    ensures parent { fresh.parent < 2 ^ 32 }
{
    write(
        words,
        slot,
        Field::Version,
        kept_number(Field::Version, version + 1),
    );
    write(words, slot, Field::Key, fresh.key);
    write(words, slot, Field::Value, fresh.value);
    write(words, slot, Field::Left, 0);
    write(words, slot, Field::Right, 0);
    write(words, slot, Field::Parent, u64::from(fresh.parent));
    write(words, slot, Field::Height, fresh.height);
    write(words, slot, Field::Spare, 0);
}

/// Takes the stack's last slot for a fresh node, where there is one, and writes the node there.
/// Answers none where there is a fresh node and no slot.
pub fn take_slot(words: &mut NodeWords, free: &mut Vec<u32>, fresh: Option<Fresh>) -> Option<u32>
    requires { CanTakeSlot words.old free.old.items }
    ensures some { IfSome result (TakesSlot fresh words.old words.new free.old.items free.new.items) }
    ensures none { IfNone result (IsSome fresh × (free.old.items ≡ [])) }
    ensures words_stay { IfNone result (words.new ≡ words.old) }
    ensures free_stay { IfNone result (free.new.items ≡ free.old.items) }
    ensures room { vec_capacity free.new ≡ vec_capacity free.old }
{
    let Some(fresh) = fresh else {
        return Some(0);
    };
    let slot = free.pop()?;
    let version = word(words, slot, Field::Version);
    write_fresh(words, slot, version, fresh);
    Some(slot)
}

/// Writes the new numbers of the words that an exchange changes.
pub fn write_adds(words: &mut NodeWords, slot: u32, adds: &[Add])
    requires { AddsReach (length words.old.near) adds.now }
    ensures cells { cells_in words.new ≡ with_adds slot adds.now (cells_in words.old) }
    ensures long { length words.new.near ≡ length words.old.near }
{
    for add in adds {
        let number = kept_number(add.field, number_for(slot, add.new));
        write(words, add.node, add.field, number);
    }
}

/// Puts a marked slot onto the stack of slots out of use, where there is one.
#[inline]
pub fn give_slot(free: &mut Vec<u32>, mark: Option<u32>)
    requires { IsSome mark → vec_len free.old < vec_capacity free.old }
    ensures free { free.new.items ≡ free.old.items ++ option_to_list mark }
    ensures room { vec_capacity free.new ≡ vec_capacity free.old }
{
    if let Some(node) = mark {
        free.push_reserved(node);
    }
}

/// Words that are all 0, so many in each list.
fn blank_words(alloc: Global, count: usize) -> Result<NodeWords, Memory>
    requires { count ≤ 244008 }
    ensures long { IfOk result (λ w. length w.near ≡ count) }
    ensures cells { IfOk result (λ w. cells_in w ≡ (λ n f. 0)) }
{
    let Ok(near) = vec![in alloc; 0u64; count] else {
        return Err(Memory);
    };
    let Ok(far) = vec![in alloc; 0u64; count] else {
        return Err(Memory);
    };
    Ok(NodeWords { near, far })
}

/// The words that a tree opens with: the sentinel alone, and every slot out of use.
pub fn opening_words(alloc: Global, slots: u32) -> Result<NodeWords, Memory>
    requires { slots ≤ 61000 }
    ensures long { IfOk result (λ w. length w.near ≡ 4 * (slots + 2)) }
    ensures even { IfOk result (λ w. length w.near ≡ length w.far) }
    ensures cells { IfOk result (λ w. OpensCells slots (cells_in w)) }
{
    let mut words = blank_words(alloc, 4 * (slots as usize + 2))?;
    for node in 0..slots + 2 {
        write(&mut words, node, Field::Version, 1);
    }
    write(&mut words, SENTINEL, Field::Version, 0);
    write(&mut words, SENTINEL, Field::Key, SENTINEL_KEY);
    Ok(words)
}

/// A stack of all slots, the least of them last.
pub fn all_slots(alloc: Global, slots: u32) -> Result<Vec<u32>, Memory>
    requires { slots ≤ 61000 }
    ensures counts { IfOk result (λ v. HasEachSlot slots v.items) }
    ensures room { IfOk result (λ v. vec_capacity v ≡ slots) }
{
    let Ok(mut free) = Vec::with_capacity(alloc, slots as usize) else {
        return Err(Memory);
    };
    for pushed in 0..slots {
        free.push_reserved(slots + 1 - pushed);
    }
    Ok(free)
}
