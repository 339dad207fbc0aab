//! The map that threads share: beside the same calls on a map of one's own, settled after each call, and under calls
//! of several threads, whose replies are those of its history.
ghost use Rattle.std.specs.Int.{IsInRange};

use crate::locked_runs::{Called, call_of};
use crate::shapes::{Line, has_shape};
use pc_locked::{LockedFault, LockedMap, LockedState, TreeKind, open_state, pay, try_apply};
use pc_model::{Call, Entry, Reply, replay};
use std::alloc::Global;
use std::sync::Wait;
use std::thread;
use std::thread::Threads;

type Answer = Result<Reply, LockedFault>;

// A map of one slot with room for two entries: a key too many, and a call too many.
const REFUSALS: &[(Called, Answer)] = &[
    (Called::Put(1, 1), Ok(Reply::New)),
    (Called::Put(2, 2), Err(LockedFault::NoSlot { live: 1 })),
    (Called::Get(1), Ok(Reply::Value(1))),
    (Called::Get(1), Err(LockedFault::Room { calls: 2 })),
];

const GRANTED: &[Entry] = &[
    Entry {
        pass: 1,
        number: 1,
        call: Call::Put { key: 1, value: 1 },
        reply: Reply::New,
        stamp: 1,
    },
    Entry {
        pass: 1,
        number: 2,
        call: Call::Get { key: 1 },
        reply: Reply::Value(1),
        stamp: 2,
    },
];

/// Whether a call and its settlement take the lock once, or once each.
#[derive(Clone, Copy)]
enum Taking {
    Once,
    Twice,
}

const TAKINGS: [Taking; 2] = [Taking::Once, Taking::Twice];

/// Makes a call of a shared map, and settles.
fn made<R: Wait>(rt: &R, map: &LockedMap, pass: u32, called: Called, taking: Taking) -> Answer
    requires { IsInRange 1 3 pass }
{
    match taking {
        Taking::Once => map.call_and_settle(rt, pass, call_of(called)),
        Taking::Twice => {
            let answer = map.call(rt, pass, call_of(called));
            map.settle(rt);
            answer
        }
    }
}

/// Whether the calls of pass 1 are answered so on a shared map.
fn are_answered_so<R: Wait>(rt: &R, map: &LockedMap, taking: Taking) -> bool {
    for (called, wanted) in REFUSALS {
        if made(rt, map, 1, *called, taking) != *wanted {
            return false;
        }
    }
    true
}

/// Whether they are answered so on a map of one's own.
fn are_applied_so(state: &mut LockedState) -> bool {
    for (called, wanted) in REFUSALS {
        if try_apply(state, 1, call_of(*called)) != *wanted {
            return false;
        }
    }
    true
}

fn is_refused_so<R: Wait>(rt: &R, alloc: Global, kind: TreeKind, taking: Taking) -> bool {
    match LockedMap::new(alloc, kind, 1, 2) {
        Ok(map) => {
            let answered = are_answered_so(rt, &map, taking);
            let state = map.into_state();
            answered && state.history() == GRANTED
        }
        Err(_) => false,
    }
}

fn is_own_refused_so(alloc: Global, kind: TreeKind) -> bool {
    match open_state(alloc, kind, 1, 2) {
        Ok(mut state) => are_applied_so(&mut state) && state.history() == GRANTED,
        Err(_) => false,
    }
}

const TREES: [TreeKind; 2] = [TreeKind::Bst, TreeKind::Avl];

/// The first kind of tree on which the calls are answered or entered otherwise.
fn first_refused_otherwise<R: Wait>(rt: &R, alloc: Global) -> Option<usize> {
    for (i, kind) in TREES.iter().enumerate() {
        let shared = is_refused_so(rt, alloc, *kind, Taking::Once)
            && is_refused_so(rt, alloc, *kind, Taking::Twice);
        if !shared || !is_own_refused_so(alloc, *kind) {
            return Some(i);
        }
    }
    None
}

#[test]
fn calls_are_refused_for_slots_and_for_room(rt: HostRuntime) {
    assert_eq!(rt; first_refused_otherwise(&rt, rt.alloc()), None);
}

/// Seven keys, each node with two sides of one height.
const WHOLE: &[Line] = &[
    (1, 4, 3, 0),
    (2, 2, 2, 0),
    (3, 1, 1, 0),
    (3, 3, 1, 0),
    (2, 6, 2, 0),
    (3, 5, 1, 0),
    (3, 7, 1, 0),
];

/// Puts 1 to 7, each settled.
fn are_put_and_settled<R: Wait>(rt: &R, map: &LockedMap, taking: Taking) -> bool {
    for key in 1..=7u32 {
        if made(rt, map, 1, Called::Put(key, key), taking) != Ok(Reply::New) {
            return false;
        }
    }
    true
}

/// Whether such puts leave a map that owes nothing, with the whole tree.
fn is_settled<R: Wait>(rt: &R, alloc: Global, taking: Taking) -> bool {
    match LockedMap::new(alloc, TreeKind::Avl, 7, 7) {
        Ok(map) => {
            let put = are_put_and_settled(rt, &map, taking);
            let mut state = map.into_state();
            let owes = pay(&mut state);
            put && !owes && has_shape(alloc, &state, WHOLE)
        }
        Err(_) => false,
    }
}

#[test]
fn a_settled_map_owes_nothing(rt: HostRuntime) {
    for taking in TAKINGS {
        assert!(&rt; is_settled(&rt, rt.alloc(), taking));
    }
}

/// How many calls each pass makes.
const TURNS: u32 = 500;

/// The call of a pass in a turn: each kind in turn, on four keys that all passes share. No other put has its value.
fn call_at(pass: u32, turn: u32) -> Called {
    let key = turn % 4;
    match turn / 4 % 5 {
        0 => Called::Put(key, turn % TURNS * 4 + pass % 4),
        1 => Called::Get(key),
        2 => Called::Floor(key),
        3 => Called::Remove(key),
        _ => Called::Ceil(key),
    }
}

/// Makes the calls of a pass, each settled, by turns with one lock and with two, and gives their replies; none where a
/// call is refused.
fn replies_to<R: Wait>(rt: &R, alloc: Global, map: &LockedMap, pass: u32) -> Option<Vec<Reply>>
    requires { IsInRange 1 3 pass }
{
    let mut replies = Vec::new(alloc);
    for turn in 1..=TURNS {
        let taking = TAKINGS[turn as usize % 2];
        let reply = made(rt, map, pass, call_at(pass, turn), taking).ok()?;
        replies.push(reply).ok()?;
    }
    Some(replies)
}

/// Whether an entry is the call of its pass in the turn after so many others, with the reply that was given then.
fn is_turn(entry: &Entry, turns: u32, replies: &[Reply]) -> bool {
    let number = turns.wrapping_add(1);
    entry.number == number
        && entry.call == call_of(call_at(entry.pass, number))
        && replies.get(turns as usize) == Some(&entry.reply)
}

/// Whether the entries of a pass are its calls, numbered from 1, with the replies that it was given.
fn has_calls_of(history: &[Entry], pass: u32, replies: &Option<Vec<Reply>>) -> bool {
    let Some(replies) = replies else {
        return false;
    };
    let mut turns: u32 = 0;
    for entry in history {
        if entry.pass == pass {
            if !is_turn(entry, turns, replies) {
                return false;
            }
            turns = turns.wrapping_add(1);
        }
    }
    turns == TURNS
}

/// The replies that each of three passes was given.
type Replies = (Option<Vec<Reply>>, (Option<Vec<Reply>>, Option<Vec<Reply>>));

/// Makes the calls of three passes, each in a thread of its own.
fn made_by_threads<R: Threads + Wait + Sync>(rt: &R, alloc: Global, map: &LockedMap) -> Replies {
    thread::join(
        rt,
        || replies_to(rt, alloc, map, 1),
        || {
            thread::join(
                rt,
                || replies_to(rt, alloc, map, 2),
                || replies_to(rt, alloc, map, 3),
            )
        },
    )
}

fn has_calls_of_all(history: &[Entry], replies: &Replies) -> bool {
    let (first, (second, third)) = replies;
    history.len() == 3 * TURNS as usize
        && has_calls_of(history, 1, first)
        && has_calls_of(history, 2, second)
        && has_calls_of(history, 3, third)
}

/// Whether the passes leave one right history of all their calls and no other, where there is room for more.
fn is_one_history<R: Threads + Wait + Sync>(rt: &R, alloc: Global) -> bool {
    match LockedMap::new(alloc, TreeKind::Avl, 4, 4 * TURNS) {
        Ok(map) => {
            let replies = made_by_threads(rt, alloc, &map);
            let state = map.into_state();
            has_calls_of_all(state.history(), &replies)
                && replay(alloc, state.history()) == Ok(None)
        }
        Err(_) => false,
    }
}

#[test]
fn calls_of_threads_stand_in_one_history(rt: HostRuntime) {
    assert!(rt; is_one_history(&rt, rt.alloc()));
}
