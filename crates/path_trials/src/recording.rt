//! Calls that operations take along: worked rows, each compared with what was worked out by hand.
ghost use Rattle.pc_rule_law.specs.Conditions.{IsFree};
ghost use Rattle.pc_rule.specs.Passes.{view, IsPassOf, SitsAs};
ghost use Rattle.path_trials.specs.Operating.{IsAtRest, HasBegun};

use crate::acting::{Seen, added, changed, walk_read};
use crate::trio::{closed, left, opened};
use pc_model::{Call, Counter, Entry, Loose, Memory, Numbers, Reply};
use pc_path::{Lost, begin_vexec, carry, end, start, vexec, visit};
use pc_rule::{Board, Pass, usual_starts};

/// The pass takes a put along, where it has room for one. Says whether it did.
fn take_along(board: &Board<Loose>, pass: &mut Pass<Loose>, value: u64, reply: Reply) -> bool
    requires pass { IsPassOf board.now pass.old }
    requires begun { HasBegun pass.old }
    requires free { IsFree (view pass.old) }
    ensures seated { SitsAs pass.old pass.new × IsPassOf board.now pass.new }
    ensures begun { HasBegun pass.new }
    ensures free { IsFree (view pass.new) }
{
    let _ = board;
    if pass.room() == 0 || pass.carried().is_some() {
        return false;
    }
    carry(pass, Call::Put { key: 5, value }, reply);
    true
}

/// An exchange as an operation of its own, which takes a call along where the pass has room for one.
fn put(
    board: &Board<Loose>,
    pass: &mut Pass<Loose>,
    new: u32,
    reply: Reply,
) -> Option<(Seen, Result<u64, Lost>)>
    requires pass { IsPassOf board.now pass.old }
    requires rest { IsAtRest pass.old }
    requires free { IsFree (view pass.old) }
    ensures seated { SitsAs pass.old pass.new × IsPassOf board.now pass.new }
    ensures rest { IsAtRest pass.new }
    ensures free { IsFree (view pass.new) }
{
    start(board, pass).unwrap();
    take_along(board, pass, u64::from(new), reply);
    let answer = changed(board, pass, new);
    end(board, pass);
    answer
}

/// A read as an operation of its own, which takes a call along where the pass has room for one.
fn get(
    board: &Board<Loose>,
    pass: &mut Pass<Loose>,
    reply: Reply,
) -> Option<(Seen, Result<u64, Lost>)>
    requires pass { IsPassOf board.now pass.old }
    requires rest { IsAtRest pass.old }
    requires free { IsFree (view pass.old) }
    ensures seated { SitsAs pass.old pass.new × IsPassOf board.now pass.new }
    ensures rest { IsAtRest pass.new }
    ensures free { IsFree (view pass.new) }
{
    start(board, pass).unwrap();
    if pass.room() > 0 && pass.carried().is_none() {
        carry(pass, Call::Get { key: 5 }, reply);
    }
    let answer = walk_read(board, pass);
    end(board, pass);
    answer
}

/// The entry of a put of this value, and of a get.
fn put_entry(pass: u32, number: u32, value: u64, reply: Reply, stamp: u64) -> Entry {
    Entry {
        pass,
        number,
        call: Call::Put { key: 5, value },
        reply,
        stamp,
    }
}

fn get_entry(pass: u32, number: u32, reply: Reply, stamp: u64) -> Entry {
    Entry {
        pass,
        number,
        call: Call::Get { key: 5 },
        reply,
        stamp,
    }
}

#[test]
fn calls_are_recorded_with_their_stamps(rt: HostRuntime) -> Result<(), Memory> {
    let (board, mut trio) = opened(rt.alloc(), 2, usual_starts())?;
    let one = put(&board, &mut trio.second, 50, Reply::New);
    let two = get(&board, &mut trio.first, Reply::Value(50));
    let three = put(&board, &mut trio.second, 70, Reply::Was(50));
    let rooms = (trio.first.room(), trio.second.room(), trio.third.room());
    let closed = closed(rt.alloc(), board, trio)?;
    let wanted = [
        put_entry(2, 1, 50, Reply::New, 1),
        get_entry(1, 1, Reply::Value(50), 2),
        put_entry(2, 2, 70, Reply::Was(50), 3),
    ];
    assert_eq!(rt; (one, two), (Some(((0, 0), Ok(1))), Some(((2, 50), Ok(2)))));
    assert_eq!(rt; (three, rooms), (Some(((2, 50), Ok(3))), (1, 0, 2)));
    assert_eq!(rt; closed.history(), wanted.as_slice());
    Ok(())
}

#[test]
fn a_call_is_dropped_where_its_exchange_is_lost(rt: HostRuntime) -> Result<(), Memory> {
    let (board, mut trio) = opened(rt.alloc(), 2, usual_starts())?;
    start(&board, &mut trio.first).unwrap();
    let along = take_along(&board, &mut trio.first, 60, Reply::New);
    let Some(_) = added(&board, &mut trio.first, 60) else {
        return Err(Memory);
    };
    let won = put(&board, &mut trio.second, 50, Reply::New);
    let lost = vexec(&board, &mut trio.first);
    let dropped = (trio.first.carried().is_none(), trio.first.room());
    end(&board, &mut trio.first);
    let next = put(&board, &mut trio.first, 70, Reply::Was(50));
    let closed = closed(rt.alloc(), board, trio)?;
    let wanted = [
        put_entry(2, 1, 50, Reply::New, 1),
        put_entry(1, 1, 70, Reply::Was(50), 2),
    ];
    let changed = Lost::Changed { node: 1, seen: 0 };
    assert_eq!(rt; (along, won), (true, Some(((0, 0), Ok(1)))));
    assert_eq!(rt; (lost, dropped), (Err(changed), (true, 2)));
    assert_eq!(rt; next, Some(((2, 50), Ok(2))));
    assert_eq!(rt; closed.history(), wanted.as_slice());
    Ok(())
}

#[test]
fn a_call_is_dropped_where_its_read_is_lost(rt: HostRuntime) -> Result<(), Memory> {
    let (board, mut trio) = opened(rt.alloc(), 2, usual_starts())?;
    start(&board, &mut trio.first).unwrap();
    let along = take_along(&board, &mut trio.first, 60, Reply::New);
    let walk = visit(&board, &mut trio.first, 1);
    let won = put(&board, &mut trio.second, 50, Reply::New);
    let lost = walk_read(&board, &mut trio.first);
    end(&board, &mut trio.first);
    let next = get(&board, &mut trio.first, Reply::Value(50));
    let closed = closed(rt.alloc(), board, trio)?;
    let wanted = [
        put_entry(2, 1, 50, Reply::New, 1),
        get_entry(1, 1, Reply::Value(50), 3),
    ];
    let changed = Lost::Changed { node: 1, seen: 0 };
    assert_eq!(rt; (along, walk, won), (true, Ok(0), Some(((0, 0), Ok(1)))));
    assert_eq!(rt; lost, Some(((2, 50), Err(changed))));
    assert_eq!(rt; next, Some(((2, 50), Ok(3))));
    assert_eq!(rt; closed.history(), wanted.as_slice());
    Ok(())
}

#[test]
fn a_call_is_dropped_where_its_operation_ends(rt: HostRuntime) -> Result<(), Memory> {
    let (board, mut trio) = opened(rt.alloc(), 1, usual_starts())?;
    start(&board, &mut trio.first).unwrap();
    let along = take_along(&board, &mut trio.first, 60, Reply::New);
    let again = take_along(&board, &mut trio.first, 70, Reply::New);
    end(&board, &mut trio.first);
    let dropped = (trio.first.carried().is_none(), trio.first.room());
    let won = put(&board, &mut trio.first, 50, Reply::New);
    let none = put(&board, &mut trio.first, 60, Reply::Was(50));
    let closed = closed(rt.alloc(), board, trio)?;
    let wanted = [put_entry(1, 1, 50, Reply::New, 1)];
    assert_eq!(rt; (along, again, dropped), (true, false, (true, 1)));
    assert_eq!(rt;
        (won, none),
        (Some(((0, 0), Ok(1))), Some(((2, 50), Ok(2))))
    );
    assert_eq!(rt; closed.history(), wanted.as_slice());
    Ok(())
}

#[test]
fn a_call_is_dropped_where_no_exchange_is_published(rt: HostRuntime) -> Result<(), Memory> {
    let mut starts = usual_starts();
    starts.attempt = 268_435_455;
    let (board, mut trio) = opened(rt.alloc(), 1, starts)?;
    start(&board, &mut trio.first).unwrap();
    let along = take_along(&board, &mut trio.first, 60, Reply::New);
    let Some(_) = added(&board, &mut trio.first, 60) else {
        return Err(Memory);
    };
    let refused = begin_vexec(&board, &mut trio.first);
    let dropped = (trio.first.carried().is_none(), trio.first.room());
    let none = (trio.first.visits().len(), trio.first.listed().len());
    let closed = closed(rt.alloc(), board, trio)?;
    let last = Numbers {
        counter: Counter::Attempt,
        at: 268_435_455,
    };
    assert_eq!(rt; (along, refused), (true, Err(last)));
    assert_eq!(rt; (dropped, none), ((true, 1), (0, 0)));
    assert_eq!(rt; (left(&closed), closed.history().len()), ((0, 0), 0));
    Ok(())
}
