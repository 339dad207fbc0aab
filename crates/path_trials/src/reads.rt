//! Validated reads: worked rows, each compared with what was worked out by hand.
use crate::acting::{looked, operated, walk_read, walked};
use crate::trio::{closed, left, opened};
use pc_model::Memory;
use pc_path::{Lost, VisitFault, end, start, visit};
use pc_rule::usual_starts;

#[test]
fn a_walk_over_the_sentinel_is_read_at_a_stamp(rt: HostRuntime) -> Result<(), Memory> {
    let (board, mut trio) = opened(rt.alloc(), 0, usual_starts())?;
    let one = looked(&board, &mut trio.first);
    let two = looked(&board, &mut trio.second);
    closed(rt.alloc(), board, trio)?;
    assert_eq!(rt; (one, two), (Some(((0, 0), Ok(1))), Some(((0, 0), Ok(2)))));
    Ok(())
}

#[test]
fn a_read_of_what_changed_since_is_lost(rt: HostRuntime) -> Result<(), Memory> {
    let (board, mut trio) = opened(rt.alloc(), 0, usual_starts())?;
    start(&board, &mut trio.first).unwrap();
    let walk = walked(&board, &mut trio.first);
    let change = operated(&board, &mut trio.second, 50);
    let read = walk_read(&board, &mut trio.first);
    let next = walk_read(&board, &mut trio.first);
    end(&board, &mut trio.first);
    let left = left(&closed(rt.alloc(), board, trio)?);
    let lost = Lost::Changed { node: 1, seen: 0 };
    assert_eq!(rt; (walk, change), (Some((0, 0)), Some(((0, 0), Ok(1)))));
    assert_eq!(rt;
        (read, next),
        (Some(((2, 50), Err(lost))), Some(((2, 50), Ok(3))))
    );
    assert_eq!(rt; left, (2, 50));
    Ok(())
}

#[test]
fn as_many_visits_are_made_as_there_are_nodes(rt: HostRuntime) -> Result<(), Memory> {
    let (board, mut trio) = opened(rt.alloc(), 0, usual_starts())?;
    start(&board, &mut trio.first).unwrap();
    let one = visit(&board, &mut trio.first, 1);
    let two = visit(&board, &mut trio.first, 1);
    let three = visit(&board, &mut trio.first, 1);
    let four = visit(&board, &mut trio.first, 1);
    let more = visit(&board, &mut trio.first, 1);
    closed(rt.alloc(), board, trio)?;
    let long = VisitFault::Long { visits: 4 };
    assert_eq!(rt; [one, two, three, four], [Ok(0); 4]);
    assert_eq!(rt; more, Err(long));
    Ok(())
}
