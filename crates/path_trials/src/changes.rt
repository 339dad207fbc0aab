//! Exchanges of an operation: worked rows, each compared with what was worked out by hand.
use crate::acting::{changed, changed_words, operated, walk_read, walked};
use crate::trio::{closed, left, opened};
use pc_model::Memory;
use pc_path::{Lost, end, start, visit};
use pc_rule::usual_starts;

#[test]
fn an_exchange_by_the_path_takes_effect(rt: HostRuntime) -> Result<(), Memory> {
    let (board, mut trio) = opened(rt.alloc(), 0, usual_starts())?;
    let one = operated(&board, &mut trio.first, 50);
    let two = operated(&board, &mut trio.first, 70);
    let three = operated(&board, &mut trio.third, 70);
    let left = left(&closed(rt.alloc(), board, trio)?);
    assert_eq!(rt; (one, two), (Some(((0, 0), Ok(1))), Some(((2, 50), Ok(2)))));
    assert_eq!(rt; (three, left), (Some(((4, 70), Ok(3))), (6, 70)));
    Ok(())
}

#[test]
fn an_exchange_of_words_takes_effect(rt: HostRuntime) -> Result<(), Memory> {
    let (board, mut trio) = opened(rt.alloc(), 0, usual_starts())?;
    start(&board, &mut trio.first).unwrap();
    let one = changed_words(&board, &mut trio.first, 50);
    let two = changed_words(&board, &mut trio.first, 70);
    end(&board, &mut trio.first);
    let left = left(&closed(rt.alloc(), board, trio)?);
    assert_eq!(rt; (one, two), (Some(((0, 0), Ok(1))), Some(((2, 50), Ok(2)))));
    assert_eq!(rt; left, (4, 70));
    Ok(())
}

#[test]
fn an_operation_makes_exchanges_and_reads(rt: HostRuntime) -> Result<(), Memory> {
    let (board, mut trio) = opened(rt.alloc(), 0, usual_starts())?;
    start(&board, &mut trio.first).unwrap();
    let one = changed(&board, &mut trio.first, 50);
    let read = walk_read(&board, &mut trio.first);
    let two = changed(&board, &mut trio.first, 70);
    end(&board, &mut trio.first);
    let left = left(&closed(rt.alloc(), board, trio)?);
    assert_eq!(rt;
        (one, read),
        (Some(((0, 0), Ok(1))), Some(((2, 50), Ok(2))))
    );
    assert_eq!(rt; (two, left), (Some(((2, 50), Ok(3))), (4, 70)));
    Ok(())
}

/// The first pass visits the sentinel, and the second changes it. Then the first visits it again, and its exchange is by the
/// second visit.
#[test]
fn an_exchange_by_the_path_is_lost_by_an_old_visit(rt: HostRuntime) -> Result<(), Memory> {
    let (board, mut trio) = opened(rt.alloc(), 0, usual_starts())?;
    start(&board, &mut trio.first).unwrap();
    let seen = visit(&board, &mut trio.first, 1);
    let other = operated(&board, &mut trio.second, 50);
    let lost = changed(&board, &mut trio.first, 60);
    let then = changed(&board, &mut trio.first, 70);
    end(&board, &mut trio.first);
    let left = left(&closed(rt.alloc(), board, trio)?);
    let old = Lost::Changed { node: 1, seen: 0 };
    assert_eq!(rt; (seen, other), (Ok(0), Some(((0, 0), Ok(1)))));
    assert_eq!(rt;
        (lost, then),
        (Some(((2, 50), Err(old))), Some(((2, 50), Ok(3))))
    );
    assert_eq!(rt; left, (4, 70));
    Ok(())
}

#[test]
fn an_exchange_of_words_looks_at_no_visits(rt: HostRuntime) -> Result<(), Memory> {
    let (board, mut trio) = opened(rt.alloc(), 0, usual_starts())?;
    start(&board, &mut trio.first).unwrap();
    let seen = visit(&board, &mut trio.first, 1);
    let other = operated(&board, &mut trio.second, 50);
    let won = changed_words(&board, &mut trio.first, 60);
    end(&board, &mut trio.first);
    let left = left(&closed(rt.alloc(), board, trio)?);
    assert_eq!(rt; (seen, other), (Ok(0), Some(((0, 0), Ok(1)))));
    assert_eq!(rt; (won, left), (Some(((2, 50), Ok(2))), (4, 60)));
    Ok(())
}

#[test]
fn an_operation_that_ends_changes_nothing(rt: HostRuntime) -> Result<(), Memory> {
    let (board, mut trio) = opened(rt.alloc(), 0, usual_starts())?;
    start(&board, &mut trio.first).unwrap();
    let walk = walked(&board, &mut trio.first);
    let visits = trio.first.visits().len();
    end(&board, &mut trio.first);
    let rests = (trio.first.at_rest(), trio.first.visits().len());
    let other = operated(&board, &mut trio.second, 50);
    let left = left(&closed(rt.alloc(), board, trio)?);
    assert_eq!(rt; (walk, visits, rests), (Some((0, 0)), 1, (true, 0)));
    assert_eq!(rt; (other, left), (Some(((0, 0), Ok(1))), (2, 50)));
    Ok(())
}
