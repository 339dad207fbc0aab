//! Operations of which one stops half way: worked rows, each compared with what was worked out by hand.
use crate::acting::{added, finished, looked, published, walked};
use crate::stopping::{half, held, whole_half};
use crate::trio::{closed, left, opened};
use pc_dcss::Installed;
use pc_kcas::install_first;
use pc_model::{Field, Memory};
use pc_path::{Lost, ReadFault, end, read, start, validate, vexec};
use pc_rule::{Ref, RefKind, usual_starts};

#[test]
fn a_read_looks_past_an_exchange_that_holds_no_word(rt: HostRuntime) -> Result<(), Memory> {
    let (board, mut trio) = opened(rt.alloc(), 0, usual_starts())?;
    let Some(seen) = published(&board, &mut trio.first, 50) else {
        return Err(Memory);
    };
    let read = looked(&board, &mut trio.second);
    let end = finished(&board, &mut trio.first);
    let left = left(&closed(rt.alloc(), board, trio)?);
    assert_eq!(rt; (seen, read, end), ((0, 0), Some(((0, 0), Ok(1))), Ok(2)));
    assert_eq!(rt; left, (2, 50));
    Ok(())
}

#[test]
fn a_read_helps_over_a_half_install_of_the_version(rt: HostRuntime) -> Result<(), Memory> {
    let (board, mut trio) = opened(rt.alloc(), 0, usual_starts())?;
    let Some(_) = published(&board, &mut trio.first, 50) else {
        return Err(Memory);
    };
    let install = half(&board, &mut trio.first, 0);
    let read = looked(&board, &mut trio.second);
    whole_half(&board, &mut trio.first, install);
    let end = finished(&board, &mut trio.first);
    let left = left(&closed(rt.alloc(), board, trio)?);
    assert_eq!(rt;
        install,
        Some(Ref {
            kind: RefKind::Install,
            seat: 0,
            number: 1
        })
    );
    assert_eq!(rt; (read, end, left), (Some(((2, 50), Ok(2))), Ok(1), (2, 50)));
    Ok(())
}

#[test]
fn a_read_helps_an_exchange_that_holds_the_version(rt: HostRuntime) -> Result<(), Memory> {
    let (board, mut trio) = opened(rt.alloc(), 0, usual_starts())?;
    let Some(_) = published(&board, &mut trio.first, 50) else {
        return Err(Memory);
    };
    let count = install_first(&board, &mut trio.first, 1);
    let read = looked(&board, &mut trio.second);
    let end = finished(&board, &mut trio.first);
    let left = left(&closed(rt.alloc(), board, trio)?);
    assert_eq!(rt; (count, read, end), (1, Some(((2, 50), Ok(2))), Ok(1)));
    assert_eq!(rt; left, (2, 50));
    Ok(())
}

#[test]
fn a_help_completes_a_half_install_of_the_value(rt: HostRuntime) -> Result<(), Memory> {
    let (board, mut trio) = opened(rt.alloc(), 0, usual_starts())?;
    let Some(_) = published(&board, &mut trio.first, 50) else {
        return Err(Memory);
    };
    let count = install_first(&board, &mut trio.first, 1);
    let install = half(&board, &mut trio.first, 1);
    let read = looked(&board, &mut trio.second);
    whole_half(&board, &mut trio.first, install);
    let end = finished(&board, &mut trio.first);
    let left = left(&closed(rt.alloc(), board, trio)?);
    assert_eq!(rt;
        install,
        Some(Ref {
            kind: RefKind::Install,
            seat: 0,
            number: 2
        })
    );
    assert_eq!(rt; (count, read, end), (1, Some(((2, 50), Ok(2))), Ok(1)));
    assert_eq!(rt; left, (2, 50));
    Ok(())
}

#[test]
fn a_read_helps_an_exchange_that_holds_all_words(rt: HostRuntime) -> Result<(), Memory> {
    let (board, mut trio) = opened(rt.alloc(), 0, usual_starts())?;
    let Some(_) = published(&board, &mut trio.first, 50) else {
        return Err(Memory);
    };
    let count = install_first(&board, &mut trio.first, 2);
    let read = looked(&board, &mut trio.second);
    let end = finished(&board, &mut trio.first);
    let left = left(&closed(rt.alloc(), board, trio)?);
    assert_eq!(rt; (count, read, end), (2, Some(((2, 50), Ok(2))), Ok(1)));
    assert_eq!(rt; left, (2, 50));
    Ok(())
}

/// The second pass visits and reads before the first publishes, and makes its exchange then.
#[test]
fn the_exchange_that_holds_no_word_is_lost(rt: HostRuntime) -> Result<(), Memory> {
    let (board, mut trio) = opened(rt.alloc(), 0, usual_starts())?;
    start(&board, &mut trio.second).unwrap();
    let (Some(_), Some(_)) = (
        added(&board, &mut trio.second, 60),
        published(&board, &mut trio.first, 50),
    ) else {
        return Err(Memory);
    };
    let won = vexec(&board, &mut trio.second);
    end(&board, &mut trio.second);
    let lost = finished(&board, &mut trio.first);
    let left = left(&closed(rt.alloc(), board, trio)?);
    assert_eq!(rt;
        (won, lost),
        (Ok(1), Err(Lost::Changed { node: 1, seen: 0 }))
    );
    assert_eq!(rt; left, (2, 60));
    Ok(())
}

#[test]
fn the_exchange_that_holds_all_words_is_helped(rt: HostRuntime) -> Result<(), Memory> {
    let (board, mut trio) = opened(rt.alloc(), 0, usual_starts())?;
    start(&board, &mut trio.second).unwrap();
    let (Some(_), Some(_)) = (
        added(&board, &mut trio.second, 60),
        published(&board, &mut trio.first, 50),
    ) else {
        return Err(Memory);
    };
    let count = install_first(&board, &mut trio.first, 2);
    let lost = vexec(&board, &mut trio.second);
    end(&board, &mut trio.second);
    let won = finished(&board, &mut trio.first);
    let left = left(&closed(rt.alloc(), board, trio)?);
    let changed = Lost::Changed { node: 1, seen: 0 };
    assert_eq!(rt; (count, lost, won), (2, Err(changed), Ok(1)));
    assert_eq!(rt; left, (2, 50));
    Ok(())
}

/// The reference of the exchange that the pass at this seat published first.
fn exchange(seat: u32) -> Ref {
    Ref {
        kind: RefKind::Exchange,
        seat,
        number: 1,
    }
}

/// The first pass walks. Then the second and the third each hold a word of the other's exchange, so that the help of neither ends.
#[test]
fn a_read_ends_where_no_help_does(rt: HostRuntime) -> Result<(), Memory> {
    let (board, mut trio) = opened(rt.alloc(), 0, usual_starts())?;
    start(&board, &mut trio.first).unwrap();
    let Some(walk) = walked(&board, &mut trio.first) else {
        return Err(Memory);
    };
    let (Some(_), Some(_)) = (
        published(&board, &mut trio.second, 50),
        published(&board, &mut trio.third, 60),
    ) else {
        return Err(Memory);
    };
    let low = held(&board, &mut trio.second, 0);
    let high = held(&board, &mut trio.third, 1);
    let lost = validate(&board, &mut trio.first);
    let busy = read(&board, &mut trio.first, 1, Field::Value);
    closed(rt.alloc(), board, trio)?;
    let (one, other) = (exchange(1), exchange(2));
    let blocked = Lost::Blocked {
        first: one,
        second: other,
    };
    let fault = ReadFault::Busy {
        first: other,
        second: one,
    };
    assert_eq!(rt;
        (walk, low, high),
        ((0, 0), Some(Installed::Held), Some(Installed::Held))
    );
    assert_eq!(rt; (lost, busy), (Err(blocked), Err(fault)));
    Ok(())
}

/// The first two each hold a word of the other's exchange. The first is blocked and leaves its word, and the second goes on.
#[test]
fn an_exchange_is_blocked_by_one_that_it_blocks(rt: HostRuntime) -> Result<(), Memory> {
    let (board, mut trio) = opened(rt.alloc(), 0, usual_starts())?;
    let (Some(_), Some(_)) = (
        published(&board, &mut trio.first, 50),
        published(&board, &mut trio.second, 60),
    ) else {
        return Err(Memory);
    };
    let low = held(&board, &mut trio.first, 0);
    let high = held(&board, &mut trio.second, 1);
    let lost = finished(&board, &mut trio.first);
    let won = finished(&board, &mut trio.second);
    let left = left(&closed(rt.alloc(), board, trio)?);
    let blocked = Lost::Blocked {
        first: exchange(1),
        second: exchange(0),
    };
    assert_eq!(rt; (low, high), (Some(Installed::Held), Some(Installed::Held)));
    assert_eq!(rt; (lost, won, left), (Err(blocked), Ok(1), (2, 60)));
    Ok(())
}
