//! Operations up to the last value of each counter: worked rows, each compared with what was worked out by hand.
use crate::acting::{finished, looked, operated, published};
use crate::trio::{closed, left, opened};
use pc_kcas::install_first;
use pc_model::{Counter, Memory, Numbers};
use pc_path::{Lost, VisitFault, end, start, visit};
use pc_rule::usual_starts;

#[test]
fn no_node_is_visited_at_the_last_version(rt: HostRuntime) -> Result<(), Memory> {
    let mut starts = usual_starts();
    starts.version = 1_152_921_504_606_846_968;
    let (board, mut trio) = opened(rt.alloc(), 0, starts)?;
    let won = operated(&board, &mut trio.first, 50);
    let none = operated(&board, &mut trio.second, 60);
    start(&board, &mut trio.first).unwrap();
    let refused = visit(&board, &mut trio.first, 1);
    end(&board, &mut trio.first);
    let left = left(&closed(rt.alloc(), board, trio)?);
    let last = Numbers {
        counter: Counter::Version,
        at: 1_152_921_504_606_846_970,
    };
    let seen = (1_152_921_504_606_846_968, 0);
    assert_eq!(rt; (won, none), (Some((seen, Ok(1))), None));
    assert_eq!(rt; refused, Err(VisitFault::Numbers(last)));
    assert_eq!(rt; left, (1_152_921_504_606_846_970, 50));
    Ok(())
}

#[test]
fn nothing_takes_effect_at_the_last_stamp(rt: HostRuntime) -> Result<(), Memory> {
    let mut starts = usual_starts();
    starts.stamp = 17_179_869_182;
    let (board, mut trio) = opened(rt.alloc(), 0, starts)?;
    let won = operated(&board, &mut trio.first, 50);
    let lost = operated(&board, &mut trio.first, 70);
    let read = looked(&board, &mut trio.second);
    let left = left(&closed(rt.alloc(), board, trio)?);
    let last = Lost::Numbers(Numbers {
        counter: Counter::Stamp,
        at: 17_179_869_183,
    });
    assert_eq!(rt; won, Some(((0, 0), Ok(17_179_869_182))));
    assert_eq!(rt;
        (lost, read),
        (Some(((2, 50), Err(last))), Some(((2, 50), Err(last))))
    );
    assert_eq!(rt; left, (2, 50));
    Ok(())
}

#[test]
fn a_read_takes_effect_below_the_last_stamp(rt: HostRuntime) -> Result<(), Memory> {
    let mut starts = usual_starts();
    starts.stamp = 17_179_869_182;
    let (board, mut trio) = opened(rt.alloc(), 0, starts)?;
    let read = looked(&board, &mut trio.second);
    let lost = operated(&board, &mut trio.first, 50);
    let left = left(&closed(rt.alloc(), board, trio)?);
    let last = Lost::Numbers(Numbers {
        counter: Counter::Stamp,
        at: 17_179_869_183,
    });
    assert_eq!(rt; read, Some(((0, 0), Ok(17_179_869_182))));
    assert_eq!(rt; (lost, left), (Some(((0, 0), Err(last))), (0, 0)));
    Ok(())
}

#[test]
fn no_exchange_is_published_after_the_last_attempt(rt: HostRuntime) -> Result<(), Memory> {
    let mut starts = usual_starts();
    starts.attempt = 268_435_454;
    let (board, mut trio) = opened(rt.alloc(), 0, starts)?;
    let won = operated(&board, &mut trio.first, 50);
    let lost = operated(&board, &mut trio.first, 70);
    let other = operated(&board, &mut trio.second, 70);
    let left = left(&closed(rt.alloc(), board, trio)?);
    let last = Lost::Numbers(Numbers {
        counter: Counter::Attempt,
        at: 268_435_455,
    });
    assert_eq!(rt;
        (won, lost),
        (Some(((0, 0), Ok(1))), Some(((2, 50), Err(last))))
    );
    assert_eq!(rt; (other, left), (Some(((2, 50), Ok(2))), (4, 70)));
    Ok(())
}

/// Each word of an exchange takes an install.
#[test]
fn no_exchange_takes_effect_without_an_install(rt: HostRuntime) -> Result<(), Memory> {
    let mut starts = usual_starts();
    starts.install = 18_014_398_509_481_981;
    let (board, mut trio) = opened(rt.alloc(), 0, starts)?;
    let won = operated(&board, &mut trio.first, 50);
    let lost = operated(&board, &mut trio.first, 70);
    let read = looked(&board, &mut trio.first);
    let other = operated(&board, &mut trio.second, 80);
    let left = left(&closed(rt.alloc(), board, trio)?);
    let last = Lost::Numbers(Numbers {
        counter: Counter::Install,
        at: 18_014_398_509_481_983,
    });
    assert_eq!(rt;
        (won, lost),
        (Some(((0, 0), Ok(1))), Some(((2, 50), Err(last))))
    );
    assert_eq!(rt;
        (read, other),
        (Some(((2, 50), Ok(2))), Some(((2, 50), Ok(3))))
    );
    assert_eq!(rt; left, (4, 80));
    Ok(())
}

/// Each word of an exchange takes an install of who helps it, also one that holds its reference already. The second pass has made
/// its last install, so it can't help, and the third, which has two left, does.
#[test]
fn no_exchange_is_helped_without_an_install(rt: HostRuntime) -> Result<(), Memory> {
    let mut starts = usual_starts();
    starts.install = 18_014_398_509_481_981;
    let (board, mut trio) = opened(rt.alloc(), 0, starts)?;
    let one = operated(&board, &mut trio.second, 60);
    let Some(_) = published(&board, &mut trio.first, 50) else {
        return Err(Memory);
    };
    let count = install_first(&board, &mut trio.first, 1);
    start(&board, &mut trio.second).unwrap();
    let refused = visit(&board, &mut trio.second, 1);
    end(&board, &mut trio.second);
    let read = looked(&board, &mut trio.third);
    let two = finished(&board, &mut trio.first);
    let left = left(&closed(rt.alloc(), board, trio)?);
    let last = Numbers {
        counter: Counter::Install,
        at: 18_014_398_509_481_983,
    };
    assert_eq!(rt; one, Some(((0, 0), Ok(1))));
    assert_eq!(rt; (count, refused), (1, Err(VisitFault::Numbers(last))));
    assert_eq!(rt; (read, two, left), (Some(((4, 50), Ok(3))), Ok(2), (4, 50)));
    Ok(())
}

/// An exchange that holds all its words is withdrawn by who meets it, as no stamp is left.
#[test]
fn an_exchange_is_withdrawn_at_the_last_stamp(rt: HostRuntime) -> Result<(), Memory> {
    let mut starts = usual_starts();
    starts.stamp = 17_179_869_183;
    let (board, mut trio) = opened(rt.alloc(), 0, starts)?;
    let Some(_) = published(&board, &mut trio.first, 50) else {
        return Err(Memory);
    };
    let count = install_first(&board, &mut trio.first, 2);
    let read = looked(&board, &mut trio.second);
    let lost = finished(&board, &mut trio.first);
    let left = left(&closed(rt.alloc(), board, trio)?);
    let last = Lost::Numbers(Numbers {
        counter: Counter::Stamp,
        at: 17_179_869_183,
    });
    assert_eq!(rt; (count, read), (2, Some(((0, 0), Err(last)))));
    assert_eq!(rt; (lost, left), (Err(last), (0, 0)));
    Ok(())
}
