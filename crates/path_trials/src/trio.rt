//! A board that opens with three passes, and closes with them.
ghost use Rattle.std.specs.Prelude.{◌≡◌, ◌∷◌, [], length, IfOk, IfSome};
ghost use Rattle.pc_rule.specs.Passes.{board_size};
ghost use Rattle.pc_rule.specs.Shares.{AreAll, AreStarts, NoneTried, NoneVisited};
ghost use Rattle.path_trials.specs.Operating.{IsAtRest};
ghost use Rattle.path_trials.specs.Seats.{HasThree, HasSeat, IsThird};

use pc_model::{Field, Loose, Memory};
use pc_rule::{Board, Closed, Pass, Share, close_board, open_board};
use pc_rule_law::Starts;
use std::alloc::{AllocError, Global};

/// The passes of a board.
#[derive(Drop)]
pub(crate) struct Trio {
    pub(crate) first: Pass<Loose>,
    pub(crate) second: Pass<Loose>,
    pub(crate) third: Pass<Loose>,
}

/// The passes of a list of three.
fn taken_apart(mut passes: Vec<Pass<Loose>>) -> Option<Trio>
    requires { length passes.items ≡ 3 }
    ensures { IfSome result (λ r. passes.items ≡ r.first ∷ r.second ∷ r.third ∷ []) }
{
    let third = passes.pop()?;
    let second = passes.pop()?;
    let first = passes.pop()?;
    Some(Trio {
        first,
        second,
        third,
    })
}

/// The three passes of a board that opened, each at rest.
fn trio_of(board: &Board<Loose>, passes: Vec<Pass<Loose>>) -> Option<Trio>
    requires all { AreAll board.now passes.items }
    requires three { HasThree board.now }
    requires open { NoneTried passes.items × NoneVisited passes.items }
    ensures first { IfSome result (λ r. HasSeat board.now 0 r.first × IsAtRest r.first) }
    ensures second { IfSome result (λ r. HasSeat board.now 1 r.second × IsAtRest r.second) }
    ensures third { IfSome result (λ r. HasSeat board.now 2 r.third × IsAtRest r.third × IsThird board.now r.third) }
{
    taken_apart(passes)
}

/// A board with three passes, each at rest, with a slot and room for so many calls.
pub(crate) fn opened(
    alloc: Global,
    calls: u32,
    starts: Starts,
) -> Result<(Board<Loose>, Trio), Memory>
    requires { AreStarts starts }
    ensures three { IfOk result (λ r. HasThree r.0) }
    ensures slots { IfOk result (λ r. (board_size r.0).slots ≡ 3) }
    ensures first { IfOk result (λ r. HasSeat r.0 0 r.1.first × IsAtRest r.1.first) }
    ensures second { IfOk result (λ r. HasSeat r.0 1 r.1.second × IsAtRest r.1.second) }
    ensures third { IfOk result (λ r. HasSeat r.0 2 r.1.third × IsAtRest r.1.third × IsThird r.0 r.1.third) }
{
    let share = Share { slots: 1, calls };
    let (board, passes) = open_board(alloc, Loose, &[share, share, share], starts)?;
    match trio_of(&board, passes) {
        Some(trio) => Ok((board, trio)),
        None => Err(Memory),
    }
}

/// The passes as a list.
fn listed(alloc: Global, trio: Trio) -> Result<Vec<Pass<Loose>>, AllocError>
    ensures { IfOk result (λ r. r.items ≡ trio.first ∷ trio.second ∷ trio.third ∷ []) }
{
    let Trio {
        first,
        second,
        third,
    } = trio;
    let mut passes = Vec::with_capacity(alloc, 3)?;
    passes.push_reserved(first);
    passes.push_reserved(second);
    passes.push_reserved(third);
    Ok(passes)
}

/// What the board leaves that is closed with its passes.
pub(crate) fn closed(
    alloc: Global,
    board: Board<Loose>,
    trio: Trio,
) -> Result<Closed<Loose>, Memory>
    requires three { HasThree board }
    requires first { HasSeat board 0 trio.first }
    requires second { HasSeat board 1 trio.second }
    requires third { HasSeat board 2 trio.third × IsThird board trio.third }
{
    match listed(alloc, trio) {
        Ok(passes) => Ok(close_board(board, passes)),
        Err(_) => Err(Memory),
    }
}

/// The version and the value of the sentinel.
pub(crate) fn left(closed: &Closed<Loose>) -> (u64, u64) {
    (closed.cell(1, Field::Version), closed.cell(1, Field::Value))
}
