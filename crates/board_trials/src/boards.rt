//! Boards that open and close.
ghost use Rattle.pc_model.specs.Cells.{IsNode};
ghost use Rattle.pc_rule.specs.Closed.{closed_size};

use pc_model::{Field, Loose, Memory};
use pc_rule::{Closed, Share, close_board, open_board, usual_starts};

#[test]
fn a_board_of_four_passes_opens_and_closes(rt: HostRuntime) -> Result<(), Memory> {
    let share = Share { slots: 1, calls: 0 };
    let shares = [share, share, share, share];
    let (board, passes) = open_board(rt.alloc(), Loose, &shares, usual_starts())?;
    let count = passes.len();
    let closed = close_board(board, passes);
    assert_eq!(rt; (count, closed.history().len()), (4, 0));
    Ok(())
}

// What stands in the fields of a node.
fn fields(closed: &Closed<Loose>, node: u32) -> [u64; 8]
    requires { IsNode (closed_size closed.now).slots node }
{
    [
        closed.cell(node, Field::Version),
        closed.cell(node, Field::Key),
        closed.cell(node, Field::Value),
        closed.cell(node, Field::Left),
        closed.cell(node, Field::Right),
        closed.cell(node, Field::Parent),
        closed.cell(node, Field::Height),
        closed.cell(node, Field::Spare),
    ]
}

#[test]
fn a_closed_board_has_the_cells_that_it_opened_with(rt: HostRuntime) -> Result<(), Memory> {
    let share = Share { slots: 1, calls: 0 };
    let shares = [share, share, share, share];
    let (board, passes) = open_board(rt.alloc(), Loose, &shares, usual_starts())?;
    let closed = close_board(board, passes);
    let found = [fields(&closed, 1), fields(&closed, 2)];
    let sentinel = [0, 4611686018427387903, 0, 0, 0, 0, 0, 0];
    assert_eq!(rt; found, [sentinel, [1, 0, 0, 0, 0, 0, 0, 0]]);
    Ok(())
}

#[test]
fn a_board_opens_and_closes_at_its_limits(rt: HostRuntime) -> Result<(), Memory> {
    let share = Share {
        slots: 1906,
        calls: 0,
    };
    let last = Share {
        slots: 1914,
        calls: 0,
    };
    let shares = [
        share, share, share, share, share, share, share, share, share, share, share, share, share,
        share, share, share, share, share, share, share, share, share, share, share, share, share,
        share, share, share, share, share, last,
    ];
    let (board, passes) = open_board(rt.alloc(), Loose, &shares, usual_starts())?;
    let count = passes.len();
    let closed = close_board(board, passes);
    assert_eq!(rt; (count, closed.history().len()), (32, 0));
    Ok(())
}

#[test]
fn a_pass_tells_its_share(rt: HostRuntime) -> Result<(), Memory> {
    let shares = [Share { slots: 3, calls: 5 }, Share { slots: 2, calls: 0 }];
    let (board, passes) = open_board(rt.alloc(), Loose, &shares, usual_starts())?;
    let mut told = [(0, 0, 0, 0); 2];
    for (i, pass) in passes.iter().enumerate() {
        told[i] = (
            pass.number(),
            pass.free(),
            pass.room(),
            pass.entries().len(),
        );
    }
    close_board(board, passes);
    assert_eq!(rt; told, [(1, 3, 5, 0), (2, 2, 0, 0)]);
    Ok(())
}

#[test]
fn a_pass_is_at_rest_and_has_done_nothing(rt: HostRuntime) -> Result<(), Memory> {
    let shares = [Share { slots: 1, calls: 1 }];
    let (board, passes) = open_board(rt.alloc(), Loose, &shares, usual_starts())?;
    let mut told = ([false, true, true], [1; 2], Some(0));
    for pass in passes.iter() {
        told = (
            [pass.at_rest(), pass.published(), pass.has_spare()],
            [pass.limbo(), pass.debts()],
            pass.owes_from(),
        );
    }
    close_board(board, passes);
    assert_eq!(rt; told, ([true, false, false], [0; 2], None));
    Ok(())
}
