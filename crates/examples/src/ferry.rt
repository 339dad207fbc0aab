//! A ferry that keeps count of who is aboard, grown-ups and children, on a board that many threads share without a lock. It has
//! ten seats, and for every order of the threads' steps no more than ten are aboard at any time.
ghost use Rattle.std.specs.Prelude.{◌≡◌, ◌+◌, ◌<◌, ◌≤◌, IfOk, OnErr};
ghost use Rattle.pc_rule.specs.Passes.{whole, view, listed, OnlyListed, StaysSeated, SitsAs};
ghost use Rattle.pc_rule.specs.Shares.{AreAll};
ghost use Rattle.pc_path.specs.Exchanges.{HasNoEffect};
ghost use Rattle.examples.specs.Ferry.{changes_for, IsReady, IsOpen, HasBegun, HasCounted, IsAboard, IsFull, IfAboard, IfFull};

use pc_model::{Field, Shape};
use pc_path::{Lost, ReadFault, VisitFault, add, end, read, start, validate, vexec, visit};
use pc_rule::{Board, Pass, close_board};

/// The shape of the ferry's cells: the sentinel's value is how many grown-ups are aboard, its height how many children, and together
/// they are at most ten.
#[derive(Clone, Copy, Debug, PartialEq, Eq)]
pub struct Ferry;

impl Shape for Ferry {
    ghost use Rattle.examples.specs.Ferry.{ferry_form, ferry_laws};

    ghost form = { ferry_form };

    ghost laws = { ferry_laws };
}

/// Who wants to come aboard.
#[derive(Clone, Copy, Debug, PartialEq, Eq)]
pub enum Guest {
    /// A grown-up.
    Grown,
    /// A child.
    Child,
}

/// What became of a guest, and when: the stamp of that moment.
#[derive(Clone, Copy, Debug, PartialEq, Eq)]
pub enum Boarding {
    /// The guest took a seat.
    Aboard(u64),
    /// All seats were taken.
    Full(u64),
}

/// Why it isn't known what became of a guest: others were in the way, so nothing was changed. To try again is right, but where a
/// counter has come to its end.
#[derive(Clone, Copy, Debug, PartialEq, Eq)]
pub enum Miss {
    /// The sentinel wasn't visited.
    Visit(VisitFault),
    /// A count wasn't read.
    Read(ReadFault),
    /// The operation was lost.
    Lost(Lost),
}

const SEATS: u64 = 10;

// How many grown-ups and children are aboard, and the version of the sentinel at which they were.
#[derive(Clone, Copy)]
struct Count {
    version: u64,
    grown: u64,
    children: u64,
}

// Visits the sentinel and reads both counts.
fn counted(board: &Board<Ferry>, pass: &mut Pass<Ferry>) -> Result<Count, Miss>
    requires begun { HasBegun board.now pass.old }
    ensures seated { StaysSeated pass.old pass.new }
    ensures counted { IfOk result (HasCounted board.now pass.new) }
    ensures open { IsOpen board.now pass.new }
    ensures number { (view pass.new).attempt.number ≡ (view pass.old).attempt.number }
{
    let version = visit(board, pass, 1).map_err(Miss::Visit)?;
    let grown = read(board, pass, 1, Field::Value).map_err(Miss::Read)?;
    let children = read(board, pass, 1, Field::Height).map_err(Miss::Read)?;
    Ok(Count {
        version,
        grown,
        children,
    })
}

// Adds the changes that take the guest aboard.
fn add_guest(board: &Board<Ferry>, pass: &mut Pass<Ferry>, count: Count, guest: Guest)
    requires counted { HasCounted board.now pass.old count }
    requires room { count.grown + count.children < 10 }
    ensures only { OnlyListed pass.old pass.new }
    ensures added { listed pass.new ≡ changes_for guest count }
{
    add(
        board,
        pass,
        1,
        Field::Version,
        count.version,
        count.version + 2,
    );
    match guest {
        Guest::Grown => add(board, pass, 1, Field::Value, count.grown, count.grown + 1),
        Guest::Child => add(
            board,
            pass,
            1,
            Field::Height,
            count.children,
            count.children + 1,
        ),
    }
}

// Takes a seat for the guest, where the counts still stand.
fn seated(
    board: &Board<Ferry>,
    pass: &mut Pass<Ferry>,
    count: Count,
    guest: Guest,
) -> Result<u64, Lost>
    requires counted { HasCounted board.now pass.old count }
    requires room { count.grown + count.children < 10 }
    ensures seated { SitsAs pass.old pass.new }
    ensures open { IsOpen board.now pass.new }
    ensures aboard { IfOk result (IsAboard guest (whole pass.new)) }
    ensures lost { OnErr result (HasNoEffect (view pass.old) (whole pass.new)) }
{
    add_guest(board, pass, count, guest);
    vexec(board, pass)
}

// What the operation does between its beginning and its end.
fn boarded(board: &Board<Ferry>, pass: &mut Pass<Ferry>, guest: Guest) -> Result<Boarding, Miss>
    requires begun { HasBegun board.now pass.old }
    ensures seated { SitsAs pass.old pass.new }
    ensures open { IsOpen board.now pass.new }
    ensures aboard { IfOk result (λ b. IfAboard b (IsAboard guest (whole pass.new))) }
    ensures full { IfOk result (λ b. IfFull b (IsFull (whole pass.new))) }
    ensures missed { OnErr result (HasNoEffect (view pass.old) (whole pass.new)) }
{
    let count = counted(board, pass)?;
    if count.grown.saturating_add(count.children) >= SEATS {
        let stamp = validate(board, pass).map_err(Miss::Lost)?;
        return Ok(Boarding::Full(stamp));
    }
    let stamp = seated(board, pass, count, guest).map_err(Miss::Lost)?;
    Ok(Boarding::Aboard(stamp))
}

/// Takes a guest aboard where a seat is free. It waits for nobody and takes no memory.
///
/// Whether the guest is aboard or the ferry full, it was so at the stamp. Where others were in the way nothing changed.
pub fn embark(board: &Board<Ferry>, pass: &mut Pass<Ferry>, guest: Guest) -> Result<Boarding, Miss>
    requires ready { IsReady board.now pass.old }
    ensures ready { IsReady board.now pass.new × SitsAs pass.old pass.new }
    ensures aboard { IfOk result (λ b. IfAboard b (IsAboard guest (whole pass.new))) }
    ensures full { IfOk result (λ b. IfFull b (IsFull (whole pass.new))) }
    ensures missed { OnErr result (HasNoEffect (view pass.old) (whole pass.new)) }
{
    start(board, pass).unwrap();
    let answer = boarded(board, pass, guest);
    end(board, pass);
    answer
}

/// Closes the ferry's board, and says how many grown-ups and how many children are aboard: at most ten together, for every order
/// of the steps of all threads.
pub fn close(board: Board<Ferry>, passes: Vec<Pass<Ferry>>) -> (u64, u64)
    requires passes { AreAll board passes.items }
    ensures seats { result.0 + result.1 ≤ 10 }
{
    let closed = close_board(board, passes);
    (closed.cell(1, Field::Value), closed.cell(1, Field::Height))
}
