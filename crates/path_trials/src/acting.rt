//! What a pass does to the sentinel in one operation, and in parts of one.
ghost use Rattle.std.specs.Prelude.{◌≡◌, ◌≢◌, [], true, IfSome, IfNone, IsSome};
ghost use Rattle.pc_rule_law.specs.Conditions.{IsFree};
ghost use Rattle.pc_rule.specs.Passes.{view, path, visits, IsPassOf, IsSeatedAs, StaysSeated, SitsAs};
ghost use Rattle.pc_kcas.specs.Exchanges.{IsPublished};
ghost use Rattle.path_trials.specs.Operating.{IsAtRest, HasBegun, HasAdded};

use pc_model::{Field, Loose};
use pc_path::{
    Lost, add, begin_vexec, end, exec, finish_vexec, read, start, validate, vexec, visit,
};
use pc_rule::{Board, Pass};

/// Each number of a word is below this one.
const LIMIT: u64 = 4_611_686_018_427_387_904;

/// The version and the value of the sentinel, as they were found.
pub(crate) type Seen = (u64, u64);

/// The pass visits the sentinel and reads its value.
pub(crate) fn walked(board: &Board<Loose>, pass: &mut Pass<Loose>) -> Option<Seen>
    requires pass { IsPassOf board.now pass.old }
    requires begun { HasBegun pass.old }
    requires free { IsFree (view pass.old) }
    ensures seated { StaysSeated pass.old pass.new }
    ensures begun { HasBegun pass.new }
    ensures free { IsFree (view pass.new) }
    ensures visited { IsSome result → visits pass.new ≢ [] }
{
    let Ok(version) = visit(board, pass, 1) else {
        return None;
    };
    let Ok(value) = read(board, pass, 1, Field::Value) else {
        return None;
    };
    Some((version, value))
}

/// The same, as one read.
pub(crate) fn walk_read(
    board: &Board<Loose>,
    pass: &mut Pass<Loose>,
) -> Option<(Seen, Result<u64, Lost>)>
    requires pass { IsPassOf board.now pass.old }
    requires begun { HasBegun pass.old }
    requires free { IsFree (view pass.old) }
    ensures seated { SitsAs pass.old pass.new × IsPassOf board.now pass.new }
    ensures begun { HasBegun pass.new }
    ensures free { IsFree (view pass.new) }
{
    let seen = walked(board, pass)?;
    Some((seen, validate(board, pass)))
}

/// The same as an operation of its own.
pub(crate) fn looked(
    board: &Board<Loose>,
    pass: &mut Pass<Loose>,
) -> Option<(Seen, Result<u64, Lost>)>
    requires pass { IsPassOf board.now pass.old }
    requires rest { IsAtRest pass.old }
    requires free { IsFree (view pass.old) }
    ensures seated { SitsAs pass.old pass.new × IsPassOf board.now pass.new }
    ensures rest { IsAtRest pass.new }
    ensures free { IsFree (view pass.new) }
{
    start(board, pass).unwrap();
    let answer = walk_read(board, pass);
    end(board, pass);
    answer
}

/// The pass visits the sentinel and reads its value, and adds that the value becomes this one and the version rises.
pub(crate) fn added(board: &Board<Loose>, pass: &mut Pass<Loose>, new: u32) -> Option<Seen>
    requires pass { IsPassOf board.now pass.old }
    requires begun { HasBegun pass.old }
    requires free { IsFree (view pass.old) }
    ensures seated { IsSeatedAs pass.old pass.new }
    ensures free { IsFree (view pass.new) }
    ensures added { IfSome result (λ s. HasAdded board.now pass.new) }
    ensures begun { IfNone result (HasBegun pass.new) }
{
    let Ok(version) = visit(board, pass, 1) else {
        return None;
    };
    let Ok(value) = read(board, pass, 1, Field::Value) else {
        return None;
    };
    if value >= LIMIT {
        return None;
    }
    add(board, pass, 1, Field::Version, version, version + 2);
    add(board, pass, 1, Field::Value, value, u64::from(new));
    Some((version, value))
}

/// The pass makes one exchange of its operation, where the path still stands.
pub(crate) fn changed(
    board: &Board<Loose>,
    pass: &mut Pass<Loose>,
    new: u32,
) -> Option<(Seen, Result<u64, Lost>)>
    requires pass { IsPassOf board.now pass.old }
    requires begun { HasBegun pass.old }
    requires free { IsFree (view pass.old) }
    ensures seated { SitsAs pass.old pass.new × IsPassOf board.now pass.new }
    ensures begun { HasBegun pass.new }
    ensures free { IsFree (view pass.new) }
{
    let seen = added(board, pass, new)?;
    Some((seen, vexec(board, pass)))
}

/// The same without a look at the path.
pub(crate) fn changed_words(
    board: &Board<Loose>,
    pass: &mut Pass<Loose>,
    new: u32,
) -> Option<(Seen, Result<u64, Lost>)>
    requires pass { IsPassOf board.now pass.old }
    requires begun { HasBegun pass.old }
    requires free { IsFree (view pass.old) }
    ensures seated { SitsAs pass.old pass.new × IsPassOf board.now pass.new }
    ensures begun { HasBegun pass.new }
    ensures free { IsFree (view pass.new) }
{
    let seen = added(board, pass, new)?;
    Some((seen, exec(board, pass)))
}

/// One exchange as an operation of its own.
pub(crate) fn operated(
    board: &Board<Loose>,
    pass: &mut Pass<Loose>,
    new: u32,
) -> Option<(Seen, Result<u64, Lost>)>
    requires pass { IsPassOf board.now pass.old }
    requires rest { IsAtRest pass.old }
    requires free { IsFree (view pass.old) }
    ensures seated { SitsAs pass.old pass.new × IsPassOf board.now pass.new }
    ensures rest { IsAtRest pass.new }
    ensures free { IsFree (view pass.new) }
{
    start(board, pass).unwrap();
    let answer = changed(board, pass, new);
    end(board, pass);
    answer
}

/// An operation begins with an exchange that is published and not ended.
pub(crate) fn published(board: &Board<Loose>, pass: &mut Pass<Loose>, new: u32) -> Option<Seen>
    requires pass { IsPassOf board.now pass.old }
    requires rest { IsAtRest pass.old }
    requires free { IsFree (view pass.old) }
    ensures seated { SitsAs pass.old pass.new × IsPassOf board.now pass.new }
    ensures free { IsFree (view pass.new) }
    ensures published { IsSome result → IsPublished pass.new }
    ensures begun { IsSome result → (path pass.new).begun ≡ true }
{
    start(board, pass).unwrap();
    let seen = added(board, pass, new)?;
    match begin_vexec(board, pass) {
        Ok(()) => Some(seen),
        Err(_) => None,
    }
}

/// The exchange that was published is ended, and its operation.
pub(crate) fn finished(board: &Board<Loose>, pass: &mut Pass<Loose>) -> Result<u64, Lost>
    requires pass { IsPassOf board.now pass.old }
    requires published { IsPublished pass.old }
    requires begun { (path pass.old).begun ≡ true }
    requires free { IsFree (view pass.old) }
    ensures seated { SitsAs pass.old pass.new × IsPassOf board.now pass.new }
    ensures rest { IsAtRest pass.new }
    ensures free { IsFree (view pass.new) }
{
    let answer = finish_vexec(board, pass);
    end(board, pass);
    answer
}
