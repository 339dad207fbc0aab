//! The calls that operations take along: those of a map with one key, whose value is the value of the sentinel.
ghost use Rattle.std.specs.Prelude.{◌≡◌, ◌≢◌, [], ℕ};
ghost use Rattle.pc_rule.specs.Passes.{OnlyCarried};
ghost use Rattle.path_race.specs.Racing.{HasBegun};

use pc_model::{Call, Loose, Reply};
use pc_path::carry;
use pc_rule::{Board, Pass};

// The key of that map.
const KEY: u64 = 1;

// Takes a call along, where there is room for one.
fn take(board: &Board<Loose>, pass: &mut Pass<Loose>, call: Call, reply: Reply)
    requires { HasBegun board.now pass.old }
    ensures only { OnlyCarried pass.old pass.new }
    ensures begun { HasBegun board.now pass.new }
{
    let _ = board;
    if pass.room() > 0 && pass.carried().is_none() {
        carry(pass, call, reply);
    }
}

/// Takes a get along that finds this value.
pub(crate) fn take_get(board: &Board<Loose>, pass: &mut Pass<Loose>, value: u64)
    requires { HasBegun board.now pass.old }
    ensures only { OnlyCarried pass.old pass.new }
    ensures begun { HasBegun board.now pass.new }
{
    take(board, pass, Call::Get { key: KEY }, Reply::Value(value));
}

/// Takes a put along that finds this value and puts that one.
pub(crate) fn take_put(board: &Board<Loose>, pass: &mut Pass<Loose>, old: u64, new: u64)
    requires { HasBegun board.now pass.old }
    ensures only { OnlyCarried pass.old pass.new }
    ensures begun { HasBegun board.now pass.new }
{
    let call = Call::Put {
        key: KEY,
        value: new,
    };
    take(board, pass, call, Reply::Was(old));
}
