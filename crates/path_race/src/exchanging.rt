//! How a pass makes the exchange of the words that it added.
ghost use Rattle.std.specs.Prelude.{◌≡◌, ◌<◌, ℕ};
ghost use Rattle.pc_rule.specs.Passes.{board_size, SitsAs};
ghost use Rattle.path_race.specs.Racing.{HasBegun, HasAdded};

use crate::ends::Kind;
use pc_kcas::install_first;
use pc_model::Loose;
use pc_path::{Lost, begin_vexec, exec, finish_vexec, vexec};
use pc_rule::{Board, Pass};
use std::thread;

/// How often a thread that stops for a while lets others go on.
const PAUSE: u32 = 8;

// Lets other threads go on for a while.
fn pause() {
    for _ in 0..PAUSE {
        thread::yield_now();
    }
}

// The exchange by the path, whose pass stops for a while when it has installed up to so many words.
fn stop_half_way(board: &Board<Loose>, pass: &mut Pass<Loose>, held: u32) -> Result<u64, Lost>
    requires added { (count : ℕ) × (0 < count) × HasAdded board.now pass.old count }
    requires slots { (board_size board.now).slots ≡ 0 }
    ensures seated { SitsAs pass.old pass.new }
    ensures begun { HasBegun board.now pass.new }
{
    if let Err(numbers) = begin_vexec(board, pass) {
        return Err(Lost::Numbers(numbers));
    }
    install_first(board, pass, held);
    pause();
    finish_vexec(board, pass)
}

/// The exchange of this kind.
pub(crate) fn exchange(
    board: &Board<Loose>,
    pass: &mut Pass<Loose>,
    kind: Kind,
    held: u32,
) -> Result<u64, Lost>
    requires added { (count : ℕ) × (0 < count) × HasAdded board.now pass.old count }
    requires slots { (board_size board.now).slots ≡ 0 }
    ensures seated { SitsAs pass.old pass.new }
    ensures begun { HasBegun board.now pass.new }
{
    match kind {
        Kind::Words => exec(board, pass),
        Kind::Stopped => stop_half_way(board, pass, held),
        _ => vexec(board, pass),
    }
}
