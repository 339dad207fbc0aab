//! How a pass walks over the sentinel.
ghost use Rattle.std.specs.Prelude.{◌≡◌, ◌≢◌, ◌≤◌, [], true};
ghost use Rattle.pc_rule.specs.Passes.{visits, StaysSeated};
ghost use Rattle.path_race.specs.Racing.{turn, IsOpen};

use pc_model::{Field, Loose};
use pc_path::{read, visit};
use pc_rule::{Board, Pass, Place};

/// The field of the sentinel in this turn, behind the version.
pub(crate) fn field_in(place: u32) -> Field
    requires { (1 ≤ place) × (place ≤ 5) }
    ensures { turn result ≡ place }
{
    match place {
        1 => Field::Value,
        2 => Field::Height,
        3 => Field::Spare,
        4 => Field::Key,
        _ => Field::Left,
    }
}

/// A word of the sentinel that has this number and keeps it.
pub(crate) fn seen(field: Field, number: u64) -> Place {
    Place {
        node: 1,
        field,
        old: number,
        new: number,
    }
}

/// Visits the sentinel and reads fields of it in turn, so that these are so many words together, the version first. False where one
/// couldn't be read.
/// - `words`: what it found, which they keep.
pub(crate) fn walk(
    board: &Board<Loose>,
    pass: &mut Pass<Loose>,
    words: &mut [Place; 6],
    count: u32,
) -> bool
    requires begun { IsOpen board.now pass.old }
    requires count { (2 ≤ count) × (count ≤ 6) }
    ensures seated { StaysSeated pass.old pass.new }
    ensures begun { IsOpen board.now pass.new }
    ensures visited { result ≡ true → visits pass.new ≢ [] }
{
    let Ok(version) = visit(board, pass, 1) else {
        return false;
    };
    words[0] = seen(Field::Version, version);
    for place in 1..count {
        let field = field_in(place);
        let Ok(number) = read(board, pass, 1, field) else {
            return false;
        };
        words[place as usize] = seen(field, number);
    }
    true
}
