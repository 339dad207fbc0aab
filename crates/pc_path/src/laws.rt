//! What holds of operations along paths on a board that is closed, on a function that does nothing.
ghost use Rattle.pc_path.specs.Closings.{ReadsCount};

use pc_model::Shape;
use pc_rule::Closed;

/// Each word that a pass read at the version of its node from which an exchange of its own changes that had the number that was read
/// where the exchange took effect, whether the exchange looks at visits or not: one of `exec`, too, stands on what was read so.
pub fn reads_count<H: Shape>(closed: &Closed<H>)
    ensures { ReadsCount closed.now }
{
    let _ = closed;
}
