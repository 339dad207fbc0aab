//! The debts of a change.
ghost use Rattle.std.specs.Prelude.{◌≡◌, ◌≤◌, length};

use pc_plan::Change;

/// The keys that a change charges. Each key that comes into debt by an exchange of a plan is one of them.
#[inline]
pub fn debts(change: &Change) -> &[u64]
    ensures keys { result.now ≡ change.now.charged }
    ensures few { length result.now ≤ 4 }
{
    change.charged()
}
