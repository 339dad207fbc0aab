//! The changes of an operation's exchange.
ghost use Rattle.std.specs.Prelude.{◌≡◌, ◌≢◌, ◌⊎◌, ℕ, ◌+◌, ◌^◌, ◌<◌, ◌∷◌, ◌++◌, [], true, false, length};
ghost use Rattle.pc_model.specs.declared.cell.Field.TheVariants.{Version};
ghost use Rattle.pc_exchange_law.specs.ExchangeConditions.{KnowsOld};
ghost use Rattle.pc_rule.specs.Listed.{IsUnlisted};
ghost use Rattle.pc_rule.specs.Passes.{view, knows, visits, path, listed, board_size, IsPassOf, HasNode, OnlyListed};
ghost use Rattle.pc_path.specs.Adds.{IsLastVisit};

use pc_model::{Field, Shape};
use pc_rule::{Board, Pass, Place};

/// Adds a change of a word to the exchange of the operation: at most 24, and each word once. Its node was visited.
/// - `old`: of a version, what the node's last visit gave; of another word, what it is known to be while the node has that version,
///   as where it was read after that visit.
/// - `new`: below 2^62; of a version, two more than the old one, or one more, which marks the node.
pub fn add<H: Shape>(
    board: &Board<H>,
    pass: &mut Pass<H>,
    node: u32,
    field: Field,
    old: u64,
    new: u64,
)
    requires pass { IsPassOf board.now pass.old }
    requires open { (path pass.old).begun ≡ true }
    requires unpublished { (view pass.old).attempt.published ≡ false }
    requires few { length (listed pass.old) < 24 }
    requires node { HasNode board.now node }
    requires small { (old < 2 ^ 62) × (new < 2 ^ 62) }
    requires apart { IsUnlisted (listed pass.old) (record { node = node; field = field; old = old; new = new }) }
    requires known { (v : ℕ) × IsLastVisit (visits pass.old) node v × KnowsOld (board_size board.now) (knows pass.old) node v field old }
    requires version { field ≡ Version → IsLastVisit (visits pass.old) node old × ((new ≡ old + 2) ⊎ (new ≡ old + 1)) }
    ensures only { OnlyListed pass.old pass.new }
    ensures added { listed pass.new ≡ listed pass.old ++ record { node = node; field = field; old = old; new = new } ∷ [] }
{
    let _ = board;
    pass.list(Place {
        node,
        field,
        old,
        new,
    });
}
