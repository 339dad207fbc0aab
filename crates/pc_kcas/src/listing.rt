//! The list of an exchange.
ghost use Rattle.std.specs.Prelude.{◌≡◌, ◌<◌, ◌∷◌, ◌++◌, [], false, length};
ghost use Rattle.pc_rule.specs.Listed.{FitsWord, IsUnlisted};
ghost use Rattle.pc_rule.specs.Passes.{view, listed, OnlyListed};
ghost use Rattle.pc_kcas.specs.Exchanges.{IsFromEven};

use pc_model::Shape;
use pc_rule::{Pass, Place};

/// Lists one more word for the next exchange of the pass: at most 24 words, each once, with numbers below 2^62. A version is
/// listed from an even number.
pub fn word<H: Shape>(pass: &mut Pass<H>, place: Place)
    requires open { (view pass.old).attempt.published ≡ false }
    requires few { length (listed pass.old) < 24 }
    requires fits { FitsWord (view pass.old).size.slots place }
    requires apart { IsUnlisted (listed pass.old) place }
    requires even { IsFromEven place }
    ensures only { OnlyListed pass.old pass.new }
    ensures listed { listed pass.new ≡ listed pass.old ++ place ∷ [] }
{
    pass.list(place);
}
