//! What a pass tells of itself.
ghost use Rattle.std.specs.Prelude.{◌≡◌, ◌+◌};
ghost use Rattle.pc_rule.specs.Passes.{view};

use crate::board::Pass;
use pc_model::Shape;

impl<H: Shape> Pass<H> {
    /// The number of the pass, from 1.
    pub fn number(&self) -> u32
        ensures { result ≡ (view self.now).seat + 1 }
    {
        self.index as u32 + 1
    }
}
