//! What an install answers.
use pc_model::Numbers;
use pc_rule::Ref;

/// What came of an install.
#[derive(Clone, Copy, Debug, PartialEq, Eq)]
pub enum Installed {
    /// The word held the exchange's reference in this call.
    Held,
    /// The exchange wasn't undecided in this call.
    Decided,
    /// The word had this plain value, which isn't the old one.
    Differs(u64),
    /// The word held this reference: neither the exchange's own nor that of an install of this pass.
    Met(Ref),
    /// The pass's install number stands at its last value, and nothing was written.
    Numbers(Numbers),
}
