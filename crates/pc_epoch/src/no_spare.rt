//! Why a pass gets no spare.
use pc_model::Numbers;

/// Why a pass gets no spare.
#[derive(Clone, Copy, Debug, PartialEq, Eq)]
pub enum NoSpare {
    /// The pass has no spare and no free slot.
    NoSlot {
        /// How many slots it retired that aren't free yet: 0 as long as passes retire none.
        limbo: u32,
        /// For which pass it waits before it may free them, and the epoch that this announces: none as long as passes retire none.
        waits: Option<(u32, u64)>,
    },
    /// A counter stands at its last value. As long as passes retire no slots this doesn't come.
    Numbers(Numbers),
}
