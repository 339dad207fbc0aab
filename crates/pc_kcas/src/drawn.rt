//! What comes of a draw.
use pc_words::Status;

/// What came of a draw for an exchange.
#[derive(Clone, Copy)]
pub(crate) enum Drawn {
    /// This stamp was drawn for it.
    Stamp(u64),
    /// The clock had come to this number, which is the last stamp or above.
    Refused(u64),
    /// The exchange wasn't undecided. This is the status of its pass.
    Past(Status),
}
