//! What is wrong with a line of a script.
use thiserror::Error;

/// What is wrong with a line of a script. Of several faults of a line the first in this order counts.
#[derive(Clone, Copy, Debug, PartialEq, Eq, Error)]
pub enum ScriptKind {
    /// There is a byte where it may not be.
    #[error("bad byte")]
    BadByte = 1,
    /// The first word names no command.
    #[error("unknown word")]
    UnknownWord = 2,
    /// There are too few words or too many.
    #[error("word count")]
    WordCount = 3,
    /// A word that is to be a number is none, or the number is too large.
    #[error("bad number")]
    BadNumber = 4,
    /// There is a turn of a client beyond the last.
    #[error("too many clients")]
    TooManyClients = 5,
    /// There is a command beyond the last.
    #[error("too many lines")]
    TooManyLines = 6,
}
