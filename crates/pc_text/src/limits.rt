//! How large a script, its commands and its numbers may be.

/// The most bytes that an input has.
pub const MOST_BYTES: usize = 4_194_304;

/// The most commands that a script has.
pub const MOST_COMMANDS: usize = 60_000;

/// The most clients that a script names.
pub const MOST_CLIENTS: u32 = 32;

/// The greatest key, and the greatest value.
pub const GREATEST_NUMBER: u64 = 999_999_999_999_999_999;
