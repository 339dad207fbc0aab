//! Calls, replies and the entries of a history.

/// A call of an ordered map. Keys and values are at most 999999999999999999.
#[derive(Clone, Copy, Debug, PartialEq, Eq)]
pub enum Call {
    /// Puts a value at a key.
    Put { key: u64, value: u64 },
    /// Asks for the value at a key.
    Get { key: u64 },
    /// Removes a key with its value.
    Remove { key: u64 },
    /// Asks for the pair with the least key that is at least this one.
    Ceil { key: u64 },
    /// Asks for the pair with the greatest key that is at most this one.
    Floor { key: u64 },
}

/// What an ordered map answers to a call.
#[derive(Clone, Copy, Debug, PartialEq, Eq)]
pub enum Reply {
    /// A put found the key absent.
    New,
    /// A put found this value at the key.
    Was(u64),
    /// A get found this value, or a remove took it away.
    Value(u64),
    /// There was no such key.
    None,
    /// A ceil or a floor found this key with its value.
    Pair(u64, u64),
}

/// One call in a history of all clients.
#[derive(Clone, Copy, Debug, PartialEq, Eq)]
pub struct Entry {
    /// The client, or the pass that worked for it, from 1.
    pub pass: u32,
    /// The place of the call among this client's own calls, from 1.
    pub number: u32,
    /// What was asked.
    pub call: Call,
    /// What was answered.
    pub reply: Reply,
    /// The moment of the call: histories are listed by rising stamps.
    pub stamp: u64,
}

/// Memory was wanted, and there was none.
#[derive(Clone, Copy, Debug, PartialEq, Eq)]
pub struct Memory;
