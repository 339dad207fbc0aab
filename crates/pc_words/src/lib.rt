//! How the words of a board are packed into numbers of 64 bits: the words of nodes, and the statuses of
//! exchanges. Above this crate words are kinds and statuses, and no bit is seen. A board is to hold such
//! words in place of plain numbers, so that a thread that meets the work of another can find it and help:
//! the installs of Harris, Fraser and Pratt (DISC 2002), with descriptors that are used again and are told
//! apart by numbers (Arbel-Raviv and Brown, DISC 2017). The functions keep no state and refuse nothing.
#![tactic(auto)]

mod laws;
mod status;
mod word;

pub use laws::{kinds_are_disjoint, statuses_are_inverse, words_are_inverse};
pub use status::{Stage, Status, pack, unpack};
pub use word::{WordKind, exchange_ref, install_ref, kind_of, plain};
