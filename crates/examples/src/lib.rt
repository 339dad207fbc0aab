//! Examples for authors: a book of reservations on plain cells (`book`), and a ferry that many threads board without a lock, on a board
//! of its own shape (`ferry`).
#![tactic(auto)]

#[cfg(test)]
mod boarding;
mod book;
mod ferry;
#[cfg(test)]
mod reservations;

pub use book::{guest_of, reserve};
pub use ferry::{Boarding, Ferry, Guest, Miss, close, embark};
