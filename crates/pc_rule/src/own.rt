//! What a pass knows of itself.
ghost use Rattle.std.specs.Prelude.{◌≡◌, ◌+◌, ◌*◌, ◌<◌, ◌≤◌, length};
ghost use Rattle.pc_rule_law.specs.Past.{visits_begin};
ghost use Rattle.pc_rule.specs.Passes.{view, listed, board_size, IsPassOf};

use crate::board::{Board, Pass};
use pc_model::Shape;

impl<H: Shape> Pass<H> {
    /// The number of its last install.
    pub fn installs(&self) -> u64
        ensures { result ≡ (view self.now).install.number }
    {
        self.install.number
    }

    /// The number of its last attempt, or what the board starts at.
    pub fn attempts(&self) -> u64
        ensures { result ≡ (view self.now).attempt.number }
    {
        self.attempts
    }
}

impl<H: Shape> Board<H> {
    /// How many passes it is for.
    pub fn passes(&self) -> u32
        ensures number { result ≡ (board_size self.now).seats }
        ensures small { result ≤ 32 }
    {
        self.seats as u32
    }

    /// How many words one of its passes lists.
    pub fn count_listed(&self, pass: &Pass<H>) -> u32
        requires { IsPassOf self.now pass.now }
        ensures count { result ≡ length (listed pass.now) }
        ensures few { result ≤ 25 + (board_size self.now).slots }
        ensures small { result ≤ 61025 }
    {
        pass.listed.len() as u32
    }

    /// The place of the node of a visit in a descriptor, by the visit's index. Its version stands at the next place.
    pub fn visit_place(&self, i: u32) -> u32
        requires { i ≤ (board_size self.now).slots }
        ensures { result ≡ visits_begin (board_size self.now).slots + 2 * i }
    {
        78 + 3 * self.slots as u32 + 2 * i
    }

    /// The seat of one of the board's passes, from 0.
    pub fn seat_of(&self, pass: &Pass<H>) -> u32
        requires { IsPassOf self.now pass.now }
        ensures seat { result ≡ (view pass.now).seat }
        ensures small { result < 32 }
    {
        pass.index as u32
    }
}
