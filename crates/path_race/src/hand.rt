//! What a thread needs beside its pass, and keeps from round to round.
ghost use Rattle.std.specs.Prelude.{◌<◌, ◌≤◌, ◌^◌};

use crate::ends::{Ends, Kind};
use crate::plan::Mix;

/// Numbers by chance, the numbers that a thread writes, and how its operations ended.
#[derive(Clone, Copy)]
pub(crate) struct Hand {
    chance: u64,
    written: u64,
    /// How its operations ended.
    pub(crate) ends: Ends,
    /// Whether it stopped since no operation took effect.
    pub(crate) stuck: bool,
}

impl Hand {
    /// The hand of the thread whose pass has this seat, from 0.
    pub(crate) fn new(seat: u32) -> Hand {
        let seed = u64::from(seat) + 1;
        Hand {
            chance: seed.wrapping_mul(0x9E37_79B9_7F4A_7C15) | 1,
            written: 0,
            ends: Ends::none(),
            stuck: false,
        }
    }

    // A number by chance (xorshift).
    fn below(&mut self, bound: u64) -> u64
        requires { 0 < bound }
        ensures { result < bound }
    {
        let mut x = self.chance;
        x ^= x << 13;
        x ^= x >> 7;
        x ^= x << 17;
        self.chance = x;
        (x >> 16) % bound
    }

    /// How many words the next operation has, the version among them.
    pub(crate) fn count(&mut self) -> u32
        ensures { (2 ≤ result) × (result ≤ 6) }
    {
        2 + self.below(5) as u32
    }

    /// The kind of the next operation. Of all kinds, half are reads, and every tenth one stops for a while.
    pub(crate) fn kind(&mut self, mix: Mix) -> Kind {
        match mix {
            Mix::Reads => Kind::Read,
            Mix::Changes => Kind::Path,
            Mix::Both => match self.below(2) {
                0 => Kind::Read,
                _ => Kind::Path,
            },
            Mix::All => match self.below(10) {
                0..=4 => Kind::Read,
                5..=6 => Kind::Path,
                7..=8 => Kind::Words,
                _ => Kind::Stopped,
            },
        }
    }

    /// How many words a pass installs before it stops for a while.
    pub(crate) fn held(&mut self) -> u32 {
        self.below(7) as u32
    }

    /// A number that no thread wrote before.
    pub(crate) fn number(&mut self, seat: u32) -> u64
        requires { seat < 32 }
        ensures { result < 2 ^ 62 }
    {
        self.written = self.written.wrapping_add(1) % 1_099_511_627_776;
        (u64::from(seat) + 1) * 1_099_511_627_776 + self.written
    }
}
