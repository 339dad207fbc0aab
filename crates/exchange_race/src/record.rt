//! What a thread takes down of exchanges that won.
ghost use Rattle.std.specs.Prelude.{ℕ, ◌+◌, ◌≤◌, length, IfOk};
ghost use Rattle.exchange_race.specs.Rooms.{HasRoom, HasRoomBeside};

use pc_kcas::Verdict;
use pc_rule::Place;
use std::alloc::{AllocError, Global};

/// An exchange that took effect.
#[derive(Clone, Copy)]
pub(crate) struct Won {
    /// Its stamp.
    pub(crate) stamp: u64,
    /// How many words it has.
    pub(crate) count: u32,
}

/// The exchanges that won in a round, and the words of all of them, one exchange behind the other.
#[derive(Drop)]
pub(crate) struct Record {
    pub(crate) won: Vec<Won>,
    pub(crate) words: Vec<Place>,
}

impl Record {
    /// No exchange, with room for so many.
    pub(crate) fn with_room(alloc: Global, exchanges: u32) -> Result<Record, AllocError>
        ensures { IfOk result (HasRoom exchanges) }
    {
        let won = Vec::with_capacity(alloc, exchanges as usize)?;
        let words = Vec::with_capacity(alloc, 6 * exchanges as usize)?;
        Ok(Record { won, words })
    }

    /// Takes the words of an exchange down that has yet to be made. Answers how many they are.
    pub(crate) fn take_down(&mut self, places: &[Place]) -> u32
        requires few { length places.now ≤ 6 }
        requires room { HasRoom 1 self.old }
        ensures { (n : ℕ) → HasRoom (n + 1) self.old → HasRoomBeside n result self.new }
    {
        for place in places {
            self.words.push_reserved(*place);
        }
        places.len() as u32
    }

    /// Keeps the words that were taken down last where their exchange won, and drops them where it didn't. Says whether it won.
    pub(crate) fn end(&mut self, count: u32, verdict: Verdict) -> bool
        requires { HasRoomBeside 0 count self.old }
        ensures { (n : ℕ) → HasRoomBeside n count self.old → HasRoom n self.new }
    {
        if let Verdict::Won { stamp } = verdict {
            self.won.push_reserved(Won { stamp, count });
            return true;
        }
        let kept = self.words.len() - count as usize;
        self.words.truncate(kept);
        false
    }
}
