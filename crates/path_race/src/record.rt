//! What a thread takes down of operations that took effect.
ghost use Rattle.std.specs.Prelude.{ℕ, ◌+◌, ◌≤◌, length, IfOk};
ghost use Rattle.path_race.specs.Rooms.{HasRoom, HasRoomBeside};

use crate::ends::Kind;
use pc_path::Lost;
use pc_rule::Place;
use std::alloc::{AllocError, Global};

/// An operation that took effect.
#[derive(Clone, Copy)]
pub(crate) struct Won {
    /// Its kind.
    pub(crate) kind: Kind,
    /// Its stamp.
    pub(crate) stamp: u64,
    /// How many words it has.
    pub(crate) count: u32,
}

/// The operations that took effect in a round, and the words of all of them, one operation behind the other; or nothing.
#[derive(Drop)]
pub(crate) struct Record {
    kept: bool,
    pub(crate) won: Vec<Won>,
    pub(crate) words: Vec<Place>,
}

impl Record {
    /// No operation, with room for so many.
    /// - `kept`: whether they are to be taken down.
    pub(crate) fn with_room(
        alloc: Global,
        operations: u32,
        kept: bool,
    ) -> Result<Record, AllocError>
        ensures { IfOk result (HasRoom operations) }
    {
        let won = Vec::with_capacity(alloc, operations as usize)?;
        let words = Vec::with_capacity(alloc, 6 * operations as usize)?;
        Ok(Record { kept, won, words })
    }

    /// Takes the words of an operation down that has yet to take effect. Answers how many they are.
    pub(crate) fn take_down(&mut self, places: &[Place]) -> u32
        requires few { length places.now ≤ 6 }
        requires room { HasRoom 1 self.old }
        ensures { (n : ℕ) → HasRoom (n + 1) self.old → HasRoomBeside n result self.new }
    {
        if !self.kept {
            return 0;
        }
        for place in places {
            self.words.push_reserved(*place);
        }
        places.len() as u32
    }

    /// Keeps the words that were taken down last where their operation took effect, and drops them where it didn't. Says whether it did.
    pub(crate) fn end(&mut self, count: u32, kind: Kind, answer: Result<u64, Lost>) -> bool
        requires { HasRoomBeside 0 count self.old }
        ensures { (n : ℕ) → HasRoomBeside n count self.old → HasRoom n self.new }
    {
        match answer {
            Ok(stamp) if self.kept => self.won.push_reserved(Won { kind, stamp, count }),
            _ => {
                let left = self.words.len() - count as usize;
                self.words.truncate(left);
            }
        }
        answer.is_ok()
    }
}
