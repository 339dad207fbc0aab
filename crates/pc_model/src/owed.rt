//! What a client owes: the keys that its calls charged and didn't settle yet. Few keys are told one
//! by one; past that, every key from a number on is owed.
ghost use Rattle.std.specs.Prelude.{◌≡◌, ◌<◌, ◌≤◌, ◌∷◌, false, length, position, ◌==◌};

use std::marker::Model;

/// What a call settles of the debts of its client.
#[derive(Clone, Copy, Debug, PartialEq, Eq)]
pub enum Settle {
    /// Nothing.
    Nothing,
    /// This key is no longer owed.
    Release(u64),
    /// This key is owed before all others.
    First(u64),
    /// Every key from this one on is owed, or none by its number.
    Raise(Option<u64>),
}

/// What is owed first.
#[derive(Clone, Copy, Debug, PartialEq, Eq)]
pub enum Owing {
    /// This key.
    Key(u64),
    /// Every key from this one on.
    From(u64),
}

/// The most keys that are told one by one.
const MOST_KEYS: usize = 64;

/// What a client owes: at most 64 different keys, and perhaps every key from a number on. The keys stand at the end of
/// the array, so that no other moves where one comes to the front or leaves it.
#[derive(Drop)]
pub struct Owed {
    keys: [u64; 64],
    /// The place of the front; 64 where there are no keys.
    front: usize,
    from: Option<u64>,
}

impl Model for Owed {
    ghost use Rattle.std.specs.Prelude.{◌≤◌, drop};
    ghost use Rattle.pc_model.specs.Debts.{Debts, AreDifferent};

    ghost Value = { Debts };

    ghost view = { λ o. record { keys = drop o.front o.keys; from = o.from } };

    ghost invariant = { λ o. (o.front ≤ 64) × AreDifferent (drop o.front o.keys) };
}

impl Owed {
    ghost use Rattle.pc_model.specs.Debts.{no_debts, has, AreDifferent, charged, put_in_front, released, raised};
    ghost use Rattle.pc_model.specs.Debts.{settled, first_owed, lowered, with_room};

    /// Nothing is owed.
    pub fn none() -> Owed
        ensures { result ≡ no_debts }
    {
        Owed {
            keys: [0; 64],
            front: MOST_KEYS,
            from: None,
        }
    }

    /// Charges a key. One that is in the list stays where it is; another goes to the front of the
    /// list, or, where there are 64 keys, lowers the number.
    pub fn charge(&mut self, key: u64)
        ensures { self.new ≡ charged key self.old }
    {
        if !self.contains(key) {
            if self.keys().len() < MOST_KEYS {
                self.push_front(key);
            } else {
                self.lower(key);
            }
        }
    }

    /// Puts a key at the front of the list, whether or not it was there. Where there is no room for
    /// it, the last key leaves the list, and lowers the number.
    pub fn put_first(&mut self, key: u64)
        ensures { self.new ≡ put_in_front key self.old }
    {
        if self.contains(key) {
            self.release(key);
        } else {
            self.make_room();
        }
        self.push_front(key);
    }

    /// Takes a key out of the list, where it is there.
    pub fn release(&mut self, key: u64)
        ensures { self.new ≡ released key self.old }
    {
        let Some(place) = self.place_of(key) else {
            return;
        };
        let behind = self.front + place + 1;
        self.keys[self.front..behind].rotate_right(1);
        self.front += 1;
    }

    /// Owes every key from another number on, or none by its number.
    pub fn raise(&mut self, to: Option<u64>)
        ensures { self.new ≡ raised to self.old }
    {
        self.from = to;
    }

    /// Settles what a call settles.
    pub fn settle(&mut self, settle: Settle)
        ensures { self.new ≡ settled settle self.old }
    {
        match settle {
            Settle::Nothing => {}
            Settle::Release(key) => self.release(key),
            Settle::First(key) => self.put_first(key),
            Settle::Raise(to) => self.raise(to),
        }
    }

    /// What is owed first: the front of the list, or else the number.
    pub fn first(&self) -> Option<Owing>
        ensures { result ≡ first_owed self.now.keys self.now.from }
    {
        match self.keys() {
            [key, ..] => Some(Owing::Key(*key)),
            [] => self.from.map(Owing::From),
        }
    }

    /// The keys that are told one by one, the first one in front.
    pub fn keys(&self) -> &[u64]
        ensures keys { result.now ≡ self.now.keys }
        ensures few { length result.now ≤ 64 }
        ensures different { AreDifferent result.now }
    {
        &self.keys[self.front..]
    }

    /// The number from which on every key is owed.
    pub fn from_key(&self) -> Option<u64>
        ensures { result ≡ self.now.from }
    {
        self.from
    }

    // Whether the key stands in the list.
    fn contains(&self, key: u64) -> bool
        ensures there { result ≡ has key self.now.keys }
        ensures few { length self.now.keys ≤ 64 }
    {
        self.keys().contains(&key)
    }

    // Where the key stands in the list.
    fn place_of(&self, key: u64) -> Option<usize>
        ensures { result ≡ position (λ x. x == key) self.now.keys }
    {
        self.keys().iter().position(|owed| *owed == key)
    }

    // Puts another key at the front.
    fn push_front(&mut self, key: u64)
        requires room { length self.old.keys < 64 }
        requires another { has key self.old.keys ≡ false }
        ensures { self.new ≡ record self.old { keys = key ∷ self.old.keys } }
    {
        self.front -= 1;
        self.keys[self.front] = key;
    }

    // Makes room for a key: the last key of a full list leaves it, and every key from it on is owed.
    fn make_room(&mut self)
        ensures made { self.new ≡ with_room self.old }
        ensures room { length self.new.keys < 64 }
    {
        if self.front > 0 {
            return;
        }
        let last = self.keys[MOST_KEYS - 1];
        self.keys.rotate_right(1);
        self.front = 1;
        self.lower(last);
    }

    // Owes every key from this one on, and from the number on.
    fn lower(&mut self, key: u64)
        ensures { self.new ≡ record self.old { from = lowered key self.old.from } }
    {
        self.from = match self.from {
            Some(from) => Some(from.min(key)),
            None => Some(key),
        };
    }
}
