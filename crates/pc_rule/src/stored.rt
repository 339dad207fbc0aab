//! What stands in a pass's own descriptors. The pass keeps it, so a word that has its value already needn't be stored.
ghost use Rattle.std.specs.Prelude.{IfOk, ◌≡◌, ℕ, ◌<◌, List, [], ◌∷◌};
ghost use Rattle.pc_rule_law.specs.Plays.{with_install_word};
ghost use Rattle.pc_rule_law.specs.Views.{own_install_word, word_in};
ghost use Rattle.pc_rule.specs.Passes.{view};
ghost use Rattle.pc_rule.specs.Stored.{install_of, kept_words, HoldsWords};

use crate::board::Pass;
use pc_model::Shape;
use std::alloc::{AllocError, Global};

// How many words of its descriptor a pass keeps: the mode, the two counts, and three words for each of 24 changes.
const KEPT_WORDS: usize = 75;

/// The words of an install's descriptor: its number, its exchange, the word that it is for, and the word's old value.
#[derive(Clone, Copy)]
pub(crate) struct InstallWords {
    pub(crate) number: u64,
    pub(crate) op: u64,
    pub(crate) place: u64,
    pub(crate) value: u64,
}

/// The words of the descriptor of a pass that has made no install.
pub(crate) fn install_start(number: u64) -> InstallWords
    ensures { result ≡ record { number = number; op = 0; place = 0; value = 0 } }
{
    InstallWords {
        number,
        op: 0,
        place: 0,
        value: 0,
    }
}

impl InstallWords {
    /// The word at this place.
    pub(crate) fn at(&self, place: u32) -> u64
        ensures { result ≡ own_install_word (install_of self.now) place }
    {
        match place {
            0 => self.number,
            1 => self.op,
            2 => self.place,
            _ => self.value,
        }
    }

    /// Takes down a store to the word at this place.
    pub(crate) fn set(&mut self, place: u32, new: u64)
        ensures { install_of self.new ≡ with_install_word (install_of self.old) place new }
    {
        match place {
            0 => self.number = new,
            1 => self.op = new,
            2 => self.place = new,
            _ => self.value = new,
        }
    }
}

/// The room for the words of a descriptor that are kept, of which none was stored yet.
pub(crate) fn words_room(alloc: Global) -> Result<Vec<u64>, AllocError>
    ensures { IfOk result (λ r. HoldsWords [] r.items) }
{
    vec![in alloc; 0u64; KEPT_WORDS]
}

/// Takes down a store to the word at this place of the descriptor, where that is kept.
pub(crate) fn keep_word(words: &mut Vec<u64>, place: u32, new: u64)
    ensures { (stored : List (ℕ × ℕ)) → HoldsWords stored words.old.items → HoldsWords ((place, new) ∷ stored) words.new.items }
{
    let at = place as usize;
    if at < words.len() {
        words[at] = new;
    }
}

impl<H: Shape> Pass<H> {
    /// A word of its install's descriptor as it stands: the number of its last install, its exchange, the word that it was for, or
    /// the word's old value.
    /// - `place`: 0 to 3.
    pub fn install_word(&self, place: u32) -> u64
        requires { place < 4 }
        ensures { result ≡ own_install_word (view self.now).install place }
    {
        self.install.at(place)
    }

    /// A word of its descriptor as it stands: the mode, the number of changes or that of visits, or one of the three words of one
    /// of the first 24 changes.
    /// - `place`: 0 to 74.
    pub fn attempt_word(&self, place: u32) -> u64
        requires { place < kept_words }
        ensures { result ≡ word_in (view self.now).attempt.words place }
    {
        self.words[place as usize]
    }
}
