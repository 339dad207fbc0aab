//! The words that a pass lists for its exchange. They are kept until they are dropped, also while it is published.
ghost use Rattle.std.specs.Prelude.{IfOk, ◌≡◌, ◌+◌, ◌<◌, ◌≤◌, ◌∷◌, ◌++◌, [], false, length, vec_capacity};
ghost use Rattle.std.specs.List.Sorted.{IsPermutation, IsNonDecreasingBy};
ghost use Rattle.pc_rule.specs.Listed.{word_number, FitsWord, IsUnlisted};
ghost use Rattle.pc_rule.specs.Passes.{view, listed, OnlyListed};

use crate::board::Pass;
use crate::opening::Place;
use crate::places::field_place;
use pc_model::Shape;
use std::alloc::{AllocError, Global};

/// The room for the words of an exchange: for 24, and the version of each node.
pub(crate) fn list_room(alloc: Global, slots: usize) -> Result<Vec<Place>, AllocError>
    requires { slots ≤ 61000 }
    ensures none { IfOk result (λ r. r.items ≡ []) }
    ensures room { IfOk result (λ r. 25 + slots ≤ vec_capacity r) }
{
    let places = Vec::with_capacity(alloc, 25 + slots)?;
    Ok(places)
}

impl Place {
    /// The number of the word that is to change, by which listed words are ordered.
    pub fn number(&self) -> u64
        ensures { result ≡ word_number self.now }
    {
        8 * u64::from(self.node) + field_place(self.field) as u64
    }
}

impl<H: Shape> Pass<H> {
    /// The words that its exchange is to change: those of the next one, or of the one that it has published.
    pub fn listed(&self) -> &[Place]
        ensures { result.now ≡ listed self.now }
    {
        self.listed.as_slice()
    }

    /// Lists one more word for the next exchange: each once, and at most 25 words more than there are slots.
    pub fn list(&mut self, place: Place)
        requires open { (view self.old).attempt.published ≡ false }
        requires few { length (listed self.old) < 25 + (view self.old).size.slots }
        requires fits { FitsWord (view self.old).size.slots place }
        requires apart { IsUnlisted (listed self.old) place }
        ensures only { OnlyListed self.old self.new }
        ensures listed { listed self.new ≡ listed self.old ++ place ∷ [] }
    {
        self.listed.push_reserved(place);
    }

    /// Puts the listed words in the order of their numbers, the lowest first.
    pub fn sort_listed(&mut self)
        requires open { (view self.old).attempt.published ≡ false }
        ensures only { OnlyListed self.old self.new }
        ensures each { IsPermutation (listed self.old) (listed self.new) }
        ensures rising { IsNonDecreasingBy word_number (listed self.new) }
    {
        self.listed.sort_unstable_by_key(|place| place.number());
    }

    /// Drops the words that were listed.
    pub fn drop_listed(&mut self)
        requires open { (view self.old).attempt.published ≡ false }
        ensures only { OnlyListed self.old self.new }
        ensures none { listed self.new ≡ [] }
    {
        self.listed.clear();
    }
}
