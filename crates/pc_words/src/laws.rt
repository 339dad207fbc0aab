//! Laws of the packing, on functions without code.
ghost use Rattle.pc_words.specs.PackingLaws.{WordsAreInverse, KindsAreDisjoint, StatusesAreInverse};

/// What is packed is unpacked again, and what is unpacked was packed: for the words of nodes.
pub fn words_are_inverse()
    ensures { WordsAreInverse }
{}

/// No number is stored for words of two kinds, or for two words.
pub fn kinds_are_disjoint()
    ensures { KindsAreDisjoint }
{}

/// What is packed is unpacked again, and what is unpacked was packed: for statuses.
pub fn statuses_are_inverse()
    ensures { StatusesAreInverse }
{}
