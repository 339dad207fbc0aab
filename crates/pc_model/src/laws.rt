//! The laws of the definitions, each on a function with no code.
ghost use Rattle.pc_model.specs.DebtLaws.{FirstOwedIsOwed, NoDebtIsForgotten, NoDebtIsInvented};
ghost use Rattle.pc_model.specs.EntryLaws.{GoesInParts, IsItsCallsInOrder};
ghost use Rattle.pc_model.specs.HeightLaws.{IsBalancedWithoutDebts};
ghost use Rattle.pc_model.specs.MapLaws.{FindsNearest, IsFiniteMap};
ghost use Rattle.pc_model.specs.ReadingLaws.{IsReadByTurns};

/// The sorted list of pairs, with its calls, is std's finite map with the calls of the same names.
pub fn sorted_map_is_finite_map()
    ensures { IsFiniteMap }
{}

/// Ceil gives the pair with the least key from the key up, floor the pair with the greatest key
/// down from it, and each answers nothing only where no key is there.
pub fn ceil_and_floor_are_nearest()
    ensures { FindsNearest }
{}

/// A list of entries is right exactly where its front is right, and its back is right from the map
/// that the front leaves.
pub fn replay_goes_in_parts()
    ensures { GoesInParts }
{}

/// A history of one client is a list of that client's entries, numbered from 1, with its calls in
/// their order.
pub fn history_of_one_client_is_its_calls()
    ensures { IsItsCallsInOrder }
{}

/// A key that is charged or put first is owed, and every key that was owed before still is. A release
/// forgets at most its key, a raise at most the keys from the old number up to the new one, and
/// another settlement nothing. Charges that are entered after a settlement are owed, whatever it settles.
pub fn no_debt_is_forgotten()
    ensures { NoDebtIsForgotten }
{}

/// Nothing is owed without a reason: after a charge only what was owed and the keys from this one up,
/// after a key was put first only it, what was owed, and the keys from one of the list up. A released
/// key that the number doesn't reach isn't owed. After a raise exactly the keys of the list are owed,
/// and where there is a new number, those from it up. What was put first comes first, and every key of
/// the list before the number. A settlement does what it names.
pub fn no_debt_is_invented()
    ensures { NoDebtIsInvented }
{}

/// Something comes first exactly where something is owed. A key that comes first is owed; a number
/// comes first only where no key is listed, and exactly the keys from it up are owed.
pub fn first_owed_is_owed()
    ensures { FirstOwedIsOwed }
{}

/// Cells are a search tree exactly where the tree that is read from the sentinel's left link, in as many
/// turns as there are slots, is one: each slot in use stands in it once, and no other node. A link
/// spells one tree at most. More turns read the same tree, which is as high as the turns that it takes.
pub fn a_search_tree_is_read_by_turns()
    ensures { IsReadByTurns }
{}

/// In a balanced search tree no key is in debt exactly where each node stores its true height and the
/// heights of its two sides differ by at most one. Such a tree of height 2k has at least 2^k - 1 nodes.
pub fn a_tree_without_debts_is_balanced()
    ensures { IsBalancedWithoutDebts }
{}
