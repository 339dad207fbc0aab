//! What each kind of step tells the pass that makes it, and how passes are made and joined. These types are for the
//! proofs alone.
ghost use Rattle.pc_rule_law.specs.Plays.{stores, loads_install, loads_cell, places_install, loads_status, takes_install};
ghost use Rattle.pc_rule_law.specs.Plays.{loads_clock, writes, publishes, loads_word};
ghost use Rattle.pc_rule_law.specs.Seats.{maker, made_by, joined_by, spent_view};

use crate::view::PassView;
use atomic_table::{Join, Play, Split};

/// A store to the own install descriptor.
pub struct StoreInstall;

impl Play<bool, PassView> for StoreInstall {
    ghost then = { stores };
}

/// A load of a word of an install descriptor.
pub struct LoadInstall;

impl Play<bool, PassView> for LoadInstall {
    ghost then = { loads_install };
}

/// A load of a word of a node.
pub struct LoadCell;

impl Play<bool, PassView> for LoadCell {
    ghost then = { loads_cell };
}

/// The own install in place of a plain value.
pub struct PlaceInstall;

impl Play<bool, PassView> for PlaceInstall {
    ghost then = { places_install };
}

/// A load of a status.
pub struct LoadStatus;

impl Play<bool, PassView> for LoadStatus {
    ghost then = { loads_status };
}

/// The reference or the old value in place of an install.
pub struct TakeInstall;

impl Play<bool, PassView> for TakeInstall {
    ghost then = { takes_install };
}

/// A load of the clock.
pub struct LoadClock;

impl Play<bool, PassView> for LoadClock {
    ghost then = { loads_clock };
}

/// A store to a word of the own descriptor.
pub struct StoreWord;

impl Play<bool, PassView> for StoreWord {
    ghost then = { writes };
}

/// The own next attempt is published.
pub struct PublishAttempt;

impl Play<bool, PassView> for PublishAttempt {
    ghost then = { publishes };
}

/// A load of a word of a descriptor.
pub struct LoadWord;

impl Play<bool, PassView> for LoadWord {
    ghost then = { loads_word };
}

/// The last pass makes another.
pub struct MakePass;

impl Split<PassView> for MakePass {
    ghost left = { maker };

    ghost right = { made_by };
}

/// The last pass takes in another.
pub struct JoinPass;

impl Join<PassView> for JoinPass {
    ghost both = { joined_by };

    ghost spent = { spent_view };
}
