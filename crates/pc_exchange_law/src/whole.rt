//! The whole rule of a board as the rule of a table: what a pass knows, what each kind of step tells it, and how passes are
//! made and joined. These types are for the proofs alone.
ghost use Rattle.pc_exchange_law.specs.Wholes.{WholeHolds};
ghost use Rattle.pc_exchange_law.specs.WholeSeats.{first_whole, whole_maker, whole_made, whole_joined, whole_spent};
ghost use Rattle.pc_exchange_law.specs.WholeSteps.{whole_loads_clock, whole_loads_word, whole_loads_status, whole_loads_install};
ghost use Rattle.pc_exchange_law.specs.WholeSteps.{whole_loads_cell, whole_stores_install, whole_stores_word, whole_publishes, whole_publishes_fresh};
ghost use Rattle.pc_exchange_law.specs.WholeSteps.{whole_clears, whole_draws, whole_decides, whole_withdraws, whole_places};
ghost use Rattle.pc_exchange_law.specs.WholeSteps.{whole_takes, whole_takes_reference, whole_looks_for};
ghost use Rattle.pc_exchange_law.specs.WholeSteps.{whole_reads, whole_visits, whole_visits_first, whole_draws_read, whole_checks};
ghost use Rattle.pc_exchange_law.specs.WholeSteps.{whole_begins_path, whole_ends_path, whole_takes_slot, whole_fills};
ghost use Rattle.pc_rule_law.specs.Tables.{size_of};

use atomic_table::{Join, Play, Split, TableRule};
use pc_model::Shape;
use pc_rule_law::Opening;
use std::marker::{Model, PhantomData};

/// What a pass knows, for the proofs alone.
pub struct WholeView {
    nothing: u8,
}

impl Model for WholeView {
    ghost use Rattle.pc_exchange_law.specs.WholeSeats.{whole_spent};
    ghost use Rattle.pc_exchange_law.specs.Wholes.{Whole};
    ghost use Rattle.pc_exchange_law.specs.FieldCodes.{fields_code};
    ghost use Rattle.std.specs.Coded.{codes};

    ghost Value = { Whole };

    ghost coded = { Prim.hlevel (codes, fields_code) };

    ghost view = { λ _. whole_spent };
}

/// The rule of a board whose cells have this shape, and on which passes publish exchanges.
pub struct WholeLaw<H> {
    shape: PhantomData<H>,
}

impl<H: Shape> TableRule<bool, WholeView, Opening> for WholeLaw<H> {
    ghost holds = { λ o. WholeHolds H.form (size_of o) };

    ghost first = { λ o. first_whole (size_of o) };
}

/// A load of the clock.
pub struct WholeLoadClock;

impl Play<bool, WholeView> for WholeLoadClock {
    ghost then = { whole_loads_clock };
}

/// A load of a word of a descriptor.
pub struct WholeLoadWord;

impl Play<bool, WholeView> for WholeLoadWord {
    ghost then = { whole_loads_word };
}

/// A load of a status.
pub struct WholeLoadStatus;

impl Play<bool, WholeView> for WholeLoadStatus {
    ghost then = { whole_loads_status };
}

/// A load of a word of an install descriptor.
pub struct WholeLoadInstall;

impl Play<bool, WholeView> for WholeLoadInstall {
    ghost then = { whole_loads_install };
}

/// A load of a word of a node.
pub struct WholeLoadCell;

impl Play<bool, WholeView> for WholeLoadCell {
    ghost then = { whole_loads_cell };
}

/// A store to the own install descriptor.
pub struct WholeStoreInstall;

impl Play<bool, WholeView> for WholeStoreInstall {
    ghost then = { whole_stores_install };
}

/// A store to a word of the own descriptor.
pub struct WholeStoreWord;

impl Play<bool, WholeView> for WholeStoreWord {
    ghost then = { whole_stores_word };
}

/// The own next attempt is published.
pub struct WholePublish;

impl Play<bool, WholeView> for WholePublish {
    ghost then = { whole_publishes };
}

/// The own next attempt is published, which makes the spare's node.
pub struct WholePublishFresh;

impl Play<bool, WholeView> for WholePublishFresh {
    ghost then = { whole_publishes_fresh };
}

/// The own attempt is cleared.
pub struct WholeClear;

impl Play<bool, WholeView> for WholeClear {
    ghost then = { whole_clears };
}

/// A draw of a stamp, for the attempt whose status was loaded last.
pub struct WholeDraw;

impl Play<bool, WholeView> for WholeDraw {
    ghost then = { whole_draws };
}

/// An attempt takes effect, or fails.
pub struct WholeDecide;

impl Play<bool, WholeView> for WholeDecide {
    ghost then = { whole_decides };
}

/// The pass withdraws its own attempt.
pub struct WholeWithdraw;

impl Play<bool, WholeView> for WholeWithdraw {
    ghost then = { whole_withdraws };
}

/// The own install in place of a plain value.
pub struct WholePlace;

impl Play<bool, WholeView> for WholePlace {
    ghost then = { whole_places };
}

/// The reference or the old value in place of an install.
pub struct WholeTake;

impl Play<bool, WholeView> for WholeTake {
    ghost then = { whole_takes };
}

/// A number in place of a reference.
pub struct WholeTakeReference;

impl Play<bool, WholeView> for WholeTakeReference {
    ghost then = { whole_takes_reference };
}

/// A load of a version that an exchange visits, to check it for the stamps that were drawn for that exchange.
pub struct WholeLookFor;

impl Play<bool, WholeView> for WholeLookFor {
    ghost then = { whole_looks_for };
}

/// A load of a word of a node that counts as a read of the path.
pub struct WholeRead;

impl Play<bool, WholeView> for WholeRead {
    ghost then = { whole_reads };
}

/// A load of a version that counts as a visit of the path.
pub struct WholeVisit;

impl Play<bool, WholeView> for WholeVisit {
    ghost then = { whole_visits };
}

/// A load of a version that counts as the first visit of a path that begins anew.
pub struct WholeFirstVisit;

impl Play<bool, WholeView> for WholeFirstVisit {
    ghost then = { whole_visits_first };
}

/// A draw of a stamp for the read of the path.
pub struct WholeReadDraw;

impl Play<bool, WholeView> for WholeReadDraw {
    ghost then = { whole_draws_read };
}

/// A load of a version that was visited, to check it for the read's stamp: the last one that passes makes the read take effect.
pub struct WholeCheck;

impl Play<bool, WholeView> for WholeCheck {
    ghost then = { whole_checks };
}

/// A load of the epoch with which an operation begins.
pub struct WholeOpenPath;

impl Play<bool, WholeView> for WholeOpenPath {
    ghost then = { whole_begins_path };
}

/// A load of the epoch with which an operation ends.
pub struct WholeEndPath;

impl Play<bool, WholeView> for WholeEndPath {
    ghost then = { whole_ends_path };
}

/// The next slot of the own share is taken as the spare.
pub struct WholeTakeSlot;

impl Play<bool, WholeView> for WholeTakeSlot {
    ghost then = { whole_takes_slot };
}

/// A number is filled into a word of the own spare.
pub struct WholeFill;

impl Play<bool, WholeView> for WholeFill {
    ghost then = { whole_fills };
}

/// The last pass makes another.
pub struct WholeMakePass;

impl Split<WholeView> for WholeMakePass {
    ghost left = { whole_maker };

    ghost right = { whole_made };
}

/// The last pass takes in another.
pub struct WholeJoinPass;

impl Join<WholeView> for WholeJoinPass {
    ghost both = { whole_joined };

    ghost spent = { whole_spent };
}
