//! Why a call of a map with its history is refused.
use pc_plain::NoPlainSlot;
use thiserror::Error;

/// A call was refused: there is no slot for its key, or no room for its entry.
#[derive(Clone, Copy, Debug, PartialEq, Eq, Error)]
pub enum LockedFault {
    /// The call puts a value at a new key, and every slot has a pair.
    #[error("no slot is free")]
    NoSlot {
        /// How many slots are in use.
        live: u32,
    },
    /// As many entries are held as there is room for.
    #[error("no room is left for an entry")]
    Room {
        /// How many entries there are.
        calls: u32,
    },
}

impl From<NoPlainSlot> for LockedFault {
    ghost use Rattle.std.specs.Prelude.{◌≡◌};
    ghost use Rattle.pc_locked.specs.declared.fault.LockedFault.TheVariants.{NoSlot};

    ghost from_gives = { λ refusal fault. fault ≡ NoSlot refusal.live };

    fn from(refusal: NoPlainSlot) -> LockedFault {
        LockedFault::NoSlot { live: refusal.live }
    }
}
