//! What a pass has of the slots of its share.
ghost use Rattle.std.specs.Prelude.{◌≡◌, ◌+◌, ◌<◌, ◌^◌, false, None};
ghost use Rattle.pc_rule.specs.HeldSlots.{new_slots, cleared_slots};

/// The slots of its share that a pass hasn't taken yet, and its spare.
#[derive(Clone, Copy)]
pub(crate) struct HeldSlots {
    /// The first slot that it hasn't taken yet.
    pub(crate) next: u32,
    /// The end of the share.
    pub(crate) until: u32,
    /// The slot that is its spare.
    pub(crate) spare: Option<u32>,
    /// The version that it found in the spare.
    pub(crate) version: u64,
    /// Its running operation filled the spare, and makes its node with its next exchange.
    pub(crate) filled: bool,
    /// Its attempt that isn't cleared makes the spare's node.
    pub(crate) named: bool,
    /// Its attempt that isn't cleared is known to have taken effect.
    pub(crate) won: bool,
}

impl HeldSlots {
    /// A share of so many slots that begins at this one, none of which is taken.
    pub(crate) fn new(begin: u32, slots: u32) -> HeldSlots
        requires { begin + slots < 2 ^ 32 }
        ensures { result ≡ new_slots begin slots }
    {
        HeldSlots {
            next: begin,
            until: begin + slots,
            spare: None,
            version: 0,
            filled: false,
            named: false,
            won: false,
        }
    }

    /// The slots once the attempt is cleared: where it took effect and made the spare's node, there is no spare any more.
    pub(crate) fn cleared(self) -> HeldSlots
        ensures { result ≡ cleared_slots self }
    {
        let spent = self.named && self.won;
        HeldSlots {
            spare: if spent { None } else { self.spare },
            filled: false,
            named: false,
            ..self
        }
    }
}
