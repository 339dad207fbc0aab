//! The status of a pass's attempt. Bits 0 and 1 tell the state, the attempt's number is in bits 2 to 29, and a
//! field of 34 bits from bit 30 on: the stamp of a success, or why an attempt failed. Of a failure the field is 0
//! where it was withdrawn; else its bit 0 tells whether a node was locked or had changed, the node is in bits 1 to
//! 16 of the field, and the seat of the one that locked it in bits 17 to 21.
ghost use Rattle.std.specs.Prelude.{◌≡◌, ◌<◌, ◌^◌};
ghost use Rattle.pc_words.specs.Statuses.{state_of, field_of, packed, failure, unpacked, StageInRange, StatusInRange, IsStatus};

/// How far an attempt has come.
#[derive(Clone, Copy, Debug, PartialEq, Eq)]
pub enum Stage {
    /// It isn't published, or was cleared again.
    Idle,
    /// It is published and isn't decided.
    Undecided,
    /// It was decided to take place at this moment.
    Succeeded {
        /// The stamp, below 2^34.
        stamp: u64,
    },
    /// It failed since it was given up.
    Withdrawn,
    /// It failed since a node had changed.
    Changed {
        /// The node, from 1 to 65535.
        node: u32,
    },
    /// It failed since another's exchange held a node.
    Locked {
        /// The node, below 65536.
        node: u32,
        /// The seat of the other, below 32.
        seat: u32,
    },
}

/// The number of a pass's attempt, and how far it has come.
#[derive(Clone, Copy, Debug, PartialEq, Eq)]
pub struct Status {
    /// The attempt's number, below 2^28.
    pub number: u64,
    /// How far it has come.
    pub stage: Stage,
}

/// The word of a status whose numbers are in range.
#[inline]
pub fn pack(s: Status) -> u64
    requires { StatusInRange s }
    ensures packed { result ≡ packed s }
    ensures word { IsStatus result }
    ensures back { unpacked result ≡ s }
{
    let (state, field) = parts_of(s.stage);
    state + 4 * s.number + 1073741824 * field
}

// The state and the field of a stage.
fn parts_of(stage: Stage) -> (u64, u64)
    requires { StageInRange stage }
    ensures { (result.0 ≡ state_of stage) × (result.1 ≡ field_of stage) }
{
    match stage {
        Stage::Idle => (0, 0),
        Stage::Undecided => (1, 0),
        Stage::Succeeded { stamp } => (2, stamp),
        Stage::Withdrawn => (3, 0),
        Stage::Changed { node } => (3, 2 * u64::from(node)),
        Stage::Locked { node, seat } => (3, 1 + 2 * u64::from(node) + 131072 * u64::from(seat)),
    }
}

/// The status of a stored word. It is the one in range that is packed to this word.
#[inline]
pub fn unpack(raw: u64) -> Status
    requires { IsStatus raw }
    ensures status { result ≡ unpacked raw }
    ensures packed { packed result ≡ raw }
    ensures in_range { StatusInRange result }
{
    let number = raw / 4 % 268435456;
    let field = raw / 1073741824;
    let stage = match raw % 4 {
        0 => Stage::Idle,
        1 => Stage::Undecided,
        2 => Stage::Succeeded { stamp: field },
        _ => failure_of(field),
    };
    Status { number, stage }
}

// Why an attempt failed, from the field of its status.
fn failure_of(field: u64) -> Stage
    requires { field < 2 ^ 34 }
    ensures { result ≡ failure field }
{
    if field == 0 {
        return Stage::Withdrawn;
    }
    let node = (field / 2 % 65536) as u32;
    if field % 2 == 0 {
        return Stage::Changed { node };
    }
    let seat = (field / 131072) as u32;
    Stage::Locked { node, seat }
}
