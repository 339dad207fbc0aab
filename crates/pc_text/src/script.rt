//! A script as it was read, and why there may be none.
use crate::kind::ScriptKind;
use pc_model::Call;
use std::alloc::{AllocError, AllocFailed};
use std::marker::Model;
use thiserror::Error;

/// The commands of some clients. The first list of `calls` is that of client 1.
#[derive(Debug, Drop)]
pub struct Script {
    /// How many clients there are.
    pub clients: u32,
    /// Each client's calls, in the order in which they stood.
    pub calls: Vec<Vec<Call>>,
}

impl Model for Script {
    ghost use Rattle.std.specs.Prelude.{map};
    ghost use Rattle.pc_text.specs.ScriptValue.{ScriptValue};

    ghost Value = { ScriptValue };

    ghost view = { λ s. record { clients = s.clients; calls = map (λ v. v.items) s.calls.items } };
}

/// Why there is no script.
#[derive(Clone, Copy, Debug, PartialEq, Eq, Error)]
pub enum ScriptFault {
    /// The first line that is bad, counted from 1, and what is wrong with it.
    #[error("line {line} {kind}")]
    Bad { line: u32, kind: ScriptKind },
    /// Memory was wanted, and there was none.
    #[error("memory")]
    Memory,
}

impl<T: Drop> From<AllocFailed<T>> for ScriptFault {
    ghost use Rattle.std.specs.Prelude.{◌≡◌};
    ghost use Rattle.pc_text.specs.declared.script.ScriptFault.TheVariants.{Memory};

    ghost from_gives = { λ _ fault. fault ≡ Memory };

    fn from(_failed: AllocFailed<T>) -> ScriptFault {
        ScriptFault::Memory
    }
}

impl From<AllocError> for ScriptFault {
    ghost use Rattle.std.specs.Prelude.{◌≡◌};
    ghost use Rattle.pc_text.specs.declared.script.ScriptFault.TheVariants.{Memory};

    ghost from_gives = { λ _ fault. fault ≡ Memory };

    fn from(_failed: AllocError) -> ScriptFault {
        ScriptFault::Memory
    }
}
