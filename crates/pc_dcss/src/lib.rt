//! Installs: Harris, Fraser and Pratt's conditional exchange of one word. An install puts the reference of an exchange in
//! place of a plain value, where that exchange is undecided after the word was taken, and no plain value changes. Its
//! steps are those of `pc_rule` alone, so the rule of the board holds between any two of them. Whoever operates on several
//! words uses this.
#![tactic(auto)]

mod completing;
mod descriptor;
mod installed;
mod installing;
mod taking;

pub use completing::complete;
pub use descriptor::field_at;
pub use installed::Installed;
pub use installing::{install, place_install};
pub use pc_rule::{Place, Ref, RefKind};
