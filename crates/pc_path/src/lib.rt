//! Operations along a path: a pass begins an operation (`beginning`), reads words (`reading`), visits nodes (`visiting`), and
//! makes one validated read of all that (`checking`, `validating`), or adds changes (`adding`) and makes one exchange of all
//! (`exchanging`, `finishing`), which may lock the path (`locking`). A call that it takes along (`carrying`) is recorded with the stamp of that (`concluding`). In a word in which the reference of another pass stands, at
//! most one install is completed and one exchange is helped (`way`), so no call waits for another pass. What a closed board says of what was read is in `laws`. Its steps are those of
//! `pc_rule`, and the completions and helps of `pc_dcss` and `pc_kcas`, so the rule of the board holds between any two of them.
#![tactic(auto)]

mod adding;
mod beginning;
mod carrying;
mod checking;
mod concluding;
mod exchanging;
mod fault;
mod finishing;
mod laws;
mod locking;
mod lost;
mod met;
mod moved;
mod reading;
mod validating;
mod visiting;
mod way;

pub use adding::add;
pub use beginning::{end, start};
pub use carrying::carry;
pub use exchanging::{begin_vexec, exec, finish_vexec, vexec};
pub use fault::{ReadFault, VisitFault};
pub use laws::reads_count;
pub use locking::vexec_locked;
pub use lost::Lost;
pub use moved::Moved;
pub use reading::read;
pub use validating::validate;
pub use visiting::visit;
