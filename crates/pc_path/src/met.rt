//! What was done in one word.
use pc_rule::Ref;

/// Which references of others were met in one word and made to leave it.
#[derive(Clone, Copy)]
pub(crate) struct Met {
    /// The install that was completed.
    pub(crate) completed: Option<Ref>,
    /// The exchange that was helped.
    pub(crate) helped: Option<Ref>,
}
