//! What every table of trials comes to.
use std::process::Abort;

/// Stops a test where a row of a table is not so, and names the first one.
pub fn all_hold(rt: &impl Abort, wrong: &[Option<usize>]) {
    for row in wrong {
        assert_eq!(rt; *row, None);
    }
}
