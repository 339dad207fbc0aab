//! The locks of a path, listed beside the words of an exchange.
ghost use Rattle.std.specs.Prelude.{◌≡◌, ◌+◌, ◌<◌, ◌≤◌, false, length};
ghost use Rattle.pc_rule.specs.Passes.{view, listed, path, visits, OnlyListed};
ghost use Rattle.pc_rule.specs.Walking.{FitsVisit, visited_of};
ghost use Rattle.pc_kcas.specs.Locks.{lists_version, with_lock, with_locks, words_by, WhereLocked};

use crate::checking::is_version_of;
use crate::mode::Mode;
use pc_model::{Field, Shape};
use pc_rule::{Pass, Place, Visit};

// Whether the version of this node is listed.
fn lists_version_of<H: Shape>(pass: &Pass<H>, node: u32) -> bool
    ensures { result ≡ lists_version node (listed pass.now) }
{
    let places = pass.listed();
    let mut i = 0;
    while i < places.len() {
        if is_version_of(places[i], node) {
            return true;
        }
        i += 1;
    }
    false
}

// Lists the lock of a visited node, where its version isn't listed.
fn list_lock<H: Shape>(pass: &mut Pass<H>, visit: Visit)
    requires open { (view pass.old).attempt.published ≡ false }
    requires few { length (listed pass.old) < 25 + (view pass.old).size.slots }
    requires fits { FitsVisit (view pass.old).size.slots visit }
    ensures only { OnlyListed pass.old pass.new }
    ensures few { length (listed pass.new) ≤ length (listed pass.old) + 1 }
    ensures lock { listed pass.new ≡ with_lock (listed pass.old) (visited_of visit) }
{
    if lists_version_of(pass, visit.node) {
        return;
    }
    pass.list(Place {
        node: visit.node,
        field: Field::Version,
        old: visit.version,
        new: visit.version,
    });
}

// Lists the locks of all visited nodes.
fn list_locks<H: Shape>(pass: &mut Pass<H>)
    requires open { (view pass.old).attempt.published ≡ false }
    requires few { length (listed pass.old) ≤ 24 }
    ensures only { OnlyListed pass.old pass.new }
    ensures locks { listed pass.new ≡ with_locks (listed pass.old) (path pass.old).visits }
{
    let count = pass.visits().len();
    let mut i = 0;
    while i < count {
        let visit = pass.visits()[i];
        list_lock(pass, visit);
        i += 1;
    }
}

/// Lists what an exchange of this mode needs beside the words that are listed: where it locks the path of the pass, the locks.
pub(crate) fn list_by<H: Shape>(pass: &mut Pass<H>, mode: Mode)
    requires open { (view pass.old).attempt.published ≡ false }
    requires few { WhereLocked mode (length (listed pass.old) ≤ 24) }
    ensures only { OnlyListed pass.old pass.new }
    ensures words { listed pass.new ≡ words_by mode (path pass.old) (listed pass.old) }
{
    match mode {
        Mode::Words => {}
        Mode::Path => {}
        Mode::LockedPath => list_locks(pass),
    }
}
