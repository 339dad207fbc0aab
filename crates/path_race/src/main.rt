//! A race of passes in threads, which make operations along a path on one node, for stress and for speed.
//!
//!   path_race THREADS OPERATIONS PRINTED [MIX]
//!
//! THREADS    1 to 8
//! OPERATIONS how many are made together, whatever comes of them: at least so many, as all threads make as many as each other
//! PRINTED    records: what each operation that took effect read or changed, the history of the closed board, and its words, by rounds
//!            times: how many operations came to which end; the time is taken from outside
//!            count: how many operations were made
//! MIX        all (where it isn't there): reads, exchanges by their paths and of words alone, and such as stop for a while with words held
//!            reads: validated reads; changes: exchanges by their paths; both: as many of each
//!
//! An operation visits the node, the sentinel, as no other is in use until exchanges take slots; it reads 1 to 5 of its words, and
//! where it is no read it changes all of them. It takes along a call of a map with the one key 1, whose value is the node's value: a
//! read a get, and an exchange a put. Each round of 100,000 operations has a board of its own.
#![tactic(auto)]

mod crew;
mod ends;
mod exchanging;
mod hand;
mod listing;
mod operating;
mod plan;
mod printing;
mod racing;
mod record;
mod rounds;
mod taking;
mod walking;
mod worker;

use anyhow::{Result, bail};
use plan::plan_of;
use rounds::run;
use std::env::args;
use std::io;
use std::io::{BufWriter, Write};

fn main(rt: HostRuntime) -> Result<()> {
    let mut words = Vec::new(rt.alloc());
    for word in args(&rt)? {
        words.push(word)?;
    }
    let Some(plan) = plan_of(words.as_slice()) else {
        bail!("usage: path_race THREADS OPERATIONS records|times|count [all|reads|changes|both]");
    };
    let mut out = BufWriter::new(rt.alloc(), io::writer(&rt))?;
    run(&rt, rt.alloc(), &plan, &mut out)?;
    out.flush()?;
    Ok(())
}
