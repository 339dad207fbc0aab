//! A race of passes in threads, which make exchanges of 2 to 6 words of one node, for stress and for speed.
//!
//!   exchange_race THREADS EXCHANGES PRINTED [WORDS]
//!
//! THREADS    1 to 8
//! EXCHANGES  how many are made together, whatever comes of them: at least so many, as all threads make as many as each other
//! PRINTED    records: what each exchange that won changed, and the words after the closing of each round's board
//!            times: how many exchanges came to which end; the time is taken from outside
//!            count: how many exchanges were made
//! WORDS      how many words each exchange has, 2 to 6; by chance where it isn't there
//!
//! The node is the sentinel, as no other is in use until exchanges take slots. Each round of 100,000 exchanges has a
//! board of its own.
#![tactic(auto)]

mod crew;
mod ends;
mod hand;
mod listing;
mod making;
mod plan;
mod printing;
mod racing;
mod reading;
mod record;
mod rounds;
mod worker;

use anyhow::{Result, bail};
use plan::plan_of;
use rounds::run;
use std::env::args;
use std::io;
use std::io::{BufWriter, Write};

fn main(rt: HostRuntime) -> Result<()> {
    let mut words = Vec::new(rt.alloc());
    for word in args(&rt)? {
        words.push(word)?;
    }
    let Some(plan) = plan_of(words.as_slice()) else {
        bail!("usage: exchange_race THREADS EXCHANGES records|times|count [WORDS]");
    };
    let mut out = BufWriter::new(rt.alloc(), io::writer(&rt))?;
    run(&rt, rt.alloc(), &plan, &mut out)?;
    out.flush()?;
    Ok(())
}
