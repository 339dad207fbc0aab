//! What is printed of a round, and of all rounds.
ghost use Rattle.std.specs.Prelude.{◌≤◌, length};

use crate::ends::Ends;
use crate::record::Record;
use crate::worker::Worker;
use pc_model::{Field, Loose};
use pc_rule::{Closed, Place};
use std::io;
use std::io::Write;

/// A line for each exchange that won: the stamp, and of each word its number, its old value and its new one.
pub(crate) fn print_won<W: Write>(out: &mut W, workers: &[Worker]) -> io::Result<()> {
    for worker in workers {
        print_record(out, &worker.wins)?;
    }
    Ok(())
}

// The lines of what one thread took down.
fn print_record<W: Write>(out: &mut W, record: &Record) -> io::Result<()> {
    let mut words = record.words.iter();
    for won in record.won.iter() {
        let stamp = won.stamp;
        write!(out, "{stamp}")?;
        for _ in 0..won.count {
            print_word(out, words.next())?;
        }
        writeln!(out, "")?;
    }
    Ok(())
}

// One word of an exchange, where there is one.
fn print_word<W: Write>(out: &mut W, place: Option<&Place>) -> io::Result<()> {
    let Some(place) = place else {
        return Ok(());
    };
    let number = place.number();
    let old = place.old;
    let new = place.new;
    write!(out, " {number} {old} {new}")
}

// The fields of a node, in the order of their numbers.
const FIELDS: [Field; 8] = [
    Field::Version,
    Field::Key,
    Field::Value,
    Field::Left,
    Field::Right,
    Field::Parent,
    Field::Height,
    Field::Spare,
];

/// A line for each word of the sentinel: its number, and its value after the closing.
pub(crate) fn print_cells<W: Write>(out: &mut W, closed: &Closed<Loose>) -> io::Result<()> {
    for (i, field) in FIELDS.iter().enumerate() {
        let number = 8 + i;
        let value = closed.cell(1, *field);
        writeln!(out, "cell {number} {value}")?;
    }
    Ok(())
}

/// How many exchanges there were.
pub(crate) fn print_count<W: Write>(out: &mut W, ends: Ends) -> io::Result<()> {
    let all = ends.all();
    writeln!(out, "{all} exchanges")
}

/// How many exchanges there were, and to which end they came.
pub(crate) fn print_ends<W: Write>(out: &mut W, ends: Ends) -> io::Result<()> {
    let all = ends.all();
    let won = ends.won;
    let changed = ends.changed;
    let locked = ends.locked;
    let blocked = ends.blocked;
    let numbers = ends.numbers;
    writeln!(
        out,
        "{all} exchanges: {won} won, {changed} changed, {locked} locked, {blocked} blocked, {numbers} out of numbers"
    )
}
