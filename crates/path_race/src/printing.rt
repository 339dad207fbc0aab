//! What is printed of a round, and of all rounds.
use crate::ends::{Ends, Kind};
use crate::record::Record;
use crate::worker::Worker;
use pc_model::{Call, Entry, Field, Loose, Reply};
use pc_rule::{Closed, Place};
use std::io;
use std::io::Write;

/// A line for each operation that took effect: its kind, the number of its pass, its stamp, and of each word its number, its old value
/// and its new one, which for a read is the same.
pub(crate) fn print_won<W: Write>(out: &mut W, workers: &[Worker]) -> io::Result<()> {
    for worker in workers {
        print_record(out, worker.pass.number(), &worker.wins)?;
    }
    Ok(())
}

// The lines of what one thread took down.
fn print_record<W: Write>(out: &mut W, pass: u32, record: &Record) -> io::Result<()> {
    let mut words = record.words.iter();
    for won in record.won.iter() {
        let kind = name_of(won.kind);
        let stamp = won.stamp;
        write!(out, "{kind} {pass} {stamp}")?;
        for _ in 0..won.count {
            print_word(out, words.next())?;
        }
        writeln!(out, "")?;
    }
    Ok(())
}

// The word by which a kind is printed.
fn name_of(kind: Kind) -> &'static str {
    match kind {
        Kind::Read => "read",
        Kind::Path => "path",
        Kind::Words => "words",
        Kind::Stopped => "stopped",
    }
}

// One word of an operation, where there is one.
fn print_word<W: Write>(out: &mut W, place: Option<&Place>) -> io::Result<()> {
    let Some(place) = place else {
        return Ok(());
    };
    let number = place.number();
    let old = place.old;
    let new = place.new;
    write!(out, " {number} {old} {new}")
}

// The fields of a node, in the order of their numbers.
const FIELDS: [Field; 8] = [
    Field::Version,
    Field::Key,
    Field::Value,
    Field::Left,
    Field::Right,
    Field::Parent,
    Field::Height,
    Field::Spare,
];

/// A line for each word of the sentinel: its number, and its value after the closing.
pub(crate) fn print_cells<W: Write>(out: &mut W, closed: &Closed<Loose>) -> io::Result<()> {
    for (i, field) in FIELDS.iter().enumerate() {
        let number = 8 + i;
        let value = closed.cell(1, *field);
        writeln!(out, "cell {number} {value}")?;
    }
    Ok(())
}

/// A line for each entry of the history: the number of its pass, its own number, its stamp, and its call and reply.
pub(crate) fn print_history<W: Write>(out: &mut W, history: &[Entry]) -> io::Result<()> {
    for entry in history {
        let pass = entry.pass;
        let number = entry.number;
        let stamp = entry.stamp;
        write!(out, "entry {pass} {number} {stamp}")?;
        print_call(out, entry.call, entry.reply)?;
    }
    Ok(())
}

// The end of such a line. The race makes gets that find a value and puts that find another.
fn print_call<W: Write>(out: &mut W, call: Call, reply: Reply) -> io::Result<()> {
    match (call, reply) {
        (Call::Get { key }, Reply::Value(value)) => writeln!(out, " get {key} {value}"),
        (Call::Put { key, value }, Reply::Was(old)) => writeln!(out, " put {key} {old} {value}"),
        _ => writeln!(out, " other"),
    }
}

/// How many operations there were.
pub(crate) fn print_count<W: Write>(out: &mut W, ends: Ends) -> io::Result<()> {
    let all = ends.all();
    writeln!(out, "{all} operations")
}

/// How many operations there were, and to which end they came.
pub(crate) fn print_ends<W: Write>(out: &mut W, ends: Ends) -> io::Result<()> {
    let all = ends.all();
    let read = ends.read;
    let won = ends.won;
    let changed = ends.changed;
    let locked = ends.locked;
    let blocked = ends.blocked;
    let numbers = ends.numbers;
    writeln!(
        out,
        "{all} operations: {read} read, {won} won, {changed} changed, {locked} locked, {blocked} blocked, {numbers} out of numbers"
    )
}
