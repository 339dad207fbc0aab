//! The lines that are printed, and how one goes to a sink through a chunk.
ghost use Rattle.std.specs.Prelude.{◌≡◌, ◌+◌, ◌≤◌, ◌++◌, length};
ghost use Rattle.pc_edge.specs.Sending.{Writes};
ghost use Rattle.pc_text.specs.Printed.{entry_line, pair_line, left_line, height_line, node_line, count_line, end_line};
ghost use Rattle.pc_text.specs.LineText.{line_text};

use crate::fault::{Fault, push_fault};
use crate::pieces::{
    push_call, push_number_and_blank, push_reply, push_signed, push_turn, push_two_numbers,
    push_word_and_number,
};
use crate::shape::ShapeLine;
use pc_edge::{Chunk, Failed, SIZE, Sink};
use pc_model::Entry;

/// Room enough for any line.
const ROOM: usize = 512;

/// A line that a run or a fault prints.
#[derive(Clone, Copy)]
pub(crate) enum Line {
    /// An entry, at its place in the history, from 1.
    Entry(u64, Entry),
    /// How many pairs are left.
    Left(usize),
    /// A pair that is left.
    Pair(u64, u64),
    /// The height of the tree.
    Height(u32),
    /// A node of the tree.
    Node(ShapeLine),
    /// How many entries there are.
    Count(usize),
    /// The last line of a run.
    End,
    /// A fault.
    Fault(Fault),
}

/// Sends a line through a chunk.
pub(crate) fn print_line<K: Sink>(sink: &mut K, chunk: &mut Chunk, line: Line) -> Result<(), Failed>
    ensures { Writes K.held K.faults sink.old sink.new (chunk.old ++ line_text line) chunk.new result }
{
    chunk.make_room(sink, ROOM)?;
    push_line(chunk, line);
    Ok(())
}

/// Puts a line.
fn push_line(chunk: &mut Chunk, line: Line)
    requires { length chunk.old + ROOM ≤ SIZE }
    ensures { chunk.new ≡ chunk.old ++ line_text line }
{
    match line {
        Line::Entry(place, entry) => push_entry(chunk, place, &entry),
        Line::Left(pairs) => push_left(chunk, pairs),
        Line::Pair(key, value) => push_pair(chunk, key, value),
        Line::Height(height) => push_height(chunk, height),
        Line::Node(node) => push_node(chunk, &node),
        Line::Count(entries) => push_count(chunk, entries),
        Line::End => push_end(chunk),
        Line::Fault(fault) => push_fault(chunk, fault),
    }
}

/// Puts the line of an entry.
#[tactic(auto, unfolding(crate::specs::Printed::entry_line), using(std::proofs::Common::append_assoc))]
fn push_entry(chunk: &mut Chunk, place: u64, entry: &Entry)
    requires { length chunk.old + ROOM ≤ SIZE }
    ensures { chunk.new ≡ chunk.old ++ entry_line place entry.now }
{
    push_number_and_blank(chunk, place);
    push_turn(chunk, entry.pass, entry.number);
    chunk.push_byte(b' ');
    push_call(chunk, &entry.call);
    chunk.push(b" = ");
    push_reply(chunk, &entry.reply);
    chunk.push_byte(b'\n');
}

/// Puts the line of a pair.
#[tactic(auto, unfolding(crate::specs::Printed::pair_line), using(std::proofs::Common::append_assoc))]
fn push_pair(chunk: &mut Chunk, key: u64, value: u64)
    requires { length chunk.old + ROOM ≤ SIZE }
    ensures { chunk.new ≡ chunk.old ++ pair_line (key, value) }
{
    push_two_numbers(chunk, key, value);
    chunk.push_byte(b'\n');
}

/// Puts the line that says how many pairs are left.
#[tactic(auto, unfolding(crate::specs::Printed::left_line), using(std::proofs::Common::append_assoc))]
fn push_left(chunk: &mut Chunk, pairs: usize)
    requires { length chunk.old + ROOM ≤ SIZE }
    ensures { chunk.new ≡ chunk.old ++ left_line pairs }
{
    push_word_and_number(chunk, b"left ", pairs as u64);
    chunk.push_byte(b'\n');
}

/// Puts the line of a tree's height.
#[tactic(auto, unfolding(crate::specs::Printed::height_line), using(std::proofs::Common::append_assoc))]
fn push_height(chunk: &mut Chunk, height: u32)
    requires { length chunk.old + ROOM ≤ SIZE }
    ensures { chunk.new ≡ chunk.old ++ height_line height }
{
    push_word_and_number(chunk, b"shape ", u64::from(height));
    chunk.push_byte(b'\n');
}

/// Puts the line of a node.
#[tactic(auto, unfolding(crate::specs::Printed::node_line), using(std::proofs::Common::append_assoc))]
fn push_node(chunk: &mut Chunk, node: &ShapeLine)
    requires { length chunk.old + ROOM ≤ SIZE }
    ensures { chunk.new ≡ chunk.old ++ node_line node.now }
{
    push_number_and_blank(chunk, u64::from(node.depth));
    push_number_and_blank(chunk, node.key);
    push_number_and_blank(chunk, u64::from(node.height));
    push_signed(chunk, node.balance);
    chunk.push_byte(b'\n');
}

/// Puts the line that says how many entries there are.
#[tactic(auto, unfolding(crate::specs::Printed::count_line), using(std::proofs::Common::append_assoc))]
fn push_count(chunk: &mut Chunk, entries: usize)
    requires { length chunk.old + ROOM ≤ SIZE }
    ensures { chunk.new ≡ chunk.old ++ count_line entries }
{
    chunk.push_number(entries as u64);
    chunk.push(b" lines\n");
}

/// Puts the last line.
#[tactic(auto, unfolding(crate::specs::Printed::end_line), using(std::proofs::Common::append_assoc))]
fn push_end(chunk: &mut Chunk)
    requires { length chunk.old + ROOM ≤ SIZE }
    ensures { chunk.new ≡ chunk.old ++ end_line }
{
    chunk.push(b"end\n");
}
