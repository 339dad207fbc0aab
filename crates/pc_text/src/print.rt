//! What a run prints: its history, the pairs that are left, the shape of the tree where it is wanted, and the end; or,
//! where a summary is wanted, how many calls there were, and the end.
ghost use Rattle.std.specs.Prelude.{◌≡◌, [], ◌++◌};
ghost use Rattle.pc_edge.specs.Sending.{Writes};
ghost use Rattle.pc_text.specs.Printed.{entry_lines, pair_lines, node_lines, shape_lines, tree_height, listed};
ghost use Rattle.pc_text.specs.Printed.{printed_run, printed_summary, run_text};

use crate::lines::{Line, print_line};
use crate::shape::ShapeLine;
use pc_edge::{Chunk, Failed, Sink};
use pc_model::Entry;

/// What is printed besides the history and the pairs.
#[derive(Clone, Copy, Debug)]
pub struct Extras<'a> {
    /// The tree's nodes, where its shape is wanted.
    pub shape: Option<&'a [ShapeLine]>,
    /// Whether the number of calls is wanted in place of the history, the pairs and the shape.
    pub summary: bool,
}

/// Prints a run, or its summary. It takes no memory, and writes in pieces of some KiB.
pub fn print_run<K: Sink>(
    sink: &mut K,
    history: &[Entry],
    pairs: &[(u64, u64)],
    extras: Extras,
) -> Result<(), Failed>
    ensures { Writes K.held K.faults sink.old sink.new
        (run_text extras.entry.summary history.now pairs.now (listed extras.entry.shape)) [] result }
{
    if extras.summary {
        print_summary(sink, history)
    } else {
        print_all(sink, history, pairs, extras.shape)
    }
}

// Prints how many entries a history has.
fn print_summary<K: Sink>(sink: &mut K, history: &[Entry]) -> Result<(), Failed>
    ensures { Writes K.held K.faults sink.old sink.new (printed_summary history.now) [] result }
{
    let mut chunk = Chunk::new();
    print_line(sink, &mut chunk, Line::Count(history.len()))?;
    print_line(sink, &mut chunk, Line::End)?;
    chunk.flush(sink)
}

// Prints a history, the pairs and a shape, if one is wanted.
fn print_all<K: Sink>(
    sink: &mut K,
    history: &[Entry],
    pairs: &[(u64, u64)],
    shape: Option<&[ShapeLine]>,
) -> Result<(), Failed>
    ensures { Writes K.held K.faults sink.old sink.new
        (printed_run history.now pairs.now (listed shape.entry)) [] result }
{
    let mut chunk = Chunk::new();
    print_entries(sink, &mut chunk, history)?;
    print_line(sink, &mut chunk, Line::Left(pairs.len()))?;
    print_pairs(sink, &mut chunk, pairs)?;
    print_shape(sink, &mut chunk, shape)?;
    print_line(sink, &mut chunk, Line::End)?;
    chunk.flush(sink)
}

/// Sends a history's lines through the chunk.
fn print_entries<K: Sink>(sink: &mut K, chunk: &mut Chunk, history: &[Entry]) -> Result<(), Failed>
    ensures { Writes K.held K.faults sink.old sink.new (chunk.old ++ entry_lines 1 history.now) chunk.new result }
{
    for (i, entry) in history.iter().enumerate() {
        print_line(sink, chunk, Line::Entry(i as u64 + 1, *entry))?;
    }
    Ok(())
}

/// Sends the lines of pairs through the chunk.
fn print_pairs<K: Sink>(sink: &mut K, chunk: &mut Chunk, pairs: &[(u64, u64)]) -> Result<(), Failed>
    ensures { Writes K.held K.faults sink.old sink.new (chunk.old ++ pair_lines pairs.now) chunk.new result }
{
    for (key, value) in pairs {
        print_line(sink, chunk, Line::Pair(*key, *value))?;
    }
    Ok(())
}

/// Sends the lines of a shape, if one is wanted, through the chunk.
fn print_shape<K: Sink>(
    sink: &mut K,
    chunk: &mut Chunk,
    shape: Option<&[ShapeLine]>,
) -> Result<(), Failed>
    ensures { Writes K.held K.faults sink.old sink.new
        (chunk.old ++ shape_lines (listed shape.entry)) chunk.new result }
{
    match shape {
        Some(nodes) => print_tree(sink, chunk, nodes),
        None => Ok(()),
    }
}

/// Sends a tree's height and the lines of its nodes through the chunk.
fn print_tree<K: Sink>(sink: &mut K, chunk: &mut Chunk, nodes: &[ShapeLine]) -> Result<(), Failed>
    ensures { Writes K.held K.faults sink.old sink.new (chunk.old ++ shape_lines (Some nodes.now)) chunk.new result }
{
    print_line(sink, chunk, Line::Height(height_in(nodes)))?;
    print_nodes(sink, chunk, nodes)
}

// The height of the tree that these nodes are, the root first.
fn height_in(nodes: &[ShapeLine]) -> u32
    ensures { result ≡ tree_height nodes.now }
{
    match nodes.first() {
        Some(root) => root.height,
        None => 0,
    }
}

/// Sends the lines of nodes through the chunk.
fn print_nodes<K: Sink>(sink: &mut K, chunk: &mut Chunk, nodes: &[ShapeLine]) -> Result<(), Failed>
    ensures { Writes K.held K.faults sink.old sink.new (chunk.old ++ node_lines nodes.now) chunk.new result }
{
    for node in nodes {
        print_line(sink, chunk, Line::Node(*node))?;
    }
    Ok(())
}
