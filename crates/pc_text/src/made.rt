//! Scripts that are made from a seed. Each client draws its commands from a generator of its own, a linear
//! congruential one with the multiplier 1103515245 and the increment 12345, of which a draw gives the upper half.
ghost use Rattle.std.specs.Prelude.{◌≡◌, ℕ, ◌+◌, ◌*◌, ◌<◌, ◌≤◌, [], ◌++◌, codes, length, Some, IfOk};
ghost use Rattle.std.specs.Int.{IsInRange};
ghost use Rattle.pc_edge.specs.Sending.{Writes};
ghost use Rattle.pc_text.specs.Made.{first_state, next_state, drawn, state_after, draw, command_of};
ghost use Rattle.pc_text.specs.Made.{command_from, state_behind, commands_from, made_commands, made_script};
ghost use Rattle.pc_text.specs.Printed.{call_text};
ghost use Rattle.pc_text.specs.ScriptText.{text_of, client_line};

use crate::limits::{GREATEST_NUMBER, MOST_CLIENTS, MOST_COMMANDS};
use crate::pieces::{push_call, push_word_and_number};
use pc_edge::{Chunk, Failed, SIZE, Sink};
use pc_model::{Call, Memory};
use std::alloc::Global;

/// How many states a generator has: they are the numbers below this one.
const STATES: u64 = 2_147_483_648;

/// A draw gives its state divided by this.
const LOWER_HALF: u64 = 65_536;

/// Keys are drawn below this number.
const KEYS: u64 = 1_000;

/// Room enough for the line of a client or of a command.
const ROOM: usize = 64;

/// The script that a seed makes, of so many clients with so many commands each: the clients' lines in order, each
/// with the commands of that client behind it. The seed is at most 999999999999999999, there are 1 to 32 clients with
/// at least one command each, and at most 60,000 commands together. `Memory` where there is none for the script.
pub fn make_script(alloc: Global, seed: u64, clients: u32, commands: u32) -> Result<Vec<u8>, Memory>
    requires seed { seed ≤ GREATEST_NUMBER }
    requires clients { IsInRange 1 MOST_CLIENTS clients }
    requires commands { 1 ≤ commands }
    requires few { clients * commands ≤ MOST_COMMANDS }
    ensures { IfOk result (λ bytes. bytes.items ≡ made_script seed clients commands) }
{
    let mut script = Growing {
        bytes: Vec::new(alloc),
        faults: 0,
    };
    match write_made(&mut script, seed, clients, commands) {
        Ok(()) => Ok(script.bytes),
        Err(Failed) => Err(Memory),
    }
}

/// Writes the script that `make_script` makes, under the same conditions. It takes no memory, and writes in pieces of
/// some KiB. `Failed` where the sink failed: then a front of the script was written.
pub fn write_made<K: Sink>(
    sink: &mut K,
    seed: u64,
    clients: u32,
    commands: u32,
) -> Result<(), Failed>
    requires seed { seed ≤ GREATEST_NUMBER }
    requires clients { IsInRange 1 MOST_CLIENTS clients }
    requires commands { 1 ≤ commands }
    requires few { clients * commands ≤ MOST_COMMANDS }
    ensures { Writes K.held K.faults sink.old sink.new (made_script seed clients commands) [] result }
{
    let mut chunk = Chunk::new();
    for before in 0..clients {
        write_client(sink, &mut chunk, seed, before + 1, commands)?;
    }
    chunk.flush(sink)
}

// Sends the line of a client and its commands through the chunk.
fn write_client<K: Sink>(
    sink: &mut K,
    chunk: &mut Chunk,
    seed: u64,
    client: u32,
    commands: u32,
) -> Result<(), Failed>
    requires seed { seed ≤ GREATEST_NUMBER }
    ensures { Writes K.held K.faults sink.old sink.new
        (chunk.old ++ (client_line client ++ text_of (made_commands seed commands client))) chunk.new result }
{
    chunk.make_room(sink, ROOM)?;
    push_client(chunk, client);
    write_commands(sink, chunk, Generator::new(seed, client), commands)
}

// Sends the lines of so many commands through the chunk.
fn write_commands<K: Sink>(
    sink: &mut K,
    chunk: &mut Chunk,
    generator: Generator,
    commands: u32,
) -> Result<(), Failed>
    requires { generator.state < STATES }
    ensures { Writes K.held K.faults sink.old sink.new
        (chunk.old ++ text_of (commands_from commands generator.state)) chunk.new result }
{
    let mut generator = generator;
    for _ in 0..commands {
        chunk.make_room(sink, ROOM)?;
        push_command(chunk, &generator.command());
    }
    Ok(())
}

// Puts the line of a client.
#[tactic(auto, unfolding(crate::specs::ScriptText::client_line), using(std::proofs::Common::append_assoc))]
fn push_client(chunk: &mut Chunk, client: u32)
    requires { length chunk.old + ROOM ≤ SIZE }
    ensures { chunk.new ≡ chunk.old ++ client_line client }
{
    push_word_and_number(chunk, b"client ", u64::from(client));
    chunk.push_byte(b'\n');
}

// Puts the line of a command.
#[tactic(auto, using(std::proofs::Common::append_assoc))]
fn push_command(chunk: &mut Chunk, call: &Call)
    requires { length chunk.old + ROOM ≤ SIZE }
    ensures { chunk.new ≡ chunk.old ++ (call_text call.now ++ codes "\n") }
{
    push_call(chunk, call);
    chunk.push_byte(b'\n');
}

/// The generator of a client: its state is below 2^31.
#[derive(Clone, Copy)]
struct Generator {
    state: u64,
}

impl Generator {
    // Where the generator of a client opens.
    fn new(seed: u64, client: u32) -> Generator
        requires { seed ≤ GREATEST_NUMBER }
        ensures state { result.state ≡ first_state seed client }
        ensures below { result.state < STATES }
    {
        Generator {
            state: (seed + u64::from(client)) % STATES,
        }
    }

    // Draws a number below 32768.
    fn draw(&mut self) -> u64
        requires { self.old.state < STATES }
        ensures state { self.new.state ≡ next_state self.old.state }
        ensures below { self.new.state < STATES }
        ensures drawn { result ≡ drawn self.new.state }
    {
        self.state = (self.state * 1_103_515_245 + 12_345) % STATES;
        self.state / LOWER_HALF
    }

    // Draws a command: its kind, then its key, and then the value of a put.
    fn command(&mut self) -> Call
        requires { self.old.state < STATES }
        ensures call { result ≡ command_from self.old.state }
        ensures state { self.new.state ≡ state_behind self.old.state }
        ensures below { self.new.state < STATES }
    {
        let kind = self.draw() % 8;
        let key = self.draw() % KEYS;
        match kind {
            0 | 1 | 2 => Call::Put {
                key,
                value: self.draw(),
            },
            3 | 4 => Call::Get { key },
            5 => Call::Remove { key },
            6 => Call::Ceil { key },
            _ => Call::Floor { key },
        }
    }
}

/// Bytes that grow where there is memory. Only want of memory makes a write fail.
#[derive(Drop)]
struct Growing {
    bytes: Vec<u8>,
    faults: u64,
}

impl Sink for Growing {
    ghost held = { λ s. Some s.bytes.items };

    ghost faults = { λ s. s.faults };

    fn write(&mut self, piece: &[u8]) -> Result<usize, Failed> {
        match self.bytes.extend_from_slice(piece) {
            Ok(()) => Ok(piece.len()),
            Err(_) => {
                self.faults = self.faults.saturating_add(1);
                Err(Failed)
            }
        }
    }
}
