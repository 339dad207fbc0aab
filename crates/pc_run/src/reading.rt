//! The input of a run: what a seed makes, or a source that is read to its end, or to the first byte past the limit.
ghost use Rattle.std.specs.Prelude.{◌≡◌, ◌+◌, ◌-◌, ◌<◌, ◌≤◌, length, take, vec_len, IfOk, IfErr, IfSome};
ghost use Rattle.std.specs.Prelude.{IsSome, IsNone, OnOk};
ghost use Rattle.std.specs.Io.KnownBytes.{IsAtEnd};
ghost use Rattle.pc_text.specs.Made.{made_script};
ghost use Rattle.pc_run.specs.Reading.{IsInput, IsInputFault, IsReadFault, TakesAtMost, TakesPiece, input_for};

use pc_edge::{Failed, Source};
use pc_text::{Fault, GREATEST_NUMBER, MOST_BYTES, make_script};
use std::alloc::{AllocError, Global};

/// How many bytes are asked for at once.
const PIECE: usize = 65_536;

/// How many clients the script has that a seed makes for a run.
pub const MADE_CLIENTS: u32 = 32;

/// How many commands each of them has.
pub const MADE_COMMANDS: u32 = 500;

/// The bytes that are run: those that the seed makes, where there is one, and else all that the source has left. With
/// a seed nothing is read.
pub fn read_input<S: Source>(
    alloc: Global,
    made: Option<u64>,
    source: &mut S,
) -> Result<Vec<u8>, Fault>
    requires { IfSome made (λ seed. seed ≤ GREATEST_NUMBER) }
    ensures whole { IfOk result (λ bytes. IsInput (input_for made (S.left source.old)) bytes.items) }
    ensures at_end { IsNone made → OnOk result (IsAtEnd (S.left source.new)) }
    ensures small { IfOk result (λ bytes. vec_len bytes ≤ MOST_BYTES) }
    ensures cause { IfErr result (IsInputFault made (S.left source.old) (S.faults source.old) (S.faults source.new)) }
    ensures unread { IsSome made → source.new ≡ source.old }
    ensures never_falls { S.faults source.old ≤ S.faults source.new }
    ensures few { TakesAtMost (MOST_BYTES + 1) (S.left source.old) (S.left source.new) }
{
    match made {
        Some(seed) => make_input(alloc, seed),
        None => read_all(alloc, source),
    }
}

// The script that a seed makes for a run.
fn make_input(alloc: Global, seed: u64) -> Result<Vec<u8>, Fault>
    requires { seed ≤ GREATEST_NUMBER }
    ensures made { IfOk result (λ bytes. bytes.items ≡ made_script seed MADE_CLIENTS MADE_COMMANDS) }
    ensures small { IfOk result (λ bytes. vec_len bytes ≤ MOST_BYTES) }
    ensures cause { IfErr result (λ fault. fault ≡ Fault.Memory) }
{
    let bytes = make_script(alloc, seed, MADE_CLIENTS, MADE_COMMANDS)?;
    Ok(bytes)
}

/// Reads all the bytes that a source has left. It takes at most one byte past the limit.
pub fn read_all<S: Source>(alloc: Global, source: &mut S) -> Result<Vec<u8>, Fault>
    ensures whole { IfOk result (λ bytes. IsInput (S.left source.old) bytes.items) }
    ensures at_end { OnOk result (IsAtEnd (S.left source.new)) }
    ensures small { IfOk result (λ bytes. vec_len bytes ≤ MOST_BYTES) }
    ensures cause { IfErr result (IsReadFault (S.left source.old) (S.faults source.old) (S.faults source.new)) }
    ensures never_falls { S.faults source.old ≤ S.faults source.new }
    ensures few { TakesAtMost (MOST_BYTES + 1) (S.left source.old) (S.left source.new) }
{
    let mut bytes = Vec::new(alloc);
    let mut filled = 0;
    'turns: for _turn in 0..=MOST_BYTES {
        make_room(&mut bytes, filled)?;
        let count = read_piece(source, &mut bytes, filled)?;
        if count == 0 {
            bytes.truncate(filled);
            return Ok(bytes);
        }
        filled += count;
        if filled > MOST_BYTES {
            return Err(Fault::TooLargeInput);
        }
    }
    unreachable!()
}

// Makes room for a byte and more behind those that are filled, but for none after the first past the limit.
fn make_room(bytes: &mut Vec<u8>, filled: usize) -> Result<(), AllocError>
    requires within { filled ≤ vec_len bytes.old }
    requires few { filled ≤ MOST_BYTES }
    requires small { vec_len bytes.old ≤ MOST_BYTES + 1 }
    ensures room { OnOk result (filled < vec_len bytes.new) }
    ensures small { OnOk result (vec_len bytes.new ≤ MOST_BYTES + 1) }
    ensures kept { OnOk result (take filled bytes.new.items ≡ take filled bytes.old.items) }
{
    if filled < bytes.len() {
        return Ok(());
    }
    bytes.resize((filled + PIECE).min(MOST_BYTES + 1), 0)
}

// Reads the next piece behind the bytes that are filled.
fn read_piece<S: Source>(source: &mut S, bytes: &mut [u8], filled: usize) -> Result<usize, Fault>
    requires room { filled < length bytes.old }
    ensures piece { IfOk result (λ n. TakesPiece (S.left source.old) (S.left source.new) (take filled bytes.old)
        (take (filled + n) bytes.new) n) }
    ensures within { IfOk result (λ n. filled + n ≤ length bytes.old) }
    ensures cause { IfErr result (IsReadFault (S.left source.old) (S.faults source.old) (S.faults source.new)) }
    ensures never_falls { S.faults source.old ≤ S.faults source.new }
    ensures few { TakesAtMost (length bytes.old - filled) (S.left source.old) (S.left source.new) }
{
    match source.read(&mut bytes[filled..]) {
        Ok(count) => Ok(count),
        Err(Failed) => Err(Fault::Read),
    }
}
