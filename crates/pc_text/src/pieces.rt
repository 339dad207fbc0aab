//! The pieces that lines are made of, put into a chunk that has room for them.
ghost use Rattle.std.specs.Prelude.{◌≡◌, ◌+◌, ◌≤◌, ◌++◌, codes, length};
ghost use Rattle.std.specs.Fmt.{decimal};
ghost use Rattle.pc_text.specs.Printed.{call_text, reply_text, signed_text, turn_text};

use pc_edge::{Chunk, SIZE};
use pc_model::{Call, Reply};

/// Puts `c.m`.
#[tactic(auto, unfolding(crate::specs::Printed::turn_text), using(std::proofs::Common::append_assoc))]
pub(crate) fn push_turn(chunk: &mut Chunk, pass: u32, number: u32)
    requires { length chunk.old + 41 ≤ SIZE }
    ensures text { chunk.new ≡ chunk.old ++ turn_text pass number }
    ensures short { length chunk.new ≤ length chunk.old + 41 }
{
    chunk.push_number(u64::from(pass));
    chunk.push_byte(b'.');
    chunk.push_number(u64::from(number));
}

/// Puts a number with a blank after it.
#[inline]
#[tactic(auto, using(std::proofs::Common::append_assoc))]
pub(crate) fn push_number_and_blank(chunk: &mut Chunk, number: u64)
    requires { length chunk.old + 21 ≤ SIZE }
    ensures text { chunk.new ≡ chunk.old ++ decimal number ++ codes " " }
    ensures short { length chunk.new ≤ length chunk.old + 21 }
{
    chunk.push_number(number);
    chunk.push_byte(b' ');
}

/// Puts two numbers with a blank between them.
#[inline]
#[tactic(auto, using(std::proofs::Common::append_assoc))]
pub(crate) fn push_two_numbers(chunk: &mut Chunk, one: u64, other: u64)
    requires { length chunk.old + 41 ≤ SIZE }
    ensures text { chunk.new ≡ chunk.old ++ decimal one ++ codes " " ++ decimal other }
    ensures short { length chunk.new ≤ length chunk.old + 41 }
{
    push_number_and_blank(chunk, one);
    chunk.push_number(other);
}

/// Puts a word with a number after it.
#[inline]
#[tactic(auto, using(std::proofs::Common::append_assoc))]
pub(crate) fn push_word_and_number(chunk: &mut Chunk, word: &[u8], number: u64)
    requires room { length chunk.old + 28 ≤ SIZE }
    requires short { length word.now ≤ 8 }
    ensures text { chunk.new ≡ chunk.old ++ word.now ++ decimal number }
    ensures short { length chunk.new ≤ length chunk.old + 28 }
{
    chunk.push(word);
    chunk.push_number(number);
}

/// Puts the command of a put.
#[tactic(auto, using(std::proofs::Common::append_assoc))]
fn push_put(chunk: &mut Chunk, key: u64, value: u64)
    requires { length chunk.old + 48 ≤ SIZE }
    ensures text { chunk.new ≡ chunk.old ++ codes "put " ++ decimal key ++ codes " " ++ decimal value }
    ensures short { length chunk.new ≤ length chunk.old + 48 }
{
    chunk.push(b"put ");
    push_two_numbers(chunk, key, value);
}

/// Puts a command.
#[tactic(auto, unfolding(crate::specs::Printed::call_text))]
pub(crate) fn push_call(chunk: &mut Chunk, call: &Call)
    requires { length chunk.old + 48 ≤ SIZE }
    ensures text { chunk.new ≡ chunk.old ++ call_text call.now }
    ensures short { length chunk.new ≤ length chunk.old + 48 }
{
    match *call {
        Call::Put { key, value } => push_put(chunk, key, value),
        Call::Get { key } => push_word_and_number(chunk, b"get ", key),
        Call::Remove { key } => push_word_and_number(chunk, b"remove ", key),
        Call::Ceil { key } => push_word_and_number(chunk, b"ceil ", key),
        Call::Floor { key } => push_word_and_number(chunk, b"floor ", key),
    }
}

/// Puts a reply.
#[tactic(auto, unfolding(crate::specs::Printed::reply_text))]
pub(crate) fn push_reply(chunk: &mut Chunk, reply: &Reply)
    requires { length chunk.old + 41 ≤ SIZE }
    ensures text { chunk.new ≡ chunk.old ++ reply_text reply.now }
    ensures short { length chunk.new ≤ length chunk.old + 41 }
{
    match *reply {
        Reply::New => chunk.push(b"new"),
        Reply::Was(value) => push_word_and_number(chunk, b"was ", value),
        Reply::Value(value) => chunk.push_number(value),
        Reply::None => chunk.push(b"none"),
        Reply::Pair(key, value) => push_two_numbers(chunk, key, value),
    }
}

/// Puts a number with its sign, `-` where it is negative.
#[tactic(auto, using(std::proofs::Common::append_assoc))]
pub(crate) fn push_signed(chunk: &mut Chunk, number: i64)
    requires { length chunk.old + 21 ≤ SIZE }
    ensures text { chunk.new ≡ chunk.old ++ signed_text number }
    ensures short { length chunk.new ≤ length chunk.old + 21 }
{
    if number < 0 {
        chunk.push_byte(b'-');
    }
    chunk.push_number(number.unsigned_abs());
}
