//! The lines of a script: what each one is, by its words.
ghost use Rattle.std.specs.Prelude.{if◌then◌else◌, ◌≡◌, ◌≢◌, ◌≤◌, ℕ, List, [], ◌∷◌, length, Some};
ghost use Rattle.std.specs.List.{list_all};
ghost use Rattle.pc_text.specs.Arguments.{AreArguments};
ghost use Rattle.pc_text.specs.ScriptFacts.{IsLineInRange};
ghost use Rattle.pc_text.specs.ScriptLine.{class_after, class_of, is_plain};
ghost use Rattle.pc_text.specs.ScriptWords.{keyword_of, number_of, words_of};

use crate::kind::ScriptKind;
use crate::limits::{GREATEST_NUMBER, MOST_CLIENTS};
use crate::number::read_number;
use crate::words::{Arguments, cut_arguments, first_word};
use pc_model::Call;

/// The words that begin a line.
#[derive(Clone, Copy)]
pub enum Keyword {
    Client,
    Put,
    Get,
    Remove,
    Ceil,
    Floor,
}

/// What a line of a script is.
#[derive(Clone, Copy)]
pub enum LineClass {
    /// There is nothing in it, or a comment.
    Skip,
    /// The commands that follow are this client's.
    Turn(u32),
    /// A command.
    Command(Call),
    /// It is no line of a script.
    Bad(ScriptKind),
}

/// What a line is, without its end.
pub fn read_line(line: &[u8]) -> LineClass
    ensures class { result ≡ class_of line.now }
    ensures in_range { IsLineInRange result }
{
    let Some((word, rest)) = first_word(line) else {
        return LineClass::Skip;
    };
    if word[0] == b'#' {
        return LineClass::Skip;
    }
    match class_of_words(read_keyword(word), cut_arguments(rest)) {
        LineClass::Bad(kind) => LineClass::Bad(first_kind(line, kind)),
        // Its words are plain and so are blanks: no byte of it need be looked at again.
        class => class,
    }
}

// A bad byte counts before what else is wrong with a line.
fn first_kind(line: &[u8], kind: ScriptKind) -> ScriptKind
    ensures { result ≡ (if list_all is_plain line.now then kind else ScriptKind.BadByte) }
{
    if is_plain_text(line) {
        kind
    } else {
        ScriptKind::BadByte
    }
}

// Whether there are tabs and bytes from 32 to 126 alone.
fn is_plain_text(line: &[u8]) -> bool
    ensures { result ≡ list_all is_plain line.now }
{
    for byte in line {
        if !is_plain_byte(*byte) {
            return false;
        }
    }
    true
}

fn is_plain_byte(byte: u8) -> bool
    ensures { result ≡ is_plain byte }
{
    byte == b'\t' || (byte >= 32 && byte <= 126)
}

fn read_keyword(word: &[u8]) -> Option<Keyword>
    ensures { result ≡ keyword_of word.now }
{
    if word == b"client".as_slice() {
        Some(Keyword::Client)
    } else if word == b"put".as_slice() {
        Some(Keyword::Put)
    } else if word == b"get".as_slice() {
        Some(Keyword::Get)
    } else if word == b"remove".as_slice() {
        Some(Keyword::Remove)
    } else if word == b"ceil".as_slice() {
        Some(Keyword::Ceil)
    } else if word == b"floor".as_slice() {
        Some(Keyword::Floor)
    } else {
        None
    }
}

// A line of plain bytes, by its first word and the others.
fn class_of_words(keyword: Option<Keyword>, arguments: Arguments) -> LineClass
    ensures class { (words : List (List ℕ)) → AreArguments arguments.entry words → result ≡ class_after keyword words }
    ensures in_range { IsLineInRange result }
{
    let Some(keyword) = keyword else {
        return LineClass::Bad(ScriptKind::UnknownWord);
    };
    match (keyword, arguments) {
        (Keyword::Put, Arguments::Two(key, value)) => put_of(key, value),
        (Keyword::Put, _) => LineClass::Bad(ScriptKind::WordCount),
        (_, Arguments::One(word)) => single_of(keyword, word),
        _ => LineClass::Bad(ScriptKind::WordCount),
    }
}

fn put_of(key: &[u8], value: &[u8]) -> LineClass
    ensures class { result ≡ class_after (Some Keyword.Put) (key.now ∷ value.now ∷ []) }
    ensures in_range { IsLineInRange result }
{
    match (read_number(key), read_number(value)) {
        (Some(key), Some(value)) => LineClass::Command(Call::Put { key, value }),
        _ => LineClass::Bad(ScriptKind::BadNumber),
    }
}

fn single_of(keyword: Keyword, word: &[u8]) -> LineClass
    requires { keyword ≢ Keyword.Put }
    ensures class { result ≡ class_after (Some keyword) (word.now ∷ []) }
    ensures in_range { IsLineInRange result }
{
    match read_number(word) {
        Some(number) => class_of_number(keyword, number),
        None => LineClass::Bad(ScriptKind::BadNumber),
    }
}

// The line of a word and its one number, however this is written.
fn class_of_number(keyword: Keyword, number: u64) -> LineClass
    requires single { keyword ≢ Keyword.Put }
    requires in_range { number ≤ GREATEST_NUMBER }
    ensures class { (word : List ℕ) → number_of word ≡ Some number → result ≡ class_after (Some keyword) (word ∷ []) }
    ensures in_range { IsLineInRange result }
{
    match keyword {
        Keyword::Client => class_of_client(number),
        Keyword::Put => unreachable!(),
        Keyword::Get => LineClass::Command(Call::Get { key: number }),
        Keyword::Remove => LineClass::Command(Call::Remove { key: number }),
        Keyword::Ceil => LineClass::Command(Call::Ceil { key: number }),
        Keyword::Floor => LineClass::Command(Call::Floor { key: number }),
    }
}

fn class_of_client(client: u64) -> LineClass
    ensures class { (word : List ℕ) → number_of word ≡ Some client
        → result ≡ class_after (Some Keyword.Client) (word ∷ []) }
    ensures in_range { IsLineInRange result }
{
    if client == 0 {
        LineClass::Bad(ScriptKind::BadNumber)
    } else if client > u64::from(MOST_CLIENTS) {
        LineClass::Bad(ScriptKind::TooManyClients)
    } else {
        LineClass::Turn(client as u32)
    }
}
