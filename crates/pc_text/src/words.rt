//! The words of a line, which stand between blanks.
ghost use Rattle.std.specs.Prelude.{◌≡◌, ◌≢◌, ◌<◌, ◌≤◌, [], ◌∷◌, length, MatchOption};
ghost use Rattle.std.specs.List.{position_or_len, prefix_len};
ghost use Rattle.pc_text.specs.Arguments.{AreArguments};
ghost use Rattle.pc_text.specs.ScriptWords.{is_blank, words_of};

/// The first word of a line, and what stands after it.
pub fn first_word(line: &[u8]) -> Option<(&[u8], &[u8])>
    ensures words { MatchOption result (words_of line.now ≡ [])
        (λ cut. words_of line.now ≡ cut.0.now ∷ words_of cut.1.now) }
    ensures some_bytes { MatchOption result (words_of line.now ≡ []) (λ cut. 0 < length cut.0.now) }
{
    let start = blanks_len(line);
    if start == line.len() {
        return None;
    }
    let text = &line[start..];
    let end = word_len(text);
    Some((&text[..end], &text[end..]))
}

/// The words of a line after the first, where no command has more than two.
#[derive(Clone, Copy)]
pub enum Arguments<'a> {
    None,
    One(&'a [u8]),
    Two(&'a [u8], &'a [u8]),
    More,
}

/// Cuts the words that stand after the first one.
pub fn cut_arguments(rest: &[u8]) -> Arguments
    ensures { AreArguments result (words_of rest.now) }
{
    let Some((first, rest)) = first_word(rest) else {
        return Arguments::None;
    };
    let Some((second, rest)) = first_word(rest) else {
        return Arguments::One(first);
    };
    match first_word(rest) {
        None => Arguments::Two(first, second),
        Some(_) => Arguments::More,
    }
}

// How many blanks stand at the front.
fn blanks_len(bytes: &[u8]) -> usize
    ensures place { result ≡ prefix_len is_blank bytes.now }
    ensures within { result ≤ length bytes.now }
{
    for (i, byte) in bytes.iter().enumerate() {
        if !is_blank_byte(*byte) {
            return i;
        }
    }
    bytes.len()
}

// How many bytes stand before the first blank.
fn word_len(bytes: &[u8]) -> usize
    ensures place { result ≡ position_or_len is_blank bytes.now }
    ensures within { result ≤ length bytes.now }
{
    for (i, byte) in bytes.iter().enumerate() {
        if is_blank_byte(*byte) {
            return i;
        }
    }
    bytes.len()
}

fn is_blank_byte(byte: u8) -> bool
    ensures { result ≡ is_blank byte }
{
    byte == b' ' || byte == b'\t'
}
