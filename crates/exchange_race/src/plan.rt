//! What the words of the command line ask for.
ghost use Rattle.std.specs.Prelude.{◌≤◌, ◌≢◌, ◌<◌};

/// What is printed of a race.
#[derive(Clone, Copy, PartialEq, Eq)]
pub(crate) enum Printed {
    /// What each exchange that won changed, and the words that are left, by rounds.
    Records,
    /// How many exchanges came to which end.
    Ends,
    /// How many exchanges were made.
    Count,
}

/// What the threads are to do.
#[derive(Drop)]
pub(crate) struct Plan {
    /// How many threads there are.
    pub(crate) threads: u32,
    /// How many exchanges they make together.
    pub(crate) exchanges: u64,
    /// What is printed.
    pub(crate) printed: Printed,
    /// How many words each exchange has, or 0 where that is from 2 to 6 by chance.
    pub(crate) words: u32,
    ghost few: { (0 < threads) × (threads ≤ 8) },
    ghost sized: { (words ≤ 6) × (words ≢ 1) },
}

/// The plan of these words, the program's name first.
pub(crate) fn plan_of(words: &[String]) -> Option<Plan> {
    let threads = number_at(words, 1)?;
    let exchanges = number_at(words, 2)?;
    let printed = printed_by(words.get(3)?.as_str())?;
    let count = if words.len() > 4 {
        number_at(words, 4)?
    } else {
        0
    };
    if threads == 0 || threads > 8 || count == 1 || count > 6 {
        return None;
    }
    Some(Plan {
        threads: threads as u32,
        exchanges,
        printed,
        words: count as u32,
    })
}

// The number that the word at this index spells.
fn number_at(words: &[String], i: usize) -> Option<u64> {
    words.get(i)?.as_str().parse::<u64>().ok()
}

// What this word asks for.
fn printed_by(word: &str) -> Option<Printed> {
    match word {
        "records" => Some(Printed::Records),
        "times" => Some(Printed::Ends),
        "count" => Some(Printed::Count),
        _ => None,
    }
}
