//! What the words of the command line ask for.
ghost use Rattle.std.specs.Prelude.{◌≤◌, ◌<◌};

/// What is printed of a race.
#[derive(Clone, Copy, PartialEq, Eq)]
pub(crate) enum Printed {
    /// What each operation that took effect read or changed, and what is left, by rounds.
    Records,
    /// How many operations came to which end.
    Ends,
    /// How many operations were made.
    Count,
}

/// Which operations are made.
#[derive(Clone, Copy, PartialEq, Eq)]
pub(crate) enum Mix {
    /// All kinds.
    All,
    /// Validated reads.
    Reads,
    /// Exchanges by their paths.
    Changes,
    /// As many of these as of those.
    Both,
}

/// What the threads are to do.
#[derive(Drop)]
pub(crate) struct Plan {
    /// How many threads there are.
    pub(crate) threads: u32,
    /// How many operations they make together.
    pub(crate) operations: u64,
    /// What is printed.
    pub(crate) printed: Printed,
    /// Which operations they are.
    pub(crate) mix: Mix,
    ghost few: { (0 < threads) × (threads ≤ 8) },
}

/// The plan of these words, the program's name first.
pub(crate) fn plan_of(words: &[String]) -> Option<Plan> {
    let threads = number_at(words, 1)?;
    let operations = number_at(words, 2)?;
    let printed = printed_by(words.get(3)?.as_str())?;
    let mix = match words.get(4) {
        Some(word) => mix_of(word.as_str())?,
        None => Mix::All,
    };
    if threads == 0 || threads > 8 {
        return None;
    }
    Some(Plan {
        threads: threads as u32,
        operations,
        printed,
        mix,
    })
}

// The number that the word at this index spells.
fn number_at(words: &[String], i: usize) -> Option<u64> {
    words.get(i)?.as_str().parse::<u64>().ok()
}

// What this word asks for.
fn printed_by(word: &str) -> Option<Printed> {
    match word {
        "records" => Some(Printed::Records),
        "times" => Some(Printed::Ends),
        "count" => Some(Printed::Count),
        _ => None,
    }
}

// The mix that this word names.
fn mix_of(word: &str) -> Option<Mix> {
    match word {
        "all" => Some(Mix::All),
        "reads" => Some(Mix::Reads),
        "changes" => Some(Mix::Changes),
        "both" => Some(Mix::Both),
        _ => None,
    }
}
