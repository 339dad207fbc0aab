//! The words of the command line, which clap reads as one simple command.
ghost use Rattle.std.specs.Prelude.{◌≡◌, ◌≤◌, Some, option_map, IfOk, IfErr, IfSome};
ghost use Rattle.clap.specs.Words.{app_of, found_of, kind_of, rows_of};
ghost use Rattle.pc_text.specs.ScriptWords.{number_of};
ghost use Rattle.pc_run.specs.Words.{pathmap, options_of, options_in, made_in, has_flag};
ghost use Rattle.pc_run.specs.Words.{HasSeedInRange};
ghost use Rattle.pc_run.specs.Words.{tree_in, tree_named, fault_of_kind, IsWordsFault};

use clap::error::ErrorKind;
use clap::{Arg, ArgAction, ArgMatches, Command, Error};
use pc_avl::TreeKind;
use pc_text::{Fault, GREATEST_NUMBER, read_number};
use std::alloc::{AllocError, Global};

/// What the words of a command line ask for.
#[derive(Clone, Copy, Debug, PartialEq, Eq)]
pub struct Options {
    /// The kind of tree that the map is.
    pub tree: TreeKind,
    /// Whether the tree's shape is printed after the pairs: it was asked for, and no summary.
    pub shape: bool,
    /// Whether the number of calls is printed in place of the history, the pairs and the shape.
    pub summary: bool,
    /// The seed whose script is run, where one is named. The source isn't read then.
    pub made: Option<u64>,
}

/// What the words ask for, the program's name first.
pub fn options_of(alloc: Global, words: &[String]) -> Result<Options, Fault>
    ensures taken { IfOk result (λ options. options_of words.now ≡ Some options) }
    ensures seed { IfOk result HasSeedInRange }
    ensures cause { IfErr result (IsWordsFault (options_of words.now)) }
{
    let command = command(alloc)?;
    match command.try_get_matches_from(words) {
        Ok(matches) => options_in(&matches).ok_or(Fault::Usage),
        Err(error) => Err(fault_of(&error)),
    }
}

// The command of the program.
fn command<'a>(alloc: Global) -> Result<Command<'a>, AllocError>
    ensures { IfOk result (λ command. app_of command ≡ pathmap) }
{
    let tree = Arg::new(alloc, "tree").long("tree").default_value("bst");
    let shape = Arg::new(alloc, "shape")
        .long("shape")
        .action(ArgAction::SetTrue);
    let summary = Arg::new(alloc, "summary")
        .long("summary")
        .action(ArgAction::SetTrue);
    let made = Arg::new(alloc, "made").long("made");
    Command::new(alloc, "pathmap")
        .disable_help_flag(true)
        .arg(tree)?
        .arg(shape)?
        .arg(summary)?
        .arg(made)
}

// What the command's matches ask for, where they name a tree, and a seed or none.
fn options_in(matches: &ArgMatches<'_>) -> Option<Options>
    ensures options { result ≡ options_in (rows_of (found_of matches.now)) }
    ensures seed { IfSome result HasSeedInRange }
{
    let tree = tree_in(matches)?;
    let made = made_in(matches)?;
    let summary = has_flag(matches, "summary");
    let shape = has_flag(matches, "shape") && !summary;
    Some(Options {
        tree,
        shape,
        summary,
        made,
    })
}

// The seed that the matches name, where they have the option.
fn made_in(matches: &ArgMatches<'_>) -> Option<Option<u64>>
    ensures made { result ≡ made_in (rows_of (found_of matches.now)) }
    ensures seed { IfSome result (λ made. IfSome made (λ seed. seed ≤ GREATEST_NUMBER)) }
{
    match matches.get_str("made") {
        Some(text) => seed_of(text),
        None => Some(None),
    }
}

// The seed that a text is, where it is one.
fn seed_of(text: &str) -> Option<Option<u64>>
    ensures made { result ≡ option_map Some (number_of text.now) }
    ensures seed { IfSome result (λ made. IfSome made (λ seed. seed ≤ GREATEST_NUMBER)) }
{
    match read_number(text.as_bytes()) {
        Some(seed) => Some(Some(seed)),
        None => None,
    }
}

// The kind of tree that the matches name.
fn tree_in(matches: &ArgMatches<'_>) -> Option<TreeKind>
    ensures { result ≡ tree_in (rows_of (found_of matches.now)) }
{
    match matches.get_str("tree") {
        Some(name) => tree_named(name),
        None => None,
    }
}

// The kind of tree with this name.
fn tree_named(name: &str) -> Option<TreeKind>
    ensures { result ≡ tree_named name.now }
{
    match name {
        "bst" => Some(TreeKind::Bst),
        "avl" => Some(TreeKind::Avl),
        _ => None,
    }
}

// Whether a flag was given: it has the value `true` then.
fn has_flag(matches: &ArgMatches<'_>, id: &str) -> bool
    ensures { result ≡ has_flag id.now (rows_of (found_of matches.now)) }
{
    match matches.get_str(id) {
        Some(text) => text == "true",
        None => false,
    }
}

// The words aren't taken, or memory was wanting.
fn fault_of(error: &Error) -> Fault
    ensures { result ≡ fault_of_kind (kind_of error.now) }
{
    match error.kind() {
        ErrorKind::OutOfMemory => Fault::Memory,
        _ => Fault::Usage,
    }
}
