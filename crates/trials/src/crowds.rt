//! What several clients print is one of the histories that there may be, and each call of each stands there once.
ghost use Rattle.std.specs.Prelude.{◌≤◌, length};

use crate::serving::{Given, served_under};
use crate::tables::all_hold;
use pc_edge::OpenGate;
use pc_locked::TreeKind;
use pc_model::{Entry, replay};
use pc_run::{Options, Run, run_script};
use pc_text::{MOST_BYTES, Script, read_script};
use std::alloc::{AllocError, Global};
use std::sync::Wait;
use std::thread::Threads;

pub const TREES: [TreeKind; 2] = [TreeKind::Bst, TreeKind::Avl];

pub fn words_for(tree: TreeKind) -> &'static [&'static str] {
    match tree {
        TreeKind::Bst => &["pathmap"],
        TreeKind::Avl => &["pathmap", "--tree", "avl"],
    }
}

const TWO_AT_ONE_KEY: &[u8] = b"client 1\nput 1 1\nget 1\nclient 2\nput 1 2\nget 1\n";

/// The histories of these four commands, and what each leaves.
const HISTORIES: &[&str] = &[
    "1 1.1 put 1 1 = new\n2 1.2 get 1 = 1\n3 2.1 put 1 2 = was 1\n4 2.2 get 1 = 2\nleft 1\n1 2\nend\n",
    "1 1.1 put 1 1 = new\n2 2.1 put 1 2 = was 1\n3 1.2 get 1 = 2\n4 2.2 get 1 = 2\nleft 1\n1 2\nend\n",
    "1 1.1 put 1 1 = new\n2 2.1 put 1 2 = was 1\n3 2.2 get 1 = 2\n4 1.2 get 1 = 2\nleft 1\n1 2\nend\n",
    "1 2.1 put 1 2 = new\n2 2.2 get 1 = 2\n3 1.1 put 1 1 = was 2\n4 1.2 get 1 = 1\nleft 1\n1 1\nend\n",
    "1 2.1 put 1 2 = new\n2 1.1 put 1 1 = was 2\n3 2.2 get 1 = 1\n4 1.2 get 1 = 1\nleft 1\n1 1\nend\n",
    "1 2.1 put 1 2 = new\n2 1.1 put 1 1 = was 2\n3 1.2 get 1 = 1\n4 2.2 get 1 = 1\nleft 1\n1 1\nend\n",
];

fn is_one_of_six<R: Threads + Wait + Sync>(rt: &R, alloc: Global, tree: TreeKind) -> bool {
    let given = Given {
        words: words_for(tree),
        input: TWO_AT_ONE_KEY,
        fails: 0,
        room: 1000,
        piece: 1000,
    };
    match served_under(rt, alloc, given, &OpenGate, HISTORIES) {
        Some((status, place)) => status == 0 && place.is_some(),
        None => false,
    }
}

// The first of many runs, under one tree and the other by turns, that prints something else.
fn first_other_history<R: Threads + Wait + Sync>(rt: &R, alloc: Global) -> Option<usize> {
    for i in 0..100usize {
        if !is_one_of_six(rt, alloc, TREES[i % 2]) {
            return Some(i);
        }
    }
    None
}

#[test]
fn two_clients_at_one_key_have_one_of_six_histories(rt: HostRuntime) {
    all_hold(&rt, &[first_other_history(&rt, rt.alloc())]);
}

/// A command of any kind on a few keys, which a state draws.
fn push_command(alloc: Global, text: &mut Vec<u8>, state: &mut u32) -> Result<(), AllocError> {
    *state = state.wrapping_mul(1_664_525).wrapping_add(1_013_904_223);
    let key = (*state >> 24) % 8;
    let value = (*state >> 8) % 1000;
    let line = match (*state >> 20) % 8 {
        0 | 1 | 2 => format!(in alloc; "put {key} {value}\n")?,
        drawn => format!(in alloc; "{} {key}\n", word_of(drawn))?,
    };
    text.extend_from_slice(line.as_bytes())
}

// The word of a command on a key alone.
fn word_of(drawn: u32) -> &'static str {
    match drawn {
        3 => "get",
        4 => "ceil",
        5 => "floor",
        _ => "remove",
    }
}

// The script of 32 clients with 500 commands each, from a seed.
fn crowd(alloc: Global, seed: u32) -> Result<Vec<u8>, AllocError> {
    let mut state = seed;
    let mut text = Vec::new(alloc);
    for client in 1..=32u32 {
        let line = format!(in alloc; "client {client}\n")?;
        text.extend_from_slice(line.as_bytes())?;
        for _ in 0..500 {
            push_command(alloc, &mut text, &mut state)?;
        }
    }
    Ok(text)
}

// Whether the entries are each client's calls, once each and in its order, numbered from 1.
fn is_history_of(alloc: Global, script: &Script, history: &[Entry]) -> bool {
    match vec![in alloc; 0usize; script.calls.len()] {
        Ok(mut done) => are_next(script, &mut done, history) && are_done(script, &done),
        Err(_) => false,
    }
}

fn are_next(script: &Script, done: &mut [usize], history: &[Entry]) -> bool {
    for entry in history {
        if !is_next(script, done, entry) {
            return false;
        }
    }
    true
}

// Whether so many calls of each client are all of them.
fn are_done(script: &Script, done: &[usize]) -> bool {
    for (client, calls) in script.calls.iter().enumerate() {
        if done.get(client) != Some(&calls.len()) {
            return false;
        }
    }
    true
}

// Whether an entry is its client's next call, which is done then.
fn is_next(script: &Script, done: &mut [usize], entry: &Entry) -> bool {
    let client = entry.pass.wrapping_sub(1) as usize;
    match (script.calls.get(client), done.get_mut(client)) {
        (Some(calls), Some(count)) => {
            let is_so = calls.get(*count) == Some(&entry.call);
            *count = count.wrapping_add(1);
            is_so && *count == entry.number as usize
        }
        _ => false,
    }
}

// Whether the crowd's run is a right history of its script.
fn crowd_is_right<R: Threads + Wait + Sync>(
    rt: &R,
    alloc: Global,
    tree: TreeKind,
    seed: u32,
) -> bool {
    match crowd(alloc, seed) {
        Ok(text) => text.len() <= MOST_BYTES && runs_right(rt, alloc, tree, &text),
        Err(_) => false,
    }
}

fn runs_right<R: Threads + Wait + Sync>(rt: &R, alloc: Global, tree: TreeKind, text: &[u8]) -> bool
    requires { length text.now ≤ MOST_BYTES }
{
    let options = Options {
        tree,
        shape: false,
        summary: false,
        made: None,
    };
    match read_script(alloc, text) {
        Ok(script) => match run_script(rt, alloc, options, &script, &OpenGate) {
            Ok(run) => is_right_run(alloc, &script, &run),
            Err(_) => false,
        },
        Err(_) => false,
    }
}

fn is_right_run(alloc: Global, script: &Script, run: &Run) -> bool {
    let history = run.map.history();
    is_history_of(alloc, script, history) && replay(alloc, history) == Ok(None)
}

fn first_wrong_crowd<R: Threads + Wait + Sync>(rt: &R, alloc: Global) -> Option<usize> {
    for i in 0..4usize {
        if !crowd_is_right(rt, alloc, TREES[i % 2], i as u32) {
            return Some(i);
        }
    }
    None
}

#[test]
fn the_history_of_a_crowd_has_each_call_once_in_its_clients_order(rt: HostRuntime) {
    all_hold(&rt, &[first_wrong_crowd(&rt, rt.alloc())]);
}
