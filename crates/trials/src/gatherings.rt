//! All clients are beside each other, and one ends while another is held.
use crate::meetings::{MOST_LOOKS, sees, status_under};
use pc_edge::Gate;
use pc_text::MOST_CLIENTS;
use std::alloc::{AllocError, Global};
use std::sync::Wait;
use std::sync::atomic::{AtomicU64, Ordering};
use std::thread::Threads;

/// How often a client looks for 31 others, each of which may be looking as well.
const LOOKS_FOR_ALL: u32 = 100_000_000;

/// A gate at which all clients are before any goes on. After a miss none waits any more.
#[derive(Drop)]
struct Gathering {
    arrived: AtomicU64,
    misses: AtomicU64,
}

impl Gate for Gathering {
    fn before(&self, _client: u32, _number: u32) {
        self.arrived.fetch_add(1, Ordering::SeqCst);
        let is_missed = self.misses.load(Ordering::SeqCst) > 0;
        if !is_missed && !sees(&self.arrived, u64::from(MOST_CLIENTS), LOOKS_FOR_ALL) {
            self.misses.fetch_add(1, Ordering::SeqCst);
        }
    }

    fn after(&self, _client: u32, _number: u32) {}
}

// The script of the most clients with a command each.
fn one_command_each(alloc: Global) -> Result<String, AllocError> {
    let mut text = String::new(alloc);
    for client in 1..=MOST_CLIENTS {
        let lines = format!(in alloc; "client {client}\nget 1\n")?;
        text.push_str(&lines)?;
    }
    Ok(text)
}

// The status of the most clients with a command each, and how many went on before all were there.
fn gathered<R: Threads + Wait + Sync>(rt: &R, alloc: Global) -> (Option<u8>, u64) {
    let gate = Gathering {
        arrived: AtomicU64::new(0),
        misses: AtomicU64::new(0),
    };
    let status = match one_command_each(alloc) {
        Ok(input) => status_under(rt, alloc, &["pathmap"], &input, &gate),
        Err(_) => None,
    };
    (status, gate.misses.load(Ordering::SeqCst))
}

#[test]
fn the_most_clients_are_all_beside_each_other(rt: HostRuntime) {
    assert_eq!(rt; gathered(&rt, rt.alloc()), (Some(0), 0));
}

/// A gate at which one of two clients waits at its first command until the other has ended its second.
#[derive(Drop)]
struct Holding {
    held: u32,
    ended: AtomicU64,
    misses: AtomicU64,
}

impl Gate for Holding {
    fn before(&self, client: u32, number: u32) {
        if client == self.held && number == 1 && !sees(&self.ended, 1, MOST_LOOKS) {
            self.misses.fetch_add(1, Ordering::SeqCst);
        }
    }

    fn after(&self, client: u32, number: u32) {
        if client != self.held && number == 2 {
            self.ended.fetch_add(1, Ordering::SeqCst);
        }
    }
}

// The status, how often the other client didn't end while this one was held at its first command, and how often it
// ended.
fn overtaken<R: Threads + Wait + Sync>(rt: &R, alloc: Global, held: u32) -> (Option<u8>, u64, u64) {
    let gate = Holding {
        held,
        ended: AtomicU64::new(0),
        misses: AtomicU64::new(0),
    };
    let input = "get 1\nget 1\nclient 2\nget 1\nget 1\n";
    let status = status_under(rt, alloc, &["pathmap"], input, &gate);
    let misses = gate.misses.load(Ordering::SeqCst);
    (status, misses, gate.ended.load(Ordering::SeqCst))
}

#[test]
fn a_client_ends_while_another_is_at_its_first_command(rt: HostRuntime) {
    let first = overtaken(&rt, rt.alloc(), 1);
    let second = overtaken(&rt, rt.alloc(), 2);
    assert_eq!(rt; (first, second), ((Some(0), 0, 1), (Some(0), 0, 1)));
}
