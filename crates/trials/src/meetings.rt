//! Several clients are beside each other, and the gate is called round each command.
use crate::crowds::{TREES, words_for};
use crate::serving::{Given, served_under};
use crate::tables::all_hold;
use pc_edge::Gate;
use pc_locked::TreeKind;
use pc_pool::{Worker, run_clients};
use std::alloc::Global;
use std::sync::Wait;
use std::sync::atomic::{AtomicU64, Ordering};
use std::thread::Threads;

/// How often a client looks for the other before that is a miss.
pub const MOST_LOOKS: u32 = 1_000_000_000;

// Whether a count comes to this while it is looked at so often.
pub fn sees(count: &AtomicU64, wanted: u64, looks: u32) -> bool {
    for _ in 0..looks {
        if count.load(Ordering::SeqCst) == wanted {
            return true;
        }
    }
    false
}

/// Where clients 1 and 2 meet, at each of their first two commands.
#[derive(Drop)]
struct Meeting {
    arrived: [AtomicU64; 4],
    misses: AtomicU64,
}

impl Meeting {
    fn new() -> Meeting {
        Meeting {
            arrived: [
                AtomicU64::new(0),
                AtomicU64::new(0),
                AtomicU64::new(0),
                AtomicU64::new(0),
            ],
            misses: AtomicU64::new(0),
        }
    }

    // Notes that a client is at a command, and looks until the other is there as well.
    fn meet(&self, client: u32, number: u32) {
        let (own, other) = match (client, number) {
            (1, 1) => (0, 1),
            (2, 1) => (1, 0),
            (1, 2) => (2, 3),
            _ => (3, 2),
        };
        self.arrived[own].store(1, Ordering::SeqCst);
        if !sees(&self.arrived[other], 1, MOST_LOOKS) {
            self.misses.fetch_add(1, Ordering::SeqCst);
        }
    }

    // How many were there, and how many didn't see the other.
    fn count(&self) -> (u64, u64) {
        let mut arrived: u64 = 0;
        for place in &self.arrived {
            arrived = arrived.wrapping_add(place.load(Ordering::SeqCst));
        }
        (arrived, self.misses.load(Ordering::SeqCst))
    }
}

impl Gate for Meeting {
    fn before(&self, client: u32, number: u32) {
        self.meet(client, number);
    }

    fn after(&self, _client: u32, _number: u32) {}
}

/// A worker of two commands that meets another in each of its steps, which it does between the gate's two calls.
#[derive(Drop)]
struct Meeter<'a> {
    meeting: &'a Meeting,
    turnstile: &'a Turnstile,
    client: u32,
    done: u32,
}

impl Worker for Meeter<'_> {
    ghost use Rattle.std.specs.Prelude.{ℕ, false};
    ghost use Rattle.pc_pool.specs.Working.{up_to};

    ghost Task = { ℕ };

    ghost task = { λ w. w.client };

    ghost client_of = { λ client. client };

    ghost commands_of = { λ client. 2 };

    ghost done = { λ w. up_to w.done };

    ghost stopped = { λ w. false };

    fn client(&self) -> u32 {
        self.client
    }

    fn commands(&self) -> u32 {
        2
    }

    #[tactic(auto, using(pc_pool::proofs::UpTo::up_to_next))]
    fn step<R: Threads + Wait + Sync>(&mut self, _rt: &R, number: u32) -> bool {
        self.turnstile.expect(
            self.client,
            u64::from(number).wrapping_mul(2).wrapping_sub(1),
        );
        self.meeting.meet(self.client, number);
        self.done = number;
        true
    }
}

// The status of a run under a gate.
pub fn status_under<R: Threads + Wait + Sync, G: Gate + Sync>(
    rt: &R,
    alloc: Global,
    words: &[&str],
    input: &str,
    gate: &G,
) -> Option<u8> {
    let given = Given {
        words,
        input: input.as_bytes(),
        fails: 0,
        room: 1000,
        piece: 1000,
    };
    let (status, _) = served_under(rt, alloc, given, gate, &[])?;
    Some(status)
}

// Whether two clients of two commands each, run under a gate, are at each command beside each other.
fn commands_meet<R: Threads + Wait + Sync>(rt: &R, alloc: Global, tree: TreeKind) -> bool {
    let meeting = Meeting::new();
    let input = "get 1\nget 1\nclient 2\nget 1\nget 1\n";
    let status = status_under(rt, alloc, words_for(tree), input, &meeting);
    status == Some(0) && meeting.count() == (4, 0)
}

fn first_tree_without_meeting<R: Threads + Wait + Sync>(rt: &R, alloc: Global) -> Option<usize> {
    TREES
        .iter()
        .position(|tree| !commands_meet(rt, alloc, *tree))
}

#[test]
fn commands_of_two_clients_are_run_beside_each_other(rt: HostRuntime) {
    all_hold(&rt, &[first_tree_without_meeting(&rt, rt.alloc())]);
}

#[test]
fn steps_of_two_workers_are_done_beside_each_other(rt: HostRuntime) {
    let meeting = Meeting::new();
    let turnstile = Turnstile::new();
    let mut workers = [
        Meeter {
            meeting: &meeting,
            turnstile: &turnstile,
            client: 1,
            done: 0,
        },
        Meeter {
            meeting: &meeting,
            turnstile: &turnstile,
            client: 2,
            done: 0,
        },
    ];
    run_clients(&rt, &mut workers, &turnstile);
    assert_eq!(rt;
        (
            workers[0].done,
            workers[1].done,
            meeting.count(),
            turnstile.count()
        ),
        (2, 2, (4, 0), (4, 4, 0))
    );
}

/// A gate that counts a client's commands: each is begun where the one before it has ended, and ended where it has
/// begun.
#[derive(Drop)]
struct Turnstile {
    calls: [AtomicU64; 2],
    faults: AtomicU64,
}

impl Turnstile {
    fn new() -> Turnstile {
        Turnstile {
            calls: [AtomicU64::new(0), AtomicU64::new(0)],
            faults: AtomicU64::new(0),
        }
    }

    // Notes a call of a client, which has to be the one after so many others of it.
    fn pass(&self, client: u32, calls: u64) {
        let place = if client == 1 { 0 } else { 1 };
        if self.calls[place].fetch_add(1, Ordering::SeqCst) != calls {
            self.faults.fetch_add(1, Ordering::SeqCst);
        }
    }

    // Looks whether there were so many calls of a client so far.
    fn expect(&self, client: u32, calls: u64) {
        let place = if client == 1 { 0 } else { 1 };
        if self.calls[place].load(Ordering::SeqCst) != calls {
            self.faults.fetch_add(1, Ordering::SeqCst);
        }
    }

    // How many calls there were by each of two clients, and how many out of order.
    fn count(&self) -> (u64, u64, u64) {
        (
            self.calls[0].load(Ordering::SeqCst),
            self.calls[1].load(Ordering::SeqCst),
            self.faults.load(Ordering::SeqCst),
        )
    }
}

impl Gate for Turnstile {
    fn before(&self, client: u32, number: u32) {
        self.pass(client, u64::from(number).wrapping_mul(2).wrapping_sub(2));
    }

    fn after(&self, client: u32, number: u32) {
        self.pass(client, u64::from(number).wrapping_mul(2).wrapping_sub(1));
    }
}

/// A status, how many calls of the gate there were by each of two clients, and how many out of order.
type Counted = (Option<u8>, (u64, u64, u64));

fn gate_calls<R: Threads + Wait + Sync>(rt: &R, alloc: Global, input: &str) -> Counted {
    let gate = Turnstile::new();
    let status = status_under(rt, alloc, &["pathmap"], input, &gate);
    (status, gate.count())
}

#[test]
fn the_gate_is_called_before_and_after_each_command(rt: HostRuntime) {
    let alone = gate_calls(&rt, rt.alloc(), "put 1 1\nget 1\nremove 1\n");
    let both = gate_calls(&rt, rt.alloc(), "get 1\nclient 2\nput 1 1\nget 2\n");
    let none = gate_calls(&rt, rt.alloc(), "get 1\nget\n");
    assert_eq!(rt;
        (alone, both, none),
        (
            (Some(0), (6, 0, 0)),
            (Some(0), (2, 4, 0)),
            (Some(3), (0, 0, 0))
        )
    );
}
