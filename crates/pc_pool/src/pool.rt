//! Running one worker, and all workers beside each other.
ghost use Rattle.std.specs.Prelude.{◌≡◌, ◌-◌, ◌<◌, ◌≤◌, not, All};
ghost use Rattle.pc_pool.specs.Working.{EachBecomes, HasBegun, HasWorked, IsFresh, up_to};

use crate::worker::Worker;
use pc_edge::Gate;
use std::sync::Wait;
use std::thread;
use std::thread::Threads;

/// Runs each worker, in a thread of its own where one can be made: its steps 1, 2 and so on, up to its number of
/// commands or to the first that answers false, with the gate's `before` and `after` round each. It takes no memory
/// and can't be refused.
pub fn run_clients<R: Threads + Wait + Sync, W: Worker + Send, G: Gate + Sync>(
    rt: &R,
    workers: &mut [W],
    gate: &G,
)
    requires fresh { All (λ w. IsFresh (W.done w) (W.stopped w)) workers.old }
    ensures same { EachBecomes (λ old new. W.task new ≡ W.task old) workers.old workers.new }
    ensures work { EachBecomes
        (λ old new. HasWorked (W.done new) (W.commands_of (W.task old)) (W.stopped new)) workers.old workers.new }
{
    let threads = workers.len();
    if threads == 0 {
        return;
    }
    let run = |_: usize, worker: &mut W|
        requires { IsFresh (W.done worker.old) (W.stopped worker.old) }
        ensures same { W.task worker.new ≡ W.task worker.old }
        ensures work { HasWorked (W.done worker.new) (W.commands_of (W.task worker.old)) (W.stopped worker.new) }
    { run_client(rt, worker, gate) };
    thread::for_each_mut(rt, workers, threads, &run);
}

/// Runs one worker in the caller's thread: its steps 1, 2 and so on, up to its number of commands or to the first that
/// answers false, with the gate's `before` and `after` round each. It takes no memory and can't be refused.
#[tactic(auto, using(crate::proofs::UpTo::length_up_to))]
pub fn run_client<R: Threads + Wait + Sync, W: Worker, G: Gate>(rt: &R, worker: &mut W, gate: &G)
    requires fresh { IsFresh (W.done worker.old) (W.stopped worker.old) }
    ensures same { W.task worker.new ≡ W.task worker.old }
    ensures work { HasWorked (W.done worker.new) (W.commands_of (W.task worker.old)) (W.stopped worker.new) }
{
    for done in 0..worker.commands() {
        if !run_step(rt, worker, gate, done + 1) {
            return;
        }
    }
}

// Does the step of this number between the gate's two calls. False stops the worker.
#[tactic(auto, using(crate::proofs::UpTo::length_up_to))]
fn run_step<R: Threads + Wait + Sync, W: Worker, G: Gate>(
    rt: &R,
    worker: &mut W,
    gate: &G,
    number: u32,
) -> bool
    requires positive { 0 < number }
    requires next { HasBegun (number - 1) (W.done worker.old) (W.stopped worker.old) }
    requires within { number ≤ W.commands_of (W.task worker.old) }
    ensures same { W.task worker.new ≡ W.task worker.old }
    ensures done { W.done worker.new ≡ up_to number }
    ensures stopped { W.stopped worker.new ≡ not result }
{
    let client = worker.client();
    gate.before(client, number);
    let goes_on = worker.step(rt, number);
    gate.after(client, number);
    goes_on
}
