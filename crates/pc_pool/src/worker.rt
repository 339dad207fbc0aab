//! What a worker is.
ghost use Rattle.std.specs.Prelude.{◌≡◌, ℕ, ◌+◌, ◌≤◌, Bool, false, not, List, [], ◌∷◌, ◌++◌, length};

use std::sync::Wait;
use std::thread::Threads;

/// One client's commands, to be done one after another by steps that are numbered from 1.
pub trait Worker {
    // What the worker was given, which no step changes: its client and its number of commands, and whatever
    // else stays as it is.
    ghost Task: { Type 0 };

    ghost task: { Self → Task };

    ghost client_of: { Task → ℕ };

    ghost commands_of: { Task → ℕ };

    // The steps that were done, and whether the last of them stopped the worker.
    ghost done: { Self → List ℕ };

    ghost stopped: { Self → Bool };

    /// The client, whose number the gate is told.
    fn client(&self) -> u32
        ensures { result ≡ client_of (task self.now) };

    /// How many commands there are to be done.
    fn commands(&self) -> u32
        ensures { result ≡ commands_of (task self.now) };

    /// Does the next command, whose number is one more than the steps done. False stops the worker.
    fn step<R: Threads + Wait + Sync>(&mut self, rt: &R, number: u32) -> bool
        requires running { stopped self.old ≡ false }
        requires next { number ≡ length (done self.old) + 1 }
        requires within { number ≤ commands_of (task self.old) }
        ensures same { task self.new ≡ task self.old }
        ensures done { done self.new ≡ done self.old ++ number ∷ [] }
        ensures stopped { stopped self.new ≡ not result };
}
