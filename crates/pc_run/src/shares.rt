//! How much room the map of a script has to have.
ghost use Rattle.std.specs.Prelude.{◌≡◌, ◌+◌, ◌≤◌, length};
ghost use Rattle.pc_model.specs.Calls.{is_put, puts_in};
ghost use Rattle.pc_model.specs.Counts.{one_if};
ghost use Rattle.pc_text.specs.ScriptFacts.{AreFew};
ghost use Rattle.pc_run.specs.Shares.{calls_in, lists_of, share_of, shares_of};

use pc_model::Call;
use pc_text::{MOST_CLIENTS, MOST_COMMANDS};

/// For how many pairs and entries a map has room.
#[derive(Clone, Copy)]
pub struct Room {
    pub slots: u32,
    pub calls: u32,
}

/// The room that all clients want together: their shares of slots, and an entry for each call.
pub fn room_for(lists: &[Vec<Call>]) -> Room
    requires clients { length lists.now ≤ MOST_CLIENTS }
    requires few { AreFew (lists_of lists.now) }
    ensures slots { result.slots ≡ shares_of (lists_of lists.now) }
    ensures calls { result.calls ≡ calls_in (lists_of lists.now) }
    ensures within { result.slots ≤ 61000 }
{
    let mut room = Room { slots: 0, calls: 0 };
    for calls in lists {
        room.slots += share_of(calls);
        room.calls += calls.len() as u32;
    }
    room
}

/// A client's share of slots: one for each of its puts, and one more.
pub fn share_of(calls: &[Call]) -> u32
    requires { length calls.now ≤ MOST_COMMANDS }
    ensures share { result ≡ share_of calls.now }
    ensures few { result ≤ length calls.now + 1 }
{
    count_puts(calls) + 1
}

// How many of the calls are puts: each takes at most one slot.
fn count_puts(calls: &[Call]) -> u32
    requires { length calls.now ≤ MOST_COMMANDS }
    ensures puts { result ≡ puts_in calls.now }
    ensures few { result ≤ length calls.now }
{
    let mut puts = 0;
    for call in calls {
        puts += one_for_put(call);
    }
    puts
}

fn one_for_put(call: &Call) -> u32
    ensures { result ≡ one_if (is_put call.now) }
{
    match call {
        Call::Put { .. } => 1,
        Call::Get { .. } | Call::Remove { .. } | Call::Ceil { .. } | Call::Floor { .. } => 0,
    }
}
