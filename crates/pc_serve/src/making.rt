//! The top call: it reads three numbers, and writes the script that they make.
ghost use Rattle.std.specs.Prelude.{◌≡◌, ◌≢◌, ◌*◌, ◌≤◌, ◌⊎◌, IfSome, IsSome, IsNone};
ghost use Rattle.std.specs.Int.{IsInRange};
ghost use Rattle.pc_edge.specs.Faults.{HasRisen};
ghost use Rattle.pc_text.specs.Fault.{status_of};
ghost use Rattle.pc_text.specs.FaultLine.{WritesFault};
ghost use Rattle.pc_text.specs.ScriptWords.{number_of};
ghost use Rattle.pc_serve.specs.Making.{asked_by, asked_with, WritesScript, WritesFront};

use crate::ending::{Outcome, STOPPED, refuse};
use pc_edge::{Failed, Sink};
use pc_text::{Fault, GREATEST_NUMBER, MOST_CLIENTS, MOST_COMMANDS, read_number, write_made};

/// The status of a script that was written whole.
pub const WRITTEN: u8 = 0;

/// What the words of a command line ask for.
#[derive(Clone, Copy, Debug, PartialEq, Eq)]
pub struct Asked {
    /// What the generators open with, at most 999999999999999999.
    pub seed: u64,
    /// How many clients there are, from 1 to 32.
    pub clients: u32,
    /// How many commands each has, at least 1; at most 60,000 together.
    pub commands: u32,
}

/// Writes the script of a seed, of so many clients with so many commands each: the three words after the program's
/// name. It takes no memory and waits for nobody.
///
/// Status 0: the script was written whole. 2: there are other words, and the fault's line was written. 5: the sink
/// failed while the script was written.
pub fn serve_make<K: Sink>(words: &[String], sink: &mut K) -> Outcome
    ensures ok { result.status ≡ WRITTEN → WritesScript (asked_by words.now) (K.held sink.old) (K.held sink.new) }

    // The sink failed while the script was written.
    ensures stopped { result.status ≡ STOPPED → WritesFront (asked_by words.now) (K.held sink.old) (K.held sink.new) }
    ensures stopped_cause { result.status ≡ STOPPED → HasRisen (K.faults sink.old) (K.faults sink.new) }

    // Exactly the words that ask for no script are refused.
    ensures usage { IsNone (asked_by words.now) → result.status ≡ status_of Fault.Usage }
    ensures usage_line { IsNone (asked_by words.now) → WritesFault K.held K.faults sink.old sink.new Fault.Usage }
    ensures taken { IsSome (asked_by words.now) → (result.status ≡ WRITTEN) ⊎ (result.status ≡ STOPPED) }
    ensures never_falls { K.faults sink.old ≤ K.faults sink.new }
{
    let Some(asked) = asked_by(words) else {
        return refuse(sink, &Fault::Usage);
    };
    match write_made(sink, asked.seed, asked.clients, asked.commands) {
        Ok(()) => Outcome { status: WRITTEN },
        Err(Failed) => Outcome { status: STOPPED },
    }
}

// What the words ask for, the program's name first.
fn asked_by(words: &[String]) -> Option<Asked>
    ensures asked { result ≡ asked_by words.now }
    ensures seed { IfSome result (λ asked. asked.seed ≤ GREATEST_NUMBER) }
    ensures clients { IfSome result (λ asked. IsInRange 1 MOST_CLIENTS asked.clients) }
    ensures commands { IfSome result (λ asked. 1 ≤ asked.commands) }
    ensures few { IfSome result (λ asked. asked.clients * asked.commands ≤ MOST_COMMANDS) }
{
    if words.len() != 4 {
        return None;
    }
    let seed = read_number(words[1].as_bytes())?;
    let clients = read_number(words[2].as_bytes())?;
    let commands = read_number(words[3].as_bytes())?;
    asked_with(seed, clients, commands)
}

// What three numbers ask for, where they are few enough.
fn asked_with(seed: u64, clients: u64, commands: u64) -> Option<Asked>
    requires { seed ≤ GREATEST_NUMBER }
    ensures asked { result ≡ asked_with (Some seed) (Some clients) (Some commands) }
    ensures seed { IfSome result (λ asked. asked.seed ≤ GREATEST_NUMBER) }
    ensures clients { IfSome result (λ asked. IsInRange 1 MOST_CLIENTS asked.clients) }
    ensures commands { IfSome result (λ asked. 1 ≤ asked.commands) }
    ensures few { IfSome result (λ asked. asked.clients * asked.commands ≤ MOST_COMMANDS) }
{
    let most = MOST_COMMANDS as u64;
    if clients == 0 || clients > u64::from(MOST_CLIENTS) {
        return None;
    }
    if commands == 0 || commands > most || clients * commands > most {
        return None;
    }
    Some(Asked {
        seed,
        clients: clients as u32,
        commands: commands as u32,
    })
}
