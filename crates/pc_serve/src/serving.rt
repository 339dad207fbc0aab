//! The top call: it reads a script, runs it, and prints the run or the line of a fault.
ghost use Rattle.std.specs.Prelude.{◌≡◌, ◌≢◌, ◌+◌, ◌≤◌, length, IfOk, IfErr};
ghost use Rattle.std.specs.Prelude.{IfSome, IsNone};
ghost use Rattle.pc_run.specs.Words.{options_of, ReadsSource, LeavesSource};
ghost use Rattle.pc_run.specs.Reading.{TakesAtMost};
ghost use Rattle.pc_run.specs.Runs.{lines_of};
ghost use Rattle.pc_serve.specs.Serving.{PrintsRun, PrintsFront, HasRunAll, RunsBytes, bad_script};
ghost use Rattle.pc_serve.specs.Serving.{EndsInFault, IsCauseOf, IsBytesFault};
ghost use Rattle.pc_serve.specs.Serving.{IsTooLong, IsRefused, EndsUnlessMemory, EndsUnlessStopped};
ghost use Rattle.pc_edge.specs.Faults.{HasRisen};
ghost use Rattle.pc_text.specs.Fault.{status_of};
ghost use Rattle.pc_text.specs.FaultLine.{WritesFault};
ghost use Rattle.pc_text.specs.Printed.{listed};

use crate::ending::{Outcome, STOPPED, refuse};
use pc_edge::{Failed, Gate, Sink, Source};
use pc_run::{Options, Run, options_of, read_input, run_script};
use pc_text::{Extras, Fault, MOST_BYTES, print_run, read_script};
use std::alloc::Global;
use std::sync::Wait;
use std::thread::Threads;

/// The status of a run that was printed whole.
pub const PRINTED: u8 = 0;

/// Reads a script from the source, runs it with a worker for each client, and prints the history of all clients, the
/// pairs that are left and, under `--shape`, the shape of the tree. Under `--made` the script is the one that the seed
/// makes, of 32 clients with 500 commands each, and the source isn't read. Under `--summary` only the number of the
/// history's calls is printed.
///
/// The gate is called before and after each command, by the worker that runs it.
///
/// Status 0: the run was printed whole. 2: the command doesn't take the words. 3: the input spells no
/// script. 4: the source failed. 5: the sink failed while the run was
/// printed. 6: the input has more than 4,194,304 bytes. 9: memory was wanting, before the first byte. At
/// each status but 0 and 5 the line of the fault is written.
#[tactic(auto, using(crate::proofs::Inputs::none_reads))]
pub fn serve<R: Threads + Wait + Sync, S: Source, K: Sink, G: Gate + Sync>(
    rt: &R,
    alloc: Global,
    words: &[String],
    source: &mut S,
    sink: &mut K,
    gate: &G,
) -> Outcome
    // Printed is the history of a run of the script, with the pairs that are left and the shape that was asked for, or
    // its summary.
    ensures ok { result.status ≡ PRINTED →
        PrintsRun (options_of words.now)
        (S.left source.old) (S.left source.new) (K.held sink.old) (K.held sink.new) }

    // The sink failed while the run was printed.
    ensures stopped { result.status ≡ STOPPED →
        PrintsFront (options_of words.now)
        (S.left source.old) (S.left source.new) (K.held sink.old) (K.held sink.new) }
    ensures stopped_cause { result.status ≡ STOPPED → HasRisen (K.faults sink.old) (K.faults sink.new) }

    // Each other status is that of a fault with its cause, whose line was written.
    ensures fault { result.status ≢ PRINTED → result.status ≢ STOPPED →
        EndsInFault result.status
        (IsCauseOf (options_of words.now) (S.left source.old) (S.faults source.old) (S.faults source.new))
        (WritesFault K.held K.faults sink.old sink.new) }
    ensures usage { IsNone (options_of words.now) → EndsUnlessMemory (status_of Fault.Usage) result.status }
    ensures too_large { ReadsSource (options_of words.now) →
        IfSome (S.left source.old) (λ bytes. IsTooLong bytes →
        EndsUnlessStopped (status_of Fault.TooLargeInput) result.status) }
    ensures refused { ReadsSource (options_of words.now) →
        IfSome (S.left source.old) (λ bytes. IsRefused bytes →
        EndsUnlessStopped bad_script result.status) }

    // Where the words aren't taken, or name a seed, nothing is read, and else at most one byte past the limit.
    ensures unread { LeavesSource (options_of words.now) → source.new ≡ source.old }
    ensures few { TakesAtMost (MOST_BYTES + 1) (S.left source.old) (S.left source.new) }
    ensures source_never_falls { S.faults source.old ≤ S.faults source.new }
    ensures sink_never_falls { K.faults sink.old ≤ K.faults sink.new }
{
    let run = match run_input(rt, alloc, words, source, gate) {
        Ok(run) => run,
        Err(fault) => return refuse(sink, &fault),
    };
    match print_run(sink, run.map.history(), &run.pairs, extras_of(&run)) {
        Ok(()) => Outcome { status: PRINTED },
        Err(Failed) => Outcome { status: STOPPED },
    }
}

// What is printed of a run besides its history and its pairs.
fn extras_of(run: &Run) -> Extras<'_>
    ensures shape { listed result.shape ≡ lines_of run.now.shape }
    ensures summary { result.summary ≡ run.now.summary }
{
    Extras {
        shape: run.shape.as_deref(),
        summary: run.summary,
    }
}

// Reads the words and the script, and runs it. Nothing is printed.
fn run_input<R: Threads + Wait + Sync, S: Source, G: Gate + Sync>(
    rt: &R,
    alloc: Global,
    words: &[String],
    source: &mut S,
    gate: &G,
) -> Result<Run, Fault>
    ensures ok { IfOk result (λ run. HasRunAll (options_of words.now)
        (S.left source.old) (S.left source.new) run.summary run.map.entries run.pairs.items (lines_of run.shape)) }
    ensures not_refused { ReadsSource (options_of words.now) →
        IfOk result (λ _. IfSome (S.left source.old) (λ bytes. IsRefused bytes → ⊥)) }
    ensures cause { IfErr result
        (IsCauseOf (options_of words.now) (S.left source.old) (S.faults source.old) (S.faults source.new)) }
    ensures unread { LeavesSource (options_of words.now) → source.new ≡ source.old }
    ensures few { TakesAtMost (MOST_BYTES + 1) (S.left source.old) (S.left source.new) }
    ensures never_falls { S.faults source.old ≤ S.faults source.new }
{
    let options = options_of(alloc, words)?;
    let bytes = read_input(alloc, options.made, source)?;
    run_bytes(rt, alloc, options, &bytes, gate)
}

// Runs the script that bytes spell.
fn run_bytes<R: Threads + Wait + Sync, G: Gate + Sync>(
    rt: &R,
    alloc: Global,
    options: Options,
    bytes: &[u8],
    gate: &G,
) -> Result<Run, Fault>
    requires { length bytes.now ≤ MOST_BYTES }
    ensures ok { IfOk result
        (λ run. RunsBytes options bytes.now run.map.entries run.pairs.items (lines_of run.shape)) }
    ensures summary { IfOk result (λ run. run.summary ≡ options.summary) }
    ensures not_refused { IfOk result (λ _. IsRefused bytes.now → ⊥) }
    ensures cause { IfErr result (IsBytesFault bytes.now) }
{
    let script = read_script(alloc, bytes)?;
    let run = run_script(rt, alloc, options, &script, gate)?;
    Ok(run)
}
