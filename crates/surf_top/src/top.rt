// The program as one call.
ghost use Rattle.std.specs.Prelude.{◌≡◌, ◌≤◌, IfSome, false, length, map, string_bytes};
ghost use Rattle.surf_top.specs.Answers.{HasCauses, IsComplete, PrintsCircuit, PrintsColony, PrintsRun, ends};
ghost use Rattle.surf_status.specs.Calls.{IsQuiet};
ghost use Rattle.surf_status.specs.Calls.{EndsAs};
ghost use Rattle.surf_status.specs.Notes.{Notes, note_of};
ghost use Rattle.surf_top.specs.Jobs.{IsWithin, job_of, meant, reads};
ghost use Rattle.surf_top.specs.Outputs.{call_of};
ghost use Rattle.surf_status.specs.Writes.{writes};

use crate::Job;
use crate::job::read_job;
use std::alloc::Global;
use surf_base::{ReadAllError, Sink, Source, read_all};
use surf_command_automata::{compile_source, show_generation};
use surf_command_circuits::{compile_circuit, evaluate, set, show_adder};
use surf_command_runs::{format, run};
use surf_command_traces::{check_trace, show_finals, show_observed};
use surf_command_vote::show_vote;
use surf_status::{Status, note};

/// The most bytes that an input may have.
const LIMIT: u64 = 268_435_456;

// Carries out a job for its input. A job that reads none has an empty one.
fn carry_out<K: Sink>(alloc: Global, job: &Job<'_>, input: Vec<u8>, out: &mut K) -> Status
    requires small { length input.items ≤ 268435456 }
    requires within { IsWithin (meant job.now) }
    ensures ends { EndsAs (call_of (meant job.now) input.items)
        (writes K.written K.faults out.old out.new) result }
    ensures quiet { IsQuiet result → out.new ≡ out.old }
{
    match job {
        Job::Run { seed, count } => run(alloc, input, *seed, *count, out),
        Job::Format => format(alloc, input, out),
        Job::Eval { bits } => evaluate(alloc, input, *bits, out),
        Job::Circuit => compile_circuit(alloc, input, out),
        Job::Set { bits } => set(alloc, input, *bits, out),
        Job::Automaton { margin, last } => compile_source(alloc, input, *margin, *last, out),
        Job::Step { times } => show_generation(alloc, input, *times, out),
        Job::Replay => check_trace(alloc, input, out),
        Job::Outputs => show_finals(alloc, input, out),
        Job::Observe { k } => show_observed(alloc, input, *k, out),
        Job::DemoAdder { n } => show_adder(alloc, *n, out),
        Job::DemoVote { n } => show_vote(alloc, *n, out),
    }
}

// What the program answers, before its notes.
fn answer<S: Source, K: Sink>(
    alloc: Global,
    words: &[String],
    source: &mut S,
    out: &mut K,
) -> Status
    ensures causes { HasCauses (job_of (map string_bytes words.now))
        (ends S.left S.faults source.old source.new (writes K.written K.faults out.old out.new))
        result }
    ensures quiet { IsQuiet result → out.new ≡ out.old }
    ensures unread { result ≡ Status.Usage → source.new ≡ source.old }
    ensures unasked { IfSome (job_of (map string_bytes words.now))
        (λ job. reads job ≡ false → source.new ≡ source.old) }
{
    let Some(job) = read_job(words) else {
        return Status::Usage;
    };
    if !job.reads() {
        return carry_out(alloc, &job, Vec::new(alloc), out);
    }
    match read_all(alloc, source, LIMIT) {
        Ok(input) => carry_out(alloc, &job, input, out),
        Err(ReadAllError::TooLong) => Status::TooLong,
        Err(ReadAllError::ReadFault) => Status::ReadFault,
        Err(ReadAllError::NoMemory) => Status::NoMemory,
    }
}

/// The program: reads its words and its input, writes its output, and notes why it did not end
/// well. The commands are those of `surf_words`.
pub fn surf<S: Source, K: Sink, N: Sink>(
    alloc: Global,
    words: &[String],
    source: &mut S,
    out: &mut K,
    notes: &mut N,
) -> Status
    ensures causes { HasCauses (job_of (map string_bytes words.now))
        (ends S.left S.faults source.old source.new (writes K.written K.faults out.old out.new))
        result }
    ensures complete { IsComplete (job_of (map string_bytes words.now))
        (ends S.left S.faults source.old source.new (writes K.written K.faults out.old out.new))
        result }
    ensures runs { PrintsRun (job_of (map string_bytes words.now))
        (ends S.left S.faults source.old source.new (writes K.written K.faults out.old out.new))
        result }
    ensures circuits { PrintsCircuit (job_of (map string_bytes words.now))
        (ends S.left S.faults source.old source.new (writes K.written K.faults out.old out.new))
        result }
    ensures automata { PrintsColony (job_of (map string_bytes words.now))
        (ends S.left S.faults source.old source.new (writes K.written K.faults out.old out.new))
        result }
    ensures quiet { IsQuiet result → out.new ≡ out.old }
    ensures unread { result ≡ Status.Usage → source.new ≡ source.old }
    ensures unasked { IfSome (job_of (map string_bytes words.now))
        (λ job. reads job ≡ false → source.new ≡ source.old) }
    ensures noted { Notes (writes N.written N.faults notes.old notes.new) (note_of result) }
{
    let status = answer(alloc, words, source, out);
    note(&status, notes);
    status
}
