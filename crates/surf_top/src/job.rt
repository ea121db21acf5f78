// The jobs of the program.
ghost use Rattle.std.specs.Prelude.{◌≡◌, Some, None, IfSome, MatchOption, map, string_bytes};
ghost use Rattle.surf_words.specs.Words as words;
ghost use Rattle.surf_words.specs.Words.{spoken};
ghost use Rattle.surf_top.specs.Jobs.{IsWithin, job_for, job_of, meant, reads};

use surf_words::{Command, read_words};

/// A command with its values.
#[derive(Clone, Copy, Debug)]
pub enum Job<'a> {
    /// At most `count` events of the simulation that `seed` gives.
    Run { seed: u64, count: u64 },
    /// The canonical print of a manifest.
    Format,
    /// The values of a circuit's outputs where its inputs have the bits that a word of `0` and `1`
    /// spells.
    Eval { bits: &'a [u8] },
    /// The manifest and the legend of a circuit's surface.
    Circuit,
    /// A manifest whose inputs are set to the bits that a word spells.
    Set { bits: &'a [u8] },
    /// The manifest of an automaton's surface, whose runs end after the last generation, if one is
    /// given.
    Automaton { margin: u32, last: Option<u32> },
    /// The states of an automaton's cells after so many steps.
    Step { times: u32 },
    /// Whether a trace is a run of the manifest before it.
    Replay,
    /// What stands at the outputs after a trace.
    Outputs,
    /// The states of each cell's generation `k`, read off a trace.
    Observe { k: u64 },
    /// What an adder of so many bits comes to.
    DemoAdder { n: u32 },
    /// What a vote of so many by so many cells comes to.
    DemoVote { n: u32 },
}

impl Job<'_> {
    /// Whether the job reads an input.
    pub fn reads(&self) -> bool
        ensures { result ≡ reads (meant self.now) }
    {
        !matches!(self, Job::DemoAdder { .. } | Job::DemoVote { .. })
    }
}

fn job_for<'a>(command: &Command<'a>) -> Job<'a>
    requires within { words.IsWithin (spoken command.now) }
    ensures job { meant result ≡ job_for (spoken command.now) }
    ensures within { IsWithin (meant result) }
{
    match command {
        Command::Run { seed, count } => Job::Run {
            seed: *seed,
            count: *count,
        },
        Command::Format => Job::Format,
        Command::Eval { bits } => Job::Eval { bits: *bits },
        Command::Circuit => Job::Circuit,
        Command::Set { bits } => Job::Set { bits: *bits },
        Command::Automaton { margin, last } => Job::Automaton {
            margin: *margin,
            last: *last,
        },
        Command::Step { times } => Job::Step { times: *times },
        Command::Replay => Job::Replay,
        Command::Outputs => Job::Outputs,
        Command::Observe { k } => Job::Observe { k: *k },
        Command::DemoAdder { n } => Job::DemoAdder { n: *n },
        Command::DemoVote { n } => Job::DemoVote { n: *n },
    }
}

/// The job that the words ask for, if they spell a command.
pub fn read_job(words: &[String]) -> Option<Job<'_>>
    ensures job { MatchOption result (job_of (map string_bytes words.now) ≡ None)
        (λ j. job_of (map string_bytes words.now) ≡ Some (meant j)) }
    ensures within { IfSome result (λ j. IsWithin (meant j)) }
{
    match read_words(words) {
        Ok(command) => Some(job_for(&command)),
        Err(_) => None,
    }
}
