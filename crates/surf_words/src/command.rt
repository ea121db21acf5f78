/// A command with its values. A command that reads bits keeps the word that spells them, which may
/// be empty.
#[derive(Clone, Copy, Debug)]
pub enum Command<'a> {
    /// `run SEED COUNT`: at most `count` events, chosen by the seed.
    Run { seed: u64, count: u64 },
    /// `format`: the canonical print of a manifest.
    Format,
    /// `eval BITS`: the outputs of a circuit.
    Eval { bits: &'a [u8] },
    /// `circuit`: the manifest of a circuit.
    Circuit,
    /// `set BITS`: a circuit's manifest with its inputs set.
    Set { bits: &'a [u8] },
    /// `automaton MARGIN`, `automaton MARGIN LAST`: the manifest of a cellular automaton, whose runs
    /// end after the last generation where one is given. The margin is at most 1,000, the last
    /// generation from 1 to 1,000,000.
    Automaton { margin: u32, last: Option<u32> },
    /// `step N`: a generation of an automaton, at most the 1,000,000th.
    Step { times: u32 },
    /// `replay`: whether a trace is a run.
    Replay,
    /// `outputs`: what the outputs show after a trace.
    Outputs,
    /// `observe K`: the states that cells had at generation K of a trace.
    Observe { k: u64 },
    /// `demo adder N`: an adder of 1 to 32 bits.
    DemoAdder { n: u32 },
    /// `demo vote N`: a vote of 1 to 64 by as many cells.
    DemoVote { n: u32 },
}
