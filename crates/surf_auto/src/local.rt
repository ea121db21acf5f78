// The trait of local rules.
ghost use Rattle.std.specs.Prelude.{◌≡◌, ◌<◌, ◌≤◌};
ghost use Rattle.surf_auto.specs.Locals.{LocalRule, IsLocal};

/// A local rule, which may take several phases for one step. No call takes memory.
///
/// There are 1 to 16 phases, 1 to 256 states in each, and 1 to 2,048 values that a cell may have
/// gathered after so many reads.
pub trait Local {
    /// The rule that it is.
    ghost rule: { Self → LocalRule };

    /// The number of neighbours, 4 or 6.
    fn degree(&self) -> u32
        ensures number { result ≡ (rule self.now).degree }
        ensures law { IsLocal (rule self.now) };

    /// The number of phases.
    fn phases(&self) -> u32
        ensures { result ≡ (rule self.now).phases };

    /// The number of states in a phase.
    fn states(&self, phase: u32) -> u32
        requires phase { phase < (rule self.now).phases }
        ensures { result ≡ (rule self.now).states phase };

    /// What a cell has gathered before its first read.
    fn start(&self, phase: u32) -> u32
        requires phase { phase < (rule self.now).phases }
        ensures { result ≡ (rule self.now).start phase };

    /// The number of values that a cell may have gathered after so many reads.
    fn accs(&self, phase: u32, reads: u32) -> u32
        requires phase { phase < (rule self.now).phases }
        requires reads { reads ≤ (rule self.now).degree }
        ensures { result ≡ (rule self.now).accs phase reads };

    /// What a cell has gathered after one more read, of this state in this direction.
    fn add(&self, phase: u32, acc: u32, direction: u32, state: u32) -> u32
        requires phase { phase < (rule self.now).phases }
        requires direction { direction < (rule self.now).degree }
        requires acc { acc < (rule self.now).accs phase direction }
        requires state { state < (rule self.now).states phase }
        ensures { result ≡ (rule self.now).add phase acc direction state };

    /// The state after a phase, by the own state and what was gathered.
    fn finish(&self, phase: u32, own: u32, acc: u32) -> u32
        requires phase { phase < (rule self.now).phases }
        requires own { own < (rule self.now).states phase }
        requires acc { acc < (rule self.now).accs phase (rule self.now).degree }
        ensures { result ≡ (rule self.now).finish phase own acc };
}
