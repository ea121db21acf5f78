// Laws of the texts that commands write, each the contract of a function that does nothing.
ghost use Rattle.surf_laws.specs.AutomataRound.{ColoniesAreOfCells, GenerationsAreTold, RunGenerationsAreTold, RunsAreCarried, TracesAreCarried};
ghost use Rattle.surf_laws.specs.CircuitLaws.{SurfacesAreSet};
ghost use Rattle.surf_laws.specs.CircuitsRound.{CircuitsAreCarried};
ghost use Rattle.surf_laws.specs.OneText.{OneText};
ghost use Rattle.surf_laws.specs.ReadBack.{AreReadBack, PrintsAreReadBack, PrintsEndLines, RunsAreReadBack, RunsAreShort, TracesAreReadBack};
ghost use Rattle.surf_laws.specs.Watched.{AreReadInStep};

/// What `circuit` writes can be set to as many bits as there are inputs. What `set` then writes is
/// taken by `run` and `format`, has the same legend, and each of its runs to the end has as many
/// events as that says and shows the values of the circuit's outputs.
pub fn surfaces_are_set()
    ensures { SurfacesAreSet }
{}

/// In any run of a surface whose cells keep in step, as what `automaton` writes spells one, the
/// state that `observe K` reads off a cell is the synchronous one of generation K, wherever the
/// cell has come so far, and none where it has not and where no cell stands.
pub fn cells_are_observed()
    ensures { AreReadInStep }
{}

/// A manifest's text that ends with a line feed, with the trace block of fewer than 2^64 events
/// behind it whose numbers fit, is read as the manifest and these events, whatever follows them,
/// and its legend is the text's own. The numbers of each run of the manifest fit, so each run of
/// fewer than 2^64 events is read back, and so is what `run` prints of it. What is printed ends
/// with a line feed, so each manifest that is printed is read back, and with the legend printed
/// with it.
pub fn runs_are_read_back()
    ensures texts { AreReadBack }
    ensures short { RunsAreShort }
    ensures traces { TracesAreReadBack }
    ensures runs { RunsAreReadBack }
    ensures prints { PrintsAreReadBack }
    ensures ended { PrintsEndLines }
{}

/// What `circuit` writes, set to bits and with any run of it to its end behind it, is read by
/// `outputs` as exactly the lines that `eval` writes for these bits. So it is with what `run`
/// prints, if it may take as many events as the legend says.
pub fn circuits_are_carried_round()
    ensures { CircuitsAreCarried }
{}

/// What `automaton` prints, with any margin and last generation, with a recorded run of fewer than
/// 2^64 events behind it, or with what `run` prints of it, is read as that run. What `observe K`
/// then writes has at each cell that has come to generation K the word of its synchronous state of
/// K, and `-` at each other cell and at the frame. Where eight neighbours are counted, a generation
/// is half a step.
pub fn colonies_are_observed()
    ensures traces { GenerationsAreTold }
    ensures runs { RunGenerationsAreTold }
{}

/// An automaton carried round. Without a margin or on a torus, what `observe` writes so for the
/// generation of K steps, which is K times the phases of the rule, has at each cell that has come
/// so far the word that `step K` writes there for the text of the automaton. Every name of a colony
/// is a cell's or the frame's.
pub fn automata_are_carried_round()
    ensures traces { TracesAreCarried }
    ensures runs { RunsAreCarried }
    ensures names { ColoniesAreOfCells }
{}

/// What `circuit` writes for an input is one text, whichever numbers the names of its circuit have.
pub fn circuits_have_one_text()
    ensures { OneText }
{}
