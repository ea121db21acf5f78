// Why an input is refused, and how a call of the program ended.
ghost use Rattle.std.specs.Prelude.{◌≡◌};
ghost use Rattle.surf_status.specs.Endings.{answer_to, answer_to_bits, answer_to_blif, answer_to_legend, answer_to_observe, answer_to_set, answer_to_source, answer_to_trace, status_of};

use surf_auto::SourceError;
use surf_base::WriteFault;
use surf_blif::BlifError;
use surf_inputs::SetError;
use surf_lattice::Site;
use surf_logic::EvalError;
use surf_manifest::ManifestError;
use surf_manifest_print::LegendError;
use surf_trace::{ObserveError, TraceError};

/// Why an input is refused. It never holds want of memory.
#[derive(Debug, Drop)]
pub enum Refusal {
    Manifest(ManifestError),
    Legend(LegendError),
    /// This is the site of the first output outside the surface.
    LegendSite(Site),
    Trace(TraceError),
    /// Some name is neither a cell's nor the frame's.
    NotCells,
    Blif(BlifError),
    /// There are so many bits, and the circuit has so many inputs.
    Bits { found: u64, wanted: u64 },
    /// The site of an input is outside, or holds something else than `?`.
    NotInput(Site),
    Source(SourceError),
}

/// How a call of the program ended.
#[derive(Debug, Drop)]
pub enum Status {
    /// The output was written whole.
    Done,
    /// The input was read whole, and it is not what the command asks for.
    Refused(Refusal),
    /// The words are no command. Nothing was read.
    Usage,
    /// The event of this number, from 1, is not enabled at its turn.
    NotEnabled(u64),
    ReadFault,
    /// A front of the output was written.
    WriteFault,
    NoMemory,
    /// The input has more than 268,435,456 bytes.
    TooLong,
}

impl Status {
    ghost use Rattle.surf_status.specs.Notes.{code_of};

    /// The exit status: 0 to 7 in the order of the variants.
    pub fn code(&self) -> u8
        ensures { result ≡ code_of self.now }
    {
        match self {
            Status::Done => 0,
            Status::Refused(_) => 1,
            Status::Usage => 2,
            Status::NotEnabled(_) => 3,
            Status::ReadFault => 4,
            Status::WriteFault => 5,
            Status::NoMemory => 6,
            Status::TooLong => 7,
        }
    }
}

/// How a command ends that wrote its text so.
pub fn ended(written: Result<(), WriteFault>) -> Status
    ensures { result ≡ status_of written }
{
    match written {
        Ok(()) => Status::Done,
        Err(WriteFault) => Status::WriteFault,
    }
}

/// The answer to a text that is no manifest.
pub fn refused(fault: ManifestError) -> Status
    ensures { result ≡ answer_to fault }
{
    match fault {
        ManifestError::NoMemory => Status::NoMemory,
        fault => Status::Refused(Refusal::Manifest(fault)),
    }
}

/// The answer to a text that has no legend.
pub fn refused_legend(fault: LegendError) -> Status
    ensures { result ≡ answer_to_legend fault }
{
    match fault {
        LegendError::NoMemory => Status::NoMemory,
        fault => Status::Refused(Refusal::Legend(fault)),
    }
}

/// The answer where inputs are not set.
pub fn refused_set(error: SetError) -> Status
    ensures { result ≡ answer_to_set error }
{
    match error {
        SetError::Length { found, wanted } => Status::Refused(Refusal::Bits { found, wanted }),
        SetError::NotInput(site) => Status::Refused(Refusal::NotInput(site)),
        SetError::NoMemory => Status::NoMemory,
    }
}

/// The answer to a text that has no trace.
pub fn refused_trace(fault: TraceError) -> Status
    ensures { result ≡ answer_to_trace fault }
{
    match fault {
        TraceError::NoMemory => Status::NoMemory,
        fault => Status::Refused(Refusal::Trace(fault)),
    }
}

/// The answer to a text that is no circuit.
pub fn refused_blif(error: BlifError) -> Status
    ensures { result ≡ answer_to_blif error }
{
    match error {
        BlifError::NoMemory => Status::NoMemory,
        error => Status::Refused(Refusal::Blif(error)),
    }
}

/// The answer where a circuit is not evaluated.
pub fn refused_bits(error: EvalError) -> Status
    ensures { result ≡ answer_to_bits error }
{
    match error {
        EvalError::Length { found, wanted } => Status::Refused(Refusal::Bits { found, wanted }),
        EvalError::NoMemory => Status::NoMemory,
    }
}

/// The answer to a text that is no automaton.
pub fn refused_source(error: SourceError) -> Status
    ensures { result ≡ answer_to_source error }
{
    match error {
        SourceError::NoMemory => Status::NoMemory,
        error => Status::Refused(Refusal::Source(error)),
    }
}

/// The answer where nothing is observed.
pub fn refused_observe(error: ObserveError) -> Status
    ensures { result ≡ answer_to_observe error }
{
    match error {
        ObserveError::NotCells => Status::Refused(Refusal::NotCells),
        ObserveError::NotEnabled(k) => Status::NotEnabled(k),
        ObserveError::NoMemory => Status::NoMemory,
    }
}
