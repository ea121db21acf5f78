// Why a text is no circuit.
use surf_base::Text;
use surf_logic::CircuitError;
use thiserror::Error;

/// Why a text is no circuit: its first faulty line, counted from 1; else its cost, where that is
/// above 1,000; else what is wrong with its equations.
#[derive(Debug, Drop, Error)]
pub enum BlifError {
    /// This line has a directive of this name, which is not read.
    #[error("Unsupported")]
    Unsupported(u64, Text),
    /// This line has a byte that may not stand in it, or a `.names` of nothing, or is a row that
    /// follows no cover.
    #[error("BadLine")]
    BadLine(u64),
    /// This line is no row of its cover.
    #[error("BadCover")]
    BadCover(u64),
    /// This row's output is not that of its cover's first row.
    #[error("MixedCover")]
    MixedCover(u64),
    /// The equations are no circuit. It never holds want of memory.
    #[error("Circuit")]
    Circuit(CircuitError),
    /// The circuit costs so much.
    #[error("TooLarge")]
    TooLarge(u128),
    #[error("NoMemory")]
    NoMemory,
}
