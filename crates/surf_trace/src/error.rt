// What is refused.
use thiserror::Error;

/// Why a text has no trace. Lines are counted from 1 over the whole text.
#[derive(Debug, Drop, Error)]
pub enum TraceError {
    /// No line opens a trace block.
    #[error("NoTrace")]
    NoTrace,
    /// This line is the first in the block that is no event at its place.
    #[error("BadTrace")]
    BadTrace(u64),
    /// The block that this line opens has no end.
    #[error("Unclosed")]
    Unclosed(u64),
    #[error("NoMemory")]
    NoMemory,
}

/// Why nothing is read off a run. Events are counted from 1.
#[derive(Debug, Drop, Error)]
pub enum ObserveError {
    /// Some name at a site or in a rule is neither a cell's nor the frame's.
    #[error("NotCells")]
    NotCells,
    /// This event is the first that is not enabled at its turn.
    #[error("NotEnabled")]
    NotEnabled(u64),
    #[error("NoMemory")]
    NoMemory,
}
