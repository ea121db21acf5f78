// Why a text is no manifest.
use thiserror::Error;

/// A block that every manifest has.
#[derive(Clone, Copy, Debug, PartialEq, Eq)]
pub enum Block {
    Rules,
    State,
}

/// Why a text is no manifest: the first faulty line, counted from 1, or the number that was found.
#[derive(Debug, Drop, Error)]
pub enum ManifestError {
    #[error("BadLine")]
    BadLine(u64),
    #[error("BadRule")]
    BadRule(u64),
    #[error("BadRate")]
    BadRate(u64),
    #[error("Ragged")]
    Ragged(u64),
    #[error("Include")]
    Include(u64),
    #[error("BlockTwice")]
    BlockTwice(u64),
    #[error("BadOption")]
    BadOption(u64),
    #[error("Unclosed")]
    Unclosed(u64),
    #[error("MissingBlock")]
    MissingBlock(Block),
    #[error("NoSites")]
    NoSites,
    #[error("TooManyRules")]
    TooManyRules(u64),
    #[error("TooManySites")]
    TooManySites(u64),
    #[error("WrapSize")]
    WrapSize,
    #[error("NoMemory")]
    NoMemory,
}
