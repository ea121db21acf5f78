// Why a text is no automaton.
use thiserror::Error;

/// Why a text is no automaton: the first faulty line, counted from 1, or the number that was found.
#[derive(Clone, Copy, Debug, PartialEq, Eq, Error)]
pub enum SourceError {
    /// A header that is none, or none at all: then the line after the last.
    #[error("BadHeader")]
    BadHeader(u64),
    /// A rule of another form.
    #[error("RuleForm")]
    RuleForm(u64),
    /// Sides of a torus that are 0, below those of the header's box, or no multiples of 5 (four
    /// or eight neighbours) or 7 (six).
    #[error("TorusSize")]
    TorusSize(u64),
    /// A side is 0.
    #[error("EmptyGrid")]
    EmptyGrid,
    /// The number of sites of the box with its margin, or of the torus, above 1,000,000.
    #[error("GridTooLarge")]
    GridTooLarge(u128),
    /// An item that is none.
    #[error("BadItem")]
    BadItem(u64),
    /// A live cell outside the box.
    #[error("OutOfBox")]
    OutOfBox(u64),
    /// A line of a table that is not the one expected there.
    #[error("BadTable")]
    BadTable(u64),
    /// The text ends too early.
    #[error("Unclosed")]
    Unclosed,
    /// The number of rules, above 1,048,576.
    #[error("TooManyRules")]
    TooManyRules(u128),
    #[error("NoMemory")]
    NoMemory,
}
