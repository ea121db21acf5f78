// Why sides make no grid.
use thiserror::Error;

/// Why there is no grid of these sides.
#[derive(Clone, Copy, Debug, PartialEq, Eq, Error)]
pub enum GridError {
    /// A side is 0.
    #[error("Empty")]
    Empty,
    /// The sides are to be joined, and one is below 3.
    #[error("WrapSize")]
    WrapSize,
}
