// Why a text has no legend.
use thiserror::Error;

/// Why a text has no legend. Lines are counted from 1.
#[derive(Debug, Drop, Error)]
pub enum LegendError {
    /// This line is the first that begins with `# surf` and is no line of a legend at its place.
    #[error("BadLegend")]
    BadLegend(u64),
    /// No line tells the number of events.
    #[error("NoLegend")]
    NoLegend,
    #[error("NoMemory")]
    NoMemory,
}
