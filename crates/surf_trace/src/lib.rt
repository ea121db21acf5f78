//! Traces: the events of a run as text.
//!
//! `put_event` writes exactly the line that `specs/Traces.antt` gives an event at its place in a run.
//! [`read_trace`] answers exactly the events that `trace_of` in `specs/TraceTexts.antt` gives a
//! text, or its first fault; by [`trace_is_read`] the text of a trace gives its events again.
//! [`replay`] takes events in a world, and answers which is the first that is not enabled at its
//! turn (`specs/Replays.antt`). [`observe`] reads the states of one generation off the events of
//! cells (`specs/Observations.antt`).
#![tactic(auto)]

mod block;
mod cells;
mod error;
mod event_line;
mod laws;
mod line;
mod observing;
mod sight;
mod split;
mod verdict;
mod watch;

pub use block::read_trace;
pub use error::{ObserveError, TraceError};
pub use laws::trace_is_read;
pub use line::put_event;
pub use observing::observe;
pub use split::manifest_part;
pub use verdict::{Verdict, replay};
