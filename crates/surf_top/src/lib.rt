//! The program as one call.
//!
//! `surf` reads its words and its input, has the command carried out that they spell, and notes why
//! it did not end well. Its contract says which text each command writes, when each answer comes and
//! what it leaves, over any source and sinks. What each command promises stands in its own crate;
//! `call_of` in `specs/Outputs.antt` names them, and `specs/Answers.antt` says when each answer
//! comes.
#![tactic(auto)]

mod job;
mod top;

pub use job::Job;
pub use surf_status::{Refusal, Status, note};
pub use top::surf;
