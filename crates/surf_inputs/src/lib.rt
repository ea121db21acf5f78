//! Bits at the inputs of a surface.
//!
//! `set_inputs` puts bits at the sites that a legend names as inputs, exactly as `with_inputs` in
//! `specs/Inputs.antt` says, or answers the first fault, and then every site is as it was.
#![tactic(auto)]

mod inputs;

pub use inputs::{SetError, set_inputs};
