//! Models within models: what models that place each other stand for.
//!
//! `specs/Designs.antt` says how items unfold into a tree, `specs/Substituted.antt` what a tree
//! stands for, and `specs/Faults.antt` which faults models have.
#![tactic(auto)]

mod checks;
mod error;
mod groups;
mod laws;
mod library;
mod models;
mod places;
mod recursion;
mod search;
mod texts;
mod works;

pub use error::FlattenError;
pub use laws::{cost_laws, substitution_laws};
pub use models::{Bind, Cover, Item, Model, Placing};
