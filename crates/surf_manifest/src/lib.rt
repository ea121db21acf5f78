//! Manifests: the grammar of their texts, the reader, and worlds over numbered names.
//!
//! `manifest_of` in specs/Grammar.antt says what a text means: a manifest, or its first fault.
//! [`read_manifest`] answers exactly that, in one pass, and want of memory alone besides. A
//! [`Manifest`] is well formed, and [`Manifest::into_world`] gives a world over numbers whose
//! names are those of the manifest.
#![tactic(auto)]

mod assembly;
mod draft;
mod interner;
mod laws;
mod manifest;
mod numbering;
mod reader;
mod reading;
mod rows;
mod worlds;

pub use laws::{read_is_well_formed, steps_are_grammar};
pub use manifest::Manifest;
pub use reader::read_manifest;
pub use surf_manifest_lines::{Block, ManifestError, OptionLine};
