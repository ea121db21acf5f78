//! Layouts of circuits on a surface, and the theorem that they settle.
//!
//! `Layout` is a netlist and the kinds of the sites of a surface, and its type keeps the local law:
//! each site reads what its neighbours give, along slots of rising rank. From that law alone, and
//! the 122 rules, `Layout::events` promises that every run settles: it ends after that many events,
//! in one configuration, whose outputs show what the netlist computes.
#![tactic(auto)]

mod kind_byte;
mod laws;
mod layout;

pub use kind_byte::{KINDS, KindByte};
pub use laws::{law_forms, rule_texts};
pub use layout::Layout;
