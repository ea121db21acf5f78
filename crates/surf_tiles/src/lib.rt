//! What compiled circuits are made of: gates, kinds of sites, tiles and rules.
//!
//! `Netlist` is gates of at most two inputs, in an order in which each uses lower nets only; what it
//! computes is a definition, `net_meaning`. `Kind` says what a site is for, `kind_name` gives the
//! name that it begins with and `changes` how often a run changes it. `sites` gives the nine sites
//! of a `Tile`. `circuit_rules` answers the 122 rules, the same ones for every circuit: a list of
//! reactions, each of which reads one value.
#![tactic(auto)]

mod kind;
mod laws;
mod list;
mod netlist;
mod reaction;
mod rules;
mod state;
mod tile;

pub use kind::{Kind, changes, kind_name};
pub use laws::rule_table;
pub use netlist::{Gate, Netlist};
pub use reaction::Reaction;
pub use rules::circuit_rules;
pub use state::{Port, State};
pub use tile::{Heading, Ports, Tile, sites};
