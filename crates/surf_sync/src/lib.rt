//! Local synchronisation: the names and rules by which the cells of an automaton keep in step,
//! though each reads its neighbours one at a time and no two act at once.
//!
//! [`sync_rules`] answers the list of rules, and [`sync_rules_last`] that of a colony that ends
//! after so many steps; [`rule_count`] and [`rule_count_last`] say beforehand how many there are.
//! Each rule stands at its number, and [`sync_laws`] says that the list holds the reads and no
//! others. A cell is named by a [`Code`], which [`name_of`] spells and [`code_of`] reads.
#![tactic(auto)]

mod code;
mod laws;
mod naming;
mod phase;
mod pushing;
mod reading;
mod rules;
mod shapes;
mod table;

pub use code::{Code, code_of, frame_name, frame_of, name_of};
pub use laws::sync_laws;
pub use rules::{rule_count, rule_count_last, sync_rules, sync_rules_last};
