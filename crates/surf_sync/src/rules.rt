// The list of rules of a colony.
ghost use Rattle.std.specs.Prelude.{◌≡◌, ℕ, ◌*◌, ◌<◌, ◌≤◌, ◌^◌, IfOk, List, None, OnOk, Option, Some, length, map};
ghost use Rattle.surf_auto.specs.Locals.{reader_count, rule_count, rule_count_in, sight_count};
ghost use Rattle.surf_sync.specs.Codes.{WholeBy, fields_by, protocol};
ghost use Rattle.surf_sync.specs.Listing.{Adds, Keeps, Say, marks_of, with_texts};
ghost use Rattle.surf_sync.specs.Phases.{NamesAll};
ghost use Rattle.surf_sync.specs.Rules.{sync_rules, turns_by};
ghost use Rattle.surf_sync.specs.Spelling.{spell};
ghost use Rattle.surf_sync.specs.Tables.{IsTable};

use crate::naming::number_names;
use crate::phase::{Phase, code_count, push_phase, turn_count};
use crate::reading::phase_after;
use crate::shapes::phase_codes;
use crate::table::Table;
use std::alloc::Global;
use surf_auto::Local;
use surf_base::NoMemory;
use surf_rules::{Names, Rule};

// The number of rules of the readers of a phase.
fn phase_rules<L: Local>(local: &L, turns: u32, phase: u32) -> u128
    requires { phase < (L.rule local.now).phases }
    ensures count { let R = L.rule local.now in
        result ≡ reader_count turns R phase * sight_count R phase }
    ensures few { result < 2 ^ 102 }
{
    let colours = u128::from(local.degree()) + 1;
    let codes = u128::from(code_count(local, phase));
    let next = u128::from(code_count(local, phase_after(local, phase)));
    u128::from(turns) * colours * codes * (1 + codes + next)
}

// The number of rules where readers have so many generations of each phase.
fn count_rules<L: Local>(local: &L, turns: u32) -> u128
    ensures { result ≡ rule_count_in turns (L.rule local.now) }
{
    // shows the proof that the phases are few
    let _degree = local.degree();
    let mut count = 0;
    for phase in 0..local.phases() {
        count += phase_rules(local, turns, phase);
    }
    count
}

/// The number of rules of a colony. Takes no memory.
pub fn rule_count<L: Local>(local: &L, degree: u32) -> u128
    requires { degree ≡ (L.rule local.now).degree }
    ensures { result ≡ rule_count (L.rule local.now) }
{
    count_rules(local, 3)
}

/// The number of rules of a colony that ends after so many steps. Takes no memory.
pub fn rule_count_last<L: Local>(local: &L, degree: u32, last: u32) -> u128
    requires { degree ≡ (L.rule local.now).degree }
    ensures { result ≡ rule_count_in last (L.rule local.now) }
{
    count_rules(local, last)
}

// Adds the rules of the readers of all phases.
fn push_phases<L: Local>(
    alloc: Global,
    out: &mut Vec<Rule>,
    local: &L,
    edge: u32,
    last: Option<u32>,
    table: &Table,
) -> Result<(), NoMemory>
    requires edge { (f : ℕ) → f < (L.rule local.now).phases → edge < (L.rule local.now).states f }
    requires whole { WholeBy last (L.rule local.now).phases }
    requires small { fields_by last (L.rule local.now).phases < 2 ^ 32 }
    requires table { IsTable (protocol (L.rule local.now) 0 last) table.now }
    ensures { let P = protocol (L.rule local.now) edge last in
        OnOk result ((texts : List (List ℕ)) → NamesAll P texts table.now →
        Adds texts out.old.items (sync_rules P) out.new.items) }
{
    for phase in 0..local.phases() {
        let codes = phase_codes(alloc, local, phase)?;
        let next = phase_codes(alloc, local, phase_after(local, phase))?;
        let stage = Phase {
            local,
            edge,
            last,
            table,
            number: phase,
            codes: &codes,
            next: &next,
        };
        push_phase(alloc, out, &stage)?;
    }
    Ok(())
}

// The rules with this last generation, if one is stated. Each name is numbered once.
fn write_rules<L: Local>(
    alloc: Global,
    local: &L,
    edge: u32,
    last: Option<u32>,
    names: &mut Names,
) -> Result<Vec<Rule>, NoMemory>
    requires edge { (f : ℕ) → f < (L.rule local.now).phases → edge < (L.rule local.now).states f }
    requires whole { WholeBy last (L.rule local.now).phases }
    requires turns { 0 < turns_by last (L.rule local.now).phases }
    requires small { fields_by last (L.rule local.now).phases < 2 ^ 32 }
    requires few { let R = L.rule local.now in
        rule_count_in (turns_by last R.phases) R ≤ 1048576 }
    requires room { length names.old ≤ 2147483648 }
    ensures rules { let P = protocol (L.rule local.now) edge last in
        IfOk result (λ v. Say names.new v.items (sync_rules P)) }
    ensures names { let P = protocol (L.rule local.now) 0 last in
        OnOk result (names.new ≡ with_texts names.old (map spell (marks_of P))) }
    ensures keeps { Keeps names.old names.new }
{
    let table = number_names(alloc, local, last, names)?;
    // shows the proof that there is a phase
    let _degree = local.degree();
    let count = count_rules(local, turn_count(local.phases(), last)) as usize;
    let mut rules = Vec::with_capacity(alloc, count).map_err(|_| NoMemory)?;
    push_phases(alloc, &mut rules, local, edge, last, &table)?;
    Ok(rules)
}

/// The rules of a colony of this local rule and edge state, each at its number. Names that were
/// there keep their numbers; those of the colony go last, where they are new. On `NoMemory` some
/// names may have been added.
///
/// Each name is spelled and looked up once, and the list of rules is reserved once.
pub fn sync_rules<L: Local>(
    alloc: Global,
    local: &L,
    edge: u32,
    degree: u32,
    names: &mut Names,
) -> Result<Vec<Rule>, NoMemory>
    requires degree { degree ≡ (L.rule local.now).degree }
    requires edge { (f : ℕ) → f < (L.rule local.now).phases → edge < (L.rule local.now).states f }
    requires few { rule_count (L.rule local.now) ≤ 1048576 }
    requires room { length names.old ≤ 2147483648 }
    ensures rules { let P = protocol (L.rule local.now) edge None in
        IfOk result (λ v. Say names.new v.items (sync_rules P)) }
    ensures names { let P = protocol (L.rule local.now) 0 None in
        OnOk result (names.new ≡ with_texts names.old (map spell (marks_of P))) }
    ensures keeps { Keeps names.old names.new }
{
    // shows the proof that the phases are few
    let _degree = local.degree();
    write_rules(alloc, local, edge, None, names)
}

/// The same for a colony that ends after so many steps, from 1 to 1,000,000.
pub fn sync_rules_last<L: Local>(
    alloc: Global,
    local: &L,
    edge: u32,
    degree: u32,
    last: u32,
    names: &mut Names,
) -> Result<Vec<Rule>, NoMemory>
    requires degree { degree ≡ (L.rule local.now).degree }
    requires edge { (f : ℕ) → f < (L.rule local.now).phases → edge < (L.rule local.now).states f }
    requires some { 1 ≤ last }
    requires limit { last ≤ 1000000 }
    requires few { rule_count_in last (L.rule local.now) ≤ 1048576 }
    requires room { length names.old ≤ 2147483648 }
    ensures rules { let R = L.rule local.now in
        let P = protocol R edge (Some (last * R.phases)) in
        IfOk result (λ v. Say names.new v.items (sync_rules P)) }
    ensures names { let R = L.rule local.now in
        let P = protocol R 0 (Some (last * R.phases)) in
        OnOk result (names.new ≡ with_texts names.old (map spell (marks_of P))) }
    ensures keeps { Keeps names.old names.new }
{
    // shows the proof that the phases are few
    let _degree = local.degree();
    let generations = last * local.phases();
    write_rules(alloc, local, edge, Some(generations), names)
}
