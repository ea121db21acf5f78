// The rules of the readers of one phase.
ghost use Rattle.std.specs.Prelude.{◌≡◌, ℕ, suc, ◌*◌, ◌+◌, ◌<◌, ◌≤◌, IfOk, OnOk, List, ◌∷◌, ◌++◌, [], None, Some, length, map, slice_get, slice_index};
ghost use Rattle.std.specs.List.{flat_map};
ghost use Rattle.surf_auto.specs.Locals.{code_count, preceding, sum_below};
ghost use Rattle.surf_sync.specs.Numbering.{code_number};
ghost use Rattle.surf_sync.specs.Codes.Mark.{Cell};
ghost use Rattle.surf_sync.specs.Codes.{IsCode, OpenBy, Protocol, fields_by, phase, protocol, read};
ghost use Rattle.surf_sync.specs.Listing.{Adds, Name};
ghost use Rattle.surf_sync.specs.Moved.{moved};
ghost use Rattle.surf_sync.specs.Phases.{AreListed, IsPhase, Knows, NamesAll, StandFrom, colour_rules, current_rules, read_by, reads_of, row_rules, state_of, turn_rules};
ghost use Rattle.surf_sync.specs.Rules.{below, rules_of, turns_by};
ghost use Rattle.surf_sync.specs.Spelling.{spell};
ghost use Rattle.surf_sync.specs.Tables.{IsTable};
ghost use Rattle.surf_sync.specs.declared.code.Code.{Code};
ghost use Rattle.surf_world.specs.Worlds.{rule_of};

use crate::Code;
use crate::pushing::push;
use crate::reading::{colour_beside, next_generation, phase_before, phase_of, read};
use crate::shapes::push_previous;
use crate::table::Table;
use std::alloc::Global;
use surf_auto::Local;
use surf_base::NoMemory;
use surf_rules::Rule;

// The rate of every rule, which is 1, in millionths.
const RATE: u64 = 1_000_000;

/// What a reader sees of a cell: its state, or that of one generation before where it is one ahead.
#[derive(Clone, Copy, Debug, PartialEq, Eq)]
pub enum Shown {
    Current,
    Previous,
}

fn state_of(shown: Shown, code: &Code) -> u32
    ensures { result ≡ state_of shown code.now }
{
    match shown {
        Shown::Current => code.current,
        Shown::Previous => code.previous,
    }
}

fn read_rule(left: u32, right: u32, after: u32) -> Rule
    ensures { rule_of result ≡ read_by left right after }
{
    Rule {
        rate: RATE,
        left,
        right: Some(right),
        left_after: after,
        right_after: Some(right),
    }
}

// Adds the rules by which a reader reads these codes, whose numbers stand from `start` on.
fn push_reads(
    out: &mut Vec<Rule>,
    left: u32,
    afters: &[u32],
    numbers: &[u32],
    start: usize,
    codes: &[Code],
    shown: Shown,
) -> Result<(), NoMemory>
    requires room { start + length codes.now ≤ length numbers.now }
    requires states { (i : ℕ) (c : Code) → slice_get codes.now i ≡ Some c →
        state_of shown c < length afters.now }
    ensures { OnOk result ((texts : List (List ℕ)) (P : Protocol) (reader : Code) (g k : ℕ) →
        Knows texts P reader left afters.now →
        StandFrom texts numbers.now start (map (moved g k) codes.now) →
        Adds texts out.old.items (reads_of P reader shown g k codes.now) out.new.items) }
{
    for i in 0..codes.len() {
        let after = afters[state_of(shown, &codes[i]) as usize];
        push(out, read_rule(left, numbers[start + i], after))?;
    }
    Ok(())
}

// The number of pairs of fewer reads and what was gathered by them.
fn place_count<L: Local>(local: &L, phase: u32, reads: u32) -> u32
    requires phase { phase < (L.rule local.now).phases }
    requires reads { reads ≤ (L.rule local.now).degree }
    ensures count { result ≡ sum_below ((L.rule local.now).accs phase) reads }
    ensures few { result ≤ 2048 * reads }
{
    // shows the proof that each is small
    let _degree = local.degree();
    let mut count = 0;
    for before in 0..reads {
        count += local.accs(phase, before);
    }
    count
}

/// The number of codes of a phase, generation and colour.
pub fn code_count<L: Local>(local: &L, phase: u32) -> u32
    requires { phase < (L.rule local.now).phases }
    ensures { result ≡ code_count (L.rule local.now) phase }
{
    let places = place_count(local, phase, local.degree());
    local.states(phase) * local.states(phase_before(local, phase)) * places
}

// The place of a code among those of its phase, generation and colour.
fn code_number<L: Local>(local: &L, phase: u32, code: &Code) -> u32
    requires phase { phase < (L.rule local.now).phases }
    requires current { code.now.current < (L.rule local.now).states phase }
    requires previous { let R = L.rule local.now in
        code.now.previous < R.states (preceding R.phases phase) }
    requires reads { code.now.reads < (L.rule local.now).degree }
    requires acc { code.now.acc < (L.rule local.now).accs phase code.now.reads }
    ensures { result ≡ code_number (protocol (L.rule local.now) 0 None) phase code.now }
{
    let places = place_count(local, phase, local.degree());
    let states = local.states(phase_before(local, phase));
    let read = place_count(local, phase, code.reads) + code.acc;
    (code.current * states + code.previous) * places + read
}

// The number of a code's name.
fn number_at<L: Local>(local: &L, last: Option<u32>, table: &Table, code: &Code) -> u32
    requires table { IsTable (protocol (L.rule local.now) 0 last) table.now }
    requires code { IsCode (L.rule local.now) last code.now }
    ensures { (texts : List (List ℕ)) →
        NamesAll (protocol (L.rule local.now) 0 last) texts table.now →
        slice_get texts result ≡ Some (spell (Cell code.now)) }
{
    let phase = phase_of(local, code.generation);
    let start = table.starts[code.generation as usize];
    let block = code.colour as usize * code_count(local, phase) as usize;
    table.numbers[start + block + code_number(local, phase, code) as usize]
}

// Where the codes of a generation and colour begin, of which there are so many.
fn block_start(table: &Table, count: usize, generation: u32, colour: u32) -> usize
    requires listed { generation < length table.now.starts.items }
    requires room { let t = table.now in
        slice_index t.starts.items generation + colour * count ≤ length t.numbers.items }
    ensures { result ≡ slice_index table.now.starts.items generation + colour * count }
{
    table.starts[generation as usize] + colour as usize * count
}

/// What the rules of the readers of one phase are made of.
pub struct Phase<'a, L: Local> {
    pub local: &'a L,
    pub edge: u32,
    /// The last generation, if one is stated.
    pub last: Option<u32>,
    pub table: &'a Table,
    pub number: u32,
    /// The codes of the phase and of the one after it, of generation and colour 0.
    pub codes: &'a [Code],
    pub next: &'a [Code],
}

impl<L: Local> Drop for Phase<'_, L> {
    fn drop(self) {
        let Phase {
            local: _,
            edge: _,
            last: _,
            table: _,
            number: _,
            codes: _,
            next: _,
        } = self;
    }
}

// By each state that a reader may see, the number of what it becomes.
fn number_afters<L: Local>(
    alloc: Global,
    stage: &Phase<'_, L>,
    reader: &Code,
) -> Result<Vec<u32>, NoMemory>
    requires stands { let s = stage.now in let P = protocol (L.rule s.local.now) s.edge s.last in
        IsPhase P s.number s.table.now s.codes.now s.next.now }
    requires reader { IsCode (L.rule stage.now.local.now) stage.now.last reader.now }
    requires opened { OpenBy stage.now.last reader.now.generation }
    requires number { let s = stage.now in
        phase (L.rule s.local.now) reader.now.generation ≡ s.number }
    ensures count { let s = stage.now in
        IfOk result (λ v. length v.items ≡ (L.rule s.local.now).states s.number) }
    ensures named { let s = stage.now in let P = protocol (L.rule s.local.now) s.edge s.last in
        IfOk result (λ v. (texts : List (List ℕ)) → NamesAll P texts s.table.now →
        Name texts v.items
        (map (λ v. spell (Cell (read P reader.now v))) (below (length v.items)))) }
{
    let mut afters = Vec::new(alloc);
    for state in 0..stage.local.states(stage.number) {
        let after = read(stage.local, stage.last, reader, state);
        push(
            &mut afters,
            number_at(stage.local, stage.last, stage.table, &after),
        )?;
    }
    Ok(afters)
}

// Adds the rules of one reader.
fn push_reader<L: Local>(
    alloc: Global,
    out: &mut Vec<Rule>,
    stage: &Phase<'_, L>,
    reader: &Code,
) -> Result<(), NoMemory>
    requires stands { let s = stage.now in let P = protocol (L.rule s.local.now) s.edge s.last in
        IsPhase P s.number s.table.now s.codes.now s.next.now }
    requires reader { IsCode (L.rule stage.now.local.now) stage.now.last reader.now }
    requires opened { OpenBy stage.now.last reader.now.generation }
    requires number { let s = stage.now in
        phase (L.rule s.local.now) reader.now.generation ≡ s.number }
    ensures { let s = stage.now in let P = protocol (L.rule s.local.now) s.edge s.last in
        OnOk result ((texts : List (List ℕ)) → NamesAll P texts s.table.now →
        Adds texts out.old.items (rules_of P s.number reader.now) out.new.items) }
{
    let local = stage.local;
    let numbers = stage.table.numbers.as_slice();
    let colour = colour_beside(local.degree(), reader.colour, reader.reads);
    let left = number_at(local, stage.last, stage.table, reader);
    let afters = number_afters(alloc, stage, reader)?;
    push(
        out,
        read_rule(left, numbers[colour as usize], afters[stage.edge as usize]),
    )?;
    let generation = reader.generation;
    let start = block_start(stage.table, stage.codes.len(), generation, colour);
    push_reads(
        out,
        left,
        &afters,
        numbers,
        start,
        stage.codes,
        Shown::Current,
    )?;
    let generation = next_generation(local.phases(), stage.last, generation);
    let start = block_start(stage.table, stage.next.len(), generation, colour);
    push_reads(
        out,
        left,
        &afters,
        numbers,
        start,
        stage.next,
        Shown::Previous,
    )?;
    Ok(())
}

// Adds the rules of the readers of one generation and colour.
fn push_row<L: Local>(
    alloc: Global,
    out: &mut Vec<Rule>,
    stage: &Phase<'_, L>,
    row: &[Code],
    generation: u32,
    colour: u32,
) -> Result<(), NoMemory>
    requires stands { let s = stage.now in let P = protocol (L.rule s.local.now) s.edge s.last in
        IsPhase P s.number s.table.now s.codes.now s.next.now }
    requires row { let s = stage.now in let P = protocol (L.rule s.local.now) s.edge s.last in
        AreListed P s.number row.now }
    requires listed { generation < fields_by stage.now.last (L.rule stage.now.local.now).phases }
    requires opened { OpenBy stage.now.last generation }
    requires number { phase (L.rule stage.now.local.now) generation ≡ stage.now.number }
    requires colour { colour < suc (L.rule stage.now.local.now).degree }
    ensures { let s = stage.now in let P = protocol (L.rule s.local.now) s.edge s.last in
        OnOk result ((texts : List (List ℕ)) → NamesAll P texts s.table.now →
        Adds texts out.old.items (row_rules P s.number row.now generation colour) out.new.items) }
{
    for code in row {
        let reader = Code {
            current: code.current,
            generation,
            colour,
            previous: code.previous,
            reads: code.reads,
            acc: code.acc,
        };
        push_reader(alloc, out, stage, &reader)?;
    }
    Ok(())
}

// Adds the rules of the readers of one generation.
fn push_colours<L: Local>(
    alloc: Global,
    out: &mut Vec<Rule>,
    stage: &Phase<'_, L>,
    row: &[Code],
    generation: u32,
) -> Result<(), NoMemory>
    requires stands { let s = stage.now in let P = protocol (L.rule s.local.now) s.edge s.last in
        IsPhase P s.number s.table.now s.codes.now s.next.now }
    requires row { let s = stage.now in let P = protocol (L.rule s.local.now) s.edge s.last in
        AreListed P s.number row.now }
    requires listed { generation < fields_by stage.now.last (L.rule stage.now.local.now).phases }
    requires opened { OpenBy stage.now.last generation }
    requires number { phase (L.rule stage.now.local.now) generation ≡ stage.now.number }
    ensures { let s = stage.now in let P = protocol (L.rule s.local.now) s.edge s.last in
        OnOk result ((texts : List (List ℕ)) → NamesAll P texts s.table.now →
        Adds texts out.old.items (colour_rules P s.number row.now generation) out.new.items) }
{
    for colour in 0..stage.local.degree() + 1 {
        push_row(alloc, out, stage, row, generation, colour)?;
    }
    Ok(())
}

/// How many generations of one phase readers have: three are told apart, or there are so many.
pub fn turn_count(phases: u32, last: Option<u32>) -> u32
    requires { 1 ≤ phases }
    ensures { result ≡ turns_by last phases }
{
    match last {
        None => 3,
        Some(last) => last / phases,
    }
}

// Adds the rules of the readers of one state.
fn push_turns<L: Local>(
    alloc: Global,
    out: &mut Vec<Rule>,
    stage: &Phase<'_, L>,
    row: &[Code],
) -> Result<(), NoMemory>
    requires stands { let s = stage.now in let P = protocol (L.rule s.local.now) s.edge s.last in
        IsPhase P s.number s.table.now s.codes.now s.next.now }
    requires row { let s = stage.now in let P = protocol (L.rule s.local.now) s.edge s.last in
        AreListed P s.number row.now }
    ensures { let s = stage.now in let P = protocol (L.rule s.local.now) s.edge s.last in
        OnOk result ((texts : List (List ℕ)) → NamesAll P texts s.table.now →
        Adds texts out.old.items (turn_rules P s.number row.now) out.new.items) }
{
    // shows the proof that there is a phase
    let _degree = stage.local.degree();
    let phases = stage.local.phases();
    for turn in 0..turn_count(phases, stage.last) {
        push_colours(alloc, out, stage, row, turn * phases + stage.number)?;
    }
    Ok(())
}

/// Adds the rules of all readers of the phase.
pub fn push_phase<L: Local>(
    alloc: Global,
    out: &mut Vec<Rule>,
    stage: &Phase<'_, L>,
) -> Result<(), NoMemory>
    requires { let s = stage.now in let P = protocol (L.rule s.local.now) s.edge s.last in
        IsPhase P s.number s.table.now s.codes.now s.next.now }
    ensures { let s = stage.now in let P = protocol (L.rule s.local.now) s.edge s.last in
        OnOk result ((texts : List (List ℕ)) → NamesAll P texts s.table.now →
        Adds texts out.old.items (current_rules P s.number) out.new.items) }
{
    for current in 0..stage.local.states(stage.number) {
        let mut row = Vec::new(alloc);
        push_previous(&mut row, stage.local, stage.number, current)?;
        push_turns(alloc, out, stage, &row)?;
    }
    Ok(())
}
