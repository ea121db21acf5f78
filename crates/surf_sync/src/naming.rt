// The numbers of all names of a colony: each name is spelled and looked up once.
ghost use Rattle.std.specs.Prelude.{◌≡◌, ◌+◌, ◌-◌, ◌*◌, ◌<◌, ◌≤◌, ◌^◌, IfOk, OnOk, [], ◌∷◌, length, map};
ghost use Rattle.std.specs.List.{flat_map};
ghost use Rattle.surf_auto.specs.Locals.{rule_count_in};
ghost use Rattle.surf_sync.specs.Codes.{WholeBy, fields_by, protocol};
ghost use Rattle.surf_sync.specs.Listing.{Keeps, Name, Numbers, marks_of, start_of, with_texts};
ghost use Rattle.surf_sync.specs.Moved.{all_texts, block_texts, frame_texts, generation_texts};
ghost use Rattle.surf_sync.specs.Rules.{below, turns_by};
ghost use Rattle.surf_sync.specs.Spelling.{spell};
ghost use Rattle.surf_sync.specs.Tables.{IsTable};

use crate::pushing::push;
use crate::reading::{field_count, phase_of};
use crate::shapes::phase_codes;
use crate::table::Table;
use crate::{Code, frame_name, name_of};
use std::alloc::Global;
use surf_auto::Local;
use surf_base::NoMemory;
use surf_rules::Names;

// Adds the number of a name.
fn push_number(names: &mut Names, numbers: &mut Vec<u32>, name: &[u8]) -> Result<(), NoMemory>
    requires room { length names.old < 2 ^ 32 - 1 }
    ensures numbers { OnOk result
        (Numbers names.old numbers.old.items (name.now ∷ []) names.new numbers.new.items) }
    ensures count { OnOk result (length numbers.new.items ≡ length numbers.old.items + 1) }
    ensures keeps { Keeps names.old names.new }
{
    let number = names.intern(name)?;
    push(numbers, number)?;
    Ok(())
}

// The names of the frame, by colour.
fn number_frame(
    alloc: Global,
    degree: u32,
    names: &mut Names,
    numbers: &mut Vec<u32>,
) -> Result<(), NoMemory>
    requires degree { degree ≤ 6 }
    requires room { length names.old + (degree + 1) < 2 ^ 32 }
    ensures numbers { let texts = frame_texts (degree + 1) in
        OnOk result (Numbers names.old numbers.old.items texts names.new numbers.new.items) }
    ensures count { OnOk result
        (length numbers.new.items ≡ length numbers.old.items + (degree + 1)) }
    ensures keeps { Keeps names.old names.new }
{
    for colour in 0..degree + 1 {
        let name = frame_name(alloc, colour)?;
        push_number(names, numbers, &name)?;
    }
    Ok(())
}

// The names of the cells of one generation and colour.
fn number_block(
    alloc: Global,
    codes: &[Code],
    generation: u32,
    colour: u32,
    names: &mut Names,
    numbers: &mut Vec<u32>,
) -> Result<(), NoMemory>
    requires room { length names.old + length codes.now < 2 ^ 32 }
    ensures numbers { let texts = block_texts codes.now generation colour in
        OnOk result (Numbers names.old numbers.old.items texts names.new numbers.new.items) }
    ensures count { OnOk result
        (length numbers.new.items ≡ length numbers.old.items + length codes.now) }
    ensures keeps { Keeps names.old names.new }
{
    for code in codes {
        let moved = Code {
            current: code.current,
            generation,
            colour,
            previous: code.previous,
            reads: code.reads,
            acc: code.acc,
        };
        let name = name_of(alloc, &moved)?;
        push_number(names, numbers, &name)?;
    }
    Ok(())
}

// The names of the cells of one generation, by colour.
fn number_generation(
    alloc: Global,
    codes: &[Code],
    generation: u32,
    degree: u32,
    names: &mut Names,
    numbers: &mut Vec<u32>,
) -> Result<(), NoMemory>
    requires degree { degree ≤ 6 }
    requires room { length names.old + (degree + 1) * length codes.now < 2 ^ 32 }
    ensures numbers { let texts = generation_texts codes.now generation (degree + 1) in
        OnOk result (Numbers names.old numbers.old.items texts names.new numbers.new.items) }
    ensures count { OnOk result
        (length numbers.new.items ≡ length numbers.old.items + (degree + 1) * length codes.now) }
    ensures keeps { Keeps names.old names.new }
{
    for colour in 0..degree + 1 {
        number_block(alloc, codes, generation, colour, names, numbers)?;
    }
    Ok(())
}

// The names of all cells, by generation, and where each generation begins.
fn number_cells<L: Local>(
    alloc: Global,
    local: &L,
    generations: u32,
    names: &mut Names,
    numbers: &mut Vec<u32>,
) -> Result<Vec<usize>, NoMemory>
    requires room { length names.old + length (all_texts (L.rule local.now) generations) < 2 ^ 32 }
    ensures numbers { let texts = all_texts (L.rule local.now) generations in
        OnOk result (Numbers names.old numbers.old.items texts names.new numbers.new.items) }
    ensures starts { let before = length numbers.old.items in
        IfOk result (λ v. v.items
        ≡ map (λ g. before + length (all_texts (L.rule local.now) g)) (below generations)) }
    ensures count { let texts = all_texts (L.rule local.now) generations in
        OnOk result (length numbers.new.items ≡ length numbers.old.items + length texts) }
    ensures keeps { Keeps names.old names.new }
{
    let mut starts = Vec::new(alloc);
    for generation in 0..generations {
        push(&mut starts, numbers.len())?;
        let codes = phase_codes(alloc, local, phase_of(local, generation))?;
        number_generation(alloc, &codes, generation, local.degree(), names, numbers)?;
    }
    Ok(starts)
}

/// Numbers all names of a colony.
pub fn number_names<L: Local>(
    alloc: Global,
    local: &L,
    last: Option<u32>,
    names: &mut Names,
) -> Result<Table, NoMemory>
    requires whole { WholeBy last (L.rule local.now).phases }
    requires turns { 0 < turns_by last (L.rule local.now).phases }
    requires small { fields_by last (L.rule local.now).phases < 2 ^ 32 }
    requires few { let R = L.rule local.now in
        rule_count_in (turns_by last R.phases) R ≤ 1048576 }
    requires room { length names.old ≤ 2147483648 }
    ensures table { IfOk result (IsTable (protocol (L.rule local.now) 0 last)) }
    ensures named { let P = protocol (L.rule local.now) 0 last in
        IfOk result (λ t. Name names.new t.numbers.items (map spell (marks_of P))) }
    ensures names { let P = protocol (L.rule local.now) 0 last in
        OnOk result (names.new ≡ with_texts names.old (map spell (marks_of P))) }
    ensures keeps { Keeps names.old names.new }
{
    let degree = local.degree();
    let generations = field_count(local.phases(), last);
    let mut numbers = Vec::new(alloc);
    number_frame(alloc, degree, names, &mut numbers)?;
    let starts = number_cells(alloc, local, generations, names, &mut numbers)?;
    Ok(Table { numbers, starts })
}
