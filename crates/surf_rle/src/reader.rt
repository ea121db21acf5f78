// The reader of patterns.
ghost use Rattle.std.specs.Prelude.{◌≡◌, ℕ, ◌<◌, ◌≤◌, IfErr, IfOk, Ok, Some, false, length, slice_index};
ghost use Rattle.surf_auto.specs.Lines.{is_table};
ghost use Rattle.surf_auto.specs.Locals.{rule_count};
ghost use Rattle.surf_auto.specs.Sync.{box_of};
ghost use Rattle.surf_lattice.specs.Grids.{degree};
ghost use Rattle.surf_lattice.specs.declared.site.GridKind.TheVariants.{Square};
ghost use Rattle.surf_rle.specs.Drawings.{AreCells, IsPlaced};
ghost use Rattle.surf_rle.specs.Rle.{Refuses, box_read, if_header, rle_of, source_on};
ghost use Rattle.surf_rle.specs.RuleTexts.{counts_of_eight, counts_on, kind_of};
ghost use Rattle.surf_rle.specs.Said.{header_by, rule_by};
ghost use Rattle.surf_rle.specs.Sheets.{sheet_grid};
ghost use Rattle.surf_rle.specs.Sources.{edge_by, source_by, universe_of};
ghost use Rattle.surf_text.specs.Bytes.{lines_of};

use crate::Pattern;
use crate::cells::{check_box, read_cells};
use crate::header::{Header, read_header};
use crate::lines::AboveHeader;
use crate::rule::{Neighbours, RuleText, counts, few_counts};
use crate::sheet::{Sheet, sheet_of};
use crate::torus::{check_torus, read_header_rule};
use std::alloc::Global;
use surf_auto::{Automaton, CountLocal, Local, SourceError};
use surf_lattice::GridKind;
use surf_life::MooreLocal;
use surf_text::Lines;

// The cells that the next lines draw in a box.
fn read_box(alloc: Global, sheet: Sheet, lines: &mut Lines<'_>) -> Result<Vec<u32>, SourceError>
    requires placed { IsPlaced sheet }
    requires within { length lines.old.left ≤ 2147483648 }
    ensures ok { IfOk result
        (λ v. box_read lines.old.number sheet (lines_of lines.old.left) ≡ Ok v.items) }
    ensures refused { IfErr result
        (λ f. Refuses (box_read lines.old.number sheet (lines_of lines.old.left)) f) }
    ensures cells { IfOk result (λ v. AreCells sheet v.items) }
{
    check_box(&sheet)?;
    read_cells(alloc, sheet, lines)
}

// Cells of a rule on their grid, about which all is dead.
fn on_grid<L: Local>(sheet: Sheet, local: L, cells: Vec<u32>) -> Automaton<L>
    requires cells { AreCells sheet cells.items }
    requires same { (L.rule local).degree ≡ degree sheet.kind }
    requires states { (i : ℕ) → i < length cells.items
        → slice_index cells.items i < (L.rule local).states 0 }
    ensures grid { box_of result.kind result.wrap result.width result.height ≡ sheet_grid sheet }
    ensures edge { result.edge ≡ 0 }
    ensures cells { result.cells ≡ cells }
    ensures local { result.local ≡ local }
{
    // shows the proof that the rule keeps its ranges
    let _ = local.degree();
    Automaton {
        kind: sheet.kind,
        wrap: sheet.wrap,
        width: sheet.full_width as u32,
        height: sheet.full_height as u32,
        edge: 0,
        cells,
        local,
    }
}

// The number of directions of a grid.
fn degree_of(kind: GridKind) -> u32
    ensures { result ≡ degree kind }
{
    match kind {
        GridKind::Square => 4,
        GridKind::Hex => 6,
    }
}

// Cells that count the neighbours of their grid.
fn count_near(sheet: Sheet, rule: &RuleText<'_>, cells: Vec<u32>) -> Automaton<CountLocal>
    requires cells { AreCells sheet cells.items }
    ensures grid { box_of result.kind result.wrap result.width result.height ≡ sheet_grid sheet }
    ensures edge { result.edge ≡ 0 }
    ensures cells { result.cells ≡ cells }
    ensures local { result.local ≡ counts_on sheet.kind (rule_by rule.now) }
{
    let (birth, survival) = (few_counts(rule.birth), few_counts(rule.survival));
    let local = CountLocal::new(degree_of(sheet.kind), birth, survival);
    on_grid(sheet, local, cells)
}

// Cells that count eight neighbours.
fn count_eight(sheet: Sheet, rule: &RuleText<'_>, cells: Vec<u32>) -> Automaton<MooreLocal>
    requires cells { AreCells sheet cells.items }
    requires square { sheet.kind ≡ Square }
    ensures grid { box_of result.kind result.wrap result.width result.height ≡ sheet_grid sheet }
    ensures edge { result.edge ≡ 0 }
    ensures cells { result.cells ≡ cells }
    ensures local { result.local ≡ counts_of_eight (rule_by rule.now) }
{
    let local = MooreLocal::new(counts(rule.birth), counts(rule.survival));
    on_grid(sheet, local, cells)
}

// The pattern of cells on their grid, by the neighbours that the rule counts.
fn pattern_on(sheet: Sheet, rule: &RuleText<'_>, cells: Vec<u32>) -> Pattern
    requires cells { AreCells sheet cells.items }
    requires kind { sheet.kind ≡ kind_of rule.now.neighbours }
    ensures source { source_by result ≡ source_on sheet (rule_by rule.now) cells.items }
    ensures dead { edge_by result ≡ 0 }
    ensures few { rule_count (universe_of (source_by result)).rule ≤ 1048576 }
{
    match rule.neighbours {
        Neighbours::Eight => Pattern::Moore(count_eight(sheet, rule, cells)),
        _ => Pattern::Count(count_near(sheet, rule, cells)),
    }
}

// The grid on which so many neighbours are counted.
fn kind_of(neighbours: Neighbours) -> GridKind
    ensures { result ≡ kind_of neighbours }
{
    match neighbours {
        Neighbours::Four => GridKind::Square,
        Neighbours::Six => GridKind::Hex,
        Neighbours::Eight => GridKind::Square,
    }
}

// The pattern of a header on the last line, which the next lines draw.
fn read_pattern(
    alloc: Global,
    header: &Header<'_>,
    margin: u32,
    lines: &mut Lines<'_>,
) -> Result<Pattern, SourceError>
    requires within { length lines.old.left ≤ 2147483648 }
    ensures ok { IfOk result
        (λ p. if_header margin lines.old.number (Some (header_by header.now))
        (lines_of lines.old.left) ≡ Ok (source_by p)) }
    ensures refused { IfErr result
        (λ f. Refuses (if_header margin lines.old.number (Some (header_by header.now))
        (lines_of lines.old.left)) f) }
    ensures dead { IfOk result (λ p. edge_by p ≡ 0) }
    ensures few { IfOk result (λ p. rule_count (universe_of (source_by p)).rule ≤ 1048576) }
{
    let Some(spelled) = read_header_rule(header.rule) else {
        return Err(SourceError::RuleForm(lines.number()));
    };
    let kind = kind_of(spelled.rule.neighbours);
    check_torus(lines.number(), kind, header, spelled.torus)?;
    let sheet = sheet_of(margin, kind, header, spelled.torus);
    let cells = read_box(alloc, sheet, lines)?;
    Ok(pattern_on(sheet, &spelled.rule, cells))
}

/// The automaton of a pattern in RLE, of at most 2,147,483,648 bytes, or the text's first fault.
/// Its universe is the pattern's box with a margin of dead cells on each side, or the torus of its
/// rule.
///
/// One pass over the bytes. A count takes no time in proportion to itself.
pub fn read_rle(alloc: Global, bytes: &[u8], margin: u32) -> Result<Pattern, SourceError>
    requires small { margin ≤ 1000 }
    requires pattern { is_table bytes.now ≡ false }
    requires within { length bytes.now ≤ 2147483648 }
    ensures ok { IfOk result (λ p. rle_of margin bytes.now ≡ Ok (source_by p)) }
    ensures refused { IfErr result (λ f. Refuses (rle_of margin bytes.now) f) }
    ensures dead { IfOk result (λ p. edge_by p ≡ 0) }
    ensures few { IfOk result (λ p. rule_count (universe_of (source_by p)).rule ≤ 1048576) }
{
    let mut lines = Lines::new(bytes, 0);
    let Some(line) = lines.next_kept::<AboveHeader>() else {
        return Err(SourceError::BadHeader(lines.number() + 1));
    };
    let Some(header) = read_header(line) else {
        return Err(SourceError::BadHeader(lines.number()));
    };
    read_pattern(alloc, &header, margin, &mut lines)
}
