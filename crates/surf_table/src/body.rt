// The lines behind the weights.
ghost use Rattle.std.specs.Prelude.{◌≡◌, ◌≤◌, ◌<◌, ◌^◌, ◌+◌, ◌*◌, ◌++◌, IfErr, IfOk, Ok, [], replicate, if◌then◌else◌};
ghost use Rattle.surf_text.specs.Bytes.{tokens_of};
ghost use Rattle.surf_table.specs.TableLines.{end_line, row_line};
ghost use Rattle.surf_table.specs.TableTexts.{Refuses, read, read_all, read_cells, read_next, read_size, row_lines, widened};
ghost use Rattle.surf_table.specs.Readings.{all_kept_with, each_kept_with};

use crate::lines::Lines;
use crate::numbers::{read_next_states, read_numbers};
use crate::words::size_line;
use std::alloc::Global;
use surf_auto::SourceError;
use surf_base::NoMemory;
use surf_text::next_token;

/// The next states of all own states in order, one for each sum.
pub(crate) fn read_next(
    alloc: Global,
    lines: &mut Lines<'_>,
    sums: u32,
    states: u32,
) -> Result<Vec<u32>, SourceError>
    ensures ok { IfOk result
        (λ next. read_next sums states lines.old ≡ Ok (next.items, lines.new)) }
    ensures refused { IfErr result (λ f. Refuses (read_next sums states lines.old) f) }
{
    let mut next = Vec::new(alloc);
    for own in 0..states {
        read_next_states(&mut next, lines, own, sums, states)?;
    }
    Ok(next)
}

/// The width and the height, which fit with a margin of at most 1,000 round them.
pub(crate) fn read_size(lines: &mut Lines<'_>, margin: u32) -> Result<(u32, u32), SourceError>
    requires { margin ≤ 1000 }
    ensures ok { IfOk result
        (λ size. read_size margin lines.old ≡ Ok ((size.0, size.1), lines.new)) }
    ensures refused { IfErr result (λ f. Refuses (read_size margin lines.old) f) }
{
    let Some(line) = lines.next() else {
        return Err(SourceError::Unclosed);
    };
    let Some((width, height)) = size_line(line.words) else {
        return Err(SourceError::BadTable(line.number));
    };
    if width == 0 || height == 0 {
        return Err(SourceError::EmptyGrid);
    }
    let margins = 2 * u128::from(margin);
    let sites = (u128::from(width) + margins) * (u128::from(height) + margins);
    if sites > 1_000_000 {
        return Err(SourceError::GridTooLarge(sites));
    }
    Ok((width, height))
}

// Appends so many cells of the edge state.
fn add_edge(cells: &mut Vec<u32>, count: u32, edge: u32) -> Result<(), NoMemory>
    ensures { IfOk result (λ _. cells.new.items ≡ cells.old.items ++ replicate count edge) }
{
    let end = cells.len() + count as usize;
    cells.resize(end, edge).map_err(|_| NoMemory)
}

// Appends the next row with the margin at its ends.
fn add_row(
    cells: &mut Vec<u32>,
    lines: &mut Lines<'_>,
    width: u32,
    states: u32,
    margin: u32,
    edge: u32,
) -> Result<(), SourceError>
    ensures ok { IfOk result
        (λ _. each_kept_with (widened margin edge) cells.old.items
        (read (row_line states width) lines.old) ≡ Ok (cells.new.items, lines.new)) }
    ensures refused { IfErr result (λ f. Refuses (read (row_line states width) lines.old) f) }
{
    add_edge(cells, margin, edge).map_err(|_| SourceError::NoMemory)?;
    read_numbers(cells, lines, b"row", width, u64::from(states))?;
    add_edge(cells, margin, edge).map_err(|_| SourceError::NoMemory)?;
    Ok(())
}

fn is_end(words: &[u8]) -> bool
    ensures { (if result then Some [] else None) ≡ end_line (tokens_of words.now) }
{
    match next_token(words) {
        Some((word, rest)) => word == b"end".as_slice() && next_token(rest).is_none(),
        None => false,
    }
}

/// Reads the last line.
pub(crate) fn read_end(lines: &mut Lines<'_>) -> Result<(), SourceError>
    ensures ok { IfOk result (λ _. read end_line lines.old ≡ Ok ([], lines.new)) }
    ensures refused { IfErr result (λ f. Refuses (read end_line lines.old) f) }
{
    match lines.next() {
        Some(line) if is_end(line.words) => Ok(()),
        Some(line) => Err(SourceError::BadTable(line.number)),
        None => Err(SourceError::Unclosed),
    }
}

// Appends the rows of the box, each with the margin at its ends.
fn add_rows(
    cells: &mut Vec<u32>,
    lines: &mut Lines<'_>,
    size: (u32, u32),
    states: u32,
    margin: u32,
    edge: u32,
) -> Result<(), SourceError>
    ensures ok { IfOk result
        (λ _. all_kept_with (widened margin edge) cells.old.items
        (read_all (row_lines states (size.0, size.1)) lines.old)
        ≡ Ok (cells.new.items, lines.new)) }
    ensures refused { IfErr result
        (λ f. Refuses (read_all (row_lines states (size.0, size.1)) lines.old) f) }
{
    let (width, height) = size;
    for _y in 0..height {
        add_row(cells, lines, width, states, margin, edge)?;
    }
    Ok(())
}

/// The cells of the box's rows, with the margin round them.
pub(crate) fn read_cells(
    alloc: Global,
    lines: &mut Lines<'_>,
    size: (u32, u32),
    states: u32,
    margin: u32,
    edge: u32,
) -> Result<Vec<u32>, SourceError>
    requires { margin * (size.0 + 2 * margin) < 2 ^ 32 }
    ensures ok { IfOk result
        (λ cells. read_cells margin edge states (size.0, size.1) lines.old
        ≡ Ok (cells.items, lines.new)) }
    ensures refused { IfErr result
        (λ f. Refuses (read_cells margin edge states (size.0, size.1) lines.old) f) }
{
    let mut cells = Vec::new(alloc);
    let around = margin * (size.0 + 2 * margin);
    add_edge(&mut cells, around, edge).map_err(|_| SourceError::NoMemory)?;
    add_rows(&mut cells, lines, size, states, margin, edge)?;
    add_edge(&mut cells, around, edge).map_err(|_| SourceError::NoMemory)?;
    Ok(cells)
}
