// The cells of a pattern.
ghost use Rattle.std.specs.Prelude.{◌≡◌, ◌+◌, ◌≤◌, Err, IfErr, IfOk, None, Ok, Some, length};
ghost use Rattle.surf_rle.specs.Drawings.{IsPlaced, IsSheet, rest_of};
ghost use Rattle.surf_rle.specs.Patterns.{cells_read, marks_from};
ghost use Rattle.surf_rle.specs.Rle.{Refuses, box_fault};
ghost use Rattle.surf_text.specs.Bytes.{lines_of};

use crate::lines::is_comment_line;
use crate::sheet::{Pen, Sheet, draw_line};
use std::alloc::Global;
use surf_auto::SourceError;
use surf_text::{Lines, trim};

/// The most sites of a grid.
const SITE_LIMIT: u128 = 1_000_000;

/// Refuses a box that is empty, or whose grid is too large.
pub fn check_box(sheet: &Sheet) -> Result<(), SourceError>
    ensures ok { IfOk result (λ _. box_fault sheet.now ≡ None) }
    ensures refused { IfErr result (λ f. box_fault sheet.now ≡ Some f) }
{
    if sheet.width == 0 || sheet.height == 0 {
        return Err(SourceError::EmptyGrid);
    }
    let sites = u128::from(sheet.full_width) * u128::from(sheet.full_height);
    if sites > SITE_LIMIT {
        return Err(SourceError::GridTooLarge(sites));
    }
    Ok(())
}

// Draws the next lines up to the pattern's end.
fn draw_lines(sheet: Sheet, cells: &mut [u32], lines: &mut Lines<'_>) -> Result<(), SourceError>
    requires sheet { IsSheet sheet cells.old }
    requires within { length lines.old.left ≤ 2147483648 }
    ensures ok { IfOk result
        (λ _. rest_of sheet (record { row = 0; column = 0 }) cells.old
        (marks_from (lines.old.number + 1) (lines_of lines.old.left)) ≡ Ok cells.new) }
    ensures refused { IfErr result
        (λ f. rest_of sheet (record { row = 0; column = 0 }) cells.old
        (marks_from (lines.old.number + 1) (lines_of lines.old.left)) ≡ Err f) }
{
    let mut pen = Pen { row: 0, column: 0 };
    while let Some(line) = lines.next() {
        if is_comment_line(trim(line)) {
            continue;
        }
        match draw_line(sheet, pen, cells, lines.number(), line)? {
            Some(next) => pen = next,
            None => return Ok(()),
        }
    }
    Err(SourceError::Unclosed)
}

/// The cells of the pattern that the next lines draw.
pub fn read_cells(
    alloc: Global,
    sheet: Sheet,
    lines: &mut Lines<'_>,
) -> Result<Vec<u32>, SourceError>
    requires sheet { box_fault sheet ≡ None }
    requires placed { IsPlaced sheet }
    requires within { length lines.old.left ≤ 2147483648 }
    ensures ok { IfOk result
        (λ v. cells_read sheet (marks_from (lines.old.number + 1) (lines_of lines.old.left))
        ≡ Ok v.items) }
    ensures refused { IfErr result
        (λ f. Refuses (cells_read sheet
        (marks_from (lines.old.number + 1) (lines_of lines.old.left))) f) }
{
    let sites = sheet.full_width * sheet.full_height;
    let mut cells = vec![in alloc; 0u32; sites as usize].map_err(|_| SourceError::NoMemory)?;
    draw_lines(sheet, &mut cells, lines)?;
    Ok(cells)
}
