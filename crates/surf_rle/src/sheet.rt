// Cells that are drawn.
ghost use Rattle.std.specs.Prelude.{◌≡◌, ℕ, ◌+◌, ◌*◌, ◌^◌, ◌<◌, ◌≤◌, ◌&&◌, ◌∷◌, [], IfOk, IfSome, List, if◌then◌else◌, length, map, nat_le, nat_lt, slice_index};
ghost use Rattle.surf_rle.specs.Drawings.{Draws, IsSheet, over};
ghost use Rattle.surf_rle.specs.Items.{signs_of};
ghost use Rattle.surf_rle.specs.Patterns.{Placed, mark};
ghost use Rattle.surf_rle.specs.Said.{header_by};
ghost use Rattle.surf_rle.specs.Sheets.{sheet_of};
ghost use Rattle.surf_rle.specs.declared.item.Sign.TheVariants.{Live};

use crate::header::Header;
use crate::item::{Sign, next_sign};
use crate::torus::Sides;
use surf_auto::SourceError;
use surf_lattice::GridKind;

/// A box in a grid, where its upper left corner has both coordinates `corner`.
#[derive(Clone, Copy, Debug)]
pub struct Sheet {
    pub kind: GridKind,
    pub wrap: bool,
    pub full_width: u64,
    pub full_height: u64,
    pub width: u32,
    pub height: u32,
    pub corner: u32,
}

/// Where the next item stands in the box, or below or to the right of it.
#[derive(Clone, Copy, Debug)]
pub struct Pen {
    pub row: u64,
    pub column: u64,
}

/// Where the box of a header stands: at the corner of its torus, or inside a margin on each side.
pub fn sheet_of(margin: u32, kind: GridKind, header: &Header<'_>, torus: Option<Sides>) -> Sheet
    ensures { result ≡ sheet_of margin kind (header_by header.now) torus }
{
    let width = header.width;
    let height = header.height;
    match torus {
        Some(sides) => Sheet {
            kind,
            wrap: true,
            full_width: u64::from(sides.width),
            full_height: u64::from(sides.height),
            width,
            height,
            corner: 0,
        },
        None => Sheet {
            kind,
            wrap: false,
            full_width: u64::from(width) + 2 * u64::from(margin),
            full_height: u64::from(height) + 2 * u64::from(margin),
            width,
            height,
            corner: margin,
        },
    }
}

fn fill(cells: &mut [u32], from: usize, count: usize)
    requires { from + count ≤ length cells.old }
    ensures { (k : ℕ) → slice_index cells.new k
        ≡ (if nat_le from k && nat_lt k (from + count) then 1 else slice_index cells.old k) }
{
    for place in from..from + count {
        cells[place] = 1;
    }
}

// Makes cells live from the pen on.
fn draw_live(sheet: Sheet, pen: Pen, cells: &mut [u32], count: u32)
    requires sheet { IsSheet sheet cells.old }
    requires row { pen.row < sheet.height }
    requires columns { pen.column + count ≤ sheet.width }
    ensures { (line : ℕ) (ps : List Placed) → over sheet cells.new ps
        ≡ over sheet cells.old
        (record { row = pen.row; column = pen.column; mark = mark line (Live count) } ∷ ps) }
{
    let corner = u64::from(sheet.corner);
    let from = (pen.row + corner) * sheet.full_width + (pen.column + corner);
    fill(cells, from as usize, count as usize);
}

// Draws a sign of this line, and answers where the next one stands, where the pattern goes on.
fn draw_sign(
    sheet: Sheet,
    pen: Pen,
    cells: &mut [u32],
    line: u64,
    sign: Sign,
) -> Result<Option<Pen>, SourceError>
    requires sheet { IsSheet sheet cells.old }
    requires row { pen.row + 2 ^ 32 < 2 ^ 64 }
    requires column { pen.column + 2 ^ 32 < 2 ^ 64 }
    ensures drawn { Draws sheet pen cells.old (mark line sign ∷ []) cells.new result }
    ensures row { IfOk result (λ o. IfSome o (λ p. p.row ≤ pen.row + 2 ^ 32)) }
    ensures column { IfOk result (λ o. IfSome o (λ p. p.column ≤ pen.column + 2 ^ 32)) }
{
    let Pen { row, column } = pen;
    match sign {
        Sign::Free => Ok(Some(pen)),
        Sign::Dead(count) => Ok(Some(Pen {
            row,
            column: column + u64::from(count),
        })),
        Sign::Live(count) => {
            let end = column + u64::from(count);
            if row >= u64::from(sheet.height) || end > u64::from(sheet.width) {
                return Err(SourceError::OutOfBox(line));
            }
            draw_live(sheet, pen, cells, count);
            Ok(Some(Pen { row, column: end }))
        }
        Sign::Down(count) => Ok(Some(Pen {
            row: row + u64::from(count),
            column: 0,
        })),
        Sign::End => Ok(None),
        Sign::Bad => Err(SourceError::BadItem(line)),
    }
}

/// Draws the signs of a line, and answers where the next line's first one stands, where the pattern
/// goes on.
pub fn draw_line(
    sheet: Sheet,
    pen: Pen,
    cells: &mut [u32],
    number: u64,
    line: &[u8],
) -> Result<Option<Pen>, SourceError>
    requires sheet { IsSheet sheet cells.old }
    requires row { pen.row + 2 ^ 32 * length line.now < 2 ^ 64 }
    requires column { pen.column + 2 ^ 32 * length line.now < 2 ^ 64 }
    ensures drawn { Draws sheet pen cells.old
        (map (mark number) (signs_of line.now)) cells.new result }
    ensures row { IfOk result (λ o. IfSome o (λ p. p.row ≤ pen.row + 2 ^ 32 * length line.now)) }
    ensures column { IfOk result
        (λ o. IfSome o (λ p. p.column ≤ pen.column + 2 ^ 32 * length line.now)) }
{
    let mut pen = pen;
    let mut rest = line;
    while !rest.is_empty() {
        let (sign, after) = next_sign(rest);
        match draw_sign(sheet, pen, cells, number, sign)? {
            Some(next) => pen = next,
            None => return Ok(None),
        }
        rest = after;
    }
    Ok(Some(pen))
}
