// Rows of cells, each on a line of its own.
ghost use Rattle.std.specs.Prelude.{◌≡◌, ◌≤◌, ◌<◌, ◌*◌, ◌+◌, ◌++◌, ◌∷◌, [], length, map, take, drop};
ghost use Rattle.surf_base.specs.Emits.{Emits, outlet};
ghost use Rattle.surf_text.specs.Bytes.{ended, spaced, rows_of};
ghost use Rattle.surf_cells.specs.Rows.{behind_name};

use crate::cells::Cells;
use surf_base::{Outbox, Piece, Sink, WriteFault};

// A line feed behind the last cell of a row, else a blank.
fn behind_name(width: u32, x: u32) -> u8
    requires { x < width }
    ensures { result ≡ behind_name width x }
{
    if x + 1 == width { b'\n' } else { b' ' }
}

// The cells of row y.
fn print_row<C: Cells, K: Sink>(
    cells: &C,
    width: u32,
    y: u32,
    outbox: &mut Outbox,
    out: &mut K,
) -> Result<(), WriteFault>
    requires valid { C.valid cells.now }
    requires some { 0 < width }
    requires within { y * width + width ≤ length (C.texts cells.now) }
    requires few { length (C.texts cells.now) ≤ 33554432 }
    ensures { Emits (outlet (K.written out.old) outbox.old (K.faults out.old))
        (outlet (K.written out.new) outbox.new (K.faults out.new))
        (spaced (take width (drop (y * width) (C.texts cells.now))) ++ 10 ∷ []) result }
{
    let first = y as usize * width as usize;
    for x in 0..width {
        let cell = cells.piece(first + x as usize);
        outbox.put_pieces(out, &[cell, Piece::Byte(behind_name(width, x))])?;
    }
    Ok(())
}

/// Prints all cells, each row on a line of its own.
pub fn print_rows<C: Cells, K: Sink>(
    cells: &C,
    width: u32,
    height: u32,
    outbox: &mut Outbox,
    out: &mut K,
) -> Result<(), WriteFault>
    requires valid { C.valid cells.now }
    requires some { 0 < width }
    requires sides { length (C.texts cells.now) ≡ width * height }
    requires few { length (C.texts cells.now) ≤ 33554432 }
    ensures { Emits (outlet (K.written out.old) outbox.old (K.faults out.old))
        (outlet (K.written out.new) outbox.new (K.faults out.new))
        (ended (map spaced (rows_of width height (C.texts cells.now)))) result }
{
    for y in 0..height {
        print_row(cells, width, y, outbox, out)?;
    }
    Ok(())
}
