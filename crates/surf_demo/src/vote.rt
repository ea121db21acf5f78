// The vote: its text.
ghost use Rattle.std.specs.Prelude.{◌≡◌, ◌≤◌, ◌<◌, ◌++◌, IfOk, OnOk};
ghost use Rattle.surf_demo.specs.Votes.{cell_byte, cells_text, header_text, is_live, rows_text, vote_text};

use crate::pieces::put_pieces;
use std::alloc::Global;
use surf_base::{NoMemory, Piece};

// Whether a cell is live at first.
fn is_live(x: u32, y: u32) -> bool
    requires x { x < 64 }
    requires y { y < 64 }
    ensures { result ≡ is_live x y }
{
    (3 * x + 5 * y + x * y) % 4 < 2
}

fn cell_byte(x: u32, y: u32) -> u8
    requires x { x < 64 }
    requires y { y < 64 }
    ensures { result ≡ cell_byte x y }
{
    if is_live(x, y) { b'o' } else { b'b' }
}

// Appends the first n cells of a row.
fn put_cells(out: &mut Vec<u8>, n: u32, y: u32) -> Result<(), NoMemory>
    requires n { n ≤ 64 }
    requires y { y < 64 }
    ensures { OnOk result (out.new.items ≡ out.old.items ++ cells_text y n) }
{
    for x in 0..n {
        put_pieces(out, &[Piece::Byte(cell_byte(x, y))])?;
    }
    Ok(())
}

// Appends the rows of n by n cells.
fn put_rows(out: &mut Vec<u8>, n: u32) -> Result<(), NoMemory>
    requires { n ≤ 64 }
    ensures { OnOk result (out.new.items ≡ out.old.items ++ rows_text n n) }
{
    for y in 0..n {
        put_cells(out, n, y)?;
        put_pieces(out, &[Piece::Text(b"$\n")])?;
    }
    Ok(())
}

// Appends the header: the sides and the rule.
fn put_header(out: &mut Vec<u8>, n: u32) -> Result<(), NoMemory>
    ensures { OnOk result (out.new.items ≡ out.old.items ++ header_text n) }
{
    let n = Piece::Number(u64::from(n));
    put_pieces(
        out,
        &[
            Piece::Text(b"x = "),
            n,
            Piece::Text(b", y = "),
            n,
            Piece::Text(b", rule = B34/S234V\n"),
        ],
    )
}

/// The text of a pattern of `n` by `n` cells, at most 64, that vote among their neighbours.
pub fn vote_text(alloc: Global, n: u32) -> Result<Vec<u8>, NoMemory>
    requires { n ≤ 64 }
    ensures { IfOk result (λ v. v.items ≡ vote_text n) }
{
    let mut text = Vec::new(alloc);
    put_header(&mut text, n)?;
    put_rows(&mut text, n)?;
    put_pieces(&mut text, &[Piece::Text(b"!")])?;
    Ok(text)
}
