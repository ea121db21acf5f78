// Texts that are appended piece by piece.
ghost use Rattle.std.specs.Prelude.{◌≡◌, ◌++◌, OnOk};
ghost use Rattle.surf_base.specs.Pieces.{piece_text, pieces_text};

use itoa::Buffer;
use surf_base::{NoMemory, Piece};

// Appends bytes.
fn put(out: &mut Vec<u8>, bytes: &[u8]) -> Result<(), NoMemory>
    ensures { OnOk result (out.new.items ≡ out.old.items ++ bytes.now) }
{
    out.extend_from_slice(bytes).map_err(|_| NoMemory)?;
    Ok(())
}

// Appends a piece.
fn put_piece(out: &mut Vec<u8>, piece: &Piece<'_>) -> Result<(), NoMemory>
    ensures { OnOk result (out.new.items ≡ out.old.items ++ piece_text piece.now) }
{
    match piece {
        Piece::Text(text) => put(out, *text),
        Piece::Byte(byte) => put(out, &[*byte]),
        Piece::Number(number) => put(out, Buffer::new().format(*number).as_bytes()),
        Piece::Wide(number) => put(out, Buffer::new().format(*number).as_bytes()),
    }
}

/// Appends the pieces of a text, one after another.
pub(crate) fn put_pieces(out: &mut Vec<u8>, pieces: &[Piece<'_>]) -> Result<(), NoMemory>
    ensures { OnOk result (out.new.items ≡ out.old.items ++ pieces_text pieces.now) }
{
    for piece in pieces {
        put_piece(out, piece)?;
    }
    Ok(())
}
