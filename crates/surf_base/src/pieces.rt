// Texts that are given piece by piece.
ghost use Rattle.std.specs.Prelude.{◌≤◌, OnOk, OnErr};
ghost use Rattle.std.specs.Io.KnownBytes.{Appends};
ghost use Rattle.surf_base.specs.Causes.{Rose};
ghost use Rattle.surf_base.specs.Emits.{Emits, outlet};
ghost use Rattle.surf_base.specs.Known.{AppendsFront};
ghost use Rattle.surf_base.specs.Pieces.{piece_text, pieces_text};

use crate::{Outbox, Sink, WriteFault};
use itoa::Buffer;

/// A piece of a text. Numbers are written as decimals.
#[derive(Clone, Copy, Debug)]
pub enum Piece<'a> {
    Text(&'a [u8]),
    Byte(u8),
    Number(u64),
    Wide(u128),
}

impl Outbox {
    fn put_piece<K: Sink>(&mut self, sink: &mut K, piece: &Piece<'_>) -> Result<(), WriteFault>
        ensures { Emits (outlet (K.written sink.old) self.old (K.faults sink.old))
            (outlet (K.written sink.new) self.new (K.faults sink.new))
            (piece_text piece.now) result }
    {
        match piece {
            Piece::Text(text) => self.put(sink, *text),
            Piece::Byte(byte) => self.put(sink, &[*byte]),
            Piece::Number(number) => self.put(sink, Buffer::new().format(*number).as_bytes()),
            Piece::Wide(number) => self.put(sink, Buffer::new().format(*number).as_bytes()),
        }
    }

    /// Takes the pieces of a text, one after another, as `put` takes one text.
    pub fn put_pieces<K: Sink>(
        &mut self,
        sink: &mut K,
        pieces: &[Piece<'_>],
    ) -> Result<(), WriteFault>
        ensures { Emits (outlet (K.written sink.old) self.old (K.faults sink.old))
            (outlet (K.written sink.new) self.new (K.faults sink.new))
            (pieces_text pieces.now) result }
    {
        for piece in pieces {
            self.put_piece(sink, piece)?;
        }
        Ok(())
    }
}

/// Appends the text of the pieces, or some front of it at a fault.
pub fn write_pieces<K: Sink>(sink: &mut K, pieces: &[Piece<'_>]) -> Result<(), WriteFault>
    ensures all { OnOk result
        (Appends (K.written sink.old) (K.written sink.new) (pieces_text pieces.now)) }
    ensures front { OnErr result
        (AppendsFront (K.written sink.old) (K.written sink.new) (pieces_text pieces.now)) }
    ensures later { K.faults sink.old ≤ K.faults sink.new }
    ensures cause { OnErr result (Rose (K.faults sink.old) (K.faults sink.new)) }
{
    let mut outbox = Outbox::new();
    outbox.put_pieces(sink, pieces)?;
    outbox.flush(sink)
}
