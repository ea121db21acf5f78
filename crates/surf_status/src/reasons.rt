// The line that says why a call did not end well.
ghost use Rattle.std.specs.Prelude.{◌≡◌, ◌++◌, ◌∷◌, [], codes};
ghost use Rattle.surf_base.specs.Pieces.{pieces_text};
ghost use Rattle.surf_status.specs.Notes.{note_of, Notes, refusal_words, tail_text};
ghost use Rattle.surf_status.specs.Writes.{writes};

use crate::words::{Tail, words_of_refusal};
use crate::{Refusal, Status};
use surf_base::{Piece, Sink, write_pieces};

// Writes a line, as far as the notes take it.
fn send<N: Sink>(notes: &mut N, line: &[Piece<'_>])
    ensures { Notes (writes N.written N.faults notes.old notes.new) (pieces_text line.now) }
{
    let _ = write_pieces(notes, line);
}

// What follows the words of a refusal, filled up with empty texts.
fn tail_pieces<'a>(tail: &Tail<'a>) -> (Piece<'a>, Piece<'a>, Piece<'a>, Piece<'a>)
    ensures { pieces_text (result.0 ∷ result.1 ∷ result.2 ∷ result.3 ∷ []) ≡ tail_text tail.now }
{
    let none = Piece::Text(b"");
    let blank = Piece::Byte(b' ');
    match tail {
        Tail::Nothing => (none, none, none, none),
        Tail::Line(line) => (blank, Piece::Number(*line), none, none),
        Tail::Number(n) => (blank, Piece::Wide(*n), none, none),
        Tail::Named(name) => (blank, Piece::Text(*name), none, none),
        Tail::LineAndName(line, name) => {
            (blank, Piece::Number(*line), blank, Piece::Text(*name))
        }
        Tail::Numbers(first, second) => {
            (blank, Piece::Number(*first), blank, Piece::Number(*second))
        }
    }
}

fn send_refusal<N: Sink>(notes: &mut N, refusal: &Refusal)
    ensures { Notes (writes N.written N.faults notes.old notes.new)
        (codes "surf: refused " ++ (refusal_words refusal.now ++ 10 ∷ [])) }
{
    let (words, tail) = words_of_refusal(refusal);
    let (first, second, third, fourth) = tail_pieces(&tail);
    let head = Piece::Text(b"surf: refused ");
    send(
        notes,
        &[
            head,
            Piece::Text(words),
            first,
            second,
            third,
            fourth,
            Piece::Byte(b'\n'),
        ],
    );
}

/// Writes the line of an answer, as far as the notes take it.
pub fn note<N: Sink>(status: &Status, notes: &mut N)
    ensures { Notes (writes N.written N.faults notes.old notes.new) (note_of status.now) }
{
    match status {
        Status::Done => {}
        Status::Refused(refusal) => send_refusal(notes, refusal),
        Status::Usage => send(notes, &[Piece::Text(b"surf: usage\n")]),
        Status::NotEnabled(k) => {
            let tail = Piece::Text(b" is not enabled\n");
            send(
                notes,
                &[Piece::Text(b"surf: event "), Piece::Number(*k), tail],
            )
        }
        Status::ReadFault => send(notes, &[Piece::Text(b"surf: read fault\n")]),
        Status::WriteFault => send(notes, &[Piece::Text(b"surf: write fault\n")]),
        Status::NoMemory => send(notes, &[Piece::Text(b"surf: no memory\n")]),
        Status::TooLong => send(
            notes,
            &[Piece::Text(b"surf: input longer than 268435456 bytes\n")],
        ),
    }
}
