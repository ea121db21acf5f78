// The lines of a text that are not skipped.
ghost use Rattle.std.specs.Prelude.{◌≡◌, ◌≤◌, ◌∷◌, [], length, IfSome, IfNone};
ghost use Rattle.surf_text.specs.Bytes.{lines_of};
ghost use Rattle.surf_table.specs.TableLines.{is_skipped, lines_from};
ghost use Rattle.surf_table.specs.Readings.{line_by};

use std::marker::Model;
use surf_text::{Lines as TextLines, Skip};

/// A line's number in the text, from 1, and its words without the blanks at its ends.
#[derive(Clone, Copy)]
pub(crate) struct Line<'a> {
    pub number: u64,
    pub words: &'a [u8],
}

// Empty lines, and those that begin with `#`.
struct Skipped;

impl Skip for Skipped {
    ghost skipped = { is_skipped };

    fn skips(line: &[u8]) -> bool {
        line.is_empty() || line[0] == b'#'
    }
}

/// The lines that are still to come. A clause sees those that are not skipped.
#[derive(Drop)]
pub(crate) struct Lines<'a> {
    lines: TextLines<'a>,
}

impl<'a> Model for Lines<'a> {
    ghost use Rattle.std.specs.Prelude.{List};
    ghost use Rattle.surf_text.specs.Bytes.{lines_of};
    ghost use Rattle.surf_table.specs.TableLines.{Line as SpecLine, lines_from};

    ghost Value = { List SpecLine };

    ghost view = { λ s. lines_from s.lines.number (lines_of s.lines.left) };
}

impl<'a> Lines<'a> {
    pub fn new(text: &'a [u8]) -> Lines<'a>
        requires { length text.now ≤ 2147483648 }
        ensures { result ≡ lines_from 0 (lines_of text.now) }
    {
        Lines {
            lines: TextLines::new(text, 0),
        }
    }

    /// Takes the next line.
    pub fn next(&mut self) -> Option<Line<'a>>
        ensures some { IfSome result (λ l. self.old ≡ line_by l ∷ self.new) }
        ensures none { IfNone result (self.old ≡ []) }
    {
        let words = self.lines.next_kept::<Skipped>()?;
        Some(Line {
            number: self.lines.number(),
            words,
        })
    }
}
