// The logical lines of a text, taken one after another.
ghost use Rattle.std.specs.Prelude.{◌≡◌, ◌+◌, ◌<◌, ◌≤◌, ◌^◌, ◌∷◌, ◌++◌, [], length, ℕ, IfOk, IfSome, IfNone, None, Some};
ghost use Rattle.surf_text.specs.Bytes.{lines_of};
ghost use Rattle.surf_blif.specs.Logical.{joined_from};
ghost use Rattle.surf_blif.specs.LogicalTexts.{text_by};

use crate::joins::{before_join, cut_line, put_part};
use std::alloc::Global;
use surf_base::NoMemory;
use surf_text::Lines;

/// A logical line: the number of its first physical line, and its text, or none where it was
/// joined of several.
#[derive(Clone, Copy)]
pub struct LogicalLine<'a> {
    pub number: u64,
    pub alone: Option<&'a [u8]>,
}

/// The physical lines that are still to come, and the text that was joined last.
#[derive(Drop)]
pub struct LogicalLines<'a> {
    pub lines: Lines<'a>,
    pub joined: Vec<u8>,
}

impl<'a> LogicalLines<'a> {
    /// The lines of a text. Takes no memory.
    pub fn new(alloc: Global, text: &'a [u8]) -> LogicalLines<'a>
        requires { length text.now < 2 ^ 63 }
        ensures { result.lines ≡ record { left = text.now; number = 0 } }
    {
        LogicalLines {
            lines: Lines::new(text, 0),
            joined: Vec::new(alloc),
        }
    }

    // Joins the text of a logical line whose first physical line goes on: `front` is what stands
    // before its `\`.
    fn join(&mut self, front: &[u8]) -> Result<(), NoMemory>
        ensures joined { IfOk result
            (λ _. (k : ℕ) → joined_from (self.old.lines.number + 1)
            (Some (record { number = k; text = front.now ++ 32 ∷ [] }))
            (lines_of self.old.lines.left)
            ≡ record { number = k; text = self.new.joined.items } ∷ joined_from
            (self.new.lines.number + 1) None (lines_of self.new.lines.left)) }
        ensures within { IfOk result
            (λ _. length self.new.joined.items + length self.new.lines.left
            ≤ length front.now + 1 + length self.old.lines.left) }
        ensures shorter { IfOk result
            (λ _. length self.new.lines.left ≤ length self.old.lines.left) }
    {
        self.joined.clear();
        put_part(&mut self.joined, front)?;
        while let Some(line) = self.lines.next() {
            let piece = cut_line(line);
            match before_join(piece) {
                Some(front) => put_part(&mut self.joined, front)?,
                None => {
                    self.joined.extend_from_slice(piece).map_err(|_| NoMemory)?;
                    return Ok(());
                }
            }
        }
        Ok(())
    }

    /// Takes the next logical line.
    pub fn next(&mut self) -> Result<Option<LogicalLine<'a>>, NoMemory>
        ensures line { IfOk result
            (λ o. IfSome o (λ l. joined_from (self.old.lines.number + 1) None
            (lines_of self.old.lines.left)
            ≡ record { number = l.number; text = text_by l self.new.joined.items } ∷ joined_from
            (self.new.lines.number + 1) None (lines_of self.new.lines.left))) }
        ensures part { IfOk result
            (λ o. IfSome o (λ l. length
            (text_by l self.new.joined.items) + length self.new.lines.left
            ≤ length self.old.lines.left)) }
        ensures shorter { IfOk result
            (λ o. IfSome o (λ l. length self.new.lines.left < length self.old.lines.left)) }
        ensures end { IfOk result (λ o. IfNone o (self.old.lines.left ≡ [])) }
    {
        let Some(line) = self.lines.next() else {
            return Ok(None);
        };
        let number = self.lines.number();
        let piece = cut_line(line);
        let alone = match before_join(piece) {
            Some(front) => {
                self.join(front)?;
                None
            }
            None => Some(piece),
        };
        Ok(Some(LogicalLine { number, alone }))
    }

    /// The text of the last line that was taken.
    pub fn text<'b>(&'b self, line: &LogicalLine<'b>) -> &'b [u8]
        ensures { result.now ≡ text_by line.now self.now.joined.items }
    {
        match line.alone {
            Some(text) => text,
            None => &self.joined,
        }
    }
}
