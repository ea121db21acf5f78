// The lines of a text, taken one after another.
ghost use Rattle.std.specs.Prelude.{◌≡◌, ◌+◌, ◌<◌, ◌≤◌, ◌^◌, ◌∷◌, [], List, ℕ, Bool, Some, None, length, IfSome, IfNone};
ghost use Rattle.surf_text.specs.Bytes.{lines_of};
ghost use Rattle.surf_text.specs.Cursors.{first_kept};

use crate::{first_line, trim};
use std::marker::Model;

/// A place between two lines of a text: what is left of the text, and the number of the last line
/// that was taken.
#[derive(Drop)]
pub struct Lines<'a> {
    left: &'a [u8],
    number: u64,
}

impl<'a> Model for Lines<'a> {
    ghost use Rattle.std.specs.Prelude.{◌+◌, ◌<◌, ◌^◌, length};
    ghost use Rattle.surf_text.specs.Cursors.{Cursor};

    ghost Value = { Cursor };

    ghost view = { λ c. record { left = c.left.now; number = c.number } };

    ghost invariant = { λ c. c.number + length c.left.now < 2 ^ 64 };
}

/// Which lines a reader passes over, as empty lines and comments.
pub trait Skip {
    ghost skipped: { List ℕ → Bool };

    /// Whether a line is passed over. It is given without the blanks at its ends.
    fn skips(line: &[u8]) -> bool
        ensures { result ≡ skipped line.now };
}

impl<'a> Lines<'a> {
    /// The lines of a text, before which so many lines stand.
    pub fn new(text: &'a [u8], number: u64) -> Lines<'a>
        requires { number + length text.now < 2 ^ 64 }
        ensures { result ≡ record { left = text.now; number = number } }
    {
        Lines { left: text, number }
    }

    /// The number of the last line that was taken.
    pub fn number(&self) -> u64
        ensures { result ≡ self.now.number }
    {
        self.number
    }

    /// What follows the last line that was taken.
    pub fn left(&self) -> &'a [u8]
        ensures { result.now ≡ self.now.left }
    {
        self.left
    }

    /// Takes the next line.
    pub fn next(&mut self) -> Option<&'a [u8]>
        ensures line { IfSome result
            (λ t. lines_of self.old.left ≡ t.now ∷ lines_of self.new.left) }
        ensures number { IfSome result (λ t. self.new.number ≡ self.old.number + 1) }
        ensures shorter { IfSome result (λ t. length self.new.left < length self.old.left) }
        ensures part { IfSome result
            (λ t. length t.now + length self.new.left ≤ length self.old.left) }
        ensures end { IfNone result (self.old.left ≡ []) }
        ensures stays { IfNone result (self.new ≡ self.old) }
    {
        if self.left.is_empty() {
            return None;
        }
        let (line, left) = first_line(self.left);
        self.left = left;
        self.number += 1;
        Some(line)
    }

    /// Takes lines up to the next one that is not passed over, and answers that one without the
    /// blanks at its ends.
    pub fn next_kept<S: Skip>(&mut self) -> Option<&'a [u8]>
        ensures line { IfSome result
            (λ t. first_kept S.skipped self.old.number (lines_of self.old.left)
            ≡ Some (record {
              line = t.now;
              number = self.new.number;
              behind = lines_of self.new.left;
            })) }
        ensures shorter { IfSome result (λ t. length self.new.left < length self.old.left) }
        ensures within { self.new.number + length self.new.left
            ≤ self.old.number + length self.old.left }
        ensures none { IfNone result
            (first_kept S.skipped self.old.number (lines_of self.old.left) ≡ None) }
        ensures end { IfNone result (self.new.left ≡ []) }
        ensures counted { IfNone result
            (self.new.number ≡ self.old.number + length (lines_of self.old.left)) }
    {
        while let Some(line) = self.next() {
            let content = trim(line);
            if !S::skips(content) {
                return Some(content);
            }
        }
        None
    }
}
