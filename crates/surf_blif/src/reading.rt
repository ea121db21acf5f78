// The reader's state between two logical lines.
ghost use Rattle.std.specs.Prelude.{◌≡◌, ◌∷◌, [], true, None, Some, List, IfOk, IfErr, length};
ghost use Rattle.surf_text.specs.Bytes.{tokens_of};
ghost use Rattle.surf_blif.specs.Answers.{Tells, fault_in, read_then};
ghost use Rattle.surf_blif.specs.Drafts.{HasRoom, IsDraft, IsWithin, reached_by};
ghost use Rattle.surf_blif.specs.Grammar.{Placed, Unsupported, cover_fault, extent, fits_output, line_fault, names_fault, placed};
ghost use Rattle.surf_blif.specs.Kinds.{length_of_kind, line_of_kind};
ghost use Rattle.surf_blif.specs.Lines.{Names, Row};
ghost use Rattle.surf_blif.specs.Steps.{after_line, at_start, read_on};

use crate::draft::Draft;
use crate::error::BlifError;
use crate::kinds::{LineKind, kind_of};
use crate::numbering::count_tokens;
use crate::rows::read_row;
use std::alloc::Global;
use surf_base::Text;

/// Whether a model goes on behind a line, stops before it, or ends with it.
#[derive(Clone, Copy, Debug, PartialEq, Eq)]
pub enum Extent {
    GoesOn,
    Stops,
    Ends,
}

/// A cover that rows may follow: the number of its inputs, and the output of its first row.
#[derive(Clone, Copy, Debug)]
pub struct Cover {
    pub inputs: usize,
    pub output: Option<bool>,
}

/// What was read so far of a model: whether a line with tokens came, the cover that rows may
/// follow, and the parts.
#[derive(Drop)]
pub struct Reading {
    pub begun: bool,
    pub cover: Option<Cover>,
    pub draft: Draft,
}

impl Reading {
    pub fn new(alloc: Global) -> Reading
        ensures draft { IsDraft result.draft }
        ensures start { reached_by result ≡ at_start }
        ensures names { result.draft.names ≡ [] }
    {
        Reading {
            begun: false,
            cover: None,
            draft: Draft::new(alloc),
        }
    }

    // How far the model goes at a line.
    fn extent(&self, line: LineKind<'_>) -> Extent
        ensures { result ≡ extent self.now.begun (line_of_kind line.entry) }
    {
        match line {
            LineKind::Model(_) => {
                if self.begun {
                    Extent::Stops
                } else {
                    Extent::GoesOn
                }
            }
            LineKind::End(_) => Extent::Ends,
            _ => Extent::GoesOn,
        }
    }

    // Takes a line with tokens that is no cover and no row: rows may not follow it.
    fn leave_cover(&mut self)
        ensures draft { self.new.draft ≡ self.old.draft }
        ensures begun { self.new.begun ≡ true }
        ensures cover { self.new.cover ≡ None }
    {
        self.begun = true;
        self.cover = None;
    }

    // Takes the line of a `.names`.
    fn take_names(&mut self, alloc: Global, number: u64, line: &[u8]) -> Result<(), BlifError>
        requires draft { IsDraft self.old.draft }
        requires room { HasRoom self.old.draft (length line.now) }
        ensures draft { IfOk result (λ _. IsDraft self.new.draft) }
        ensures room { IfOk result (λ _. IsWithin (length line.now) self.old.draft self.new.draft) }
        ensures fault { IfOk result (λ _. names_fault number (tokens_of line.now) ≡ None) }
        ensures step { IfOk result
            (λ _. reached_by self.new
            ≡ after_line (reached_by self.old) (Names (tokens_of line.now))) }
        ensures refused { IfErr result (Tells (names_fault number (tokens_of line.now))) }
    {
        let count = count_tokens(line);
        if count == 0 {
            return Err(BlifError::BadLine(number));
        }
        self.begun = true;
        self.cover = Some(Cover {
            inputs: count - 1,
            output: None,
        });
        self.draft
            .add_equation(alloc, line)
            .map_err(|_| BlifError::NoMemory)?;
        Ok(())
    }

    // Takes the row of a cover.
    fn take_row(&mut self, alloc: Global, number: u64, line: &[u8]) -> Result<(), BlifError>
        requires draft { IsDraft self.old.draft }
        requires room { HasRoom self.old.draft (length line.now) }
        ensures draft { IfOk result (λ _. IsDraft self.new.draft) }
        ensures room { IfOk result (λ _. IsWithin (length line.now) self.old.draft self.new.draft) }
        ensures fault { IfOk result
            (λ _. cover_fault number self.old.cover (tokens_of line.now) ≡ None) }
        ensures step { IfOk result
            (λ _. reached_by self.new
            ≡ after_line (reached_by self.old) (Row (tokens_of line.now))) }
        ensures refused { IfErr result
            (Tells (cover_fault number self.old.cover (tokens_of line.now))) }
    {
        let Some(cover) = self.cover else {
            return Err(BlifError::BadLine(number));
        };
        let Some(row) = read_row(cover.inputs, line) else {
            return Err(BlifError::BadCover(number));
        };
        if !fits(cover.output, row.output) {
            return Err(BlifError::MixedCover(number));
        }
        self.begun = true;
        self.cover = Some(Cover {
            inputs: cover.inputs,
            output: Some(cover.output.unwrap_or(row.output)),
        });
        self.draft
            .add_row(alloc, row)
            .map_err(|_| BlifError::NoMemory)?;
        Ok(())
    }

    // Takes a line of the model.
    fn take(&mut self, alloc: Global, number: u64, line: LineKind<'_>) -> Result<(), BlifError>
        requires draft { IsDraft self.old.draft }
        requires room { HasRoom self.old.draft (length_of_kind line) }
        ensures draft { IfOk result (λ _. IsDraft self.new.draft) }
        ensures room { IfOk result
            (λ _. IsWithin (length_of_kind line.entry) self.old.draft self.new.draft) }
        ensures fault { IfOk result
            (λ _. line_fault self.old.cover number (line_of_kind line.entry) ≡ None) }
        ensures step { IfOk result
            (λ _. reached_by self.new
            ≡ after_line (reached_by self.old) (line_of_kind line.entry)) }
        ensures refused { IfErr result
            (Tells (line_fault self.old.cover number (line_of_kind line.entry))) }
    {
        match line {
            LineKind::Skipped => Ok(()),
            LineKind::Model(stand) | LineKind::End(stand) => {
                if !stand {
                    return Err(BlifError::BadLine(number));
                }
                self.leave_cover();
                Ok(())
            }
            LineKind::Bad => Err(BlifError::BadLine(number)),
            LineKind::Inputs(names) => {
                self.leave_cover();
                self.draft
                    .add_inputs(alloc, names)
                    .map_err(|_| BlifError::NoMemory)?;
                Ok(())
            }
            LineKind::Outputs(names) => {
                self.leave_cover();
                self.draft
                    .add_outputs(alloc, names)
                    .map_err(|_| BlifError::NoMemory)?;
                Ok(())
            }
            LineKind::Names(signals) => self.take_names(alloc, number, signals),
            LineKind::Other(token) => Err(unsupported(alloc, number, token)),
            LineKind::Row(text) => self.take_row(alloc, number, text),
        }
    }

    /// Takes the logical line whose first line has this number, and answers how far the model goes
    /// at it. After a refusal the reading is of no use.
    pub fn take_line(
        &mut self,
        alloc: Global,
        number: u64,
        text: &[u8],
    ) -> Result<Extent, BlifError>
        requires draft { IsDraft self.old.draft }
        requires room { HasRoom self.old.draft (length text.now) }
        ensures draft { IfOk result (λ _. IsDraft self.new.draft) }
        ensures room { IfOk result (λ _. IsWithin (length text.now) self.old.draft self.new.draft) }
        ensures read { IfOk result
            (λ e. (ls : List Placed)
            → read_on (reached_by self.old)
            (placed (record { number = number; text = text.now }) ∷ ls)
            ≡ read_then e (reached_by self.new) ls) }
        ensures refused { IfErr result
            (λ e. (ls : List Placed)
            → Tells (fault_in (read_on (reached_by self.old)
            (placed (record { number = number; text = text.now }) ∷ ls))) e) }
    {
        let line = kind_of(text);
        let extent = self.extent(line);
        if extent != Extent::Stops {
            self.take(alloc, number, line)?;
        }
        Ok(extent)
    }
}

// Whether a row's output is that of the cover's first row, if there is one.
fn fits(first: Option<bool>, output: bool) -> bool
    ensures { result ≡ fits_output first output }
{
    match first {
        Some(first) => first == output,
        None => true,
    }
}

// The refusal of another directive.
fn unsupported(alloc: Global, number: u64, token: &[u8]) -> BlifError
    ensures { Tells (Some (Unsupported number token.now)) result }
{
    match token.to_vec(alloc) {
        Ok(copy) => BlifError::Unsupported(number, Text::new(copy)),
        Err(_) => BlifError::NoMemory,
    }
}
