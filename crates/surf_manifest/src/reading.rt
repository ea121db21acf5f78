// The reader's state between two lines.
ghost use Rattle.std.specs.Prelude.{◌≡◌, ◌<◌, ◌≤◌, ◌^◌, IfErr, IfOk, MatchOption, MatchResult, None, Some, if◌then◌else◌, length};
ghost use Rattle.surf_manifest_lines.specs.Answers.{Refuses};
ghost use Rattle.surf_manifest.specs.Drafts.{HasRoom, HasRoomFor, IsDraft};
ghost use Rattle.surf_manifest.specs.Grammar.{ManifestText, has_block};
ghost use Rattle.surf_manifest_lines.specs.Kinds.{line_of_kind};
ghost use Rattle.surf_manifest.specs.Limits.{at_start, counted, end_fault, finished, known_by, line_step, opened_block};
ghost use Rattle.surf_manifest_lines.specs.Line.{Closes, Opens, line_of};
ghost use Rattle.surf_manifest.specs.Manifests.{lines_in};
ghost use Rattle.surf_manifest.specs.Readings.{reached_by};
ghost use Rattle.surf_manifest.specs.WellFormed.{IsWellFormed};

use crate::draft::{Draft, RULE_LIMIT, SITE_LIMIT};
use crate::manifest::Manifest;
use std::alloc::Global;
use surf_base::Text;
use surf_manifest_lines::{Block, BlockKind, LineKind, ManifestError, kind_of};

/// What was read so far, and where the next line stands.
#[derive(Drop)]
pub struct Reading {
    pub number: u64,
    pub block: Option<BlockKind>,
    pub opened: u64,
    pub has_rules: bool,
    pub has_state: bool,
    pub has_colours: bool,
    pub draft: Draft,
}

impl Reading {
    /// The start of a text.
    pub fn new(alloc: Global, source: &[u8]) -> Reading
        ensures draft { IsDraft result.draft }
        ensures start { reached_by result ≡ at_start }
    {
        Reading {
            number: 1,
            block: None,
            opened: 0,
            has_rules: false,
            has_state: false,
            has_colours: false,
            draft: Draft::new(alloc, source),
        }
    }

    fn has(&self, block: BlockKind) -> bool
        ensures { result ≡ has_block (known_by (reached_by self.now)) block }
    {
        match block {
            BlockKind::Rules => self.has_rules,
            BlockKind::State => self.has_state,
            BlockKind::Colormap => self.has_colours,
        }
    }

    // Enters a block on this line.
    fn enter(&mut self, block: BlockKind)
        ensures draft { self.new.draft ≡ self.old.draft }
        ensures entered { reached_by self.new ≡ opened_block (reached_by self.old) block }
    {
        self.block = Some(block);
        self.opened = self.number;
        match block {
            BlockKind::Rules => self.has_rules = true,
            BlockKind::State => self.has_state = true,
            BlockKind::Colormap => self.has_colours = true,
        }
    }

    fn open(&mut self, block: BlockKind) -> Result<(), ManifestError>
        requires { IsDraft self.old.draft }
        ensures draft { IfOk result (λ _. IsDraft self.new.draft) }
        ensures step { MatchResult result
            (λ _. line_step (reached_by self.old) (Opens block)
            ≡ Ok (counted (reached_by self.new)))
            (λ f. line_step (reached_by self.old) (Opens block) ≡ Err f) }
    {
        if self.block.is_some() {
            return Err(ManifestError::BadLine(self.number));
        }
        if self.has(block) {
            return Err(ManifestError::BlockTwice(self.number));
        }
        self.enter(block);
        Ok(())
    }

    fn close(&mut self, block: BlockKind) -> Result<(), ManifestError>
        requires { IsDraft self.old.draft }
        ensures draft { IfOk result (λ _. IsDraft self.new.draft) }
        ensures step { MatchResult result
            (λ _. line_step (reached_by self.old) (Closes block)
            ≡ Ok (counted (reached_by self.new)))
            (λ f. line_step (reached_by self.old) (Closes block) ≡ Err f) }
    {
        let current = self.block;
        match current {
            Some(open) if open == block => {
                self.block = None;
                Ok(())
            }
            _ => Err(ManifestError::BadLine(self.number)),
        }
    }

    // Takes a line, all but its number.
    fn take(&mut self, alloc: Global, line: LineKind<'_>) -> Result<(), ManifestError>
        requires draft { IsDraft self.old.draft }
        requires room { HasRoomFor (reached_by self.old).held (line_of_kind line) }
        ensures draft { IfOk result (λ _. IsDraft self.new.draft) }
        ensures step { MatchResult result
            (λ _. line_step (reached_by self.old) (line_of_kind line.entry)
            ≡ Ok (counted (reached_by self.new)))
            (λ f. Refuses (line_step (reached_by self.old) (line_of_kind line.entry)) f) }
    {
        match line {
            LineKind::Skipped => Ok(()),
            LineKind::Opens(block) => self.open(block),
            LineKind::Closes(block) => self.close(block),
            LineKind::Includes => Err(ManifestError::Include(self.number)),
            LineKind::Unknown => Err(ManifestError::BadLine(self.number)),
            LineKind::Content(text) => self.draft.add_line(alloc, self.number, self.block, text),
        }
    }

    /// Takes the next line. After a refusal the reading is of no use.
    pub fn read_line(&mut self, alloc: Global, line: &[u8]) -> Result<(), ManifestError>
        requires draft { IsDraft self.old.draft }
        requires number { self.old.number < 2 ^ 63 }
        requires room { HasRoom (reached_by self.old).held (length line.now) }
        ensures draft { IfOk result (λ _. IsDraft self.new.draft) }
        ensures step { MatchResult result
            (λ _. line_step (reached_by self.old) (line_of line.now) ≡ Ok (reached_by self.new))
            (λ f. Refuses (line_step (reached_by self.old) (line_of line.now)) f) }
    {
        self.take(alloc, kind_of(line))?;
        self.number += 1;
        Ok(())
    }

    // The fault of a text whose lines have none.
    fn end_fault(&self) -> Option<ManifestError>
        ensures { MatchOption result
            (end_fault (reached_by self.now) (reached_by self.now).held ≡ None)
            (λ f. end_fault (reached_by self.now) (reached_by self.now).held ≡ Some f) }
    {
        let draft = &self.draft;
        if self.block.is_some() {
            return Some(ManifestError::Unclosed(self.opened));
        }
        if !self.has_rules {
            return Some(ManifestError::MissingBlock(Block::Rules));
        }
        if !self.has_state {
            return Some(ManifestError::MissingBlock(Block::State));
        }
        if draft.height == 0 {
            return Some(ManifestError::NoSites);
        }
        if draft.rule_count > RULE_LIMIT as u64 {
            return Some(ManifestError::TooManyRules(draft.rule_count));
        }
        if draft.site_count > SITE_LIMIT as u64 {
            return Some(ManifestError::TooManySites(draft.site_count));
        }
        if draft.wrap && (draft.width < 3 || draft.height < 3) {
            return Some(ManifestError::WrapSize);
        }
        None
    }

    /// The manifest that was read, or the fault of its end.
    pub fn finish(self) -> Result<Manifest, ManifestError>
        requires draft { IsDraft self.draft }
        requires whole { (m : ManifestText) → finished (reached_by self) ≡ Ok m → IsWellFormed m }
        requires sides { (self.draft.width < 2 ^ 32) × (self.draft.height < 2 ^ 32) }
        ensures ok { IfOk result (λ m. finished (reached_by self) ≡ Ok m.text) }
        ensures names { IfOk result (λ m. length m.names ≤ 37748736) }
        ensures named { IfOk result (λ m. m.names ≡ (reached_by self).held.names) }
        ensures refused { IfErr result (λ f. finished (reached_by self) ≡ Err f) }
    {
        if let Some(fault) = self.end_fault() {
            return Err(fault);
        }
        let draft = self.draft;
        Ok(Manifest {
            kind: draft.kind,
            wrap: draft.wrap,
            width: draft.width as u32,
            height: draft.height as u32,
            options: draft.options,
            names: draft.names.into_names(),
            rules: draft.rules,
            start: draft.start,
            colormap: colormap(self.has_colours, draft.colours),
        })
    }
}

// The lines of the colormap, where it was opened.
fn colormap(is_opened: bool, lines: Vec<Text>) -> Option<Vec<Text>>
    ensures { lines_in result ≡ (if is_opened then Some lines.items else None) }
{
    if is_opened { Some(lines) } else { None }
}
