// The parts of a manifest that were read so far.
ghost use Rattle.std.specs.Prelude.{◌≡◌, ◌<◌, ◌^◌, IfOk, MatchResult, length, true};
ghost use Rattle.surf_manifest_lines.specs.Answers.{Refuses};
ghost use Rattle.surf_manifest.specs.Drafts.{HasRoom, IsDraft, held_by};
ghost use Rattle.surf_manifest_lines.specs.Item.{Colour, Kept, item_of, option_of, rule_line_of};
ghost use Rattle.surf_manifest.specs.Limits.{at_start, holding, item_step, with_rule};
ghost use Rattle.surf_manifest_lines.specs.Said.{rule_of_line};
ghost use Rattle.surf_manifest_lines.specs.WellFormed.{is_rule};

use crate::interner::Interner;
use crate::numbering::numbered_rule;
use std::alloc::Global;
use surf_base::{NoMemory, Text};
use surf_lattice::GridKind;
use surf_manifest_lines::{
    BlockKind, ManifestError, OptionLine, RuleLine, Setting, option_line, rule_line,
};
use surf_rules::Rule;

/// The parts of a manifest that were read so far. Rules and sites beyond the limits are counted
/// and not kept.
#[derive(Drop)]
pub struct Draft {
    pub kind: GridKind,
    pub wrap: bool,
    pub options: Vec<OptionLine>,
    pub names: Interner,
    pub rules: Vec<Rule>,
    pub rule_count: u64,
    pub width: u64,
    pub height: u64,
    pub start: Vec<u32>,
    pub site_count: u64,
    pub colours: Vec<Text>,
}

/// The most rules that a manifest has.
pub const RULE_LIMIT: usize = 1_048_576;

/// The most sites that a manifest has.
pub const SITE_LIMIT: usize = 33_554_432;

// A copy of some bytes as a text.
fn text(alloc: Global, bytes: &[u8]) -> Result<Text, NoMemory>
    ensures { IfOk result (λ t. t ≡ bytes.now) }
{
    let copy = bytes.to_vec(alloc).map_err(|_| NoMemory)?;
    Ok(Text::new(copy))
}

impl Draft {
    /// Nothing yet of a text.
    pub fn new(alloc: Global, source: &[u8]) -> Draft
        ensures draft { IsDraft result }
        ensures held { held_by result ≡ at_start.held }
    {
        Draft {
            kind: GridKind::Square,
            wrap: false,
            options: Vec::new(alloc),
            names: Interner::new(alloc, source),
            rules: Vec::new(alloc),
            rule_count: 0,
            width: 0,
            height: 0,
            start: Vec::new(alloc),
            site_count: 0,
            colours: Vec::new(alloc),
        }
    }

    /// Keeps an option line.
    pub fn keep(&mut self, alloc: Global, key: &[u8], value: &[u8]) -> Result<(), NoMemory>
        requires { IsDraft self.old }
        ensures draft { IfOk result (λ _. IsDraft self.new) }
        ensures held { IfOk result
            (λ _. held_by self.new
            ≡ holding (held_by self.old) (Kept (record { key = key.now; value = value.now }))) }
    {
        let line = OptionLine {
            key: text(alloc, key)?,
            value: text(alloc, value)?,
        };
        self.options.push(line).map_err(|_| NoMemory)?;
        Ok(())
    }

    /// Keeps a line of the colormap.
    pub fn add_colour(&mut self, alloc: Global, line: &[u8]) -> Result<(), NoMemory>
        requires { IsDraft self.old }
        ensures draft { IfOk result (λ _. IsDraft self.new) }
        ensures held { IfOk result
            (λ _. held_by self.new ≡ holding (held_by self.old) (Colour line.now)) }
    {
        let line = text(alloc, line)?;
        self.colours.push(line).map_err(|_| NoMemory)?;
        Ok(())
    }

    /// Adds a rule, which is kept within the limit.
    pub fn add_rule(&mut self, line: &RuleLine<'_>) -> Result<(), NoMemory>
        requires draft { IsDraft self.old }
        requires rule { is_rule (rule_of_line line.now) ≡ true }
        requires counted { self.old.rule_count < 2 ^ 63 }
        ensures draft { IfOk result (λ _. IsDraft self.new) }
        ensures held { IfOk result
            (λ _. held_by self.new ≡ with_rule (held_by self.old) (rule_of_line line.now)) }
    {
        self.rule_count += 1;
        if self.rules.len() >= RULE_LIMIT {
            return Ok(());
        }
        let rule = numbered_rule(&mut self.names, line)?;
        self.rules.push(rule).map_err(|_| NoMemory)?;
        Ok(())
    }

    /// Adds the option line `number`.
    fn add_option(&mut self, alloc: Global, number: u64, line: &[u8]) -> Result<(), ManifestError>
        requires { IsDraft self.old }
        ensures draft { IfOk result (λ _. IsDraft self.new) }
        ensures step { MatchResult result
            (λ _. item_step number (held_by self.old) (option_of number line.now)
            ≡ Ok (held_by self.new))
            (λ f. Refuses (item_step number (held_by self.old) (option_of number line.now)) f) }
    {
        match option_line(number, line)? {
            Setting::Geometry(kind) => self.kind = kind,
            Setting::Wrap(wrap) => self.wrap = wrap,
            Setting::Kept(key, value) => self
                .keep(alloc, key, value)
                .map_err(|_| ManifestError::NoMemory)?,
        }
        Ok(())
    }

    /// Adds the rule of line `number`.
    fn add_rule_line(&mut self, number: u64, line: &[u8]) -> Result<(), ManifestError>
        requires draft { IsDraft self.old }
        requires counted { self.old.rule_count < 2 ^ 63 }
        ensures draft { IfOk result (λ _. IsDraft self.new) }
        ensures step { MatchResult result
            (λ _. item_step number (held_by self.old) (rule_line_of number line.now)
            ≡ Ok (held_by self.new))
            (λ f. Refuses (item_step number (held_by self.old) (rule_line_of number line.now)) f) }
    {
        let rule = rule_line(number, line)?;
        self.add_rule(&rule).map_err(|_| ManifestError::NoMemory)
    }

    /// Adds what the content line `number` says in its block. After a refusal the draft is of no use.
    pub fn add_line(
        &mut self,
        alloc: Global,
        number: u64,
        block: Option<BlockKind>,
        line: &[u8],
    ) -> Result<(), ManifestError>
        requires draft { IsDraft self.old }
        requires counted { HasRoom (held_by self.old) (length line.now) }
        ensures draft { IfOk result (λ _. IsDraft self.new) }
        ensures step { MatchResult result
            (λ _. item_step number (held_by self.old) (item_of number block line.now)
            ≡ Ok (held_by self.new))
            (λ f. Refuses (item_step number (held_by self.old) (item_of number block line.now)) f) }
    {
        match block {
            None => self.add_option(alloc, number, line),
            Some(BlockKind::Rules) => self.add_rule_line(number, line),
            Some(BlockKind::State) => self.add_row(number, line),
            Some(BlockKind::Colormap) => self
                .add_colour(alloc, line)
                .map_err(|_| ManifestError::NoMemory),
        }
    }
}
