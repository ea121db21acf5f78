// Rows of the initial state.
ghost use Rattle.std.specs.List.{list_all};
ghost use Rattle.std.specs.Prelude.{◌≡◌, ◌+◌, ◌<◌, ◌^◌, IfErr, IfNone, IfOk, IfSome, MatchResult, Some, [], ◌∷◌, length, slice_get, true};
ghost use Rattle.surf_rules.specs.Names.{text_of};
ghost use Rattle.surf_manifest_lines.specs.Answers.{Refuses};
ghost use Rattle.surf_text.specs.Bytes.{tokens_of};
ghost use Rattle.surf_manifest.specs.Drafts.{IsDraft, held_by};
ghost use Rattle.surf_manifest_lines.specs.Item.{is_name, row_of};
ghost use Rattle.surf_manifest.specs.Limits.{item_step, with_names, with_row};

use crate::draft::{Draft, SITE_LIMIT};
use surf_base::NoMemory;
use surf_manifest_lines::{ManifestError, is_name_token};
use surf_text::{is_blank_byte, next_token};

// The first token of a row, and what follows it.
#[inline(always)]
fn name_token(text: &[u8]) -> Option<(&[u8], &[u8])>
    ensures some { IfSome result (λ r. tokens_of text.now ≡ r.0.now ∷ tokens_of r.1.now) }
    ensures shorter { IfSome result (λ r. length r.1.now < length text.now) }
    ensures none { IfNone result (tokens_of text.now ≡ []) }
{
    // most names are one byte long
    if text.len() > 1 && !is_blank_byte(text[0]) && is_blank_byte(text[1]) {
        return Some((&text[..1], &text[2..]));
    }
    next_token(text)
}

impl Draft {
    // Adds a site of this name, which is kept within the limit.
    fn add_site(&mut self, name: &[u8]) -> Result<(), NoMemory>
        requires draft { IsDraft self.old }
        requires name { is_name name.now ≡ true }
        requires counted { self.old.site_count < 2 ^ 63 }
        ensures draft { IfOk result (λ _. IsDraft self.new) }
        ensures held { IfOk result
            (λ _. held_by self.new ≡ with_names (held_by self.old) (name.now ∷ [])) }
    {
        self.site_count += 1;
        if self.start.len() >= SITE_LIMIT {
            return Ok(());
        }
        let number = self.names.intern(name)?;
        self.start.push(number).map_err(|_| NoMemory)?;
        Ok(())
    }

    // Adds a site of a name that is there.
    #[inline(always)]
    fn add_known(&mut self, name: u32) -> Result<(), NoMemory>
        requires draft { IsDraft self.old }
        requires name { name < length self.old.names }
        requires counted { self.old.site_count < 2 ^ 63 }
        ensures draft { IfOk result (λ _. IsDraft self.new) }
        ensures held { IfOk result
            (λ _. held_by self.new
            ≡ with_names (held_by self.old) (text_of self.old.names name ∷ [])) }
    {
        self.site_count += 1;
        if self.start.len() >= SITE_LIMIT {
            return Ok(());
        }
        self.start.push(name).map_err(|_| NoMemory)?;
        Ok(())
    }

    // Adds a site of this name, whose number may be known.
    #[inline(always)]
    fn add_name(&mut self, name: &[u8], known: Option<u32>) -> Result<(), NoMemory>
        requires draft { IsDraft self.old }
        requires name { IfNone known (is_name name.now ≡ true) }
        requires known { IfSome known (λ k. slice_get self.old.names k ≡ Some name.now) }
        requires counted { self.old.site_count < 2 ^ 63 }
        ensures draft { IfOk result (λ _. IsDraft self.new) }
        ensures held { IfOk result
            (λ _. held_by self.new ≡ with_names (held_by self.old) (name.now ∷ [])) }
    {
        match known {
            Some(number) => self.add_known(number),
            None => self.add_site(name),
        }
    }

    // Adds the names of a row, and answers how many they are.
    fn add_names(&mut self, number: u64, text: &[u8]) -> Result<u64, ManifestError>
        requires draft { IsDraft self.old }
        requires counted { self.old.site_count + length text.now < 2 ^ 63 }
        ensures draft { IfOk result (λ _. IsDraft self.new) }
        ensures count { IfOk result (λ n. n ≡ length (tokens_of text.now)) }
        ensures names { IfOk result (λ _. list_all is_name (tokens_of text.now) ≡ true) }
        ensures held { IfOk result
            (λ _. held_by self.new ≡ with_names (held_by self.old) (tokens_of text.now)) }
        ensures refused { IfErr result (λ f. Refuses (row_of number (tokens_of text.now)) f) }
    {
        let mut count = 0u64;
        let mut rest = text;
        while let Some((token, after)) = name_token(rest) {
            let known = self.names.recall(token);
            if known.is_none() && !is_name_token(token) {
                return Err(ManifestError::BadLine(number));
            }
            self.add_name(token, known)
                .map_err(|_| ManifestError::NoMemory)?;
            count += 1;
            rest = after;
        }
        Ok(count)
    }

    // Ends the row of so many names.
    fn end_row(&mut self, count: u64)
        requires draft { IsDraft self.old }
        requires counted { self.old.height < 2 ^ 63 }
        ensures draft { IsDraft self.new }
        ensures held { held_by self.new ≡ with_row (held_by self.old) count }
    {
        if self.height == 0 {
            self.width = count;
        }
        self.height += 1;
    }

    /// Adds the row of line `number`. After a refusal the draft is of no use.
    pub fn add_row(&mut self, number: u64, text: &[u8]) -> Result<(), ManifestError>
        requires draft { IsDraft self.old }
        requires counted { self.old.site_count + length text.now < 2 ^ 63 }
        requires counted_rows { self.old.height < 2 ^ 63 }
        ensures draft { IfOk result (λ _. IsDraft self.new) }
        ensures step { MatchResult result
            (λ _. item_step number (held_by self.old) (row_of number (tokens_of text.now))
            ≡ Ok (held_by self.new))
            (λ f. Refuses (item_step number (held_by self.old)
            (row_of number (tokens_of text.now))) f) }
    {
        let count = self.add_names(number, text)?;
        if self.height != 0 && count != self.width {
            return Err(ManifestError::Ragged(number));
        }
        self.end_row(count);
        Ok(())
    }
}
