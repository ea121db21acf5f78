// The loop over the lines of a text.
ghost use Rattle.std.specs.Prelude.{◌≡◌, ◌≤◌, IfErr, IfOk, Ok, length, map};
ghost use Rattle.surf_text.specs.Bytes.{lines_of};
ghost use Rattle.surf_manifest_lines.specs.Answers.{Refuses};
ghost use Rattle.surf_manifest.specs.Drafts.{IsDraft};
ghost use Rattle.surf_manifest.specs.Grammar.{manifest_of};
ghost use Rattle.surf_manifest.specs.Limits.{after_lines, at_start, finished};
ghost use Rattle.surf_manifest_lines.specs.Line.{line_of};
ghost use Rattle.surf_manifest.specs.Naming.{names_in};
ghost use Rattle.surf_manifest.specs.Readings.{IsCounted, reached_by};

use crate::manifest::Manifest;
use crate::reading::Reading;
use std::alloc::Global;
use surf_manifest_lines::ManifestError;
use surf_text::Lines;

// Reads all lines, up to the first fault.
fn read_lines(alloc: Global, text: &[u8]) -> Result<Reading, ManifestError>
    requires { length text.now ≤ 2147483648 }
    ensures draft { IfOk result (λ r. IsDraft r.draft) }
    ensures counted { IfOk result (λ r. IsCounted 2147483648 (reached_by r)) }
    ensures read { IfOk result (λ r. manifest_of text.now ≡ finished (reached_by r)) }
    ensures after { IfOk result
        (λ r. after_lines at_start (map line_of (lines_of text.now)) ≡ reached_by r) }
    ensures refused { IfErr result (λ f. Refuses (manifest_of text.now) f) }
{
    let mut reading = Reading::new(alloc, text);
    let mut lines = Lines::new(text, 0);
    while let Some(line) = lines.next() {
        reading.read_line(alloc, line)?;
    }
    Ok(reading)
}

/// The manifest of a text, of at most 2,147,483,648 bytes, or the text's first fault.
///
/// One pass over the bytes. Rules and sites beyond the limits are counted and not kept.
pub fn read_manifest(alloc: Global, bytes: &[u8]) -> Result<Manifest, ManifestError>
    requires { length bytes.now ≤ 2147483648 }
    ensures ok { IfOk result (λ m. manifest_of bytes.now ≡ Ok m.text) }
    ensures named { IfOk result (λ m. m.names ≡ names_in bytes.now) }
    ensures names { IfOk result (λ m. length m.names ≤ 37748736) }
    ensures refused { IfErr result (λ f. Refuses (manifest_of bytes.now) f) }
{
    read_lines(alloc, bytes)?.finish()
}
