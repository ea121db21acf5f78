// The first line of a text and the first token of a line.
ghost use Rattle.std.specs.Prelude.{◌≡◌, ◌+◌, ◌<◌, ◌≤◌, ◌∷◌, [], false, length, slice_index, IfSome, IfNone};
ghost use Rattle.surf_text.specs.Bytes.{lines_of, tokens_of, is_blank};

use crate::texts::is_blank_byte;

/// The first line of a text, and what follows it.
pub fn first_line(text: &[u8]) -> (&[u8], &[u8])
    requires { 0 < length text.now }
    ensures lines { lines_of text.now ≡ result.0.now ∷ lines_of result.1.now }
    ensures shorter { length result.1.now < length text.now }
    ensures part { length result.0.now + length result.1.now ≤ length text.now }
{
    for (i, byte) in text.iter().enumerate() {
        if *byte == b'\n' {
            return (&text[..i], &text[i + 1..]);
        }
    }
    (text, &text[text.len()..])
}

// The line from its first byte that isn't a blank.
fn without_blanks(line: &[u8]) -> &[u8]
    ensures tokens { tokens_of line.now ≡ tokens_of result.now }
    ensures begins { 0 < length result.now → is_blank (slice_index result.now 0) ≡ false }
    ensures shorter { length result.now ≤ length line.now }
{
    for (i, byte) in line.iter().enumerate() {
        if !is_blank_byte(*byte) {
            return &line[i..];
        }
    }
    &line[line.len()..]
}

/// The first token of a line, and what follows it.
pub fn next_token(line: &[u8]) -> Option<(&[u8], &[u8])>
    ensures some { IfSome result (λ r. tokens_of line.now ≡ r.0.now ∷ tokens_of r.1.now) }
    ensures shorter { IfSome result (λ r. length r.1.now < length line.now) }
    ensures none { IfNone result (tokens_of line.now ≡ []) }
{
    let rest = without_blanks(line);
    if rest.is_empty() {
        return None;
    }
    for (i, byte) in rest.iter().enumerate() {
        if is_blank_byte(*byte) {
            return Some((&rest[..i], &rest[i + 1..]));
        }
    }
    Some((rest, &rest[rest.len()..]))
}
