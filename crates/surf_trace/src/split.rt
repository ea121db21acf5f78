// What stands before the trace of a text.
ghost use Rattle.std.specs.Prelude.{ℕ, ◌≡◌, ◌+◌, ◌<◌, ◌≤◌, ◌∷◌, ◌++◌, List, [], take, length, IfSome, IfNone};
ghost use Rattle.surf_text.specs.Bytes.{lines_of};
ghost use Rattle.surf_trace.specs.Splits.{opens_trace, before_trace};

use surf_text::trim;

// The place of the first line feed.
fn line_feed(text: &[u8]) -> Option<usize>
    ensures within { IfSome result (λ i. i < length text.now) }
    ensures line { IfSome result
        (λ i. (after : List ℕ) → lines_of (take (i + 1) text.now ++ after)
        ≡ take i text.now ∷ lines_of after) }
    ensures none { IfNone result (0 < length text.now → lines_of text.now ≡ text.now ∷ []) }
{
    for (i, byte) in text.iter().enumerate() {
        if *byte == b'\n' {
            return Some(i);
        }
    }
    None
}

fn is_opening(line: &[u8]) -> bool
    ensures { result ≡ opens_trace line.now }
{
    trim(line) == b"!START_TRACE".as_slice()
}

/// The part of an input that stands before its trace: the lines before the first line
/// `!START_TRACE`, or all. One pass over the bytes, and no memory.
pub fn manifest_part(input: &[u8]) -> &[u8]
    ensures lines { lines_of result.now ≡ before_trace (lines_of input.now) }
    ensures within { length result.now ≤ length input.now }
{
    let mut start = 0;
    while let Some(i) = line_feed(&input[start..]) {
        if is_opening(&input[start..start + i]) {
            return &input[..start];
        }
        start += i + 1;
    }
    let unended = &input[start..];
    if is_opening(unended) {
        &input[..start]
    } else {
        input
    }
}
