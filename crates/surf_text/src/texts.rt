// Blanks at the ends of a text, and cuts at a byte.
ghost use Rattle.std.specs.Prelude.{◌≡◌, Some, None, MatchOption};
ghost use Rattle.surf_text.specs.Bytes.{is_blank, without_front, without_end, trimmed, before, after};

/// Whether a byte is a blank: a space, a tab or a carriage return.
pub fn is_blank_byte(byte: u8) -> bool
    ensures { result ≡ is_blank byte }
{
    byte == b' ' || byte == b'\t' || byte == b'\r'
}

fn trim_front(line: &[u8]) -> &[u8]
    ensures { result.now ≡ without_front is_blank line.now }
{
    for (i, byte) in line.iter().enumerate() {
        if !is_blank_byte(*byte) {
            return &line[i..];
        }
    }
    &line[line.len()..]
}

fn trim_end(line: &[u8]) -> &[u8]
    ensures { result.now ≡ without_end is_blank line.now }
{
    let mut end = line.len();
    while end > 0 {
        if !is_blank_byte(line[end - 1]) {
            return &line[..end];
        }
        end -= 1;
    }
    &line[..0]
}

/// The line without the blanks at its ends.
pub fn trim(line: &[u8]) -> &[u8]
    ensures { result.now ≡ trimmed line.now }
{
    trim_end(trim_front(line))
}

/// What stands before the first such byte, and what follows it.
pub fn cut(text: &[u8], sign: u8) -> (&[u8], Option<&[u8]>)
    ensures front { result.0.now ≡ before sign text.now }
    ensures rest { MatchOption result.1 (after sign text.now ≡ None)
        (λ r. after sign text.now ≡ Some r.now) }
{
    for (i, byte) in text.iter().enumerate() {
        if *byte == sign {
            return (&text[..i], Some(&text[i + 1..]));
        }
    }
    (text, None)
}
