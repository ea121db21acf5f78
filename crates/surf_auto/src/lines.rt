// Which text is a table.
ghost use Rattle.std.specs.Prelude.{◌≡◌};
ghost use Rattle.surf_text.specs.Bytes.{tokens_of};
ghost use Rattle.surf_auto.specs.Lines.{told, is_comment, is_table};

use surf_text::{Lines, next_token};

fn is_comment_token(token: &[u8]) -> bool
    ensures { result ≡ is_comment token.now }
{
    !token.is_empty() && token[0] == b'#'
}

// What a line tells of the text, where it isn't empty and is no comment.
fn line_tells(line: &[u8]) -> Option<bool>
    ensures { result ≡ told (tokens_of line.now) }
{
    let (token, _) = next_token(line)?;
    if is_comment_token(token) {
        return None;
    }
    Some(token == b"automaton".as_slice())
}

/// Whether a text is a table: its first line that isn't empty and doesn't begin with `#`, without the
/// blanks at its ends, has the first token `automaton`.
pub fn is_table(bytes: &[u8]) -> bool
    ensures { result ≡ is_table bytes.now }
{
    let mut lines = Lines::new(bytes, 0);
    while let Some(line) = lines.next() {
        if let Some(is_told) = line_tells(line) {
            return is_told;
        }
    }
    false
}
