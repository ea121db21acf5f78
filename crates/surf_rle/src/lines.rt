// The lines of a pattern.
ghost use Rattle.std.specs.Prelude.{◌≡◌};
ghost use Rattle.surf_auto.specs.Lines.{is_comment};
ghost use Rattle.surf_rle.specs.Rle.{is_skipped};

use surf_text::Skip;

/// Whether a line without the blanks at its ends is a comment.
pub fn is_comment_line(line: &[u8]) -> bool
    ensures { result ≡ is_comment line.now }
{
    !line.is_empty() && line[0] == b'#'
}

/// The lines above the header: empty ones and comments.
pub struct AboveHeader;

impl Skip for AboveHeader {
    ghost skipped = { is_skipped };

    fn skips(line: &[u8]) -> bool {
        line.is_empty() || is_comment_line(line)
    }
}
