// What a line is, by itself.
ghost use Rattle.std.specs.Prelude.{◌≡◌};
ghost use Rattle.surf_text.specs.Bytes.{tokens_of};
ghost use Rattle.surf_manifest_lines.specs.Line.{is_include, line_of, line_of_text, mark_of};
ghost use Rattle.surf_manifest_lines.specs.Kinds.{line_of_kind};

use surf_text::{next_token, trim};

/// A block of a manifest.
#[derive(Clone, Copy, Debug, PartialEq, Eq)]
pub enum BlockKind {
    Rules,
    State,
    Colormap,
}

/// What a line is. A content line is without the blanks at its ends.
#[derive(Clone, Copy, Debug)]
pub enum LineKind<'a> {
    Skipped,
    Opens(BlockKind),
    Closes(BlockKind),
    Includes,
    Unknown,
    Content(&'a [u8]),
}

// Whether the first token is the word of an inclusion.
fn is_inclusion(text: &[u8]) -> bool
    ensures { result ≡ is_include (tokens_of text.now) }
{
    match next_token(text) {
        Some((token, _)) => token == b"!INCLUDE".as_slice(),
        None => false,
    }
}

fn mark_kind(text: &[u8]) -> LineKind<'_>
    ensures { mark_of text.now ≡ line_of_kind result }
{
    if text == b"!START_TRANSITION_RULES".as_slice() {
        return LineKind::Opens(BlockKind::Rules);
    }
    if text == b"!END_TRANSITION_RULES".as_slice() {
        return LineKind::Closes(BlockKind::Rules);
    }
    if text == b"!START_INIT_STATE".as_slice() {
        return LineKind::Opens(BlockKind::State);
    }
    if text == b"!END_INIT_STATE".as_slice() {
        return LineKind::Closes(BlockKind::State);
    }
    if text == b"!START_COLORMAP".as_slice() {
        return LineKind::Opens(BlockKind::Colormap);
    }
    if text == b"!END_COLORMAP".as_slice() {
        return LineKind::Closes(BlockKind::Colormap);
    }
    if is_inclusion(text) {
        return LineKind::Includes;
    }
    LineKind::Unknown
}

fn text_kind(text: &[u8]) -> LineKind<'_>
    ensures { line_of_text text.now ≡ line_of_kind result }
{
    if text.is_empty() {
        return LineKind::Skipped;
    }
    let first = text[0];
    if first == b'#' || first == b'%' {
        return LineKind::Skipped;
    }
    if first == b'!' {
        return mark_kind(text);
    }
    LineKind::Content(text)
}

/// What a line is, by itself.
pub fn kind_of(line: &[u8]) -> LineKind<'_>
    ensures { line_of line.now ≡ line_of_kind result }
{
    text_kind(trim(line))
}
