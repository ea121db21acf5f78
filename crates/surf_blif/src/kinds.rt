// What a logical line is, by itself.
ghost use Rattle.std.specs.List.{list_all};
ghost use Rattle.std.specs.Prelude.{◌≡◌, ◌≤◌, length};
ghost use Rattle.surf_text.specs.Bytes.{tokens_of};
ghost use Rattle.surf_blif.specs.Kinds.{length_of_kind, line_of_kind};
ghost use Rattle.surf_blif.specs.Lines.{begins_directive, directive, line_of, may_stand};

use surf_text::{is_blank_byte, next_token};

/// What a logical line is. Declared names are what follows the directive.
#[derive(Clone, Copy, Debug)]
pub enum LineKind<'a> {
    /// No tokens.
    Skipped,
    /// `.model`, and whether all bytes of the line may stand in a text.
    Model(bool),
    /// `.end`, and whether all bytes of the line may stand in a text.
    End(bool),
    /// A byte that may not stand in a text.
    Bad,
    Inputs(&'a [u8]),
    Outputs(&'a [u8]),
    Names(&'a [u8]),
    /// Another directive.
    Other(&'a [u8]),
    /// The row of a cover.
    Row(&'a [u8]),
}

// Whether all bytes may stand outside of comments.
fn all_may_stand(text: &[u8]) -> bool
    ensures { result ≡ list_all may_stand text.now }
{
    text.iter().all(|byte| is_blank_byte(*byte) || (33 <= *byte && *byte <= 126))
}

fn is_directive(token: &[u8]) -> bool
    ensures { result ≡ begins_directive token.now }
{
    !token.is_empty() && token[0] == b'.'
}

// The directive of a token, and what follows it.
fn directive_kind<'a>(token: &'a [u8], rest: &'a [u8]) -> LineKind<'a>
    ensures line { directive token.now (tokens_of rest.now) ≡ line_of_kind result }
    ensures within { length_of_kind result ≤ length rest.now }
{
    if token == b".inputs".as_slice() {
        return LineKind::Inputs(rest);
    }
    if token == b".outputs".as_slice() {
        return LineKind::Outputs(rest);
    }
    if token == b".names".as_slice() {
        return LineKind::Names(rest);
    }
    LineKind::Other(token)
}

/// What a logical line is, by itself.
pub fn kind_of(text: &[u8]) -> LineKind<'_>
    ensures line { line_of text.now ≡ line_of_kind result }
    ensures within { length_of_kind result ≤ length text.now }
{
    let Some((token, rest)) = next_token(text) else {
        return LineKind::Skipped;
    };
    let stand = all_may_stand(text);
    if token == b".model".as_slice() {
        return LineKind::Model(stand);
    }
    if token == b".end".as_slice() {
        return LineKind::End(stand);
    }
    if !stand {
        return LineKind::Bad;
    }
    if is_directive(token) {
        return directive_kind(token, rest);
    }
    LineKind::Row(text)
}
