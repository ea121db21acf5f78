// Names.
ghost use Rattle.std.specs.Prelude.{◌≡◌};
ghost use Rattle.surf_manifest_lines.specs.Item.{is_name};

use surf_text::are_plain;

/// Whether a text is a name.
pub fn is_name_token(token: &[u8]) -> bool
    ensures { result ≡ is_name token.now }
{
    if token.is_empty() {
        return false;
    }
    let first = token[0];
    are_plain(token)
        && !(token == b"+".as_slice())
        && !(token == b"->".as_slice())
        && !(first == b'#' || first == b'%' || first == b'!' || first == b'(')
}
