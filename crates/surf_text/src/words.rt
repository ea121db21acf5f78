// Words: tokens of bytes 33 to 126.
ghost use Rattle.std.specs.List.{list_all};
ghost use Rattle.std.specs.Prelude.{◌≡◌};
ghost use Rattle.surf_text.specs.Bytes.{is_plain, is_word};

/// Whether all bytes are 33 to 126.
pub fn are_plain(token: &[u8]) -> bool
    ensures { result ≡ list_all is_plain token.now }
{
    token.iter().all(|byte| 33 <= *byte && *byte <= 126)
}

/// Whether a text is one token of bytes 33 to 126.
pub fn is_word(text: &[u8]) -> bool
    ensures { result ≡ is_word text.now }
{
    !text.is_empty() && are_plain(text)
}
