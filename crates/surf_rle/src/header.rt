// The header of a pattern.
ghost use Rattle.std.specs.Prelude.{◌≡◌, MatchOption, None, Some};
ghost use Rattle.std.specs.Option.{option_map};
ghost use Rattle.surf_rle.specs.Said.{header_by};
ghost use Rattle.surf_rle.specs.Headers.{header_of, number_in, rule_in, value_in};

use surf_base::read_below;
use surf_text::{cut, trim};

/// The sides of the box, and the text of the rule.
#[derive(Clone, Copy, Debug)]
pub struct Header<'a> {
    pub width: u32,
    pub height: u32,
    pub rule: &'a [u8],
}

// What a field gives to a key.
fn value<'a>(key: &[u8], field: &'a [u8]) -> Option<&'a [u8]>
    ensures { MatchOption result (value_in key.now field.now ≡ None)
        (λ r. value_in key.now field.now ≡ Some r.now) }
{
    let (front, rest) = cut(field, b'=');
    if trim(front) != key {
        return None;
    }
    match rest {
        Some(text) => Some(trim(text)),
        None => None,
    }
}

fn number(key: &[u8], field: &[u8]) -> Option<u32>
    ensures { result ≡ number_in key.now field.now }
{
    match value(key, field) {
        Some(text) => read_below(1 << 32, text),
        None => None,
    }
}

// The rule by the third field, which may be missing.
fn rule<'a>(field: Option<&'a [u8]>) -> Option<&'a [u8]>
    ensures { MatchOption result (rule_in (option_map (λ t. t.now) field.entry) ≡ None)
        (λ r. rule_in (option_map (λ t. t.now) field.entry) ≡ Some r.now) }
{
    match field {
        Some(text) => value(b"rule", text),
        None => Some(b"B3/S23".as_slice()),
    }
}

/// The header that a line spells.
pub fn read_header(line: &[u8]) -> Option<Header<'_>>
    ensures { MatchOption result (header_of line.now ≡ None)
        (λ h. header_of line.now ≡ Some (header_by h)) }
{
    let (first, behind) = cut(line, b',');
    let width = number(b"x", first)?;
    let (second, third) = cut(behind?, b',');
    let height = number(b"y", second)?;
    let rule = rule(third)?;
    Some(Header {
        width,
        height,
        rule,
    })
}
