// Lines outside of blocks.
ghost use Rattle.std.specs.Char.{to_ascii_lowercase};
ghost use Rattle.std.specs.Prelude.{◌≡◌, map, MatchResult};
ghost use Rattle.surf_manifest_lines.specs.Item.{geometry_of, option_of, setting_of, wrap_of};
ghost use Rattle.surf_manifest_lines.specs.Said.{item_of_setting};

use crate::error::ManifestError;
use surf_lattice::GridKind;
use surf_text::{cut, is_word, trim};

/// What an option line sets.
#[derive(Clone, Copy, Debug)]
pub enum Setting<'a> {
    Geometry(GridKind),
    Wrap(bool),
    Kept(&'a [u8], &'a [u8]),
}

fn geometry<'a>(number: u64, value: &[u8]) -> Result<Setting<'a>, ManifestError>
    ensures { MatchResult result
        (λ s. geometry_of number (map to_ascii_lowercase value.now) ≡ Ok (item_of_setting s))
        (λ f. geometry_of number (map to_ascii_lowercase value.now) ≡ Err f) }
{
    if value.eq_ignore_ascii_case(b"square") {
        return Ok(Setting::Geometry(GridKind::Square));
    }
    if value.eq_ignore_ascii_case(b"hex") {
        return Ok(Setting::Geometry(GridKind::Hex));
    }
    Err(ManifestError::BadOption(number))
}

fn wrap<'a>(number: u64, value: &[u8]) -> Result<Setting<'a>, ManifestError>
    ensures { MatchResult result
        (λ s. wrap_of number (map to_ascii_lowercase value.now) ≡ Ok (item_of_setting s))
        (λ f. wrap_of number (map to_ascii_lowercase value.now) ≡ Err f) }
{
    if value.eq_ignore_ascii_case(b"true") {
        return Ok(Setting::Wrap(true));
    }
    if value.eq_ignore_ascii_case(b"false") {
        return Ok(Setting::Wrap(false));
    }
    Err(ManifestError::BadOption(number))
}

fn setting_at<'a>(number: u64, key: &'a [u8], value: &'a [u8]) -> Result<Setting<'a>, ManifestError>
    ensures { MatchResult result (λ s. setting_of number key.now value.now ≡ Ok (item_of_setting s))
        (λ f. setting_of number key.now value.now ≡ Err f) }
{
    if key == b"geometry".as_slice() {
        return geometry(number, value);
    }
    if key == b"wrap".as_slice() {
        return wrap(number, value);
    }
    Ok(Setting::Kept(key, value))
}

/// What the option line of this number sets.
pub fn option_line(number: u64, text: &[u8]) -> Result<Setting<'_>, ManifestError>
    ensures { MatchResult result (λ s. option_of number text.now ≡ Ok (item_of_setting s))
        (λ f. option_of number text.now ≡ Err f) }
{
    let (front, rest) = cut(text, b'=');
    let key = trim(front);
    let Some(value) = rest else {
        return Err(ManifestError::BadLine(number));
    };
    if !is_word(key) {
        return Err(ManifestError::BadLine(number));
    }
    setting_at(number, key, trim(value))
}
