// The rate of a rule.
ghost use Rattle.std.specs.Prelude.{◌≡◌, ◌≤◌, IfSome};
ghost use Rattle.surf_manifest_lines.specs.Item.{rate_of};
ghost use Rattle.surf_manifest_lines.specs.Rates.{whole_of, fraction_of};

use surf_text::cut;

fn whole(digits: &[u8]) -> Option<u64>
    ensures value { result ≡ whole_of digits.now }
    ensures small { IfSome result (λ v. v ≤ 1000000) }
{
    if digits.is_empty() {
        return None;
    }
    let mut value = 0u64;
    for byte in digits {
        if !byte.is_ascii_digit() {
            return None;
        }
        value = 10 * value + u64::from(*byte - b'0');
        if value > 1_000_000 {
            return None;
        }
    }
    Some(value)
}

fn fraction(digits: &[u8]) -> Option<u64>
    ensures value { result ≡ fraction_of digits.now }
    ensures small { IfSome result (λ v. v ≤ 1000000) }
{
    if digits.is_empty() || digits.len() > 6 {
        return None;
    }
    let mut value = 0u64;
    let mut weight = 100_000u64;
    for byte in digits {
        if !byte.is_ascii_digit() {
            return None;
        }
        value += u64::from(*byte - b'0') * weight;
        weight /= 10;
    }
    Some(value)
}

/// The millionths of a rate.
pub fn rate(text: &[u8]) -> Option<u64>
    ensures { result ≡ rate_of text.now }
{
    let (front, rest) = cut(text, b'.');
    let whole = whole(front)?;
    let part = match rest {
        Some(digits) => fraction(digits)?,
        None => 0,
    };
    let rate = whole * 1_000_000 + part;
    if rate > 1_000_000_000_000 {
        None
    } else {
        Some(rate)
    }
}
