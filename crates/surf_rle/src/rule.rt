// The text of a rule.
ghost use Rattle.std.specs.List.{list_all};
ghost use Rattle.std.specs.Prelude.{◌≡◌, ◌+◌, MatchOption, None, Some};
ghost use Rattle.surf_base.specs.Decimal.{is_digit};
ghost use Rattle.surf_text.specs.Bytes.{without_front};
ghost use Rattle.surf_rle.specs.RuleTexts.{behind, counts_of, digits_of, is_count, most, neighbours_of, rule_behind, rule_of};
ghost use Rattle.surf_rle.specs.Said.{rule_by};

use surf_text::cut;

/// Which neighbours a rule counts: the four or six of a grid, or all eight.
#[derive(Clone, Copy, Debug, PartialEq, Eq)]
pub enum Neighbours {
    Four,
    Six,
    Eight,
}

/// The digits of a rule in the order of the text, each at most the number of neighbours.
#[derive(Clone, Copy, Debug)]
pub struct RuleText<'a> {
    pub neighbours: Neighbours,
    pub birth: &'a [u8],
    pub survival: &'a [u8],
}

// The neighbours that a suffix stands for.
fn suffix_neighbours(suffix: &[u8]) -> Option<Neighbours>
    ensures { result ≡ neighbours_of suffix.now }
{
    match suffix {
        [] => Some(Neighbours::Eight),
        [b'V'] | [b'v'] => Some(Neighbours::Four),
        [b'H'] | [b'h'] => Some(Neighbours::Six),
        _ => None,
    }
}

/// What follows a first letter, which is a capital or small.
pub fn text_behind(capital: u8, small: u8, text: &[u8]) -> Option<&[u8]>
    ensures { MatchOption result (behind capital small text.now ≡ None)
        (λ r. behind capital small text.now ≡ Some r.now) }
{
    if text.is_empty() {
        return None;
    }
    if text[0] == capital || text[0] == small {
        Some(&text[1..])
    } else {
        None
    }
}

// The digits at the front, and what follows them.
fn cut_digits(text: &[u8]) -> (&[u8], &[u8])
    ensures digits { result.0.now ≡ digits_of text.now }
    ensures rest { result.1.now ≡ without_front is_digit text.now }
{
    for (i, byte) in text.iter().enumerate() {
        if !byte.is_ascii_digit() {
            return (&text[..i], &text[i..]);
        }
    }
    (text, &text[text.len()..])
}

// The digit of the most live neighbours.
fn last_digit(neighbours: Neighbours) -> u8
    ensures { result ≡ 48 + most neighbours }
{
    match neighbours {
        Neighbours::Four => b'4',
        Neighbours::Six => b'6',
        Neighbours::Eight => b'8',
    }
}

fn are_counts(neighbours: Neighbours, digits: &[u8]) -> bool
    ensures { result ≡ list_all (is_count neighbours) digits.now }
{
    let last = last_digit(neighbours);
    digits.iter().all(|digit| b'0' <= *digit && *digit <= last)
}

// The rule of these births, and of what follows its S.
fn rule_of_parts<'a>(birth: &'a [u8], text: &'a [u8]) -> Option<RuleText<'a>>
    ensures { MatchOption result (rule_behind birth.now (Some text.now) ≡ None)
        (λ r. rule_behind birth.now (Some text.now) ≡ Some (rule_by r)) }
{
    let (survival, suffix) = cut_digits(text);
    let neighbours = suffix_neighbours(suffix)?;
    if !are_counts(neighbours, birth) || !are_counts(neighbours, survival) {
        return None;
    }
    Some(RuleText {
        neighbours,
        birth,
        survival,
    })
}

/// The rule that a text spells.
pub fn read_rule(text: &[u8]) -> Option<RuleText<'_>>
    ensures { MatchOption result (rule_of text.now ≡ None)
        (λ r. rule_of text.now ≡ Some (rule_by r)) }
{
    let (front, rest) = cut(text, b'/');
    let birth = text_behind(b'B', b'b', front)?;
    let survival = text_behind(b'S', b's', rest?)?;
    rule_of_parts(birth, survival)
}

/// For each count from 0 to 8, whether its digit stands among these.
pub fn counts(digits: &[u8]) -> [bool; 9]
    ensures { result ≡ counts_of 9 digits.now }
{
    let mut table = [false; 9];
    for digit in digits {
        if b'0' <= *digit && *digit <= b'8' {
            table[(*digit - b'0') as usize] = true;
        }
    }
    table
}

/// For each count from 0 to 6, whether its digit stands among these.
pub fn few_counts(digits: &[u8]) -> [bool; 7]
    ensures { result ≡ counts_of 7 digits.now }
{
    let all = counts(digits);
    [all[0], all[1], all[2], all[3], all[4], all[5], all[6]]
}
