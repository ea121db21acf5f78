// Lines of the rule block.
ghost use Rattle.std.specs.Prelude.{◌≡◌, ◌&&◌, IfOk, MatchOption, MatchResult, None, Some, codes, true};
ghost use Rattle.std.specs.Str.{bytes_eq};
ghost use Rattle.surf_text.specs.Bytes.{after, before, tokens_of};
ghost use Rattle.surf_manifest_lines.specs.Item.{Rule, bracketed_rule, is_name, one_test, rule_from, rule_line_of, rule_of_tokens};
ghost use Rattle.surf_manifest_lines.specs.Said.{rule_of_line};
ghost use Rattle.surf_manifest_lines.specs.WellFormed.{is_rule};

use crate::error::ManifestError;
use crate::rates::rate;
use crate::words::is_name_token;
use surf_text::{cut, next_token, trim};

/// The names of a rule, at one site or at two.
#[derive(Clone, Copy, Debug)]
pub enum Sides<'a> {
    One(&'a [u8], &'a [u8]),
    Two(&'a [u8], &'a [u8], &'a [u8], &'a [u8]),
}

/// A rule as its line has it. The rate is in millionths.
#[derive(Clone, Copy, Debug)]
pub struct RuleLine<'a> {
    pub rate: u64,
    pub sides: Sides<'a>,
}

fn are_one(left: &[u8], arrow: &[u8], after: &[u8]) -> bool
    ensures { result ≡ one_test left.now arrow.now after.now }
{
    arrow == b"->".as_slice() && (is_name_token(left) && is_name_token(after))
}

fn are_signs(plus: &[u8], arrow: &[u8], also: &[u8]) -> bool
    ensures { result ≡ (bytes_eq plus.now (codes "+") &&
        (bytes_eq arrow.now (codes "->") && bytes_eq also.now (codes "+"))) }
{
    plus == b"+".as_slice() && (arrow == b"->".as_slice() && also == b"+".as_slice())
}

fn are_names(a: &[u8], b: &[u8], c: &[u8], d: &[u8]) -> bool
    ensures { result ≡ (is_name a.now && (is_name b.now && (is_name c.now && is_name d.now))) }
{
    is_name_token(a) && (is_name_token(b) && (is_name_token(c) && is_name_token(d)))
}

// The rule of these tokens, where they are one.
fn rule_tokens(rate: u64, text: &[u8]) -> Option<RuleLine<'_>>
    ensures { MatchOption result (rule_of_tokens rate (tokens_of text.now) ≡ None)
        (λ s. rule_of_tokens rate (tokens_of text.now) ≡ Some (rule_of_line s)) }
{
    let (a, rest) = next_token(text)?;
    let (b, rest) = next_token(rest)?;
    let (c, rest) = next_token(rest)?;
    let Some((d, rest)) = next_token(rest) else {
        return if are_one(a, b, c) {
            Some(RuleLine {
                rate,
                sides: Sides::One(a, c),
            })
        } else {
            None
        };
    };
    let (e, rest) = next_token(rest)?;
    let (f, rest) = next_token(rest)?;
    let (g, rest) = next_token(rest)?;
    if next_token(rest).is_some() {
        return None;
    }
    if are_signs(b, d, f) && are_names(a, c, e, g) {
        Some(RuleLine {
            rate,
            sides: Sides::Two(a, c, e, g),
        })
    } else {
        None
    }
}

// The rate before the closing bracket, and what follows that.
fn bracketed(number: u64, text: &[u8]) -> Result<(u64, &[u8]), ManifestError>
    ensures { MatchResult result
        (λ r. bracketed_rule number (before 41 text.now) (after 41 text.now)
        ≡ rule_from number r.0 (tokens_of r.1.now))
        (λ f. bracketed_rule number (before 41 text.now) (after 41 text.now) ≡ Err f) }
{
    let (inside, rest) = cut(text, b')');
    let Some(rest) = rest else {
        return Err(ManifestError::BadRate(number));
    };
    match rate(trim(inside)) {
        Some(rate) => Ok((rate, rest)),
        None => Err(ManifestError::BadRate(number)),
    }
}

// The rate of a rule line, and what follows it.
fn rated(number: u64, text: &[u8]) -> Result<(u64, &[u8]), ManifestError>
    ensures { MatchResult result
        (λ r. rule_line_of number text.now ≡ rule_from number r.0 (tokens_of r.1.now))
        (λ f. rule_line_of number text.now ≡ Err f) }
{
    if !text.is_empty() && text[0] == b'(' {
        bracketed(number, &text[1..])
    } else {
        Ok((1_000_000, text))
    }
}

/// The rule of the line of this number.
pub fn rule_line(number: u64, text: &[u8]) -> Result<RuleLine<'_>, ManifestError>
    ensures value { MatchResult result
        (λ r. rule_line_of number text.now ≡ Ok (Rule (rule_of_line r)))
        (λ f. rule_line_of number text.now ≡ Err f) }
    ensures rule { IfOk result (λ r. is_rule (rule_of_line r) ≡ true) }
{
    let (rate, rest) = rated(number, text)?;
    match rule_tokens(rate, rest) {
        Some(line) => Ok(line),
        None => Err(ManifestError::BadRule(number)),
    }
}
