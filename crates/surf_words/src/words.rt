// The command that words spell.
ghost use Rattle.std.specs.Prelude.{◌≡◌, ◌<◌, ◌≤◌, ◌^◌, None, Some, IfOk, IfSome, MatchResult, OnErr, map, string_bytes, option_and_then};
ghost use Rattle.std.specs.Option.{option_map};
ghost use Rattle.std.specs.List.{list_all};
ghost use Rattle.surf_base.specs.Decimal.{decimal_of};
ghost use Rattle.surf_words.specs.Words.{IsWithin, automaton_words, words_of, spoken, one_word, two_words, three_words, demo_words, run_words, bits_of, is_bit, number_of};

use crate::Command;
use surf_base::read_decimal;

/// The words are not in the table of commands.
#[derive(Clone, Copy, Debug, PartialEq, Eq)]
pub struct UsageError;

/// The command that the words after the program's name spell. `UsageError` exactly where they are
/// not in the table.
pub fn read_words(words: &[String]) -> Result<Command<'_>, UsageError>
    ensures command { MatchResult result
        (λ c. words_of (map string_bytes words.now) ≡ Some (spoken c))
        (λ _. words_of (map string_bytes words.now) ≡ None) }
    ensures within { IfOk result (λ c. IsWithin (spoken c)) }
{
    let command = match words {
        [word] => one_word(word.as_bytes()),
        [word, value] => two_words(word.as_bytes(), value.as_bytes()),
        [word, first, second] => {
            three_words(word.as_bytes(), first.as_bytes(), second.as_bytes())
        }
        _ => None,
    };
    command.ok_or(UsageError)
}

fn one_word(word: &[u8]) -> Option<Command<'static>>
    ensures command { option_map spoken result ≡ one_word word.now }
    ensures within { IfSome result (λ c. IsWithin (spoken c)) }
{
    if word == b"format".as_slice() {
        return Some(Command::Format);
    }
    if word == b"circuit".as_slice() {
        return Some(Command::Circuit);
    }
    if word == b"replay".as_slice() {
        return Some(Command::Replay);
    }
    if word == b"outputs".as_slice() {
        return Some(Command::Outputs);
    }
    None
}

fn two_words<'a>(word: &[u8], value: &'a [u8]) -> Option<Command<'a>>
    ensures command { option_map spoken result ≡ two_words word.now value.now }
    ensures within { IfSome result (λ c. IsWithin (spoken c)) }
{
    if word == b"eval".as_slice() {
        return Some(Command::Eval { bits: bits(value)? });
    }
    if word == b"set".as_slice() {
        return Some(Command::Set { bits: bits(value)? });
    }
    if word == b"automaton".as_slice() {
        return Some(Command::Automaton {
            margin: number(0, 1_000, value)?,
            last: None,
        });
    }
    if word == b"step".as_slice() {
        return Some(Command::Step {
            times: number(0, 1_000_000, value)?,
        });
    }
    if word == b"observe".as_slice() {
        return Some(Command::Observe {
            k: read_decimal(value)?,
        });
    }
    None
}

fn three_words(word: &[u8], first: &[u8], second: &[u8]) -> Option<Command<'static>>
    ensures command { option_map spoken result ≡ three_words word.now first.now second.now }
    ensures within { IfSome result (λ c. IsWithin (spoken c)) }
{
    if word == b"run".as_slice() {
        return run(first, second);
    }
    if word == b"automaton".as_slice() {
        return automaton(first, second);
    }
    if word == b"demo".as_slice() {
        return demo(first, second);
    }
    None
}

fn run(seed: &[u8], count: &[u8]) -> Option<Command<'static>>
    ensures command { option_map spoken result ≡ run_words seed.now count.now }
    ensures within { IfSome result (λ c. IsWithin (spoken c)) }
{
    Some(Command::Run {
        seed: read_decimal(seed)?,
        count: read_decimal(count)?,
    })
}

fn automaton(margin: &[u8], last: &[u8]) -> Option<Command<'static>>
    ensures command { option_map spoken result ≡ automaton_words margin.now last.now }
    ensures within { IfSome result (λ c. IsWithin (spoken c)) }
{
    Some(Command::Automaton {
        margin: number(0, 1_000, margin)?,
        last: Some(number(1, 1_000_000, last)?),
    })
}

fn demo(word: &[u8], value: &[u8]) -> Option<Command<'static>>
    ensures command { option_map spoken result ≡ demo_words word.now value.now }
    ensures within { IfSome result (λ c. IsWithin (spoken c)) }
{
    if word == b"adder".as_slice() {
        return Some(Command::DemoAdder {
            n: number(1, 32, value)?,
        });
    }
    if word == b"vote".as_slice() {
        return Some(Command::DemoVote {
            n: number(1, 64, value)?,
        });
    }
    None
}

// A word of `0` and `1`.
fn bits(word: &[u8]) -> Option<&[u8]>
    ensures { option_map (λ b. b.now) result ≡ bits_of word.now }
{
    if are_bits(word) { Some(word) } else { None }
}

fn are_bits(word: &[u8]) -> bool
    ensures { result ≡ list_all is_bit word.now }
{
    word.iter().all(|b| *b == b'0' || *b == b'1')
}

// A decimal within bounds.
fn number(least: u32, most: u32, word: &[u8]) -> Option<u32>
    ensures number { result ≡ number_of least most word.now }
    ensures within { IfSome result (λ n. (least ≤ n) × (n ≤ most)) }
{
    let n = read_decimal(word)?;
    if u64::from(least) <= n && n <= u64::from(most) {
        Some(n as u32)
    } else {
        None
    }
}
