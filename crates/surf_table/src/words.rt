// The numbers of a line.
ghost use Rattle.std.specs.Prelude.{◌≡◌, ◌≤◌, ◌^◌, IfErr, IfOk, List, Some};
ghost use Rattle.surf_text.specs.Bytes.{tokens_of};
ghost use Rattle.surf_table.specs.TableLines.{Line as SpecLine, number_line, numbers, size_line};
ghost use Rattle.surf_table.specs.TableTexts.{Refuses, read_line};
ghost use Rattle.surf_table.specs.Readings.{onto};

use crate::lines::Line;
use surf_auto::SourceError;
use surf_base::{read_below, read_decimal};
use surf_text::next_token;

/// The number of a line that has this word, a number and no more.
pub(crate) fn number_line(key: &[u8], words: &[u8]) -> Option<u64>
    ensures { result ≡ number_line key.now (tokens_of words.now) }
{
    let (word, rest) = next_token(words)?;
    let (number, rest) = next_token(rest)?;
    if next_token(rest).is_some() {
        return None;
    }
    if word != key {
        return None;
    }
    read_decimal(number)
}

/// The width and the height of a line that has them.
pub(crate) fn size_line(words: &[u8]) -> Option<(u32, u32)>
    ensures { result ≡ size_line (tokens_of words.now) }
{
    let (word, rest) = next_token(words)?;
    let (width, rest) = next_token(rest)?;
    let (height, rest) = next_token(rest)?;
    if next_token(rest).is_some() {
        return None;
    }
    if word != b"size".as_slice() {
        return None;
    }
    match (read_below(1 << 32, width), read_below(1 << 32, height)) {
        (Some(width), Some(height)) => Some((width, height)),
        _ => None,
    }
}

/// Appends the numbers below the limit of the rest of a line, which must be so many.
///
/// After a refusal the numbers are of no use.
pub(crate) fn add_numbers(
    kept: &mut Vec<u32>,
    line: u64,
    rest: &[u8],
    count: u32,
    limit: u64,
) -> Result<(), SourceError>
    requires { limit ≤ 2 ^ 32 }
    ensures ok { IfOk result
        (λ _. onto kept.old.items (numbers count limit (tokens_of rest.now))
        ≡ Some kept.new.items) }
    ensures refused { IfErr result
        (λ f. (ls : List SpecLine)
        → Refuses (read_line line ls (numbers count limit (tokens_of rest.now))) f) }
{
    let mut words = rest;
    let mut left = count;
    while let Some((word, after)) = next_token(words) {
        if left == 0 {
            return Err(SourceError::BadTable(line));
        }
        let Some(number) = read_below(limit, word) else {
            return Err(SourceError::BadTable(line));
        };
        kept.push(number).map_err(|_| SourceError::NoMemory)?;
        left -= 1;
        words = after;
    }
    if left > 0 {
        return Err(SourceError::BadTable(line));
    }
    Ok(())
}
