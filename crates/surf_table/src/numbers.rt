// Lines of many numbers.
ghost use Rattle.std.specs.Prelude.{◌≡◌, ◌≤◌, ◌<◌, ◌^◌, IfErr, IfOk, Ok};
ghost use Rattle.surf_table.specs.TableLines.{numbers_line, next_line};
ghost use Rattle.surf_table.specs.TableTexts.{Refuses, read};
ghost use Rattle.surf_table.specs.Readings.{kept_with};

use crate::lines::Lines;
use crate::words::add_numbers;
use surf_auto::SourceError;
use surf_base::read_decimal;
use surf_text::next_token;

/// Appends the numbers of the next line, which must be this word and so many numbers below the limit.
///
/// After a refusal the numbers are of no use.
pub(crate) fn read_numbers(
    kept: &mut Vec<u32>,
    lines: &mut Lines<'_>,
    key: &[u8],
    count: u32,
    limit: u64,
) -> Result<(), SourceError>
    requires { limit ≤ 2 ^ 32 }
    ensures ok { IfOk result
        (λ _. kept_with kept.old.items (read (numbers_line key.now count limit) lines.old)
        ≡ Ok (kept.new.items, lines.new)) }
    ensures refused { IfErr result
        (λ f. Refuses (read (numbers_line key.now count limit) lines.old) f) }
{
    let Some(line) = lines.next() else {
        return Err(SourceError::Unclosed);
    };
    let Some((word, rest)) = next_token(line.words) else {
        return Err(SourceError::BadTable(line.number));
    };
    if word != key {
        return Err(SourceError::BadTable(line.number));
    }
    add_numbers(kept, line.number, rest, count, limit)
}

/// Appends the next states of the next line, which must be those of this own state.
///
/// After a refusal the states are of no use.
pub(crate) fn read_next_states(
    kept: &mut Vec<u32>,
    lines: &mut Lines<'_>,
    own: u32,
    sums: u32,
    states: u32,
) -> Result<(), SourceError>
    ensures ok { IfOk result
        (λ _. kept_with kept.old.items (read (next_line sums states own) lines.old)
        ≡ Ok (kept.new.items, lines.new)) }
    ensures refused { IfErr result (λ f. Refuses (read (next_line sums states own) lines.old) f) }
{
    let Some(line) = lines.next() else {
        return Err(SourceError::Unclosed);
    };
    let Some((word, rest)) = next_token(line.words) else {
        return Err(SourceError::BadTable(line.number));
    };
    let Some((state, rest)) = next_token(rest) else {
        return Err(SourceError::BadTable(line.number));
    };
    if word != b"next".as_slice() {
        return Err(SourceError::BadTable(line.number));
    }
    if read_decimal(state) != Some(u64::from(own)) {
        return Err(SourceError::BadTable(line.number));
    }
    add_numbers(kept, line.number, rest, sums, u64::from(states))
}
