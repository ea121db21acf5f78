// Tokens as numbers of names.
ghost use Rattle.std.specs.List.{All};
ghost use Rattle.std.specs.Prelude.{◌≡◌, ◌+◌, ◌-◌, ◌<◌, ◌≤◌, ◌^◌, length, map, IfOk};
ghost use Rattle.surf_text.specs.Bytes.{tokens_of};
ghost use Rattle.surf_rules.specs.Names.{text_of};
ghost use Rattle.surf_blif.specs.Drafts.{IsGrown};

use std::alloc::Global;
use surf_base::NoMemory;
use surf_rules::Names;
use surf_text::next_token;

/// How many tokens there are.
pub fn count_tokens(line: &[u8]) -> usize
    ensures is { result ≡ length (tokens_of line.now) }
    ensures within { result ≤ length line.now }
{
    let mut rest = line;
    let mut count = 0;
    while let Some((_, after)) = next_token(rest) {
        rest = after;
        count += 1;
    }
    count
}

/// The numbers of all tokens. The names grow by at most as many texts as the line has bytes.
pub fn numbers_of(alloc: Global, names: &mut Names, line: &[u8]) -> Result<Vec<u32>, NoMemory>
    requires { length names.old + length line.now < 2 ^ 32 - 1 }
    ensures tokens { IfOk result (λ v. map (text_of names.new) v.items ≡ tokens_of line.now) }
    ensures below { IfOk result (λ v. All (λ k. k < length names.new) v.items) }
    ensures grown { IfOk result (λ _. IsGrown (length line.now) names.old names.new) }
{
    let mut numbers = Vec::new(alloc);
    let mut rest = line;
    while let Some((token, after)) = next_token(rest) {
        let number = names.intern(token)?;
        numbers.push(number).map_err(|_| NoMemory)?;
        rest = after;
    }
    Ok(numbers)
}
