// Words of bits.
ghost use Rattle.std.specs.Prelude.{◌≡◌, IfOk};
ghost use Rattle.surf_command_circuits.specs.Bits.{bits_of};

use std::alloc::Global;
use surf_base::NoMemory;

/// The bits that a word of 0 and 1 spells.
pub fn bits_of(alloc: Global, word: &[u8]) -> Result<Vec<bool>, NoMemory>
    ensures { IfOk result (λ v. v.items ≡ bits_of word.now) }
{
    let mut bits = Vec::with_capacity(alloc, word.len()).map_err(|_| NoMemory)?;
    for byte in word {
        bits.push(*byte == b'1').map_err(|_| NoMemory)?;
    }
    Ok(bits)
}
