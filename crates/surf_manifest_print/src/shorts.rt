// Short names with a blank before each, as they stand in rows.
ghost use Rattle.std.specs.Prelude.{◌++◌, ◌==◌, ◌≡◌, ◌≤◌, IfOk, length, min, take};
ghost use Rattle.surf_manifest_print.specs.Rows.{short_text, short_texts};

use std::alloc::Global;
use std::marker::Model;
use surf_base::NoMemory;
use surf_rules::Names;

/// How many bytes wait together, and room for one more text.
pub const PIECE: usize = 4112;

/// A text of at most 16 bytes.
#[derive(Drop)]
pub struct Short {
    bytes: [u8; 16],
    len: usize,
}

impl Model for Short {
    ghost use Rattle.std.specs.Prelude.{◌≤◌, List, ℕ, take};

    ghost Value = { List ℕ };

    ghost view = { λ s. take s.len s.bytes };

    ghost invariant = { λ s. s.len ≤ 16 };
}

impl Short {
    /// A blank and a name, or nothing where the name is too long.
    pub fn new(name: &[u8]) -> Short
        ensures { result ≡ short_text name.now }
    {
        let mut bytes = [b' '; 16];
        let len = name.len();
        if len > 15 {
            return Short { bytes, len: 0 };
        }
        bytes[1..len + 1].copy_from_slice(name);
        Short {
            bytes,
            len: len + 1,
        }
    }

    /// Whether this is nothing.
    #[inline(always)]
    pub fn is_empty(&self) -> bool
        ensures { result ≡ (length self.now == 0) }
    {
        self.len == 0
    }

    /// Writes the text behind the first bytes of a piece, and answers how many these are then.
    #[inline(always)]
    pub fn put(&self, piece: &mut [u8; PIECE], len: usize) -> usize
        requires { len ≤ 4096 }
        ensures text { take result piece.new ≡ take len piece.old ++ self.now }
        ensures most { result ≤ 4112 }
    {
        piece[len..len + 16].copy_from_slice(&self.bytes);
        len + self.len
    }
}

// How many names there are, at most 256.
fn first_names(names: &Names) -> u32
    ensures { result ≡ min 256 (length names.now) }
{
    let count = names.len();
    if count < 256 { count } else { 256 }
}

/// The first 256 names, each with a blank before it where it is short.
pub fn shorts_of(alloc: Global, names: &Names) -> Result<Vec<Short>, NoMemory>
    ensures { IfOk result (λ v. v.items ≡ short_texts names.now) }
{
    let mut shorts = Vec::new(alloc);
    let count = first_names(names);
    for number in 0..count {
        let short = Short::new(names.text(number));
        shorts.push(short).map_err(|_| NoMemory)?;
    }
    Ok(shorts)
}
