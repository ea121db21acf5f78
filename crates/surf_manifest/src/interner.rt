// Names, with the numbers of those that came lately.
ghost use Rattle.std.specs.Prelude.{◌+◌, ◌-◌, ◌<◌, ◌≤◌, ◌^◌, ◌≡◌, IfOk, IfSome, OnErr, OnOk, Some, [], length, slice_get};
ghost use Rattle.surf_rules.specs.Names.{with_text};

use std::alloc::Global;
use std::marker::Model;
use surf_base::NoMemory;
use surf_rules::Names;

const SLOTS: usize = 1024;

/// Distinct texts, numbered in the order of their arrival. One that came lately is found without a
/// search.
#[derive(Drop)]
pub struct Interner {
    names: Names,
    recent: [u32; SLOTS],
}

impl Model for Interner {
    ghost use Rattle.std.specs.Prelude.{List, ℕ};

    ghost Value = { List (List ℕ) };

    ghost view = { λ i. i.names };
}

// Four bytes as one number.
#[inline(always)]
fn word(text: &[u8], at: usize) -> u64
    requires { at + 4 ≤ length text.now }
{
    u64::from(u32::from_le_bytes([text[at], text[at + 1], text[at + 2], text[at + 3]]))
}

// Where the number of a text is kept: by its first and its last bytes, of which texts of up to
// eight bytes have no others.
#[inline(always)]
fn slot_of(text: &[u8]) -> usize
    ensures { result < 1024 }
{
    let count = text.len();
    if count == 1 {
        return usize::from(text[0]);
    }
    let ends = if count >= 8 {
        let front = word(text, 0) << 32 | word(text, 4);
        front.wrapping_mul(31) ^ (word(text, count - 8) << 32 | word(text, count - 4))
    } else if count >= 4 {
        word(text, 0) << 32 | word(text, count - 4)
    } else if count > 0 {
        let first = u64::from(text[0]);
        let middle = u64::from(text[count / 2]);
        let last = u64::from(text[count - 1]);
        first << 16 | middle << 8 | last
    } else {
        0
    };
    (ends.wrapping_mul(0x9e37_79b9_7f4a_7c15) >> 40) as usize % SLOTS
}

impl Interner {
    /// No texts. Those to come stand in `source`. Takes no memory.
    pub fn new(alloc: Global, source: &[u8]) -> Interner
        ensures { result ≡ [] }
    {
        Interner {
            names: Names::keyed(alloc, source),
            recent: [0; SLOTS],
        }
    }

    /// The names.
    pub fn into_names(self) -> Names
        ensures { result ≡ self }
    {
        self.names
    }

    /// The number of a text that came lately.
    #[inline(always)]
    pub fn recall(&self, bytes: &[u8]) -> Option<u32>
        ensures found { IfSome result (λ k. slice_get self.now k ≡ Some bytes.now) }
        ensures within { IfSome result (λ k. k < length self.now) }
        ensures known { IfSome result (λ _. with_text self.now bytes.now ≡ self.now) }
    {
        let number = self.recent[slot_of(bytes)];
        if number < self.names.len() && self.names.text(number) == bytes {
            Some(number)
        } else {
            None
        }
    }

    /// The number of a text, which goes last where it is new. After `NoMemory` nothing has changed.
    pub fn intern(&mut self, bytes: &[u8]) -> Result<u32, NoMemory>
        requires room { length self.old < 2 ^ 32 - 1 }
        ensures found { IfOk result (λ k. slice_get self.new k ≡ Some bytes.now) }
        ensures within { IfOk result (λ k. k < length self.new) }
        ensures grown { OnOk result (self.new ≡ with_text self.old bytes.now) }
        ensures err { OnErr result (self.new ≡ self.old) }
    {
        if let Some(number) = self.recall(bytes) {
            return Ok(number);
        }
        let number = self.names.intern(bytes)?;
        self.recent[slot_of(bytes)] = number;
        Ok(number)
    }
}
