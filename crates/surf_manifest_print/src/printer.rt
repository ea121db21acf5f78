// Pieces of a printed text.
ghost use Rattle.std.specs.Fmt.{decimal};
ghost use Rattle.std.specs.Prelude.{◌++◌, ◌<◌, ◌==◌, ◌∷◌, ◌≡◌, IfOk, OnOk, [], length};
ghost use Rattle.surf_manifest_print.specs.Prints.{fraction_text, rate_text, six_digits};
ghost use Rattle.surf_text.specs.Bytes.{without_end};
ghost use Rattle.surf_rules.specs.Names.{text_of};

use std::alloc::Global;
use std::marker::Model;
use surf_base::{NoMemory, put_decimal};
use surf_rules::Names;

/// A text that is being printed.
#[derive(Drop)]
pub struct Printer {
    text: Vec<u8>,
}

impl Model for Printer {
    ghost use Rattle.std.specs.Prelude.{List, ℕ};

    ghost Value = { List ℕ };

    ghost view = { λ p. p.text.items };
}

// The six digits of a number below a million.
fn digits_of(m: u64) -> [u8; 6]
    requires { m < 1000000 }
    ensures { result ≡ six_digits m }
{
    [
        b'0' + (m / 100_000) as u8,
        b'0' + (m / 10_000 % 10) as u8,
        b'0' + (m / 1_000 % 10) as u8,
        b'0' + (m / 100 % 10) as u8,
        b'0' + (m / 10 % 10) as u8,
        b'0' + (m % 10) as u8,
    ]
}

fn without_zeros(digits: &[u8]) -> &[u8]
    ensures { result.now ≡ without_end (λ d. d == 48) digits.now }
{
    let mut end = digits.len();
    while end > 0 {
        if digits[end - 1] != b'0' {
            return &digits[..end];
        }
        end -= 1;
    }
    &digits[..0]
}

impl Printer {
    /// An empty text with room for so many bytes.
    pub fn with_room(alloc: Global, room: usize) -> Result<Printer, NoMemory>
        ensures { IfOk result (λ p. p ≡ []) }
    {
        let text = Vec::with_capacity(alloc, room).map_err(|_| NoMemory)?;
        Ok(Printer { text })
    }

    /// The bytes of the text.
    pub fn into_bytes(self) -> Vec<u8>
        ensures { result.items ≡ self }
    {
        self.text
    }

    /// Appends bytes.
    pub fn put(&mut self, bytes: &[u8]) -> Result<(), NoMemory>
        ensures { OnOk result (self.new ≡ self.old ++ bytes.now) }
    {
        self.text.extend_from_slice(bytes).map_err(|_| NoMemory)?;
        Ok(())
    }

    /// Appends a line and its line feed.
    pub fn put_line(&mut self, line: &[u8]) -> Result<(), NoMemory>
        ensures { OnOk result (self.new ≡ self.old ++ (line.now ++ 10 ∷ [])) }
    {
        self.put(line)?;
        self.put(b"\n")
    }

    /// Appends the text of a name.
    pub fn put_name(&mut self, names: &Names, name: u32) -> Result<(), NoMemory>
        requires { name < length names.now }
        ensures { OnOk result (self.new ≡ self.old ++ text_of names.now name) }
    {
        self.put(names.text(name))
    }

    /// Appends the digits of a number.
    pub fn put_number(&mut self, n: u64) -> Result<(), NoMemory>
        ensures { OnOk result (self.new ≡ self.old ++ decimal n) }
    {
        let mut digits = [0u8; 20];
        let count = put_decimal(&mut digits, n);
        self.put(&digits[..count])
    }

    // Appends a point and the digits of the millionths without zeros at the end, unless there are none.
    fn put_fraction(&mut self, millionths: u64) -> Result<(), NoMemory>
        requires { millionths < 1000000 }
        ensures { OnOk result (self.new ≡ self.old ++ fraction_text millionths) }
    {
        if millionths == 0 {
            return Ok(());
        }
        let digits = digits_of(millionths);
        self.put(b".")?;
        self.put(without_zeros(&digits))
    }

    /// Appends a rate, which is in millionths.
    pub fn put_rate(&mut self, rate: u64) -> Result<(), NoMemory>
        ensures { OnOk result (self.new ≡ self.old ++ rate_text rate) }
    {
        self.put_number(rate / 1_000_000)?;
        self.put_fraction(rate % 1_000_000)
    }
}
