// The items of a pattern.
ghost use Rattle.std.specs.Prelude.{◌≡◌, ◌<◌, ◌∷◌, [], length};
ghost use Rattle.surf_rle.specs.Items.{counted, sign_behind, signs_of};

use surf_base::read_below;
use surf_text::is_blank_byte;

/// What some digits and the byte behind them say.
#[derive(Clone, Copy, Debug, PartialEq, Eq)]
pub enum Sign {
    /// A blank, which says nothing.
    Free,
    Dead(u32),
    Live(u32),
    /// So many rows down.
    Down(u32),
    /// The end of the pattern.
    End,
    /// No item.
    Bad,
}

fn counted(count: u32, byte: u8) -> Sign
    ensures { result ≡ counted count byte }
{
    match byte {
        b'b' => Sign::Dead(count),
        b'o' => Sign::Live(count),
        b'$' => Sign::Down(count),
        _ => Sign::Bad,
    }
}

// What a byte says that no digits stand before.
fn sign_alone(byte: u8) -> Sign
    ensures { result ≡ sign_behind [] byte }
{
    if is_blank_byte(byte) {
        return Sign::Free;
    }
    if byte == b'!' {
        return Sign::End;
    }
    counted(1, byte)
}

fn sign_behind(digits: &[u8], byte: u8) -> Sign
    ensures { result ≡ sign_behind digits.now byte }
{
    if digits.is_empty() {
        return sign_alone(byte);
    }
    match read_below(1 << 32, digits) {
        Some(count) if count > 0 => counted(count, byte),
        _ => Sign::Bad,
    }
}

/// The first sign of a line, and what follows it.
pub fn next_sign(line: &[u8]) -> (Sign, &[u8])
    requires { 0 < length line.now }
    ensures sign { signs_of line.now ≡ result.0 ∷ signs_of result.1.now }
    ensures shorter { length result.1.now < length line.now }
{
    for (i, byte) in line.iter().enumerate() {
        if !byte.is_ascii_digit() {
            return (sign_behind(&line[..i], *byte), &line[i + 1..]);
        }
    }
    (Sign::Bad, &line[line.len()..])
}
