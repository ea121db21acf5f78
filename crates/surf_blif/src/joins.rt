// What a physical line gives to a logical one: it is cut, and joined where it goes on in the next.
ghost use Rattle.std.specs.Prelude.{◌≡◌, ◌<◌, ◌≤◌, ◌∷◌, ◌++◌, [], true, false, length, IfOk, IfSome, IfNone};
ghost use Rattle.surf_blif.specs.Logical.{cut, front_of, goes_on};

use surf_base::NoMemory;
use surf_text::{cut, trim};

/// A physical line without its comment and the blanks at its ends.
pub fn cut_line(line: &[u8]) -> &[u8]
    ensures is { result.now ≡ cut line.now }
    ensures shorter { length result.now ≤ length line.now }
{
    trim(cut(line, b'#').0)
}

/// What stands before the `\` at the end of a cut line that goes on in the next one.
pub fn before_join(piece: &[u8]) -> Option<&[u8]>
    ensures some { IfSome result
        (λ front. (goes_on piece.now ≡ true) × (front.now ≡ front_of piece.now)
        × (length front.now < length piece.now)) }
    ensures none { IfNone result (goes_on piece.now ≡ false) }
{
    if piece.is_empty() {
        return None;
    }
    let last = piece.len() - 1;
    if piece[last] == b'\\' {
        Some(&piece[..last])
    } else {
        None
    }
}

/// Appends what a line that goes on gives to its text.
pub fn put_part(buffer: &mut Vec<u8>, front: &[u8]) -> Result<(), NoMemory>
    ensures { IfOk result (λ _. buffer.new.items ≡ buffer.old.items ++ (front.now ++ 32 ∷ [])) }
{
    buffer.extend_from_slice(front).map_err(|_| NoMemory)?;
    buffer.push(b' ').map_err(|_| NoMemory)?;
    Ok(())
}
