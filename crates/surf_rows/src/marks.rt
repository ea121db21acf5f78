// The marks of a row's lines: `\r`, `\t`, `\\`, `\xHH`, and a `\` at the end, which stands for no
// line feed.
use std::alloc::AllocError;

#[derive(Clone, Copy)]
enum Mark {
    Plain,
    Opened,
    High,
    Low(u8),
}

fn digit(byte: u8) -> u8 {
    match byte {
        b'0'..=b'9' => byte - b'0',
        b'a'..=b'f' => byte - b'a' + 10,
        _ => 0,
    }
}

// What a byte behind a backslash stands for; `x` opens a number.
fn meant(byte: u8) -> Option<u8> {
    match byte {
        b'r' => Some(b'\r'),
        b't' => Some(b'\t'),
        b'x' => None,
        other => Some(other),
    }
}

fn take_byte(text: &mut Vec<u8>, mark: Mark, byte: u8) -> Result<Mark, AllocError> {
    match mark {
        Mark::Plain if byte == b'\\' => return Ok(Mark::Opened),
        Mark::Plain => text.push(byte)?,
        Mark::Opened => match meant(byte) {
            Some(byte) => text.push(byte)?,
            None => return Ok(Mark::High),
        },
        Mark::High => return Ok(Mark::Low(digit(byte))),
        Mark::Low(high) => text.push(high.wrapping_mul(16).wrapping_add(digit(byte)))?,
    }
    Ok(Mark::Plain)
}

/// Adds a line without its marks.
pub fn push_line(text: &mut Vec<u8>, line: &[u8]) -> Result<(), AllocError> {
    let mut mark = Mark::Plain;
    for byte in line {
        mark = take_byte(text, mark, *byte)?;
    }
    if let Mark::Opened = mark {
        return Ok(());
    }
    text.push(b'\n')?;
    Ok(())
}
