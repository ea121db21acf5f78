// The names of a colony's sites: a cell's six numbers, or the colour of the frame.
ghost use Rattle.std.specs.Prelude.{◌≡◌, IfOk, MatchOption, None, Some};
ghost use Rattle.std.specs.Option.{option_map};
ghost use Rattle.surf_sync.specs.Codes.Mark.{Cell, Frame};
ghost use Rattle.surf_sync.specs.Parts.{part_by};
ghost use Rattle.surf_sync.specs.Spelling.{code_in, frame_in, number_of, part_behind, part_of, spell};

use std::alloc::Global;
use surf_base::{NoMemory, read_below};
use surf_text::cut;

/// The name of a cell: its state, the generation field, the colour of its site, its state one
/// generation before, how many neighbours it has read, and what it has gathered from them.
#[derive(Clone, Copy, Debug, PartialEq, Eq)]
pub struct Code {
    pub current: u32,
    pub generation: u32,
    pub colour: u32,
    pub previous: u32,
    pub reads: u32,
    pub acc: u32,
}

// A number, and the text behind the `_` that follows it, if one does.
#[derive(Clone, Copy)]
struct Part<'a> {
    number: u32,
    rest: Option<&'a [u8]>,
}

// A decimal below 2^32 without leading zeros.
fn read_number(text: &[u8]) -> Option<u32>
    ensures { result ≡ number_of text.now }
{
    if text.len() > 1 && text[0] == b'0' {
        return None;
    }
    read_below(1 << 32, text)
}

fn read_part(text: &[u8]) -> Option<Part<'_>>
    ensures { MatchOption result (part_of text.now ≡ None)
        (λ p. part_of text.now ≡ Some (part_by p)) }
{
    let (front, rest) = cut(text, b'_');
    let number = read_number(front)?;
    Some(Part { number, rest })
}

/// The name of a code: its six numbers in their order, joined by `_`.
pub fn name_of(alloc: Global, code: &Code) -> Result<Vec<u8>, NoMemory>
    ensures { IfOk result (λ v. v.items ≡ spell (Cell code.now)) }
{
    let text = format!(in alloc;
        "{}_{}_{}_{}_{}_{}",
        code.current, code.generation, code.colour, code.previous, code.reads, code.acc
    )
    .map_err(|_| NoMemory)?;
    Ok(text.into_bytes())
}

/// The code that a name spells: six decimals without leading zeros, each below 2^32, joined by `_`.
pub fn code_of(name: &[u8]) -> Option<Code>
    ensures { result ≡ code_in name.now }
{
    let current = read_part(name)?;
    let generation = read_part(current.rest?)?;
    let colour = read_part(generation.rest?)?;
    let previous = read_part(colour.rest?)?;
    let reads = read_part(previous.rest?)?;
    let acc = read_part(reads.rest?)?;
    if acc.rest.is_some() {
        return None;
    }
    Some(Code {
        current: current.number,
        generation: generation.number,
        colour: colour.number,
        previous: previous.number,
        reads: reads.number,
        acc: acc.number,
    })
}

/// The name of the frame at a site of this colour: `E_` and the colour.
pub fn frame_name(alloc: Global, colour: u32) -> Result<Vec<u8>, NoMemory>
    ensures { IfOk result (λ v. v.items ≡ spell (Frame colour)) }
{
    let text = format!(in alloc; "E_{}", colour).map_err(|_| NoMemory)?;
    Ok(text.into_bytes())
}

/// The colour of the frame that a name spells: `E_` and one decimal without leading zeros, below
/// 2^32.
pub fn frame_of(name: &[u8]) -> Option<u32>
    ensures { result ≡ frame_in name.now }
{
    let (front, rest) = cut(name, b'_');
    if front != b"E".as_slice() {
        return None;
    }
    read_number(rest?)
}
