// The trace block of a text.
ghost use Rattle.std.specs.Prelude.{◌≡◌, ◌+◌, ◌<◌, [], Ok, Err, IfOk, IfErr, IfSome, IfNone};
ghost use Rattle.surf_text.specs.Bytes.{lines_of};
ghost use Rattle.surf_trace.specs.TraceTexts.{block_of, is_skipped, trace_of, Refuses};

use crate::TraceError;
use crate::event_line::read_event;
use std::alloc::Global;
use surf_text::{Lines, trim};
use surf_world::Event;

// The lines behind the one that opens the block.
fn find_block(text: &[u8]) -> Option<Lines<'_>>
    ensures some { IfSome result
        (λ r. trace_of text.now ≡ block_of r.number r.number [] (lines_of r.left)) }
    ensures none { IfNone result (trace_of text.now ≡ Err TraceError.NoTrace) }
{
    let mut lines = Lines::new(text, 0);
    while let Some(line) = lines.next() {
        if trim(line) == b"!START_TRACE".as_slice() {
            return Some(lines);
        }
    }
    None
}

fn is_skipped_line(line: &[u8]) -> bool
    ensures { result ≡ is_skipped line.now }
{
    line.is_empty() || line[0] == b'#' || line[0] == b'%'
}

// The events of the block that the last line opened, from the lines behind it.
fn read_block(alloc: Global, lines: &mut Lines<'_>) -> Result<Vec<Event>, TraceError>
    ensures ok { IfOk result
        (λ v. block_of lines.old.number lines.old.number [] (lines_of lines.old.left)
        ≡ Ok v.items) }
    ensures refused { IfErr result
        (λ f. Refuses (block_of lines.old.number lines.old.number [] (lines_of lines.old.left)) f) }
{
    let opened = lines.number();
    let mut events = Vec::new(alloc);
    while let Some(line) = lines.next() {
        let content = trim(line);
        if content == b"!END_TRACE".as_slice() {
            return Ok(events);
        }
        if is_skipped_line(content) {
            continue;
        }
        let Some(event) = read_event(events.len() as u64 + 1, content) else {
            return Err(TraceError::BadTrace(lines.number()));
        };
        events.push(event).map_err(|_| TraceError::NoMemory)?;
    }
    Err(TraceError::Unclosed(opened))
}

/// The events of a text's trace block, or the text's first fault.
///
/// The block opens at the first line `!START_TRACE` and ends at the next line `!END_TRACE`. One
/// pass over the bytes.
pub fn read_trace(alloc: Global, bytes: &[u8]) -> Result<Vec<Event>, TraceError>
    ensures ok { IfOk result (λ v. trace_of bytes.now ≡ Ok v.items) }
    ensures refused { IfErr result (λ f. Refuses (trace_of bytes.now) f) }
{
    match find_block(bytes) {
        Some(mut lines) => read_block(alloc, &mut lines),
        None => Err(TraceError::NoTrace),
    }
}
