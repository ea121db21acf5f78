// One call of the program over memory.
use std::alloc::{AllocError, Global};
use surf_base::{MemorySink, MemorySource, NoMemory};
use surf_top::surf;

/// What a call left: its exit status, its output and its notes.
#[derive(Drop)]
pub struct Answer {
    pub status: u8,
    pub out: Vec<u8>,
    pub notes: Vec<u8>,
}

/// Which calls of the source and of the sinks fail, counted from 1, and how many bytes they move.
#[derive(Clone, Copy)]
pub struct Outside {
    pub read: usize,
    pub bad_read: u64,
    pub write: usize,
    pub bad_write: u64,
    pub bad_note: u64,
}

/// An outside that never fails.
pub fn calm() -> Outside {
    Outside {
        read: 1 << 20,
        bad_read: 0,
        write: 1 << 20,
        bad_write: 0,
        bad_note: 0,
    }
}

fn no_memory(_refused: NoMemory) -> AllocError {
    AllocError
}

/// Calls the program with the words of a line.
pub fn call(
    alloc: Global,
    line: &str,
    input: &[u8],
    outside: Outside,
) -> Result<Answer, AllocError> {
    let mut words = Vec::new(alloc);
    for word in line.split_whitespace() {
        words.push(String::from_str(alloc, word)?)?;
    }
    let mut source = MemorySource::new(
        input.to_vec(alloc)?,
        outside.read.max(1),
        [outside.bad_read].to_vec(alloc)?,
    );
    let bad_write = [outside.bad_write].to_vec(alloc)?;
    let mut out = MemorySink::new(alloc, 1 << 24, outside.write.max(1), bad_write).map_err(
        no_memory,
    )?;
    let bad_note = [outside.bad_note].to_vec(alloc)?;
    let mut notes = MemorySink::new(alloc, 4096, 4096, bad_note).map_err(no_memory)?;
    let status = surf(alloc, &words, &mut source, &mut out, &mut notes);
    Ok(Answer {
        status: status.code(),
        out: out.bytes().to_vec(alloc)?,
        notes: notes.bytes().to_vec(alloc)?,
    })
}
