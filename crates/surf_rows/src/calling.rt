// One call of the program over memory.
use std::alloc::{AllocError, Global};
use surf_base::{MemorySink, MemorySource, NoMemory};
use surf_top::surf;

/// The most bytes that an output may have here, and that the notes may have.
const ROOM: usize = 1 << 24;

/// What a call left: its exit status, its output and its notes.
#[derive(Drop)]
pub struct Answer {
    pub status: u8,
    pub out: Vec<u8>,
    pub notes: Vec<u8>,
}

fn sink(alloc: Global) -> Result<MemorySink, AllocError> {
    MemorySink::new(alloc, ROOM, ROOM, Vec::new(alloc)).map_err(|_: NoMemory| AllocError)
}

/// Calls the program with the words of a line.
pub fn call(alloc: Global, line: &str, input: &[u8]) -> Result<Answer, AllocError> {
    let mut words = Vec::new(alloc);
    for word in line.split_whitespace() {
        words.push(String::from_str(alloc, word)?)?;
    }
    let mut source = MemorySource::new(input.to_vec(alloc)?, ROOM, Vec::new(alloc));
    let mut out = sink(alloc)?;
    let mut notes = sink(alloc)?;
    let status = surf(alloc, &words, &mut source, &mut out, &mut notes).code();
    Ok(Answer {
        status,
        out: out.bytes().to_vec(alloc)?,
        notes: notes.bytes().to_vec(alloc)?,
    })
}
