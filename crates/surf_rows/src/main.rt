//! Rows: calls of the program, each with what it must answer.
//!
//! The words name files of rows (`rows.rt` says how they are written). Each row is called over
//! memory, and a line for each file says how many rows hold; a row that fails is printed before it.
//! The expected answers were written by hand or computed apart from the program.
#![tactic(auto)]

mod calling;
mod marks;
mod rows;
mod sums;

use crate::rows::Rows;
use std::{env, fs, io};

fn main(rt: HostRuntime) -> io::Result<()> {
    for name in env::args(&rt)?.skip(1) {
        let text = fs::read_to_string(&rt, name.as_str())?;
        let mut rows = Rows::new(rt.alloc());
        for line in text.lines() {
            if let Some(failure) = rows.take(rt.alloc(), line)? {
                println!(rt; "{name}: {failure}")?;
            }
        }
        if let Some(failure) = rows.finish(rt.alloc())? {
            println!(rt; "{name}: {failure}")?;
        }
        println!(rt; "{name}: {} rows hold, {} fail", rows.held(), rows.failed())?;
    }
    Ok(())
}
