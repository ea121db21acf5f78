//! The program `surf`: the one call of `surf_top` over the real streams.
#![tactic(auto)]

use std::alloc::Global;
use std::env;
use std::io::ErrorKind;
use std::process::ExitCode;
use surf_base::{StreamSink, StreamSource};
use surf_top::{Status, note, surf};

// The words after the program's name. A word that is not UTF-8 is no word of a command.
fn words(alloc: Global, rt: &HostRuntime) -> Result<Vec<String>, Status> {
    let mut words = Vec::new(alloc);
    let all = match env::args(rt) {
        Ok(all) => all,
        Err(fault) if fault.kind() == ErrorKind::OutOfMemory => return Err(Status::NoMemory),
        Err(_) => return Err(Status::Usage),
    };
    for word in all.skip(1) {
        if words.push(word).is_err() {
            return Err(Status::NoMemory);
        }
    }
    Ok(words)
}

fn main(rt: HostRuntime) -> ExitCode {
    let mut notes = StreamSink::new(rt.stderr());
    let status = match words(rt.alloc(), &rt) {
        Ok(words) => {
            let mut source = StreamSource::new(rt.stdin());
            let mut out = StreamSink::new(rt.stdout());
            surf(rt.alloc(), &words, &mut source, &mut out, &mut notes)
        }
        Err(status) => {
            note(&status, &mut notes);
            status
        }
    };
    ExitCode::from(status.code())
}
