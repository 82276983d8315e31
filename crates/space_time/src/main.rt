//! A space-time picture of a run: reads a script from standard input, and writes one SVG to standard output.
#![tactic(auto)]

mod cut;
mod drawing;
mod going;
mod reading;
mod recording;
mod top;
mod words;

use std::io::{self, ErrorKind};
use std::process::ExitCode;
use tg_io::{Reading, Status, Writing};

/// Runs the program on the standard streams. It ends with the status, and says on standard error why a run wasn't done.
fn main(rt: HostRuntime) -> io::Result<ExitCode> {
    let status = status_of(&rt);
    // Where there is no memory for the line, or it can't be written, the status alone tells.
    if let Ok(Some(line)) = status.says(rt.alloc()) {
        let _ = eprintln!(rt; "{line}");
    }
    Ok(ExitCode::from(status.code()))
}

/// The status with which a run of the program ends.
fn status_of(rt: &HostRuntime) -> Status {
    match std::env::args(rt) {
        Ok(all) => {
            let words: Result<Vec<String>, _> = all.skip(1).collect(rt.alloc());
            match words {
                Ok(words) => run(rt, words.as_slice()),
                Err(_) => Status::NoMemory,
            }
        }
        Err(e) => match e.kind() {
            ErrorKind::OutOfMemory => Status::NoMemory,
            // A word that isn't UTF-8 is in no form.
            _ => Status::Words,
        },
    }
}

fn run(rt: &HostRuntime, words: &[String]) -> Status {
    let mut source = Reading::new(rt.stdin());
    let mut sink = Writing::new(rt.stdout());
    top::space_time(rt.alloc(), words, &mut source, &mut sink)
}
