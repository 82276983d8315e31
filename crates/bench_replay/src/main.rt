//! Replays scripts: `bench_replay FILE ..` prints the transcript of each, one after the other, and below one that isn't
//! read to its end what the program says of it on standard error.
#![tactic(auto)]

use std::{fs, io};
use tg_io::{Reading, Status, Writing};
use tg_replay::replay;

/// Prints the transcripts of the files that the words after the program's name tell.
fn main(rt: HostRuntime) -> io::Result<()> {
    let names: Vec<String> = std::env::args(&rt)?.skip(1).collect(rt.alloc())?;
    for name in names.as_slice() {
        let status = print_transcript(&rt, name.as_str())?;
        if let Ok(Some(line)) = status.says(rt.alloc()) {
            println!(rt; "{line}")?;
        }
    }
    Ok(())
}

/// Prints the transcript of a file.
fn print_transcript(rt: &HostRuntime, name: &str) -> io::Result<Status> {
    let mut source = Reading::new(fs::open(rt, name)?);
    let mut sink = Writing::new(rt.stdout());
    Ok(replay(rt.alloc(), &mut source, &mut sink))
}
