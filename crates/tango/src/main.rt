//! Tango objects over a CORFU log: the program.
#![tactic(auto)]

mod top;

use std::alloc::Global;
use std::io::{self, ErrorKind, Write};
use std::net::Net;
use std::process::ExitCode;
use tango_words::{Form, read_form};
use tg_base::NoMemory;
use tg_io::{Reading, Status, Writing};
use tg_link_udp::UdpLink;

/// Runs the program. It ends with the status, and says on standard error why a run wasn't done.
fn main(rt: HostRuntime) -> io::Result<ExitCode> {
    let status = status_of(&rt);
    // Where there is no memory for the line, or it can't be written, the status alone tells.
    if let Ok(Some(line)) = status.says(rt.alloc()) {
        let _ = eprintln!(rt; "{line}");
    }
    Ok(ExitCode::from(status.code()))
}

/// The status with which a run of the program ends.
fn status_of(rt: &HostRuntime) -> Status {
    match std::env::args(rt) {
        Ok(all) => {
            let words: Result<Vec<String>, _> = all.skip(1).collect(rt.alloc());
            match words {
                Ok(words) => run(rt, words.as_slice()),
                Err(_) => Status::NoMemory,
            }
        }
        Err(e) => match e.kind() {
            ErrorKind::OutOfMemory => Status::NoMemory,
            // A word that isn't UTF-8 is in no form.
            _ => Status::Words,
        },
    }
}

/// Runs the program on the standard streams and, where packets go over a link, on UDP sockets of this machine.
fn run(rt: &HostRuntime, words: &[String]) -> Status {
    match link_for(rt.alloc(), rt, words) {
        Ok(mut link) => {
            let mut source = Reading::new(rt.stdin());
            let mut sink = Writing::new(rt.stdout());
            top::tango(rt.alloc(), words, &mut source, &mut sink, &mut link)
        }
        Err(NoMemory) => Status::NoMemory,
    }
}

/// The link that the words ask for: of the node that they name, else of all nodes. No port is bound before its first
/// call, and so none by the forms that don't use it. An `Err` is want of memory.
fn link_for<'a, N: Net>(
    alloc: Global,
    net: &'a N,
    words: &[String],
) -> Result<UdpLink<'a, N>, NoMemory> {
    match read_form(alloc, words)? {
        Some(Form::Node(id)) => Ok(UdpLink::of_node(alloc, net, id)),
        _ => Ok(UdpLink::of_all(alloc, net)),
    }
}
