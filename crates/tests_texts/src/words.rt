//! Rows of words: lines and headers of scripts, transcripts, audits, loads and the forms of the program.
//! In a row a bar stands for a line feed.

use std::alloc::Global;
use tango_words::{Form, read_form};
use tg_any::put_number;
use tg_audit_run::judge;
use tg_base::{Cluster, List, NoMemory, NodeId, Role, TextFault};
use tg_io::{MemSink, MemSource, Status};
use tg_script::{parse_header, parse_line, print_header, print_line};

/// The largest header that may be, and the smallest.
const LARGEST: &str =
    "cluster units 64 layouts 7 seqs 16 clients 32 limit 1000000|chains u0,u1/u2,u63|objects ctr0 map7";

const SMALLEST: &str = "cluster units 1 layouts 1 seqs 1 clients 1 limit 1|chains u0|objects";

/// The cluster in which a line is read.
#[derive(Clone, Copy)]
pub enum Size {
    Largest,
    Smallest,
}

// A text with line feeds for its bars.
fn fed(alloc: Global, text: &str) -> Result<List<u8>, NoMemory> {
    replaced(alloc, text.as_bytes(), b'|', b'\n')
}

/// Puts a text with bars for its line feeds.
fn put_barred(alloc: Global, text: &[u8], out: &mut List<u8>) -> Result<(), NoMemory> {
    let barred = replaced(alloc, text, b'\n', b'|')?;
    out.extend(barred.as_slice())
}

fn replaced(alloc: Global, text: &[u8], old: u8, new: u8) -> Result<List<u8>, NoMemory> {
    let mut list = List::new(alloc);
    for byte in text {
        list.push(if *byte == old { new } else { *byte })?;
    }
    Ok(list)
}

// The header whose lines stand in a text.
fn header_in(alloc: Global, text: &str) -> Result<Cluster, TextFault> {
    let mut lines = List::new(alloc);
    for piece in text.split('|') {
        let mut line = List::new(alloc);
        line.extend(piece.as_bytes())?;
        lines.push(line)?;
    }
    if lines.len() <= 3 {
        parse_header(alloc, lines.as_slice())
    } else {
        Err(TextFault::Outside { line: 4 })
    }
}

fn put_outside(line: u64, out: &mut List<u8>) -> Result<(), NoMemory> {
    out.extend(b"outside ")?;
    put_number(line, out)
}

/// Puts the header that lines are, or the first line outside.
pub fn put_header(alloc: Global, text: &str, out: &mut List<u8>) -> Result<(), NoMemory> {
    match header_in(alloc, text) {
        Ok(cluster) => {
            let mut lines = List::new(alloc);
            print_header(alloc, &cluster, &mut lines)?;
            put_barred(alloc, lines.as_slice(), out)
        }
        Err(TextFault::Outside { line }) => put_outside(line, out),
        Err(TextFault::NoMemory) => Err(NoMemory),
    }
}

/// Puts the line of a script that bytes are, without its line feed, or that they are none.
pub fn put_line(
    alloc: Global,
    size: Size,
    line: &[u8],
    out: &mut List<u8>,
) -> Result<(), NoMemory> {
    let text = match size {
        Size::Largest => LARGEST,
        Size::Smallest => SMALLEST,
    };
    match header_in(alloc, text) {
        Ok(cluster) => put_line_in(alloc, &cluster, line, out),
        Err(TextFault::Outside { line }) => put_outside(line, out),
        Err(TextFault::NoMemory) => Err(NoMemory),
    }
}

fn put_line_in(
    alloc: Global,
    cluster: &Cluster,
    line: &[u8],
    out: &mut List<u8>,
) -> Result<(), NoMemory> {
    match parse_line(alloc, cluster, line)? {
        Some(value) => {
            let mut text = List::new(alloc);
            print_line(alloc, &value, &mut text)?;
            put_barred(alloc, text.as_slice(), out)
        }
        None => out.extend(b"outside"),
    }
}

/// Puts the transcript that a text is, or the first line outside.
pub fn put_transcript(alloc: Global, text: &str, out: &mut List<u8>) -> Result<(), NoMemory> {
    let text = fed(alloc, text)?;
    match crate::transcripts::transcript_again(alloc, text.as_slice()) {
        Ok(again) => put_barred(alloc, again.as_slice(), out),
        Err(TextFault::Outside { line }) => put_outside(line, out),
        Err(TextFault::NoMemory) => Err(NoMemory),
    }
}

/// What fails in an audit.
#[derive(Clone, Copy)]
pub enum Fails {
    Nothing,
    /// The second read, which looks for the end.
    Read,
    /// The first write.
    Write,
}

/// Puts what an audit of a text writes, and what it says of its status.
pub fn put_verdict(
    alloc: Global,
    fails: Fails,
    text: &str,
    out: &mut List<u8>,
) -> Result<(), NoMemory> {
    let source = source_of(alloc, fails, text)?;
    let sink = sink_of(alloc, fails)?;
    let (status, sink) = judged(alloc, source, sink);
    put_barred(alloc, sink.written(), out)?;
    match status.says(alloc)? {
        Some(said) => out.extend(said.as_bytes()),
        None => Ok(()),
    }
}

fn source_of(alloc: Global, fails: Fails, text: &str) -> Result<MemSource, NoMemory> {
    let mut reads = List::new(alloc);
    if let Fails::Read = fails {
        reads.push(1)?;
    }
    Ok(MemSource::new(fed(alloc, text)?, reads))
}

fn sink_of(alloc: Global, fails: Fails) -> Result<MemSink, NoMemory> {
    let mut writes = List::new(alloc);
    if let Fails::Write = fails {
        writes.push(0)?;
    }
    Ok(MemSink::new(alloc, writes))
}

// An audit by itself, so that what its contract says is read in no other function.
fn judged(alloc: Global, source: MemSource, sink: MemSink) -> (Status, MemSink) {
    let mut source = source;
    let mut sink = sink;
    let status = judge(alloc, &mut source, &mut sink);
    (status, sink)
}

/// Puts the script that two numbers give.
pub fn put_load(alloc: Global, start: u64, count: u32, out: &mut List<u8>) -> Result<(), NoMemory> {
    let text = tg_gen::script(alloc, start, count)?;
    put_barred(alloc, text.as_slice(), out)
}

/// Puts the form that words are.
pub fn put_form(alloc: Global, words: &[&str], out: &mut List<u8>) -> Result<(), NoMemory> {
    let mut owned = Vec::new(alloc);
    for word in words {
        owned.push(String::from_str(alloc, word)?)?;
    }
    match read_form(alloc, owned.as_slice())? {
        Some(form) => put_words_of(form, out),
        None => out.extend(b"none"),
    }
}

fn put_words_of(form: Form, out: &mut List<u8>) -> Result<(), NoMemory> {
    match form {
        Form::Replay => out.extend(b"replay"),
        Form::Live => out.extend(b"live"),
        Form::Node(id) => put_node_form(id, out),
        Form::Bench { start, count } => {
            out.extend(b"bench ")?;
            put_number(start, out)?;
            out.push(b' ')?;
            put_number(count, out)
        }
        Form::Audit => out.extend(b"audit"),
    }
}

fn put_node_form(id: NodeId, out: &mut List<u8>) -> Result<(), NoMemory> {
    let letter = match id.role {
        Role::Unit => b'u',
        Role::Layout => b'l',
        Role::Seqr => b's',
        Role::Client => b'c',
    };
    out.extend(b"node ")?;
    out.push(letter)?;
    put_number(id.num, out)
}
