//! Replays of texts in memory: calls that fail, the limit of steps, and a script that is cut.

use crate::given::{HEADER, UPDATED, calls, joined, realistic};
use std::alloc::Global;
use std::test::Fail;
use tg_base::{List, NoMemory, Which};
use tg_io::{MemSink, MemSource, Status};
use tg_replay::replay;

const NO_OBJECTS: &str =
    "cluster units 1 layouts 1 seqs 1 clients 3 limit 100\nchains u0\nobjects\n";

const UPDATES: &str =
    "c0 update ctr0 add 5\nc1 update ctr0 add 7\ndeliver 0\ndeliver 1\ndeliver 2\ndeliver 3\ndeliver 5\ndeliver 6\ndeliver 4\ndeliver 7\n";

/// A replay of a text, where these reads and writes fail.
fn replayed(
    alloc: Global,
    text: List<u8>,
    reads: &[u64],
    writes: &[u64],
) -> Result<(Status, MemSink), NoMemory> {
    let source = MemSource::new(text, calls(alloc, reads)?);
    let sink = MemSink::new(alloc, calls(alloc, writes)?);
    Ok(over(alloc, source, sink))
}

// A replay by itself, so that what its contract says is read in no other function.
fn over(alloc: Global, source: MemSource, sink: MemSink) -> (Status, MemSink) {
    let mut source = source;
    let mut sink = sink;
    let status = replay(alloc, &mut source, &mut sink);
    (status, sink)
}

/// Whether a replay of these pieces ends so where these calls fail, and writes nothing.
fn ends_so(
    alloc: Global,
    want: Status,
    pieces: &[&str],
    reads: &[u64],
    writes: &[u64],
) -> Result<bool, NoMemory> {
    let text = joined(alloc, pieces)?;
    let (status, sink) = replayed(alloc, text, reads, writes)?;
    Ok(status == want && sink.written().is_empty())
}

#[test]
fn reads_and_writes_that_fail(rt: HostRuntime) -> Result<(), Fail> {
    // A text of one read, and another that finds its end; and one write.
    let updates = [HEADER, UPDATES];
    assert!(rt; ends_so(rt.alloc(), Status::ReadFault, &updates, &[0], &[])?);
    assert!(rt; ends_so(rt.alloc(), Status::ReadFault, &updates, &[1], &[])?);
    assert!(rt; ends_so(rt.alloc(), Status::WriteFault, &updates, &[], &[0])?);
    assert!(rt; ends_so(rt.alloc(), Status::WriteFault, &[NO_OBJECTS], &[], &[0])?);
    Ok(())
}

/// A header, an update and so many arrivals of its packet, and then this line.
fn long_script(alloc: Global, arrivals: u32, last: &str) -> Result<List<u8>, NoMemory> {
    let mut text = joined(alloc, &[HEADER, "c0 update ctr0 add 5\n"])?;
    for _ in 0..arrivals {
        text.extend(b"deliver 0\n".as_slice())?;
    }
    text.extend(last.as_bytes())?;
    Ok(text)
}

/// Whether a long script ends with the status, after the first update's lines and these.
fn ends_long(
    alloc: Global,
    arrivals: u32,
    last: &str,
    want: Status,
    tail: &str,
) -> Result<bool, NoMemory> {
    let text = long_script(alloc, arrivals, last)?;
    let (status, sink) = replayed(alloc, text, &[], &[])?;
    let printed = joined(alloc, &[UPDATED, tail])?;
    Ok(status == want && sink.written() == printed.as_slice())
}

#[test]
fn the_last_step_of_a_run(rt: HostRuntime) -> Result<(), Fail> {
    let alloc = rt.alloc();
    let none = "history 0\n";
    assert!(rt; ends_long(alloc, 199_996, "deliver 0\n", Status::Done, none)?);
    let line = Status::Script { line: 200_002 };
    assert!(rt; ends_long(alloc, 199_997, "deliver 1000000", line, none)?);
    Ok(())
}

#[test]
fn the_limit_of_steps(rt: HostRuntime) -> Result<(), Fail> {
    // An update is three steps; one that passes the limit is made as far as the limit.
    let alloc = rt.alloc();
    let limit = Status::Limit {
        which: Which::Steps,
    };
    assert!(rt; ends_long(alloc, 199_997, "deliver 0\n", limit, "history 0\n")?);
    let begun = "199998 c1 1 begin\nhistory 0\n";
    assert!(rt; ends_long(alloc, 199_996, "c1 update ctr1 add 1", limit, begun)?);
    Ok(())
}

/// Whether a front of so many whole lines ends as it should: without a whole header at the line after its last.
fn cut_ends(alloc: Global, front: &List<u8>, lines: u64) -> Result<bool, NoMemory> {
    let (status, _) = replayed(alloc, front.clone()?, &[], &[])?;
    match lines {
        0 | 1 | 2 => Ok(status == Status::Script { line: lines + 1 }),
        _ => Ok(status == Status::Done),
    }
}

/// How many lines a text has, if each of its fronts of whole lines ends as it should.
fn lines_to_cut(alloc: Global, text: &[u8]) -> Result<Option<u64>, NoMemory> {
    let mut front = List::new(alloc);
    let mut lines = 0;
    for byte in text {
        front.push(*byte)?;
        if *byte == b'\n' {
            lines = u64::saturating_add(lines, 1);
            if !cut_ends(alloc, &front, lines)? {
                return Ok(None);
            }
        }
    }
    Ok(Some(lines))
}

#[test]
fn a_script_cut_after_each_line(rt: HostRuntime) -> Result<(), Fail> {
    let text = realistic(rt.alloc())?;
    assert!(rt; lines_to_cut(rt.alloc(), text.as_slice())? == Some(135));
    Ok(())
}
