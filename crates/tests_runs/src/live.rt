//! Live runs over links in memory.

use crate::given::{ASKS, HEADER, SEQUENCER, UPDATED, calls, comes, failing, joined, realistic};
use std::alloc::Global;
use std::test::Fail;
use tg_base::{List, NoMemory, NodeId, Role};
use tg_io::{MemLink, MemSink, MemSource, Status};
use tg_live::run;

const UNIT: NodeId = NodeId {
    role: Role::Unit,
    num: 0,
};

const UPDATE: &str = "c0 update ctr0 add 5\nsettle\n";

const RECORDED: &str = "c0 update ctr0 add 5\ndeliver 0\ndeliver 1\ndeliver 2\ndeliver 3\n";

// The first packet comes twice, so a second position is issued.
const RECORDED_TWICE: &str =
    "c0 update ctr0 add 5\ndeliver 0\ndeliver 0\ndeliver 1\ndeliver 2\ndeliver 3\ndeliver 4\n";

const TICKS: &str = "tick u0\ntick l0\ntick s0\ntick c0\ntick c1\ntick c2\ntranscript\n";

const HISTORY: &str = "history 1\n0 c0 1 ctr0 add 5\n";

/// A live run of a text over a link, where these reads and writes fail.
fn lived(
    alloc: Global,
    text: List<u8>,
    reads: &[u64],
    writes: &[u64],
    link: MemLink,
) -> Result<(Status, MemSink), NoMemory> {
    let source = MemSource::new(text, calls(alloc, reads)?);
    let sink = MemSink::new(alloc, calls(alloc, writes)?);
    Ok(over(alloc, source, sink, link))
}

// A live run by itself, so that what its contract says is read in no other function.
fn over(alloc: Global, source: MemSource, sink: MemSink, link: MemLink) -> (Status, MemSink) {
    let mut source = source;
    let mut sink = sink;
    let mut link = link;
    let status = run(alloc, &mut source, &mut sink, &mut link);
    (status, sink)
}

/// Whether a live run of the lines ends with the status, and prints these pieces.
fn prints(
    alloc: Global,
    lines: &str,
    link: MemLink,
    status: Status,
    pieces: &[&str],
) -> Result<bool, NoMemory> {
    let text = joined(alloc, &[HEADER, lines])?;
    let (ended, sink) = lived(alloc, text, &[], &[], link)?;
    let want = joined(alloc, pieces)?;
    Ok(ended == status && sink.written() == want.as_slice())
}

#[test]
fn a_live_run_and_its_recording(rt: HostRuntime) -> Result<(), Fail> {
    let link = failing(rt.alloc(), &[])?;
    let committed = "5 c0 1 committed 0\n";
    let pieces = [HEADER, RECORDED, TICKS, UPDATED, committed, HISTORY];
    assert!(rt; prints(rt.alloc(), UPDATE, link, Status::Done, &pieces)?);
    Ok(())
}

/// A link to which four datagrams of strangers come: no bytes, a packet without its last byte, the packet at a node to
/// which it wasn't sent, and the packet.
fn disturbed(alloc: Global) -> Result<MemLink, NoMemory> {
    let link = failing(alloc, &[])?;
    let link = comes(alloc, link, SEQUENCER, &[])?;
    let link = comes(alloc, link, SEQUENCER, &ASKS[..30])?;
    let link = comes(alloc, link, UNIT, &ASKS)?;
    comes(alloc, link, SEQUENCER, &ASKS)
}

// The repeat of the first packet is delivered at the node to which it was sent, and there alone.
#[test]
fn datagrams_of_strangers_are_passed_by(rt: HostRuntime) -> Result<(), Fail> {
    let link = disturbed(rt.alloc())?;
    let committed = "7 c0 1 committed 0\n";
    let pieces = [HEADER, RECORDED_TWICE, TICKS, UPDATED, committed, HISTORY];
    assert!(rt; prints(rt.alloc(), UPDATE, link, Status::Done, &pieces)?);
    Ok(())
}

#[test]
fn a_live_run_delivers_by_itself(rt: HostRuntime) -> Result<(), Fail> {
    let link = failing(rt.alloc(), &[])?;
    let pieces = [HEADER, "transcript\nobjects ctr0 ctr1\nhistory 0\n"];
    let refused = Status::Script { line: 4 };
    assert!(rt; prints(rt.alloc(), "deliver 0\n", link, refused, &pieces)?);
    Ok(())
}

/// Whether an output tells that a client was answered 610, the sum of what was added.
fn tells_the_sum(written: &[u8]) -> bool {
    match std::str::from_utf8(written) {
        Ok(text) => text.split_once(" = 610\n").is_some(),
        Err(_) => false,
    }
}

#[test]
fn a_long_run_goes_over_a_link(rt: HostRuntime) -> Result<(), Fail> {
    let text = realistic(rt.alloc())?;
    let link = failing(rt.alloc(), &[])?;
    let (status, sink) = lived(rt.alloc(), text, &[], &[], link)?;
    assert!(rt; status == Status::Done);
    assert!(rt; tells_the_sum(sink.written()));
    Ok(())
}

/// Whether a live run of the update ends so where these calls fail, and writes nothing.
fn ends_so(
    alloc: Global,
    want: Status,
    reads: &[u64],
    writes: &[u64],
    carried: &[u64],
) -> Result<bool, NoMemory> {
    let text = joined(alloc, &[HEADER, UPDATE])?;
    let (status, sink) = lived(alloc, text, reads, writes, failing(alloc, carried)?)?;
    Ok(status == want && sink.written().is_empty())
}

#[test]
fn calls_of_a_link_that_fail(rt: HostRuntime) -> Result<(), Fail> {
    // Four packets are sent and received, and twice nothing is at hand.
    for call in 0..10 {
        assert!(rt; ends_so(rt.alloc(), Status::LinkFault, &[], &[], &[call])?);
    }
    assert!(rt; !ends_so(rt.alloc(), Status::LinkFault, &[], &[], &[10])?);
    Ok(())
}

#[test]
fn reads_and_writes_that_fail(rt: HostRuntime) -> Result<(), Fail> {
    // The text is read at once, and then its end.
    assert!(rt; ends_so(rt.alloc(), Status::ReadFault, &[0], &[], &[])?);
    assert!(rt; ends_so(rt.alloc(), Status::ReadFault, &[1], &[], &[])?);
    assert!(rt; ends_so(rt.alloc(), Status::WriteFault, &[], &[0], &[])?);
    Ok(())
}
