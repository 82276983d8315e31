//! Sessions of a node over links in memory.

use crate::given::{ASKS, CLIENT, HEADER, SEQUENCER, comes, failing, joined};
use std::alloc::Global;
use std::test::Fail;
use tg_base::{List, NoMemory, NodeId, Role};
use tg_io::{MemLink, MemSink, MemSource, Status};
use tg_node::node;

/// A session of a node with these pieces of text over a link: how it ends, what is written, and the link.
fn session(
    alloc: Global,
    id: NodeId,
    pieces: &[&str],
    link: MemLink,
) -> Result<(Status, MemSink, MemLink), NoMemory> {
    let text = joined(alloc, pieces)?;
    let source = MemSource::new(text, List::new(alloc));
    let sink = MemSink::new(alloc, List::new(alloc));
    Ok(over(alloc, id, source, sink, link))
}

// A session by itself, so that what its contract says is read in no other function.
fn over(
    alloc: Global,
    id: NodeId,
    source: MemSource,
    sink: MemSink,
    link: MemLink,
) -> (Status, MemSink, MemLink) {
    let mut source = source;
    let mut sink = sink;
    let mut link = link;
    let status = node(alloc, id, &mut source, &mut sink, &mut link);
    (status, sink, link)
}

/// The length of the only datagram that was sent, None where there were none or more.
fn sent_length(link: &MemLink) -> Option<usize> {
    match link.sent() {
        [sent] => Some(sent.datagram.as_slice().len()),
        _ => None,
    }
}

/// Whether these bytes are the only datagram that was sent.
fn sends(link: &MemLink, datagram: &[u8]) -> bool {
    match link.sent() {
        [sent] => sent.datagram.as_slice() == datagram,
        _ => false,
    }
}

#[test]
fn a_sequencer_answers(rt: HostRuntime) -> Result<(), Fail> {
    let alloc = rt.alloc();
    let link = comes(alloc, failing(alloc, &[])?, SEQUENCER, &ASKS)?;
    let (status, sink, link) = session(alloc, SEQUENCER, &[HEADER, "wait 4\n"], link)?;
    assert!(rt; status == Status::Done);
    assert!(rt; sink.written().is_empty());
    assert!(rt; sent_length(&link) == Some(64));
    Ok(())
}

#[test]
fn a_client_asks(rt: HostRuntime) -> Result<(), Fail> {
    let alloc = rt.alloc();
    let pieces = [HEADER, "c0 update ctr0 add 5\n"];
    let (status, sink, link) = session(alloc, CLIENT, &pieces, failing(alloc, &[])?)?;
    assert!(rt; status == Status::Done);
    assert!(rt; sink.written() == b"1 c0 1 begin\n1 c0 1 put ctr0 add 5\n1 c0 1 end\n".as_slice());
    assert!(rt; sends(&link, &ASKS));
    Ok(())
}

#[test]
fn a_line_of_another_client(rt: HostRuntime) -> Result<(), Fail> {
    let alloc = rt.alloc();
    let pieces = [HEADER, "tick\nc1 update ctr0 add 5\n"];
    let (status, _, link) = session(alloc, CLIENT, &pieces, failing(alloc, &[])?)?;
    assert!(rt; status == Status::Script { line: 5 });
    assert!(rt; link.sent().is_empty());
    Ok(())
}

/// How a session of a client ends with a header whose second line is outside in any case.
fn refused(alloc: Global, num: u16) -> Result<Status, NoMemory> {
    let id = NodeId {
        role: Role::Client,
        num,
    };
    let lines = "cluster units 1 layouts 1 seqs 1 clients 3 limit 100\nchains u1\nobjects ctr0\n";
    let (status, _, _) = session(alloc, id, &[lines], failing(alloc, &[])?)?;
    Ok(status)
}

#[test]
fn a_header_without_the_node(rt: HostRuntime) -> Result<(), Fail> {
    assert!(rt; refused(rt.alloc(), 2)? == Status::Script { line: 2 });
    assert!(rt; refused(rt.alloc(), 3)? == Status::Script { line: 1 });
    Ok(())
}

#[test]
fn a_link_that_fails(rt: HostRuntime) -> Result<(), Fail> {
    let alloc = rt.alloc();
    let link = failing(alloc, &[0])?;
    let (status, sink, _) = session(alloc, SEQUENCER, &[HEADER, "wait 1\n"], link)?;
    assert!(rt; status == Status::LinkFault);
    assert!(rt; sink.written().is_empty());
    Ok(())
}
