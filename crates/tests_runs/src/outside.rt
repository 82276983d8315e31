//! Links in memory by their rules, and streams that fail.

use crate::given::{CLIENT, SEQUENCER, calls, comes};
use std::alloc::Global;
use std::io;
use std::io::{Error, ErrorKind, Read};
use std::test::Fail;
use tg_base::{List, NoMemory, NodeId};
use tg_io::{Datagram, IoErr, Link, MemLink, Reading, Rule, Source, Writing, write_all};

/// A link by four rules, of which the third call and the seventh fail.
fn ruled(alloc: Global) -> Result<MemLink, NoMemory> {
    let mut rules = List::new(alloc);
    rules.extend(&[Rule::Keep, Rule::Lose, Rule::Twice, Rule::Late])?;
    Ok(MemLink::new(alloc, rules, calls(alloc, &[2, 6])?))
}

/// Sends a datagram of each byte below six, and returns whether the third send fails and no other.
fn sends_six(link: &mut MemLink) -> bool {
    let mut is_so = true;
    for byte in 0..6u8 {
        let failed = link.send(CLIENT, SEQUENCER, &[byte]).is_err();
        is_so = is_so && failed == (byte == 2);
    }
    is_so
}

/// Whether the next datagram comes to this node and is this byte.
fn hands(link: &mut MemLink, to: NodeId, byte: u8) -> bool {
    let mut buf = [0u8; Datagram::MAX];
    link.recv(&mut buf) == Ok(Some((to, 1))) && buf[0] == byte
}

/// How the next receive ends, and how many bytes come.
fn handed(link: &mut MemLink) -> Result<Option<(NodeId, usize)>, IoErr> {
    let mut buf = [0u8; Datagram::MAX];
    link.recv(&mut buf)
}

#[test]
fn a_link_follows_its_rules(rt: HostRuntime) -> Result<(), Fail> {
    let mut link = ruled(rt.alloc())?;
    assert!(rt; sends_six(&mut link));
    assert!(rt; link.sent().len() == 5);
    let mut link = comes(rt.alloc(), link, CLIENT, b"x")?;
    assert!(rt; handed(&mut link) == Err(IoErr::Failed));
    // 0 is kept, 1 lost, 3 comes twice, 4 late, 5 is kept
    assert!(rt; hands(&mut link, SEQUENCER, 0));
    assert!(rt; hands(&mut link, SEQUENCER, 3));
    assert!(rt; hands(&mut link, SEQUENCER, 3));
    assert!(rt; hands(&mut link, SEQUENCER, 5));
    assert!(rt; hands(&mut link, CLIENT, b'x'));
    assert!(rt; hands(&mut link, SEQUENCER, 4));
    assert!(rt; handed(&mut link) == Ok(None));
    Ok(())
}

// A stream whose calls 0 and 2 are interrupted, and whose call 3 breaks.
#[derive(Drop)]
struct Rough {
    calls: u8,
}

impl Read for Rough {
    fn read(&mut self, _buf: &mut [u8]) -> io::Result<usize> {
        let call = self.calls;
        self.calls = call.saturating_add(1);
        match call {
            0 | 2 => Err(Error::from(ErrorKind::Interrupted)),
            3 => Err(Error::from(ErrorKind::BrokenPipe)),
            _ => Ok(0),
        }
    }
}

#[test]
fn a_stream_goes_on(rt: HostRuntime) -> Result<(), Fail> {
    let mut buf = [0u8; 2];
    let mut source = Reading::new(b"abc".as_slice());
    assert!(rt; source.read(&mut buf) == Ok(2));
    assert!(rt; source.read(&mut buf) == Ok(1));
    assert!(rt; buf.as_slice() == b"cb".as_slice());
    let mut sink = Writing::new(io::sink());
    assert!(rt; write_all(&mut sink, b"ab") == Ok(()));
    Ok(())
}

#[test]
fn a_stream_fails(rt: HostRuntime) -> Result<(), Fail> {
    let mut buf = [0u8; 2];
    let mut source = Reading::new(Rough { calls: 0 });
    assert!(rt; source.read(&mut buf) == Ok(0));
    assert!(rt; source.read(&mut buf) == Err(IoErr::Failed));
    assert!(rt; source.read(&mut buf) == Ok(0));
    Ok(())
}
