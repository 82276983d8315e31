//! Made loads.

use std::alloc::Global;
use std::test::Fail;
use tg_base::List;
use tg_bench::bench;
use tg_io::{MemSink, Status};

const SUMMARY: &str =
    "events 23\npackets 14\ncommitted 1\naborted 0\nunsure 0\nrefused 0\nhistory 1\nlast 0\n";

// A load by itself, so that what its contract says is read in no other function.
fn over(alloc: Global, sink: MemSink) -> (Status, MemSink) {
    let mut sink = sink;
    let status = bench(alloc, 0, 1, &mut sink);
    (status, sink)
}

#[test]
fn a_made_load(rt: HostRuntime) -> Result<(), Fail> {
    let sink = MemSink::new(rt.alloc(), List::new(rt.alloc()));
    let (status, sink) = over(rt.alloc(), sink);
    assert!(rt; status == Status::Done);
    assert!(rt; sink.written() == SUMMARY.as_bytes());
    Ok(())
}
