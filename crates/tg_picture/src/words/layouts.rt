//! The words of layouts.

use tg_any::put_number;
use tg_base::{Chain, List, NoMemory, Projection, Range};

/// Puts a layout: its epoch, its sequencer, where that begins, and the chains of each range.
pub fn put_layout(layout: &Projection, out: &mut List<u8>) -> Result<(), NoMemory> {
    out.extend(b"layout ")?;
    put_number(layout.epoch, out)?;
    out.extend(b" of s")?;
    put_number(layout.seq, out)?;
    out.extend(b" from ")?;
    put_number(layout.start, out)?;
    for range in layout.ranges.as_slice() {
        put_range(range, out)?;
    }
    Ok(())
}

fn put_range(range: &Range, out: &mut List<u8>) -> Result<(), NoMemory> {
    out.extend(b", from ")?;
    put_number(range.lo, out)?;
    out.extend(b" on")?;
    let mut between: &[u8] = b" ";
    for chain in range.stripes.as_slice() {
        out.extend(between)?;
        put_chain(chain, out)?;
        between = b"/";
    }
    Ok(())
}

fn put_chain(chain: &Chain, out: &mut List<u8>) -> Result<(), NoMemory> {
    let mut between: &[u8] = b"u";
    for unit in chain.as_slice() {
        out.extend(between)?;
        put_number(*unit, out)?;
        between = b",u";
    }
    Ok(())
}
