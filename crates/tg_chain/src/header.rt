//! The layout that a header gives.

ghost use Rattle.std.specs.Prelude.{◌≡◌, IfOk};
ghost use Rattle.tg_protocol.specs.Layouts.{first_layout};

use std::alloc::Global;
use tg_base::{Chain, Cluster, List, NoMemory, Projection, Range};

/// The header's layout, of epoch 1. An `Err` is want of memory.
pub fn header_layout(alloc: Global, cluster: &Cluster) -> Result<Projection, NoMemory>
    ensures { IfOk result (λ p. p ≡ first_layout cluster.now) }
{
    cluster.rules();
    let stripes = stripes_of(cluster)?;
    let mut ranges = List::new(alloc);
    ranges.push(Range { lo: 0, stripes })?;
    Ok(Projection {
        epoch: 1,
        seq: 0,
        start: 0,
        by: 0,
        gone: List::new(alloc),
        ranges,
    })
}

fn stripes_of(cluster: &Cluster) -> Result<List<Chain>, NoMemory>
    ensures { IfOk result (λ c. c ≡ cluster.now.chains) }
{
    Ok(cluster.chains.clone()?)
}
