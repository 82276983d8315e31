//! How many bytes a packet takes.

ghost use Rattle.std.specs.Prelude.{◌≡◌, ◌+◌, ◌≤◌, ◌*◌, map};
ghost use Rattle.tg_protocol.specs.Entries.{sum_of};
ghost use Rattle.tg_protocol.specs.Sizes.{page_size, cell_size, chain_size, range_size, layout_size, accepted_size, fields_size, packet_size};
ghost use Rattle.tg_world_servers.specs.Posts.{capped};

use tg_base::{Ballot, Blob, Cell, Chain, Msg, Packet, Projection, Range};

fn page_bytes(page: &Blob) -> u64
    ensures exact { result ≡ page_size page.now }
    ensures most { result ≤ 4098 }
{
    2 + page.as_slice().len() as u64
}

fn cell_bytes(cell: &Cell) -> u64
    ensures exact { result ≡ cell_size cell.now }
    ensures most { result ≤ 4099 }
{
    match cell {
        Cell::Junk => 1,
        Cell::Data(page) => 1 + page_bytes(page),
    }
}

fn chain_bytes(chain: &Chain) -> u64
    ensures { result ≡ chain_size chain.now }
{
    1 + 2 * chain.as_slice().len() as u64
}

fn chains_bytes(chains: &[Chain]) -> u64
    ensures { result ≡ capped (sum_of (map chain_size chains.now)) }
{
    match chains {
        [] => 0,
        [chain, others @ ..] => chain_bytes(chain).saturating_add(chains_bytes(others)),
    }
}

fn ranges_bytes(ranges: &[Range]) -> u64
    ensures { result ≡ capped (sum_of (map range_size ranges.now)) }
{
    match ranges {
        [] => 0,
        [range, others @ ..] => range_bytes(range).saturating_add(ranges_bytes(others)),
    }
}

fn range_bytes(range: &Range) -> u64
    ensures { result ≡ capped (range_size range.now) }
{
    chains_bytes(range.stripes.as_slice()).saturating_add(9)
}

fn layout_bytes(layout: &Projection) -> u64
    ensures { result ≡ capped (layout_size layout.now) }
{
    let gone = layout.gone.len() as u64;
    let ranges = ranges_bytes(layout.ranges.as_slice());
    ranges
        .saturating_add(22)
        .saturating_add(gone.saturating_mul(2))
}

fn accepted_bytes(accepted: &Option<(Ballot, Projection)>) -> u64
    ensures { result ≡ capped (accepted_size accepted.now) }
{
    match accepted {
        None => 1,
        Some((_, layout)) => layout_bytes(layout).saturating_add(7),
    }
}

// A number and a list of items of the same size.
fn list_bytes(count: usize, each: u64) -> u64
    ensures { result ≡ capped (9 + each * count) }
{
    (count as u64).saturating_mul(each).saturating_add(9)
}

#[tactic(auto, unfolding(tg_protocol::specs::Sizes::fields_size))]
fn fields_bytes(msg: &Msg) -> u64
    ensures { result ≡ capped (fields_size msg.now) }
{
    match msg {
        Msg::Read { .. } => 16,
        Msg::Write { page, .. } => 16 + page_bytes(page),
        Msg::Fill { .. } => 16,
        Msg::Copy { cell, .. } => 16 + cell_bytes(cell),
        Msg::Has { .. } => 32,
        Msg::Seal { .. } => 8,
        Msg::Trim { .. } => 16,
        Msg::Held => 0,
        Msg::Taken { cell } => cell_bytes(cell),
        Msg::Unwritten => 0,
        Msg::Gone { .. } => 8,
        Msg::Fenced { .. } => 8,
        Msg::Sealed { .. } => 16,
        Msg::Missing { .. } => 8,
        Msg::Whole => 0,
        Msg::Prepare { .. } => 14,
        Msg::Accept { proj, .. } => layout_bytes(proj).saturating_add(14),
        Msg::Decided { proj } => layout_bytes(proj),
        Msg::AskLatest => 0,
        Msg::Promise { accepted, .. } => accepted_bytes(accepted).saturating_add(14),
        Msg::Nack { .. } => 14,
        Msg::Accepted { .. } => 14,
        Msg::Latest { proj } => layout_bytes(proj),
        Msg::Learn { proj } => layout_bytes(proj),
        Msg::Token { oids, .. } => list_bytes(oids.len(), 4),
        Msg::Check { oids, .. } => list_bytes(oids.len(), 4),
        Msg::Issued { links, .. } => list_bytes(links.len(), 37),
        Msg::Tail { links, .. } => list_bytes(links.len(), 37),
        Msg::Scanning { .. } => 16,
        Msg::OldEpoch { .. } => 8,
        Msg::Full { .. } => 8,
    }
}

/// How many bytes a packet takes, and the greatest number where there are more. It takes no memory.
pub fn size(packet: &Packet) -> u64
    ensures { result ≡ capped (packet_size packet.now) }
{
    fields_bytes(&packet.msg).saturating_add(18)
}
