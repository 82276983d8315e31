//! The rules that packets keep.

ghost use Rattle.std.specs.Prelude.{◌≡◌, map};
ghost use Rattle.std.specs.List.{list_all};
ghost use Rattle.tg_base.specs.Layouts.{is_layout};
ghost use Rattle.tg_base.specs.Units.{is_rising, is_within};
ghost use Rattle.tg_codec.specs.Streams.{oid_number};
ghost use Rattle.tg_wire.specs.Rules.{fits, is_message, is_object, are_objects, is_falling, is_link, link_number, are_links, is_cell, is_vote, is_asked, is_page};

use tg_base::{Ballot, Blob, Cell, Epoch, Msg, Oid, Packet, Projection, StreamLink};

/// Whether a packet keeps the rules of its fields, so that it has a spelling. It takes no memory.
pub fn fits(value: &Packet) -> bool
    ensures { result ≡ fits value.now }
{
    is_message(&value.msg)
}

fn is_message(msg: &Msg) -> bool
    ensures { result ≡ is_message msg.now }
{
    match msg {
        Msg::Read { epoch, .. } => is_asked(*epoch),
        Msg::Write { epoch, page, .. } => is_asked(*epoch) && is_page(page),
        Msg::Fill { epoch, .. } => is_asked(*epoch),
        Msg::Copy { epoch, cell, .. } => is_asked(*epoch) && is_cell(cell),
        Msg::Has { epoch, step, .. } => is_asked(*epoch) && *step >= 1,
        Msg::Seal { epoch } => is_asked(*epoch),
        Msg::Trim { epoch, .. } => is_asked(*epoch),
        Msg::Taken { cell } => is_cell(cell),
        Msg::Prepare { epoch, .. } => is_asked(*epoch),
        Msg::Accept { epoch, proj, .. } => is_asked(*epoch)
            && is_layout(proj)
            && proj.epoch == *epoch,
        Msg::Decided { proj } => is_layout(proj),
        Msg::Promise { accepted, .. } => is_vote(accepted),
        Msg::Latest { proj } => is_layout(proj),
        Msg::Learn { proj } => is_layout(proj),
        Msg::Token { epoch, oids } => is_asked(*epoch) && are_objects(1, 16, oids.as_slice()),
        Msg::Check { epoch, oids } => is_asked(*epoch) && are_objects(0, 128, oids.as_slice()),
        Msg::Issued { links, .. } => are_links(links.as_slice()),
        Msg::Tail { links, .. } => are_links(links.as_slice()),
        _ => true,
    }
}

fn is_asked(epoch: Epoch) -> bool
    ensures { result ≡ is_asked epoch }
{
    epoch >= 1
}

// Every page is short enough.
fn is_page(page: &Blob) -> bool
    ensures { result ≡ is_page page.now }
{
    page.as_slice().len() <= Blob::MAX
}

fn is_cell(cell: &Cell) -> bool
    ensures { result ≡ is_cell cell.now }
{
    match cell {
        Cell::Junk => true,
        Cell::Data(page) => is_page(page),
    }
}

// Every layout keeps the rules.
fn is_layout(layout: &Projection) -> bool
    ensures { result ≡ is_layout layout.now }
{
    layout.rules();
    true
}

fn is_vote(accepted: &Option<(Ballot, Projection)>) -> bool
    ensures { result ≡ is_vote accepted.now }
{
    match accepted {
        None => true,
        Some((_, layout)) => is_layout(layout),
    }
}

// The directory, or an object of another kind.
fn is_object(oid: Oid) -> bool
    ensures { result ≡ is_object oid }
{
    oid.0 == 0 || (0x0100_0000 <= oid.0 && oid.0 <= 0x06ff_ffff)
}

fn are_objects(least: usize, most: usize, oids: &[Oid]) -> bool
    ensures { result ≡ are_objects least most oids.now }
{
    is_count(least, most, oids.len()) && all_objects(oids) && rise(oids)
}

fn all_objects(oids: &[Oid]) -> bool
    ensures { result ≡ list_all is_object oids.now }
{
    oids.iter().all(|oid| is_object(*oid))
}

fn is_count(least: usize, most: usize, count: usize) -> bool
    ensures { result ≡ is_within least most count }
{
    least <= count && count <= most
}

fn rise(oids: &[Oid]) -> bool
    ensures { result ≡ is_rising (map oid_number oids.now) }
{
    match oids {
        [first, rest @ ..] => match rest {
            [second, ..] => first.0 < second.0 && rise(rest),
            [] => true,
        },
        [] => true,
    }
}

fn fall(positions: &[u64]) -> bool
    ensures { result ≡ is_falling positions.now }
{
    match positions {
        [first, rest @ ..] => match rest {
            [second, ..] => second < first && fall(rest),
            [] => true,
        },
        [] => true,
    }
}

fn is_link(link: &StreamLink) -> bool
    ensures { result ≡ is_link link.now }
{
    let backs = link.backs.as_slice();
    is_object(link.oid) && backs.len() <= 4 && fall(backs)
}

fn links_rise(links: &[StreamLink]) -> bool
    ensures { result ≡ is_rising (map link_number links.now) }
{
    match links {
        [first, rest @ ..] => match rest {
            [second, ..] => first.oid.0 < second.oid.0 && links_rise(rest),
            [] => true,
        },
        [] => true,
    }
}

fn all_links(links: &[StreamLink]) -> bool
    ensures { result ≡ list_all is_link links.now }
{
    links.iter().all(|link| is_link(link))
}

fn are_links(links: &[StreamLink]) -> bool
    ensures { result ≡ are_links links.now }
{
    links.len() <= 128 && all_links(links) && links_rise(links)
}
