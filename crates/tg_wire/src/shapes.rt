//! Fields in turn, as several messages have them.

ghost use Rattle.std.specs.Prelude.{◌≡◌, ◌≤◌, ◌++◌, length, OnOk};
ghost use Rattle.std.specs.Int.{w16, w64, to_be_bytes};
ghost use Rattle.tg_codec.specs.Streams.{any, links};
ghost use Rattle.tg_wire.specs.Fields.{cell, ballot, objects, proposal, vote};
ghost use Rattle.tg_wire.specs.Short.{IsShortLayout, IsShortVote};

use crate::fields::{put_ballot, put_cell, put_objects};
use crate::layouts::{put_projection, put_vote};
use tg_base::{Ballot, Cell, List, NoMemory, Oid, Projection, StreamLink};
use tg_codec::{put_links, put_text, put_u64};

/// Puts two numbers last.
pub fn put_two(first: u64, second: u64, out: &mut List<u8>) -> Result<(), NoMemory>
    ensures { OnOk result (out.new ≡ out.old ++ (to_be_bytes w64 first ++ to_be_bytes w64 second)) }
{
    put_u64(first, out)?;
    put_u64(second, out)
}

/// Puts two numbers and a page last.
pub fn put_page(first: u64, second: u64, page: &[u8], out: &mut List<u8>) -> Result<(), NoMemory>
    requires { length page.now ≤ 65535 }
    ensures { OnOk result (out.new ≡ out.old ++ (to_be_bytes w64 first ++ (to_be_bytes w64 second ++ (to_be_bytes w16 (length page.now) ++ page.now)))) }
{
    put_u64(first, out)?;
    put_u64(second, out)?;
    put_text(page, out)
}

/// Puts two numbers and a cell last.
pub fn put_two_cell(
    first: u64,
    second: u64,
    value: &Cell,
    out: &mut List<u8>,
) -> Result<(), NoMemory>
    ensures { OnOk result (out.new ≡ out.old ++ (to_be_bytes w64 first ++ (to_be_bytes w64 second ++ cell.spell value.now))) }
{
    put_u64(first, out)?;
    put_u64(second, out)?;
    put_cell(value, out)
}

/// Puts four numbers last.
pub fn put_four(
    first: u64,
    second: u64,
    third: u64,
    fourth: u64,
    out: &mut List<u8>,
) -> Result<(), NoMemory>
    ensures { OnOk result (out.new ≡ out.old ++ (to_be_bytes w64 first ++ (to_be_bytes w64 second ++ (to_be_bytes w64 third ++ to_be_bytes w64 fourth)))) }
{
    put_u64(first, out)?;
    put_u64(second, out)?;
    put_u64(third, out)?;
    put_u64(fourth, out)
}

/// Puts a number and a ballot last.
pub fn put_round(number: u64, value: Ballot, out: &mut List<u8>) -> Result<(), NoMemory>
    ensures { OnOk result (out.new ≡ out.old ++ (to_be_bytes w64 number ++ ballot.spell value)) }
{
    put_u64(number, out)?;
    put_ballot(value, out)
}

/// Puts an epoch, a ballot, and a layout of this epoch last.
pub fn put_proposal(
    epoch: u64,
    value: Ballot,
    layout: &Projection,
    out: &mut List<u8>,
) -> Result<(), NoMemory>
    requires { IsShortLayout layout.now }
    ensures { OnOk result (out.new ≡ out.old ++ (to_be_bytes w64 epoch ++ (proposal epoch).spell (value, layout.now))) }
{
    put_u64(epoch, out)?;
    put_ballot(value, out)?;
    put_projection(layout, out)
}

/// Puts a number, a ballot, and the proposal that was voted for last.
pub fn put_round_vote(
    number: u64,
    value: Ballot,
    accepted: &Option<(Ballot, Projection)>,
    out: &mut List<u8>,
) -> Result<(), NoMemory>
    requires { IsShortVote accepted.now }
    ensures { OnOk result (out.new ≡ out.old ++ (to_be_bytes w64 number ++ (ballot.spell value ++ vote.spell accepted.now))) }
{
    put_u64(number, out)?;
    put_ballot(value, out)?;
    put_vote(accepted, out)
}

/// Puts a number and objects last.
pub fn put_streams(number: u64, oids: &[Oid], out: &mut List<u8>) -> Result<(), NoMemory>
    requires { length oids.now ≤ 255 }
    ensures { OnOk result (out.new ≡ out.old ++ (to_be_bytes w64 number ++ (objects any).spell oids.now)) }
{
    put_u64(number, out)?;
    put_objects(oids, out)
}

/// Puts a number and streams with their last positions last.
pub fn put_stream_links(
    number: u64,
    value: &[StreamLink],
    out: &mut List<u8>,
) -> Result<(), NoMemory>
    requires { length value.now ≤ 255 }
    ensures { OnOk result (out.new ≡ out.old ++ (to_be_bytes w64 number ++ (links any).spell value.now)) }
{
    put_u64(number, out)?;
    put_links(value, out)
}
