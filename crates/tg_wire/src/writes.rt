//! Writing messages.

ghost use Rattle.std.specs.Prelude.{◌≡◌, ◌++◌, OnOk};
ghost use Rattle.tg_codec.specs.Codec.{from_table};
ghost use Rattle.tg_wire.specs.Messages.{tag_of, messages, message};
ghost use Rattle.tg_wire.specs.Short.{IsShort};

use crate::fields::put_cell;
use crate::layouts::put_projection;
use crate::shapes::{
    put_four, put_page, put_proposal, put_round, put_round_vote, put_stream_links, put_streams,
    put_two, put_two_cell,
};
use tg_base::{List, Msg, NoMemory};
use tg_codec::put_u64;

// The number that stands for a message.
fn tag_of(value: &Msg) -> u8
    ensures { result ≡ tag_of value.now }
{
    match value {
        Msg::Read { .. } => 0x01,
        Msg::Write { .. } => 0x02,
        Msg::Fill { .. } => 0x03,
        Msg::Copy { .. } => 0x04,
        Msg::Has { .. } => 0x05,
        Msg::Seal { .. } => 0x06,
        Msg::Trim { .. } => 0x07,
        Msg::Held => 0x11,
        Msg::Taken { .. } => 0x12,
        Msg::Unwritten => 0x13,
        Msg::Gone { .. } => 0x14,
        Msg::Fenced { .. } => 0x15,
        Msg::Sealed { .. } => 0x16,
        Msg::Missing { .. } => 0x17,
        Msg::Whole => 0x18,
        Msg::Prepare { .. } => 0x21,
        Msg::Accept { .. } => 0x22,
        Msg::Decided { .. } => 0x23,
        Msg::AskLatest => 0x24,
        Msg::Promise { .. } => 0x29,
        Msg::Nack { .. } => 0x2a,
        Msg::Accepted { .. } => 0x2b,
        Msg::Latest { .. } => 0x2c,
        Msg::Learn { .. } => 0x31,
        Msg::Token { .. } => 0x32,
        Msg::Check { .. } => 0x33,
        Msg::Issued { .. } => 0x39,
        Msg::Tail { .. } => 0x3a,
        Msg::Scanning { .. } => 0x3b,
        Msg::OldEpoch { .. } => 0x3c,
        Msg::Full { .. } => 0x3d,
    }
}

#[tactic(auto, unfolding(crate::specs::Messages::read, crate::specs::Messages::write, crate::specs::Messages::fill, crate::specs::Messages::copy, crate::specs::Messages::has, crate::specs::Messages::seal, crate::specs::Messages::trim, crate::specs::Messages::held, crate::specs::Messages::taken, crate::specs::Messages::unwritten, crate::specs::Messages::gone, crate::specs::Messages::fenced, crate::specs::Messages::sealed, crate::specs::Messages::missing, crate::specs::Messages::whole, crate::specs::Messages::prepare, crate::specs::Messages::accept, crate::specs::Messages::decided, crate::specs::Messages::ask_latest, crate::specs::Messages::promise, crate::specs::Messages::nack, crate::specs::Messages::accepted, crate::specs::Messages::latest, crate::specs::Messages::learn, crate::specs::Messages::token, crate::specs::Messages::check, crate::specs::Messages::issued, crate::specs::Messages::tail, crate::specs::Messages::scanning, crate::specs::Messages::old_epoch, crate::specs::Messages::full))]
fn put_fields(value: &Msg, out: &mut List<u8>) -> Result<(), NoMemory>
    requires { IsShort value.now }
    ensures { OnOk result (out.new ≡ out.old ++ (from_table messages (tag_of value.now)).spell value.now) }
{
    match value {
        Msg::Read { epoch, pos } => put_two(*epoch, *pos, out),
        Msg::Write { epoch, pos, page } => put_page(*epoch, *pos, page.as_slice(), out),
        Msg::Fill { epoch, pos } => put_two(*epoch, *pos, out),
        Msg::Copy { epoch, pos, cell } => put_two_cell(*epoch, *pos, cell, out),
        Msg::Has {
            epoch,
            lo,
            hi,
            step,
        } => put_four(*epoch, *lo, *hi, *step, out),
        Msg::Seal { epoch } => put_u64(*epoch, out),
        Msg::Trim { epoch, below } => put_two(*epoch, *below, out),
        Msg::Held => Ok(()),
        Msg::Taken { cell } => put_cell(cell, out),
        Msg::Unwritten => Ok(()),
        Msg::Gone { below } => put_u64(*below, out),
        Msg::Fenced { epoch } => put_u64(*epoch, out),
        Msg::Sealed { epoch, high } => put_two(*epoch, *high, out),
        Msg::Missing { pos } => put_u64(*pos, out),
        Msg::Whole => Ok(()),
        Msg::Prepare { epoch, ballot } => put_round(*epoch, *ballot, out),
        Msg::Accept {
            epoch,
            ballot,
            proj,
        } => put_proposal(*epoch, *ballot, proj, out),
        Msg::Decided { proj } => put_projection(proj, out),
        Msg::AskLatest => Ok(()),
        Msg::Promise {
            epoch,
            ballot,
            accepted,
        } => put_round_vote(*epoch, *ballot, accepted, out),
        Msg::Nack { epoch, ballot } => put_round(*epoch, *ballot, out),
        Msg::Accepted { epoch, ballot } => put_round(*epoch, *ballot, out),
        Msg::Latest { proj } => put_projection(proj, out),
        Msg::Learn { proj } => put_projection(proj, out),
        Msg::Token { epoch, oids } => put_streams(*epoch, oids.as_slice(), out),
        Msg::Check { epoch, oids } => put_streams(*epoch, oids.as_slice(), out),
        Msg::Issued { pos, links } => put_stream_links(*pos, links.as_slice(), out),
        Msg::Tail { tail, links } => put_stream_links(*tail, links.as_slice(), out),
        Msg::Scanning { next, start } => put_two(*next, *start, out),
        Msg::OldEpoch { epoch } => put_u64(*epoch, out),
        Msg::Full { limit } => put_u64(*limit, out),
    }
}

/// Puts a message last, behind its tag.
#[tactic(auto, unfolding(crate::specs::Messages::message))]
pub fn put_message(value: &Msg, out: &mut List<u8>) -> Result<(), NoMemory>
    requires { IsShort value.now }
    ensures { OnOk result (out.new ≡ out.old ++ message.spell value.now) }
{
    out.push(tag_of(value))?;
    put_fields(value, out)
}
