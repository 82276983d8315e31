//! Lengths of messages.

ghost use Rattle.std.specs.Prelude.{◌≡◌, ◌≤◌, length};
ghost use Rattle.tg_codec.specs.Codec.{from_table};
ghost use Rattle.tg_wire.specs.Messages.{tag_of, messages, message};
ghost use Rattle.tg_wire.specs.Short.{IsShort};

use crate::fields::{size_cell, size_objects};
use crate::layouts::{size_projection, size_proposal, size_vote};
use tg_base::Msg;
use tg_codec::size_links;

#[tactic(auto, unfolding(crate::specs::Messages::read, crate::specs::Messages::write, crate::specs::Messages::fill, crate::specs::Messages::copy, crate::specs::Messages::has, crate::specs::Messages::seal, crate::specs::Messages::trim, crate::specs::Messages::held, crate::specs::Messages::taken, crate::specs::Messages::unwritten, crate::specs::Messages::gone, crate::specs::Messages::fenced, crate::specs::Messages::sealed, crate::specs::Messages::missing, crate::specs::Messages::whole, crate::specs::Messages::prepare, crate::specs::Messages::accept, crate::specs::Messages::decided, crate::specs::Messages::ask_latest, crate::specs::Messages::promise, crate::specs::Messages::nack, crate::specs::Messages::accepted, crate::specs::Messages::latest, crate::specs::Messages::learn, crate::specs::Messages::token, crate::specs::Messages::check, crate::specs::Messages::issued, crate::specs::Messages::tail, crate::specs::Messages::scanning, crate::specs::Messages::old_epoch, crate::specs::Messages::full))]
fn size_fields(value: &Msg) -> usize
    requires { IsShort value.now }
    ensures len { result ≡ length ((from_table messages (tag_of value.now)).spell value.now) }
    ensures most { result ≤ 1500000000 }
{
    match value {
        Msg::Read { .. } => 16,
        Msg::Write { page, .. } => 18 + page.as_slice().len(),
        Msg::Fill { .. } => 16,
        Msg::Copy { cell, .. } => 16 + size_cell(cell),
        Msg::Has { .. } => 32,
        Msg::Seal { .. } => 8,
        Msg::Trim { .. } => 16,
        Msg::Held => 0,
        Msg::Taken { cell } => size_cell(cell),
        Msg::Unwritten => 0,
        Msg::Gone { .. } => 8,
        Msg::Fenced { .. } => 8,
        Msg::Sealed { .. } => 16,
        Msg::Missing { .. } => 8,
        Msg::Whole => 0,
        Msg::Prepare { .. } => 14,
        Msg::Accept {
            epoch,
            ballot,
            proj,
        } => 8 + size_proposal(*epoch, *ballot, proj),
        Msg::Decided { proj } => size_projection(proj),
        Msg::AskLatest => 0,
        Msg::Promise { accepted, .. } => 14 + size_vote(accepted),
        Msg::Nack { .. } => 14,
        Msg::Accepted { .. } => 14,
        Msg::Latest { proj } => size_projection(proj),
        Msg::Learn { proj } => size_projection(proj),
        Msg::Token { oids, .. } => 8 + size_objects(oids.as_slice()),
        Msg::Check { oids, .. } => 8 + size_objects(oids.as_slice()),
        Msg::Issued { links, .. } => 8 + size_links(links.as_slice()),
        Msg::Tail { links, .. } => 8 + size_links(links.as_slice()),
        Msg::Scanning { .. } => 16,
        Msg::OldEpoch { .. } => 8,
        Msg::Full { .. } => 8,
    }
}

/// The length of the spelling of a message behind its tag. It takes no memory.
#[tactic(auto, unfolding(crate::specs::Messages::message))]
pub fn size_message(value: &Msg) -> usize
    requires { IsShort value.now }
    ensures len { result ≡ length (message.spell value.now) }
    ensures most { result ≤ 1600000000 }
{
    1 + size_fields(value)
}
