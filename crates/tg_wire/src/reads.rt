//! Reading messages.

ghost use Rattle.std.specs.Prelude.{◌≡◌, true};
ghost use Rattle.tg_codec.specs.Reading.{Gives, meets};
ghost use Rattle.tg_codec.specs.Codec.{from_table};
ghost use Rattle.tg_wire.specs.Messages.{tags, messages, message};

use crate::layout_messages::of_layout;
use crate::seqr_messages::of_seqr;
use crate::unit_answers::answered_by_unit;
use crate::unit_requests::asked_of_unit;
use std::alloc::Global;
use tg_base::Msg;
use tg_codec::{ReadFault, u8_in};

fn fields_in<'a>(alloc: Global, tag: u8, bytes: &'a [u8]) -> Result<(Msg, &'a [u8]), ReadFault>
    requires { meets tags tag tag ≡ true }
    ensures { Gives (λ x. (x.0, x.1.now)) result ((from_table messages tag).read bytes.now) }
{
    if tag <= 0x07 {
        asked_of_unit(alloc, tag, bytes)
    } else if tag <= 0x18 {
        answered_by_unit(alloc, tag, bytes)
    } else if tag <= 0x2c {
        of_layout(alloc, tag, bytes)
    } else {
        of_seqr(alloc, tag, bytes)
    }
}

/// A message behind its tag.
#[tactic(auto, unfolding(crate::specs::Messages::message))]
pub fn message_in(alloc: Global, bytes: &[u8]) -> Result<(Msg, &[u8]), ReadFault>
    ensures { Gives (λ x. (x.0, x.1.now)) result (message.read bytes.now) }
{
    let tags = [
        (0x01, 0x07),
        (0x11, 0x18),
        (0x21, 0x24),
        (0x29, 0x2c),
        (0x31, 0x33),
        (0x39, 0x3d),
    ];
    let (tag, rest) = u8_in(&tags, bytes)?;
    fields_in(alloc, tag, rest)
}
