//! Numbers of their fields' types, which every packet has.

ghost use Rattle.tg_base.specs.Layouts.{IsWithinTypes};
ghost use Rattle.tg_wire.specs.Types.{IsLong, IsTypedBallot, AreLong, AreTypedLinks, IsTypedVote, IsTypedMessage, IsTyped};

use tg_base::{Ballot, Msg, Packet, Projection, StreamLink};

fn long(number: u64)
    ensures { IsLong number }
{
    let _number = number;
}

fn longs(first: u64, second: u64)
    ensures { IsLong first × IsLong second }
{
    let _numbers = (first, second);
}

fn four_long(first: u64, second: u64, third: u64, fourth: u64)
    ensures { (IsLong first × IsLong second) × (IsLong third × IsLong fourth) }
{
    let _numbers = (first, second, third, fourth);
}

fn ballot_types(value: Ballot)
    ensures { IsTypedBallot value }
{
    let _round = value.round;
    let _client = value.client;
}

fn round_types(number: u64, value: Ballot)
    ensures { IsLong number × IsTypedBallot value }
{
    ballot_types(value);
    long(number)
}

fn proposal_types(number: u64, value: Ballot, layout: &Projection)
    ensures { (IsLong number × IsTypedBallot value) × IsWithinTypes layout.now }
{
    layout.rules();
    round_types(number, value)
}

fn vote_types(value: &Option<(Ballot, Projection)>)
    ensures { IsTypedVote value.now }
{
    match value {
        None => {}
        Some((ballot, layout)) => {
            layout.rules();
            ballot_types(*ballot)
        }
    }
}

fn promise_types(number: u64, value: Ballot, accepted: &Option<(Ballot, Projection)>)
    ensures { (IsLong number × IsTypedBallot value) × IsTypedVote accepted.now }
{
    vote_types(accepted);
    round_types(number, value)
}

fn position_types(positions: &[u64])
    ensures { AreLong positions.now }
{
    let _count = positions.len();
}

fn link_types(links: &[StreamLink])
    ensures { AreTypedLinks links.now }
{
    match links {
        [] => {}
        [first, rest @ ..] => {
            position_types(first.backs.as_slice());
            link_types(rest)
        }
    }
}

fn stream_types(number: u64, links: &[StreamLink])
    ensures { IsLong number × AreTypedLinks links.now }
{
    link_types(links);
    long(number)
}

fn message_types(value: &Msg)
    ensures { IsTypedMessage value.now }
{
    match value {
        Msg::Read { epoch, pos } => longs(*epoch, *pos),
        Msg::Write { epoch, pos, .. } => longs(*epoch, *pos),
        Msg::Fill { epoch, pos } => longs(*epoch, *pos),
        Msg::Copy { epoch, pos, .. } => longs(*epoch, *pos),
        Msg::Has {
            epoch,
            lo,
            hi,
            step,
        } => four_long(*epoch, *lo, *hi, *step),
        Msg::Seal { epoch } => long(*epoch),
        Msg::Trim { epoch, below } => longs(*epoch, *below),
        Msg::Held => {}
        Msg::Taken { .. } => {}
        Msg::Unwritten => {}
        Msg::Gone { below } => long(*below),
        Msg::Fenced { epoch } => long(*epoch),
        Msg::Sealed { epoch, high } => longs(*epoch, *high),
        Msg::Missing { pos } => long(*pos),
        Msg::Whole => {}
        Msg::Prepare { epoch, ballot } => round_types(*epoch, *ballot),
        Msg::Accept {
            epoch,
            ballot,
            proj,
        } => proposal_types(*epoch, *ballot, proj),
        Msg::Decided { proj } => proj.rules(),
        Msg::AskLatest => {}
        Msg::Promise {
            epoch,
            ballot,
            accepted,
        } => promise_types(*epoch, *ballot, accepted),
        Msg::Nack { epoch, ballot } => round_types(*epoch, *ballot),
        Msg::Accepted { epoch, ballot } => round_types(*epoch, *ballot),
        Msg::Latest { proj } => proj.rules(),
        Msg::Learn { proj } => proj.rules(),
        Msg::Token { epoch, .. } => long(*epoch),
        Msg::Check { epoch, .. } => long(*epoch),
        Msg::Issued { pos, links } => stream_types(*pos, links.as_slice()),
        Msg::Tail { tail, links } => stream_types(*tail, links.as_slice()),
        Msg::Scanning { next, start } => longs(*next, *start),
        Msg::OldEpoch { epoch } => long(*epoch),
        Msg::Full { limit } => long(*limit),
    }
}

/// Every packet has numbers of its fields' types.
pub fn types(value: &Packet)
    ensures { IsTyped value.now }
{
    let _from = value.from.num;
    let _to = value.to.num;
    let _rid = value.rid;
    message_types(&value.msg)
}
