//! What a reconfiguration is about.

ghost use Rattle.std.specs.Prelude.{◌≡◌, ◌≤◌, ◌+◌, nat_lt, length, IfSome, IfOk};
ghost use Rattle.tg_proj.specs.Places.{range_at};
ghost use Rattle.tg_proj.specs.Refusals.{new_start};
ghost use Rattle.tg_protocol.specs.Layouts.{next_of as next_by_rules};
ghost use Rattle.tg_protocol.specs.Trimming.{has_stripe};
ghost use Rattle.tg_reconf.specs.States.{IsOpen};

use std::alloc::Global;
use tg_base::{Ballot, Change, Epoch, Join, Msg, NoMemory, Pos, Projection, Range, Stand};
use tg_proj::next_of;

/// The layout that the client stands on, what is to change of it, and who the client is.
#[derive(Drop)]
pub struct Plan {
    pub stand: Stand,
    pub change: Change,
    pub me: u16,
}

impl Plan {
    /// The epoch of the client's layout.
    pub fn epoch(&self) -> Epoch
        ensures { result ≡ self.now.stand.proj.epoch }
    {
        self.stand.proj.epoch
    }

    /// The epoch that is to come.
    pub fn next_epoch(&self) -> Epoch
        requires { IsOpen self.now }
        ensures { result ≡ self.now.stand.proj.epoch + 1 }
    {
        self.stand.proj.epoch + 1
    }

    /// The unit that joins, if one does.
    pub fn join(&self) -> Option<Join>
        ensures { result ≡ self.now.change.join }
    {
        self.change.join
    }

    /// The client's ballot of a round.
    pub fn ballot(&self, round: u32) -> Ballot
        ensures { result ≡ record { round = round; client = self.now.me } }
    {
        Ballot {
            round,
            client: self.me,
        }
    }

    /// Whether so many layout servers are a majority.
    pub fn is_majority(&self, count: usize) -> bool
        ensures { result ≡ nat_lt self.now.stand.layouts (count + count) }
    {
        usize::from(self.stand.layouts).saturating_sub(count) < count
    }

    /// Where the next layout's sequencer begins: the greatest of the present start and the acks' numbers.
    pub fn start_after(&self, acks: &[(u16, Pos)]) -> Pos
        ensures { result ≡ new_start self.now.stand.proj.start acks.now }
    {
        let start = self.stand.proj.start;
        acks.iter().fold(start, |start, ack| start.max(ack.1))
    }

    /// The layout that the client proposes.
    #[tactic(auto, unfolding(tg_protocol::specs::Layouts::next_of))]
    pub fn next_layout(&self, alloc: Global, start: Pos) -> Result<Projection, NoMemory>
        requires open { IsOpen self.now }
        requires later { self.now.stand.proj.start ≤ start }
        ensures { IfOk result (λ q. q ≡ next_by_rules self.now.stand.proj self.now.change self.now.me start) }
    {
        next_of(alloc, &self.stand.proj, &self.change, self.me, start)
    }

    /// The question whether a unit has every position of the stripe that it joins. None only where a position
    /// of the stripe would be 2^64 or more.
    pub fn has_stripe(&self, epoch: Epoch, join: Join) -> Option<Msg>
        ensures { IfSome result (λ m. m ≡ has_stripe epoch self.now.stand.proj join.range join.stripe) }
    {
        let ranges = self.stand.proj.ranges.as_slice();
        let lo = lo_of(ranges, join.range).checked_add(join.stripe as u64)?;
        let next = join.range.checked_add(1)?;
        Some(Msg::Has {
            epoch,
            lo,
            hi: lo_of(ranges, next),
            step: stripes_of(ranges, join.range),
        })
    }
}

/// Where a range begins.
fn lo_of(ranges: &[Range], number: usize) -> Pos
    ensures { result ≡ (range_at ranges.now number).lo }
{
    match ranges.get(number) {
        Some(range) => range.lo,
        None => 0,
    }
}

/// How many stripes a range has.
fn stripes_of(ranges: &[Range], number: usize) -> u64
    ensures { result ≡ length (range_at ranges.now number).stripes }
{
    match ranges.get(number) {
        Some(range) => range.stripes.len() as u64,
        None => 0,
    }
}
