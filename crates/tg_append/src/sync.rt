//! The tail is confirmed: by the sequencer, and then by the units of its epoch.

ghost use Rattle.std.specs.Prelude.{ℕ, ◌≡◌, ◌<◌, ◌≤◌, ◌+◌, ◌-◌, ◌^◌, ◌∷◌, ◌&&◌, [], List, nat_lt, Some, None, true, false, IfOk, IsOk, OnErr};
ghost use Rattle.tg_base.specs.Layouts.{Layout};
ghost use Rattle.tg_base.specs.declared.msg.Msg.TheVariants.{Check};
ghost use Rattle.tg_protocol.specs.Words.{seqr_id};
ghost use Rattle.tg_protocol.specs.Replies.{reply};
ghost use Rattle.tg_protocol.specs.Requests.{out, awaits, passes, learns, ends, met_gone};
ghost use Rattle.tg_protocol.specs.Cells.{CellJob, fill_cell, place_in};
ghost use Rattle.tg_protocol.specs.Appending.{names_all, on_old_epoch};
ghost use Rattle.tg_protocol.specs.Syncing.{SyncWork, sync_asks, sync_start, checking_feed, on_tail, confirm_by, confirmed, settle_turn, settle_end, probes, probe_end};
ghost use Rattle.tg_chain.specs.Ends.{fill_end as fill_ended, probe_end as probe_ended};
ghost use Rattle.tg_chain.specs.Turns.{needs_memory};
ghost use Rattle.tg_append.specs.Needs.{sync_needs, checking_needs, settling_needs, is_gone};
ghost use Rattle.tg_append.specs.Turns.{shown};
ghost use Rattle.tg_append.specs.Syncs.{oids_of, sync_at, checking, settling, probing, confirmed_of, sync_fed, by_sync};

use crate::ends::Confirmed;
use crate::links::name_all;
use crate::page::copied;
use crate::sync_state::SyncState;
use crate::telling::tell;
use crate::token::Answer;
use std::alloc::Global;
use std::marker::Model;
use tg_base::{
    Cell, Epoch, List, Msg, NoMemory, NodeId, Oid, Out, Pos, Projection, Rids, StreamLink, Turn,
};
use tg_chain::{
    FAR, FillCell, FillCellEnd, Next, Probe, ProbeEnd, Step, answers, one, sequencer, units_at,
};

/// A step of a sync. In a newer layout it starts over with the same objects.
pub type SyncStep = Step<Sync, List<Oid>, Confirmed>;

/// Asks the sequencer for the tail and the last positions of each object's stream. Past the epoch's start the
/// last position below the tail is then settled. Else its chain is probed, and so it is where that position
/// is gone.
pub struct Sync {
    oids: List<Oid>,
    state: SyncState,
}

// By hand, since a derived drop is proved anew wherever a value is dropped.
impl Drop for Sync {
    fn drop(self) {
        let Sync { oids: _, state: _ } = self;
    }
}

impl Model for Sync {
    ghost use Rattle.tg_append.specs.Words.{SyncJob};
    ghost use Rattle.tg_append.specs.Syncs.{sync_of};

    ghost Value = { SyncJob };

    ghost view = { λ m. sync_of m.oids m.state };
}

impl Sync {
    /// Asks the layout's sequencer. The objects rise.
    #[tactic(auto, using(crate::proofs::Outs::check_drawn), unfolding(tg_protocol::specs::Syncing::sync_start))]
    pub fn start(
        alloc: Global,
        proj: &Projection,
        oids: List<Oid>,
        rids: &mut Rids,
    ) -> Result<SyncStep, NoMemory>
        requires { rids.old.next < 2 ^ 62 }
        ensures turn { IfOk result (λ t. shown confirmed_of t rids.new.next ≡ by_sync proj.now rids.old.next (sync_start oids rids.old.next)) }
        ensures err { OnErr result (rids.new ≡ rids.old) }
        ensures drawn { rids.new.next ≤ rids.old.next + 1 }
    {
        let rid = rids.next;
        let state = SyncState::Checks { rid };
        let machine = Sync { oids, state };
        let outs = machine.again(alloc, proj, rids)?;
        let _rid = rids.draw();
        Ok(Step {
            next: Next::Goes { machine },
            outs,
            gone: 0,
        })
    }

    /// Takes an awaited answer in the layout by which it asked, and passes every other message by.
    pub fn feed(
        self,
        alloc: Global,
        proj: &Projection,
        from: NodeId,
        rid: u64,
        msg: &Msg,
        rids: &mut Rids,
    ) -> Result<SyncStep, NoMemory>
        requires { rids.old.next < 2 ^ 62 }
        ensures turn { IfOk result (λ t. shown confirmed_of t rids.new.next ≡ by_sync proj.now rids.old.next (sync_fed proj.now self from rid msg.now rids.old.next)) }
        ensures free { (awaits (sync_asks proj.now self) from rid && sync_needs proj.now self msg.now) ≡ false → IsOk result }
        ensures err { OnErr result (rids.new ≡ rids.old) }
        ensures drawn { rids.new.next ≤ rids.old.next + 5 }
    {
        let Sync { oids, state } = self;
        match state {
            SyncState::Checks { rid: own } => {
                Sync::check_feed(alloc, proj, oids, own, from, rid, msg, rids)
            }
            SyncState::Settles { answer, fill } => {
                Sync::settle_feed(alloc, proj, oids, answer, fill, from, rid, msg, rids)
            }
            SyncState::Probes { answer, probe } => {
                Sync::probe_feed(alloc, proj, oids, answer, probe, from, rid, msg, rids)
            }
        }
    }

    /// The outstanding requests once more, in the order in which they were first sent.
    #[tactic(auto, unfolding(tg_protocol::specs::Syncing::sync_work_asks))]
    pub fn again(
        &self,
        alloc: Global,
        proj: &Projection,
        rids: &mut Rids,
    ) -> Result<List<Out>, NoMemory>
        ensures asks { IfOk result (λ outs. outs ≡ sync_asks proj.now self.now) }
        ensures rids { rids.new ≡ rids.old }
    {
        match &self.state {
            SyncState::Checks { rid } => check_request(alloc, proj, &self.oids, *rid),
            SyncState::Settles { fill, .. } => fill.again(alloc, rids),
            SyncState::Probes { probe, .. } => probe.again(alloc, rids),
        }
    }

    /// The objects, with which it starts over where its caller learns a newer layout meanwhile.
    pub fn pause(self) -> List<Oid>
        ensures { result ≡ oids_of self }
    {
        let Sync { oids, state: _ } = self;
        oids
    }
}

/// What the layout's sequencer is asked.
fn check_request(
    alloc: Global,
    proj: &Projection,
    oids: &List<Oid>,
    rid: u64,
) -> Result<List<Out>, NoMemory>
    ensures { IfOk result (λ outs. outs ≡ out (seqr_id proj.now.seq) rid (Check proj.now.epoch oids.now) ∷ []) }
{
    let mut asked = List::new(alloc);
    asked.extend(oids.as_slice())?;
    let msg = Msg::Check {
        epoch: proj.epoch,
        oids: asked,
    };
    one(alloc, sequencer(proj.seq), rid, msg)
}

/// The position before this tail, and 0 before 0.
fn before(tail: Pos) -> Pos
    ensures { result ≡ tail - 1 }
{
    if tail == 0 {
        return 0;
    }
    tail - 1
}

// The sequencer is asked.
impl Sync {
    /// A message that comes while the sequencer is asked.
    #[tactic(auto, unfolding(tg_protocol::specs::Syncing::sync_work_asks, tg_protocol::specs::Syncing::sync_feed))]
    fn check_feed(
        alloc: Global,
        proj: &Projection,
        oids: List<Oid>,
        own: u64,
        from: NodeId,
        rid: u64,
        msg: &Msg,
        rids: &mut Rids,
    ) -> Result<SyncStep, NoMemory>
        requires { rids.old.next < 2 ^ 62 }
        ensures turn { IfOk result (λ t. shown confirmed_of t rids.new.next ≡ by_sync proj.now rids.old.next (sync_fed proj.now (checking oids own) from rid msg.now rids.old.next)) }
        ensures free { (awaits (sync_asks proj.now (checking oids own)) from rid && checking_needs proj.now oids (reply msg.now)) ≡ false → IsOk result }
        ensures err { OnErr result (rids.new ≡ rids.old) }
        ensures drawn { rids.new.next ≤ rids.old.next + 5 }
    {
        if !answers(sequencer(proj.seq), own, from, rid) {
            return Ok(Sync::stay(alloc, oids, own));
        }
        Sync::take(alloc, proj, oids, own, msg, rids)
    }

    /// A message is passed by.
    #[tactic(auto, using(tg_chain::proofs::Outs::none_drawn))]
    fn stay(alloc: Global, oids: List<Oid>, own: u64) -> SyncStep
        ensures { (p : Layout) (n : ℕ) → shown confirmed_of result n ≡ by_sync p n (passes n (checking oids own)) }
    {
        let state = SyncState::Checks { rid: own };
        let machine = Sync { oids, state };
        Step {
            next: Next::Goes { machine },
            outs: List::new(alloc),
            gone: 0,
        }
    }

    /// An answer of the sequencer.
    #[tactic(auto, unfolding(tg_protocol::specs::Replies::reply))]
    fn take(
        alloc: Global,
        proj: &Projection,
        oids: List<Oid>,
        own: u64,
        msg: &Msg,
        rids: &mut Rids,
    ) -> Result<SyncStep, NoMemory>
        requires { rids.old.next < 2 ^ 62 }
        ensures turn { IfOk result (λ t. shown confirmed_of t rids.new.next ≡ by_sync proj.now rids.old.next (checking_feed proj.now (checking oids own) (reply msg.now) rids.old.next)) }
        ensures free { checking_needs proj.now oids (reply msg.now) ≡ false → IsOk result }
        ensures err { OnErr result (rids.new ≡ rids.old) }
        ensures drawn { rids.new.next ≤ rids.old.next + 5 }
    {
        match msg {
            Msg::Tail { tail, links } if *tail < FAR => {
                Sync::told(alloc, proj, oids, own, *tail, links, rids)
            }
            Msg::OldEpoch { epoch } => Sync::stands(alloc, proj, oids, own, *epoch, rids),
            _ => Ok(Sync::stay(alloc, oids, own)),
        }
    }

    /// The sequencer stands at another epoch. In an older one it is told the layout.
    #[tactic(auto, using(tg_chain::proofs::Outs::none_drawn))]
    fn stands(
        alloc: Global,
        proj: &Projection,
        oids: List<Oid>,
        own: u64,
        epoch: Epoch,
        rids: &mut Rids,
    ) -> Result<SyncStep, NoMemory>
        requires { rids.old.next < 2 ^ 62 }
        ensures turn { IfOk result (λ t. shown confirmed_of t rids.new.next ≡ by_sync proj.now rids.old.next (on_old_epoch proj.now epoch rids.old.next (checking oids own))) }
        ensures free { nat_lt epoch proj.now.epoch ≡ false → IsOk result }
        ensures err { OnErr result (rids.new ≡ rids.old) }
        ensures drawn { rids.new.next ≤ rids.old.next + 5 }
    {
        if epoch > proj.epoch {
            return Ok(Sync::learn(alloc, oids));
        }
        if epoch == proj.epoch {
            return Ok(Sync::stay(alloc, oids, own));
        }
        let outs = tell(alloc, proj, rids.next)?;
        let _rid = rids.draw();
        let state = SyncState::Checks { rid: own };
        let machine = Sync { oids, state };
        Ok(Step {
            next: Next::Goes { machine },
            outs,
            gone: 0,
        })
    }

    /// A newer layout has to be learnt.
    fn learn(alloc: Global, oids: List<Oid>) -> SyncStep
        ensures { (p : Layout) (n : ℕ) (w : SyncWork) → shown confirmed_of result n ≡ by_sync p n (learns n (sync_at oids w)) }
    {
        Step {
            next: Next::Learns { paused: oids },
            outs: List::new(alloc),
            gone: 0,
        }
    }

    /// The sequencer has told the tail, with these links.
    fn told(
        alloc: Global,
        proj: &Projection,
        oids: List<Oid>,
        own: u64,
        tail: Pos,
        links: &List<StreamLink>,
        rids: &mut Rids,
    ) -> Result<SyncStep, NoMemory>
        requires { rids.old.next < 2 ^ 62 }
        ensures turn { IfOk result (λ t. shown confirmed_of t rids.new.next ≡ by_sync proj.now rids.old.next (on_tail proj.now (checking oids own) (record { tail = tail; lasts = links.now }) rids.old.next (names_all oids links.now))) }
        ensures free { names_all oids links.now ≡ false → IsOk result }
        ensures err { OnErr result (rids.new ≡ rids.old) }
        ensures drawn { rids.new.next ≤ rids.old.next + 5 }
    {
        if !name_all(oids.as_slice(), links.as_slice()) {
            return Ok(Sync::stay(alloc, oids, own));
        }
        let lasts = copied(links)?;
        let answer = Answer { tail, lasts };
        Sync::confirm(alloc, proj, oids, answer, rids)
    }

    /// The tail is confirmed by units.
    #[tactic(auto, unfolding(tg_protocol::specs::Cells::probe))]
    fn confirm(
        alloc: Global,
        proj: &Projection,
        oids: List<Oid>,
        answer: Answer,
        rids: &mut Rids,
    ) -> Result<SyncStep, NoMemory>
        requires { rids.old.next < 2 ^ 62 }
        ensures turn { IfOk result (λ t. (w : SyncWork) → shown confirmed_of t rids.new.next ≡ by_sync proj.now rids.old.next (confirm_by proj.now (sync_at oids w) answer rids.old.next (nat_lt proj.now.start answer.tail))) }
        ensures err { OnErr result (rids.new ≡ rids.old) }
        ensures drawn { rids.new.next ≤ rids.old.next + 5 }
    {
        if answer.tail > proj.start {
            return Sync::settle(alloc, proj, oids, answer, rids);
        }
        Sync::probe(alloc, proj, oids, answer, 0, rids)
    }
}

// The last position below the tail is settled.
impl Sync {
    /// The position is filled.
    #[tactic(auto, unfolding(tg_protocol::specs::Cells::fill_cell, tg_protocol::specs::Syncing::sync_work_asks))]
    fn settle(
        alloc: Global,
        proj: &Projection,
        oids: List<Oid>,
        answer: Answer,
        rids: &mut Rids,
    ) -> Result<SyncStep, NoMemory>
        requires { rids.old.next < 2 ^ 62 }
        ensures turn { IfOk result (λ t. (w : SyncWork) → shown confirmed_of t rids.new.next ≡ by_sync proj.now rids.old.next (settle_turn proj.now (sync_at oids w) answer (fill_cell (place_in proj.now (answer.tail - 1)) rids.old.next))) }
        ensures err { OnErr result (rids.new ≡ rids.old) }
        ensures drawn { rids.new.next ≤ rids.old.next + 1 }
    {
        let last = before(answer.tail);
        let units = units_at(proj, last);
        match FillCell::start(alloc, units, proj.epoch, last, rids)? {
            Turn::More {
                machine: fill,
                outs,
            } => {
                let state = SyncState::Settles { answer, fill };
                let machine = Sync { oids, state };
                Ok(Step {
                    next: Next::Goes { machine },
                    outs,
                    gone: 0,
                })
            }
            Turn::End { .. } => unreachable!(),
        }
    }

    /// A message that comes while the position is settled.
    #[tactic(auto, using(crate::proofs::Frees::less_needed), unfolding(tg_protocol::specs::Syncing::sync_work_asks))]
    fn settle_feed(
        alloc: Global,
        proj: &Projection,
        oids: List<Oid>,
        answer: Answer,
        fill: FillCell,
        from: NodeId,
        rid: u64,
        msg: &Msg,
        rids: &mut Rids,
    ) -> Result<SyncStep, NoMemory>
        requires { rids.old.next < 2 ^ 62 }
        ensures turn { IfOk result (λ t. shown confirmed_of t rids.new.next ≡ by_sync proj.now rids.old.next (sync_fed proj.now (settling oids answer fill) from rid msg.now rids.old.next)) }
        ensures free { (awaits (sync_asks proj.now (settling oids answer fill)) from rid && settling_needs msg.now) ≡ false → IsOk result }
        ensures err { OnErr result (rids.new ≡ rids.old) }
        ensures drawn { rids.new.next ≤ rids.old.next + 5 }
    {
        let mut drawn = *rids;
        match fill.feed(alloc, from, rid, msg, &mut drawn)? {
            Turn::More {
                machine: fill,
                outs,
            } => {
                *rids = drawn;
                let state = SyncState::Settles { answer, fill };
                let machine = Sync { oids, state };
                Ok(Step {
                    next: Next::Goes { machine },
                    outs,
                    gone: 0,
                })
            }
            Turn::End { end, .. } => Sync::settle_over(alloc, proj, oids, answer, end, rids),
        }
    }

    /// The position is settled, or it is gone.
    fn settle_over(
        alloc: Global,
        proj: &Projection,
        oids: List<Oid>,
        answer: Answer,
        end: FillCellEnd,
        rids: &mut Rids,
    ) -> Result<SyncStep, NoMemory>
        requires { rids.old.next < 2 ^ 62 }
        ensures turn { IfOk result (λ t. (j : CellJob) → shown confirmed_of t rids.new.next ≡ by_sync proj.now rids.old.next (settle_end proj.now (settling oids answer j) answer (fill_ended end) rids.old.next)) }
        ensures free { is_gone end ≡ false → IsOk result }
        ensures err { OnErr result (rids.new ≡ rids.old) }
        ensures drawn { rids.new.next ≤ rids.old.next + 5 }
    {
        match end {
            FillCellEnd::Done { cell } => Ok(Sync::settled(alloc, answer, cell)),
            FillCellEnd::Fenced { .. } => Ok(Sync::learn(alloc, oids)),
            FillCellEnd::Gone { below } => Sync::probe(alloc, proj, oids, answer, below, rids),
        }
    }

    /// The tail is confirmed by this cell before it.
    fn settled(alloc: Global, answer: Answer, cell: Cell) -> SyncStep
        ensures { (p : Layout) (n : ℕ) → shown confirmed_of result n ≡ by_sync p n (ends n (confirmed answer (Some (answer.tail - 1, cell)))) }
    {
        let Answer { tail, lasts } = answer;
        let settled = Some((before(tail), cell));
        let end = Confirmed {
            tail,
            lasts,
            settled,
        };
        Step {
            next: Next::Ends { end },
            outs: List::new(alloc),
            gone: 0,
        }
    }
}

// The chain of that position is probed.
impl Sync {
    /// Each unit of the chain is asked. A unit has said that all below `gone` is trimmed, where it isn't 0.
    #[tactic(auto, using(tg_chain::proofs::Outs::probe_drawn), unfolding(tg_protocol::specs::Cells::probe, tg_protocol::specs::Syncing::sync_work_asks))]
    fn probe(
        alloc: Global,
        proj: &Projection,
        oids: List<Oid>,
        answer: Answer,
        gone: Pos,
        rids: &mut Rids,
    ) -> Result<SyncStep, NoMemory>
        requires { rids.old.next < 2 ^ 62 }
        ensures turn { IfOk result (λ t. (w : SyncWork) → shown confirmed_of t rids.new.next ≡ by_sync proj.now rids.old.next (met_gone gone (probes proj.now (sync_at oids w) answer rids.old.next))) }
        ensures err { OnErr result (rids.new ≡ rids.old) }
        ensures drawn { rids.new.next ≤ rids.old.next + 5 }
    {
        let last = before(answer.tail);
        let units = units_at(proj, last);
        match Probe::start(alloc, units, proj.epoch, last, rids)? {
            Turn::More {
                machine: probe,
                outs,
            } => {
                let state = SyncState::Probes { answer, probe };
                let machine = Sync { oids, state };
                Ok(Step {
                    next: Next::Goes { machine },
                    outs,
                    gone,
                })
            }
            Turn::End { .. } => unreachable!(),
        }
    }

    /// A message that comes while the chain is probed.
    #[tactic(auto, unfolding(tg_protocol::specs::Syncing::sync_work_asks))]
    fn probe_feed(
        alloc: Global,
        proj: &Projection,
        oids: List<Oid>,
        answer: Answer,
        probe: Probe,
        from: NodeId,
        rid: u64,
        msg: &Msg,
        rids: &mut Rids,
    ) -> Result<SyncStep, NoMemory>
        requires { rids.old.next < 2 ^ 62 }
        ensures turn { IfOk result (λ t. shown confirmed_of t rids.new.next ≡ by_sync proj.now rids.old.next (sync_fed proj.now (probing oids answer probe) from rid msg.now rids.old.next)) }
        ensures free { (awaits (sync_asks proj.now (probing oids answer probe)) from rid && needs_memory msg.now) ≡ false → IsOk result }
        ensures err { OnErr result (rids.new ≡ rids.old) }
        ensures drawn { rids.new.next ≤ rids.old.next + 5 }
    {
        match probe.feed(alloc, from, rid, msg, rids)? {
            Turn::More {
                machine: probe,
                outs,
            } => {
                let state = SyncState::Probes { answer, probe };
                let machine = Sync { oids, state };
                Ok(Step {
                    next: Next::Goes { machine },
                    outs,
                    gone: 0,
                })
            }
            Turn::End { end, .. } => Ok(Sync::probe_over(alloc, oids, answer, end)),
        }
    }

    /// The probe has ended.
    fn probe_over(alloc: Global, oids: List<Oid>, answer: Answer, end: ProbeEnd) -> SyncStep
        ensures { (p : Layout) (n : ℕ) (j : CellJob) → shown confirmed_of result n ≡ by_sync p n (probe_end (probing oids answer j) answer (probe_ended end) n) }
    {
        match end {
            ProbeEnd::Seen => Sync::seen(alloc, answer),
            ProbeEnd::Fenced { .. } => Sync::learn(alloc, oids),
        }
    }

    /// The tail is confirmed by a whole chain.
    fn seen(alloc: Global, answer: Answer) -> SyncStep
        ensures { (p : Layout) (n : ℕ) → shown confirmed_of result n ≡ by_sync p n (ends n (confirmed answer None)) }
    {
        let Answer { tail, lasts } = answer;
        let end = Confirmed {
            tail,
            lasts,
            settled: None,
        };
        Step {
            next: Next::Ends { end },
            outs: List::new(alloc),
            gone: 0,
        }
    }
}
