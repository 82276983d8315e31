//! What a sequencer knows, and its step.

ghost use Rattle.std.specs.Prelude.{ℕ, ◌≡◌, ◌<◌, ◌≤◌, ◌+◌, ◌^◌, ◌&&◌, ◌||◌, ◌==◌, not, [], ◌∷◌, true, false, nat_lt, nat_le, length, IfOk, IsOk, None};
ghost use Rattle.tg_base.specs.declared.msg.Msg.TheVariants as msg;
ghost use Rattle.tg_chain.specs.Ends.{get_end};
ghost use Rattle.tg_chain.specs.Turns.{shown, by_rules};
ghost use Rattle.tg_protocol.specs.Cells.{Place, place_in, get_cell, cell_asks};
ghost use Rattle.tg_protocol.specs.Requests.{out, awaits, drawn_from};
ghost use Rattle.tg_protocol.specs.Sequencers.{SeqrState, new_seqr, seqr_step, seqr_tick, seqr_asks, scanning, scan_on, scans_on, job_of, scanned, scan_ended, scan_next, scan_fed, begun, learns, learn_or_old, on_learn, stand_answer, links_of, issued, issue, on_token, own_epoch, unfenced, answers};
ghost use Rattle.tg_seqr.specs.Scans.{is_scan, refusal, next_of, outs_of, fits, turn_sends, is_last, is_quiet, moves_scan, takes_memory};

use crate::page::streams_of;
use crate::streams::Streams;
use std::alloc::Global;
use std::marker::Model;
use tg_base::{
    Cell, Chain, Epoch, List, Msg, NoMemory, NodeId, Oid, Out, Pos, Projection, Rids, StreamLink,
    Turn,
};
use tg_chain::{GetCell, GetCellEnd};
use tg_proj::chain_of;

/// What a sequencer knows, on the heap.
#[derive(Drop)]
struct Parts {
    num: u16,
    limit: u64,
    rids: Rids,
    epoch: Epoch,
    proj: Projection,
    next: Pos,
    streams: Streams,
    fence: Option<Epoch>,
    scan: Option<GetCell>,
}

/// What a sequencer knows. While `next` is below the layout's start it scans the log, a position after the other.
pub struct State {
    parts: Box<Parts>,
}

// By hand, since a derived drop is proved anew wherever a value is dropped.
impl Drop for State {
    fn drop(self) {
        let State { parts: _ } = self;
    }
}

impl Model for State {
    ghost use Rattle.std.specs.Prelude.{IsTrue};
    ghost use Rattle.tg_protocol.specs.Sequencers.{SeqrState};
    ghost use Rattle.tg_seqr.specs.Scans.{is_scan};

    ghost Value = { SeqrState };

    ghost view = { λ s. record { num = s.parts.value.num; limit = s.parts.value.limit; rids = s.parts.value.rids.next; epoch = s.parts.value.epoch; proj = s.parts.value.proj; next = s.parts.value.next; lists = s.parts.value.streams; fence = s.parts.value.fence; scan = s.parts.value.scan } };

    ghost invariant = { λ s. IsTrue (is_scan s.parts.value.rids.next s.parts.value.next s.parts.value.proj.start s.parts.value.scan) };
}

impl State {
    /// A sequencer of this number, which issues positions below a limit. The one that the first layout names
    /// has learnt it, and every other one has learnt nothing. An `Err` is want of memory.
    #[tactic(auto, unfolding(tg_protocol::specs::Sequencers::new_seqr))]
    pub fn new(alloc: Global, num: u16, limit: u64, first: Projection) -> Result<State, NoMemory>
        ensures value { IfOk result (λ s. s ≡ new_seqr num limit first) }
        ensures undrawn { IfOk result (λ s. s.rids ≡ 1) }
    {
        let epoch = if num == first.seq { 1 } else { 0 };
        let parts = Parts {
            num,
            limit,
            rids: Rids::new(),
            epoch,
            proj: first,
            next: 0,
            streams: Streams::new(alloc),
            fence: None,
            scan: None,
        };
        let parts = Box::new(alloc, parts)?;
        Ok(State { parts })
    }

    /// The sequencer after a message from a node under a number, and what it sends: the answer to a request,
    /// and then the next request of its scan.
    ///
    /// An `Err` is want of memory; nothing is left of the sequencer then.
    #[tactic(auto, unfolding(tg_protocol::specs::Sequencers::seqr_step, crate::specs::Scans::takes_memory))]
    pub fn step(
        self,
        alloc: Global,
        from: NodeId,
        rid: u64,
        msg: &Msg,
    ) -> Result<(State, List<Out>), NoMemory>
        requires { self.rids < 2 ^ 61 }
        ensures now { IfOk result (λ r. r.0 ≡ (seqr_step self from rid msg.now).now) }
        ensures sends { IfOk result (λ r. r.1 ≡ (seqr_step self from rid msg.now).sends) }
        ensures drawn { IfOk result (λ r. r.0.rids ≤ self.rids + 2) }
        ensures free { takes_memory self from rid msg.now ≡ false → IsOk result }
    {
        match msg {
            Msg::Learn { proj } => self.learn(alloc, from, rid, proj.copy()?),
            Msg::Token { epoch, oids } => self.token(alloc, from, rid, *epoch, oids.as_slice()),
            Msg::Check { epoch, oids } => self.check(alloc, from, rid, *epoch, oids.as_slice()),
            _ => self.feed(alloc, from, rid, msg),
        }
    }

    /// The sequencer after a tick, which sends the outstanding request of its scan once more.
    ///
    /// An `Err` is want of memory; nothing is left of the sequencer then.
    #[tactic(auto, unfolding(tg_protocol::specs::Sequencers::seqr_tick))]
    pub fn tick(self, alloc: Global) -> Result<(State, List<Out>), NoMemory>
        ensures now { IfOk result (λ r. r.0 ≡ (seqr_tick self).now) }
        ensures sends { IfOk result (λ r. r.1 ≡ (seqr_tick self).sends) }
        ensures drawn { IfOk result (λ r. r.0.rids ≡ self.rids) }
        ensures free { self.scan ≡ None → IsOk result }
    {
        let outs = self.asks(alloc)?;
        Ok((self, outs))
    }
}

// ---- answers

/// A single message.
fn one(alloc: Global, to: NodeId, rid: u64, msg: Msg) -> Result<List<Out>, NoMemory>
    ensures { IfOk result (λ outs. outs ≡ out to rid msg ∷ []) }
{
    let mut outs = List::new(alloc);
    outs.push(Out { to, rid, msg })?;
    Ok(outs)
}

impl State {
    /// Answers, and stays as it is.
    fn answer(
        self,
        alloc: Global,
        to: NodeId,
        rid: u64,
        msg: Msg,
    ) -> Result<(State, List<Out>), NoMemory>
        ensures now { IfOk result (λ r. r.0 ≡ (answers self to rid msg).now) }
        ensures sends { IfOk result (λ r. r.1 ≡ (answers self to rid msg).sends) }
    {
        let outs = one(alloc, to, rid, msg)?;
        Ok((self, outs))
    }

    /// Whether positions are left to scan.
    fn is_scanning(&self) -> bool
        ensures { result ≡ scanning self.now }
    {
        self.parts.next < self.parts.proj.start
    }

    /// How far it has come: the scan's next position, or else the tail with these links.
    fn stand(&self, links: List<StreamLink>) -> Msg
        ensures { result ≡ stand_answer self.now links (scanning self.now) }
    {
        if self.is_scanning() {
            let next = self.parts.next;
            let start = self.parts.proj.start;
            return Msg::Scanning { next, start };
        }
        let tail = self.parts.next;
        Msg::Tail { tail, links }
    }

    /// Why a request is refused: the own epoch where the request's is another, and else that of the fence.
    fn refusal(&self, epoch: Epoch) -> Option<Epoch>
        ensures { result ≡ refusal self.now (epoch == self.now.epoch) }
    {
        if epoch == self.parts.epoch {
            self.parts.fence
        } else {
            Some(self.parts.epoch)
        }
    }

    /// A request for the next position.
    #[tactic(auto, using(crate::proofs::Refusing::refused, crate::proofs::Refusing::accepted))]
    fn token(
        self,
        alloc: Global,
        from: NodeId,
        rid: u64,
        epoch: Epoch,
        oids: &[Oid],
    ) -> Result<(State, List<Out>), NoMemory>
        ensures now { IfOk result (λ r. r.0 ≡ (own_epoch (epoch == self.epoch) self from rid (on_token self oids.now from rid (scanning self))).now) }
        ensures sends { IfOk result (λ r. r.1 ≡ (own_epoch (epoch == self.epoch) self from rid (on_token self oids.now from rid (scanning self))).sends) }
        ensures drawn { IfOk result (λ r. r.0.rids ≡ self.rids) }
    {
        match self.refusal(epoch) {
            Some(epoch) => self.answer(alloc, from, rid, Msg::OldEpoch { epoch }),
            None => self.give(alloc, from, rid, oids),
        }
    }

    /// A request for the next position, in the own epoch and without a fence.
    fn give(
        self,
        alloc: Global,
        from: NodeId,
        rid: u64,
        oids: &[Oid],
    ) -> Result<(State, List<Out>), NoMemory>
        ensures now { IfOk result (λ r. r.0 ≡ (on_token self oids.now from rid (scanning self)).now) }
        ensures sends { IfOk result (λ r. r.1 ≡ (on_token self oids.now from rid (scanning self)).sends) }
        ensures drawn { IfOk result (λ r. r.0.rids ≡ self.rids) }
    {
        if self.is_scanning() {
            let msg = self.stand(List::new(alloc));
            return self.answer(alloc, from, rid, msg);
        }
        let limit = self.parts.limit;
        if self.parts.next >= limit {
            return self.answer(alloc, from, rid, Msg::Full { limit });
        }
        self.issue(alloc, from, rid, oids)
    }

    /// Issues the next position, which becomes the newest of these objects' streams.
    fn issue(
        mut self,
        alloc: Global,
        from: NodeId,
        rid: u64,
        oids: &[Oid],
    ) -> Result<(State, List<Out>), NoMemory>
        requires ready { scanning self ≡ false }
        requires room { self.next < self.limit }
        ensures now { IfOk result (λ r. r.0 ≡ issued self oids.now) }
        ensures sends { IfOk result (λ r. r.1 ≡ out from rid (msg.Issued self.next (links_of self.lists oids.now)) ∷ []) }
        ensures drawn { IfOk result (λ r. r.0.rids ≡ self.rids) }
    {
        let pos = self.parts.next;
        // a number behind a box is known to be one once it is read
        let _limit = self.parts.limit;
        let links = self.parts.streams.links(alloc, oids)?;
        let outs = one(alloc, from, rid, Msg::Issued { pos, links })?;
        self.parts.streams.note_each(pos, oids)?;
        self.parts.next = pos + 1;
        Ok((self, outs))
    }

    /// A request for the tail.
    #[tactic(auto, using(crate::proofs::Refusing::refused, crate::proofs::Refusing::accepted))]
    fn check(
        self,
        alloc: Global,
        from: NodeId,
        rid: u64,
        epoch: Epoch,
        oids: &[Oid],
    ) -> Result<(State, List<Out>), NoMemory>
        ensures now { IfOk result (λ r. r.0 ≡ (own_epoch (epoch == self.epoch) self from rid (answers self from rid (stand_answer self (links_of self.lists oids.now) (scanning self)))).now) }
        ensures sends { IfOk result (λ r. r.1 ≡ (own_epoch (epoch == self.epoch) self from rid (answers self from rid (stand_answer self (links_of self.lists oids.now) (scanning self)))).sends) }
        ensures drawn { IfOk result (λ r. r.0.rids ≡ self.rids) }
    {
        match self.refusal(epoch) {
            Some(epoch) => self.answer(alloc, from, rid, Msg::OldEpoch { epoch }),
            None => {
                let links = self.parts.streams.links(alloc, oids)?;
                let msg = self.stand(links);
                self.answer(alloc, from, rid, msg)
            }
        }
    }

    /// Whether a layout names another sequencer, or is older than the own one.
    fn passes_by(&self, proj: &Projection) -> bool
        ensures { result ≡ (not (proj.now.seq == self.now.num) || nat_lt proj.now.epoch self.now.epoch) }
    {
        proj.seq != self.parts.num || proj.epoch < self.parts.epoch
    }

    /// A layout is told.
    fn learn(
        self,
        alloc: Global,
        from: NodeId,
        rid: u64,
        proj: Projection,
    ) -> Result<(State, List<Out>), NoMemory>
        requires { self.rids < 2 ^ 61 }
        ensures now { IfOk result (λ r. r.0 ≡ (learn_or_old self proj from rid (not (proj.seq == self.num) || nat_lt proj.epoch self.epoch)).now) }
        ensures sends { IfOk result (λ r. r.1 ≡ (learn_or_old self proj from rid (not (proj.seq == self.num) || nat_lt proj.epoch self.epoch)).sends) }
        ensures drawn { IfOk result (λ r. r.0.rids ≤ self.rids + 2) }
    {
        if self.passes_by(&proj) {
            let epoch = self.parts.epoch;
            return self.answer(alloc, from, rid, Msg::OldEpoch { epoch });
        }
        self.take(alloc, from, rid, proj)
    }

    /// A layout that names this sequencer, and isn't older than its own.
    fn take(
        self,
        alloc: Global,
        from: NodeId,
        rid: u64,
        proj: Projection,
    ) -> Result<(State, List<Out>), NoMemory>
        requires { self.rids < 2 ^ 61 }
        ensures now { IfOk result (λ r. r.0 ≡ (on_learn self proj from rid (nat_lt self.epoch proj.epoch)).now) }
        ensures sends { IfOk result (λ r. r.1 ≡ (on_learn self proj from rid (nat_lt self.epoch proj.epoch)).sends) }
        ensures drawn { IfOk result (λ r. r.0.rids ≤ self.rids + 2) }
    {
        if self.is_before(&proj) {
            return self.begin(alloc, from, rid, proj);
        }
        self.tell(alloc, from, rid)
    }

    /// Whether a layout is newer than the own one.
    fn is_before(&self, proj: &Projection) -> bool
        ensures { result ≡ nat_lt self.now.epoch proj.now.epoch }
    {
        self.parts.epoch < proj.epoch
    }

    /// Its own layout is told once more.
    fn tell(self, alloc: Global, from: NodeId, rid: u64) -> Result<(State, List<Out>), NoMemory>
        ensures now { IfOk result (λ r. r.0 ≡ (unfenced self.fence self from rid (answers self from rid (stand_answer self [] (scanning self)))).now) }
        ensures sends { IfOk result (λ r. r.1 ≡ (unfenced self.fence self from rid (answers self from rid (stand_answer self [] (scanning self)))).sends) }
        ensures drawn { IfOk result (λ r. r.0.rids ≡ self.rids) }
    {
        match self.parts.fence {
            Some(epoch) => self.answer(alloc, from, rid, Msg::OldEpoch { epoch }),
            None => {
                let msg = self.stand(List::new(alloc));
                self.answer(alloc, from, rid, msg)
            }
        }
    }

    /// Takes a newer layout: it answers, and scans the log from 0 up to the layout's start.
    fn begin(
        mut self,
        alloc: Global,
        from: NodeId,
        rid: u64,
        proj: Projection,
    ) -> Result<(State, List<Out>), NoMemory>
        requires { self.rids < 2 ^ 61 }
        ensures now { IfOk result (λ r. r.0 ≡ begun self proj) }
        ensures sends { IfOk result (λ r. r.1 ≡ (learns self (begun self proj) from rid).sends) }
        ensures drawn { IfOk result (λ r. r.0.rids ≤ self.rids + 2) }
    {
        self.parts.epoch = proj.epoch;
        self.parts.proj = proj;
        self.parts.next = 0;
        self.parts.streams = Streams::new(alloc);
        self.parts.fence = None;
        self.parts.scan = None;
        let (state, mut outs) = self.go_on(alloc)?;
        let msg = state.stand(List::new(alloc));
        outs.insert(0, Out { to: from, rid, msg })?;
        Ok((state, outs))
    }
}

// ---- the scan

impl State {
    /// The scan's outstanding request.
    fn asks(&self, alloc: Global) -> Result<List<Out>, NoMemory>
        ensures asks { IfOk result (λ outs. outs ≡ seqr_asks self.now) }
        ensures free { self.now.scan ≡ None → IsOk result }
    {
        match &self.parts.scan {
            None => Ok(List::new(alloc)),
            Some(scan) => {
                let mut rids = self.parts.rids;
                scan.again(alloc, &mut rids)
            }
        }
    }

    /// The scan goes on with the next position, or is over.
    fn go_on(mut self, alloc: Global) -> Result<(State, List<Out>), NoMemory>
        requires { self.rids < 2 ^ 62 }
        ensures now { IfOk result (λ r. r.0 ≡ scans_on self) }
        ensures sends { IfOk result (λ r. r.1 ≡ drawn_from self.rids (seqr_asks r.0)) }
        ensures drawn { IfOk result (λ r. r.0.rids ≤ self.rids + 1) }
    {
        if !self.is_scanning() {
            self.parts.scan = None;
            return Ok((self, List::new(alloc)));
        }
        self.ask(alloc)
    }

    /// The units that hold the next position, the own epoch, and the position.
    #[tactic(auto, using(crate::proofs::Asking::some_unit), unfolding(tg_protocol::specs::Layouts::chain_of))]
    fn place(&self) -> (Chain, Epoch, Pos)
        ensures place { record { chain = result.0; epoch = result.1; pos = result.2 } ≡ place_in self.now.proj self.now.next }
        ensures some { 0 < length result.0 }
    {
        let pos = self.parts.next;
        (chain_of(&self.parts.proj, pos), self.parts.proj.epoch, pos)
    }

    /// The numbers of the requests to come.
    fn numbers(&self) -> Rids
        ensures { result.next ≡ self.now.rids }
    {
        self.parts.rids
    }

    /// The cell of the next position is asked for.
    #[tactic(auto, using(crate::proofs::Asking::got))]
    fn get(&self, alloc: Global) -> Result<(Turn<GetCell, GetCellEnd>, Rids), NoMemory>
        requires { self.now.rids < 2 ^ 62 }
        ensures turn { IfOk result (λ r. shown get_end r.0 r.1.next ≡ by_rules cell_asks self.now.rids (get_cell (place_in self.now.proj self.now.next) self.now.rids)) }
        ensures drawn { IfOk result (λ r. r.1.next ≤ self.now.rids + 1) }
    {
        let (chain, epoch, pos) = self.place();
        let mut rids = self.numbers();
        let turn = GetCell::start(alloc, chain, epoch, pos, &mut rids)?;
        Ok((turn, rids))
    }

    /// With these numbers, and with this cell to settle.
    fn settling(mut self, rids: Rids, scan: Option<GetCell>) -> State
        requires { is_scan rids.next self.next self.proj.start scan ≡ true }
        ensures { result ≡ record self { rids = rids.next; scan = scan } }
    {
        self.parts.rids = rids;
        self.parts.scan = scan;
        self
    }

    /// Asks for the cell of the next position.
    fn ask(self, alloc: Global) -> Result<(State, List<Out>), NoMemory>
        requires numbers { self.rids < 2 ^ 62 }
        requires left { scanning self ≡ true }
        ensures now { IfOk result (λ r. r.0 ≡ scan_on self true) }
        ensures sends { IfOk result (λ r. r.1 ≡ drawn_from self.rids (seqr_asks r.0)) }
        ensures drawn { IfOk result (λ r. r.0.rids ≤ self.rids + 1) }
    {
        let (turn, rids) = self.get(alloc)?;
        let (scan, outs) = asked(alloc, turn);
        let state = self.settling(rids, scan);
        Ok((state, outs))
    }

    /// Without the cell that it settles, and that cell.
    fn idle(mut self) -> (State, Option<GetCell>)
        ensures state { result.0 ≡ record self { scan = None } }
        ensures scan { result.1 ≡ self.scan }
        ensures room { is_scan self.rids self.next self.proj.start self.scan ≡ true }
    {
        let scan = self.parts.scan.take();
        (self, scan)
    }

    /// With these numbers, while it settles no cell.
    fn numbered(mut self, rids: Rids) -> State
        requires { self.scan ≡ None }
        ensures { result ≡ record self { rids = rids.next } }
    {
        self.parts.rids = rids;
        self
    }

    /// A message that is no request: an awaited answer moves the scan, and every other one is passed by.
    #[tactic(auto, using(crate::proofs::Scanning::quiet_turn, crate::proofs::Scanning::quiet_feed))]
    fn feed(
        self,
        alloc: Global,
        from: NodeId,
        rid: u64,
        msg: &Msg,
    ) -> Result<(State, List<Out>), NoMemory>
        requires { self.rids < 2 ^ 61 }
        ensures now { IfOk result (λ r. r.0 ≡ (scan_fed self self.scan from rid msg.now).now) }
        ensures sends { IfOk result (λ r. r.1 ≡ (scan_fed self self.scan from rid msg.now).sends) }
        ensures drawn { IfOk result (λ r. r.0.rids ≤ self.rids + 2) }
        ensures free { (awaits (seqr_asks self) from rid && moves_scan msg.now) ≡ false → IsOk result }
    {
        let (state, scan) = self.idle();
        match scan {
            None => Ok((state, List::new(alloc))),
            Some(scan) => {
                let mut rids = state.numbers();
                let turn = scan.feed(alloc, from, rid, msg, &mut rids)?;
                let state = state.numbered(rids);
                state.turned(alloc, turn)
            }
        }
    }

    /// After a turn of the cell that the scan settles.
    fn turned(
        mut self,
        alloc: Global,
        turn: Turn<GetCell, GetCellEnd>,
    ) -> Result<(State, List<Out>), NoMemory>
        requires numbers { self.rids < 2 ^ 62 }
        requires idle { self.scan ≡ None }
        requires turn { fits self.rids self.next self.proj.start turn ≡ true }
        ensures now { IfOk result (λ r. r.0 ≡ scan_next self (next_of turn)) }
        ensures sends { IfOk result (λ r. r.1 ≡ turn_sends self turn) }
        ensures drawn { IfOk result (λ r. r.0.rids ≤ self.rids + 1) }
        ensures free { is_quiet turn ≡ true → IsOk result }
    {
        match turn {
            Turn::More { machine, outs } => {
                self.parts.scan = Some(machine);
                Ok((self, outs))
            }
            Turn::End { end, .. } => self.end(alloc, end),
        }
    }

    /// The cell of the next position is settled, is gone, or a unit has left the epoch.
    fn end(mut self, alloc: Global, end: GetCellEnd) -> Result<(State, List<Out>), NoMemory>
        requires numbers { self.rids < 2 ^ 62 }
        requires idle { self.scan ≡ None }
        requires left { scanning self ≡ true }
        ensures now { IfOk result (λ r. r.0 ≡ scan_ended self (get_end end)) }
        ensures sends { IfOk result (λ r. r.1 ≡ drawn_from self.rids (seqr_asks r.0)) }
        ensures drawn { IfOk result (λ r. r.0.rids ≤ self.rids + 1) }
        ensures free { is_last end ≡ true → IsOk result }
    {
        match end {
            GetCellEnd::Done { cell } => self.pass(alloc, &cell),
            GetCellEnd::Gone { below } => {
                self.parts.next = below.min(self.parts.proj.start);
                self.go_on(alloc)
            }
            GetCellEnd::Fenced { epoch, .. } => {
                self.parts.fence = Some(epoch);
                Ok((self, List::new(alloc)))
            }
        }
    }

    /// The next position's cell is settled.
    fn pass(mut self, alloc: Global, cell: &Cell) -> Result<(State, List<Out>), NoMemory>
        requires numbers { self.rids < 2 ^ 62 }
        requires idle { self.scan ≡ None }
        requires left { scanning self ≡ true }
        ensures now { IfOk result (λ r. r.0 ≡ scanned self cell.now) }
        ensures sends { IfOk result (λ r. r.1 ≡ drawn_from self.rids (seqr_asks r.0)) }
        ensures drawn { IfOk result (λ r. r.0.rids ≤ self.rids + 1) }
    {
        let pos = self.parts.next;
        // a number behind a box is known to be one once it is read
        let _start = self.parts.proj.start;
        let oids = streams_of(alloc, cell)?;
        self.parts.streams.note_each(pos, oids.as_slice())?;
        self.parts.next += 1;
        self.go_on(alloc)
    }
}

/// The machine of a turn that goes on, and its requests.
fn asked(alloc: Global, turn: Turn<GetCell, GetCellEnd>) -> (Option<GetCell>, List<Out>)
    ensures scan { result.0 ≡ job_of (next_of turn) }
    ensures outs { result.1 ≡ outs_of turn }
{
    match turn {
        Turn::More { machine, outs } => (Some(machine), outs),
        Turn::End { .. } => (None, List::new(alloc)),
    }
}
