//! An entry is appended: a token of the sequencer, and then the page at its position.

ghost use Rattle.std.specs.Prelude.{ℕ, ◌≡◌, ◌<◌, ◌≤◌, ◌+◌, ◌^◌, ◌++◌, ◌∷◌, ◌&&◌, [], List, map, nat_lt, Some, true, false, length, IfOk, IsOk, OnOk, OnErr};
ghost use Rattle.tg_base.specs.declared.msg.Msg.TheVariants.{Token as TokenAsk};
ghost use Rattle.tg_base.specs.declared.cell.Cell.TheVariants.{Data};
ghost use Rattle.tg_base.specs.Layouts.{Layout};
ghost use Rattle.tg_protocol.specs.Words.{seqr_id, cell_eq};
ghost use Rattle.tg_protocol.specs.Entries.{streams_of, oid_of_link};
ghost use Rattle.tg_protocol.specs.Replies.{reply};
ghost use Rattle.tg_protocol.specs.Requests.{out, awaits, passes, learns, ends, met_gone};
ghost use Rattle.tg_protocol.specs.Cells.{CellJob, put_cell, fill_cell, place_in};
ghost use Rattle.tg_protocol.specs.Appending.{AppendWork, append_asks, append_start, append_again, asks_token, asking_feed, on_issued, on_old_epoch, names_all, put_turn, put_end, judge_turn, judge_end, own_or_not, At, Forgotten};
ghost use Rattle.tg_chain.specs.Ends.{put_end as put_ended, fill_end as fill_ended};
ghost use Rattle.tg_chain.specs.Turns.{needs_memory};
ghost use Rattle.tg_append.specs.Needs.{append_needs, asking_needs, is_lost, is_done};
ghost use Rattle.tg_append.specs.Turns.{shown};
ghost use Rattle.tg_append.specs.Appends.{HasRoom, paused, append_at, asking, putting, judging, append_end, append_fed, by_append};

use crate::append_state::AppendState;
use crate::ends::AppendEnd;
use crate::links::name_streams;
use crate::page::linked_page;
use crate::telling::tell;
use crate::token::Token;
use std::alloc::Global;
use std::marker::Model;
use tg_base::{
    Blob, Cell, Epoch, List, Msg, NoMemory, NodeId, Oid, Out, Pos, Projection, Rids, StreamLink,
    Turn,
};
use tg_chain::{
    FAR, FillCell, FillCellEnd, Next, PutCell, PutCellEnd, Step, answers, is_page, one, sequencer,
    units_at,
};
use tg_entry::Draft;

/// A step of an append.
pub type AppendStep = Step<Append, PausedAppend, AppendEnd>;

/// Asks the sequencer for a token, and puts the entry's page to the token's position in the same epoch. A page
/// is never put in a later epoch: there the position is settled first, or the token is dead.
pub struct Append {
    draft: Draft,
    state: AppendState,
}

// By hand, since a derived drop is proved anew wherever a value is dropped.
impl Drop for Append {
    fn drop(self) {
        let Append { draft: _, state: _ } = self;
    }
}

impl Model for Append {
    ghost use Rattle.tg_append.specs.Words.{AppendJob};
    ghost use Rattle.tg_append.specs.Appends.{HasRoom, append_of};

    ghost Value = { AppendJob };

    ghost view = { λ m. append_of m.draft m.state };

    ghost invariant = { λ m. HasRoom m.draft };
}

/// What goes on of an append in a newer layout: the entry, and the token that it has.
pub struct PausedAppend {
    draft: Draft,
    token: Option<Token>,
}

// By hand, since a derived drop is proved anew wherever a value is dropped.
impl Drop for PausedAppend {
    fn drop(self) {
        let PausedAppend { draft: _, token: _ } = self;
    }
}

impl Model for PausedAppend {
    ghost use Rattle.tg_append.specs.Appends.{HasRoom, Paused};

    ghost Value = { Paused };

    ghost view = { λ m. record { draft = m.draft; token = m.token } };

    ghost invariant = { λ m. HasRoom m.draft };
}

impl Append {
    /// Asks the layout's sequencer for a token of the entry's streams.
    #[tactic(auto, unfolding(tg_protocol::specs::Appending::append_start))]
    pub fn start(
        alloc: Global,
        proj: &Projection,
        draft: Draft,
        rids: &mut Rids,
    ) -> Result<AppendStep, NoMemory>
        requires room { HasRoom draft }
        requires numbers { rids.old.next < 2 ^ 62 }
        ensures turn { IfOk result (λ t. shown append_end t rids.new.next ≡ by_append proj.now rids.old.next (append_start proj.now draft rids.old.next)) }
        ensures err { OnErr result (rids.new ≡ rids.old) }
        ensures drawn { rids.new.next ≤ rids.old.next + 1 }
    {
        Append::ask(alloc, proj, draft, rids)
    }

    /// Takes an awaited answer in the layout by which it asked, and passes every other message by.
    pub fn feed(
        self,
        alloc: Global,
        proj: &Projection,
        from: NodeId,
        rid: u64,
        msg: &Msg,
        rids: &mut Rids,
    ) -> Result<AppendStep, NoMemory>
        requires { rids.old.next < 2 ^ 62 }
        ensures turn { IfOk result (λ t. shown append_end t rids.new.next ≡ by_append proj.now rids.old.next (append_fed proj.now self from rid msg.now rids.old.next)) }
        ensures free { (awaits (append_asks proj.now self) from rid && append_needs proj.now self msg.now) ≡ false → IsOk result }
        ensures err { OnErr result (rids.new ≡ rids.old) }
        ensures drawn { rids.new.next ≤ rids.old.next + 1 }
    {
        let Append { draft, state } = self;
        match state {
            AppendState::Asks { rid: own } => {
                Append::ask_feed(alloc, proj, draft, own, from, rid, msg, rids)
            }
            AppendState::Puts { token, put } => {
                Append::put_feed(alloc, proj, draft, token, put, from, rid, msg, rids)
            }
            AppendState::Judges { token, fill } => {
                Append::judge_feed(alloc, proj, draft, token, fill, from, rid, msg, rids)
            }
        }
    }

    /// The outstanding request once more.
    #[tactic(auto, unfolding(tg_protocol::specs::Appending::append_work_asks))]
    pub fn again(
        &self,
        alloc: Global,
        proj: &Projection,
        rids: &mut Rids,
    ) -> Result<List<Out>, NoMemory>
        ensures asks { IfOk result (λ outs. outs ≡ append_asks proj.now self.now) }
        ensures rids { rids.new ≡ rids.old }
    {
        match &self.state {
            AppendState::Asks { rid } => token_request(alloc, proj, &self.draft, *rid),
            AppendState::Puts { put, .. } => put.again(alloc, rids),
            AppendState::Judges { fill, .. } => fill.again(alloc, rids),
        }
    }

    /// What goes on of it in a newer layout, where its caller learns one meanwhile.
    pub fn pause(self) -> PausedAppend
        ensures { result ≡ paused self }
    {
        let Append { draft, state } = self;
        match state {
            AppendState::Asks { .. } => PausedAppend { draft, token: None },
            AppendState::Puts { token, .. } => PausedAppend {
                draft,
                token: Some(token),
            },
            AppendState::Judges { token, .. } => PausedAppend {
                draft,
                token: Some(token),
            },
        }
    }
}

impl PausedAppend {
    /// Goes on in a newer layout. A token at or past its start is dead, and a new one is asked for. The
    /// position of another token is settled first.
    #[tactic(auto, unfolding(tg_protocol::specs::Appending::append_again))]
    pub fn resume(
        self,
        alloc: Global,
        proj: &Projection,
        rids: &mut Rids,
    ) -> Result<AppendStep, NoMemory>
        requires { rids.old.next < 2 ^ 62 }
        ensures turn { IfOk result (λ t. (w : AppendWork) → shown append_end t rids.new.next ≡ by_append proj.now rids.old.next (append_again proj.now (append_at self.draft self.token w) rids.old.next)) }
        ensures err { OnErr result (rids.new ≡ rids.old) }
        ensures drawn { rids.new.next ≤ rids.old.next + 1 }
    {
        let PausedAppend { draft, token } = self;
        match token {
            None => Append::ask(alloc, proj, draft, rids),
            Some(token) => {
                if token.pos >= proj.start {
                    return Append::ask(alloc, proj, draft, rids);
                }
                Append::judge(alloc, proj, draft, token, rids)
            }
        }
    }
}

/// The objects of these streams.
fn put_oids(streams: &[StreamLink], oids: &mut List<Oid>) -> Result<(), NoMemory>
    ensures { OnOk result (oids.new ≡ oids.old ++ map oid_of_link streams.now) }
{
    match streams {
        [] => Ok(()),
        [stream, streams @ ..] => {
            oids.push(stream.oid)?;
            put_oids(streams, oids)
        }
    }
}

/// What the layout's sequencer is asked.
fn token_request(
    alloc: Global,
    proj: &Projection,
    draft: &Draft,
    rid: u64,
) -> Result<List<Out>, NoMemory>
    ensures { IfOk result (λ outs. outs ≡ out (seqr_id proj.now.seq) rid (TokenAsk proj.now.epoch (streams_of draft.now)) ∷ []) }
{
    let mut oids = List::new(alloc);
    put_oids(draft.entry().head.streams.as_slice(), &mut oids)?;
    let msg = Msg::Token {
        epoch: proj.epoch,
        oids,
    };
    one(alloc, sequencer(proj.seq), rid, msg)
}

// A token is asked for.
impl Append {
    /// Asks for a token.
    #[tactic(auto, using(crate::proofs::Outs::token_drawn))]
    fn ask(
        alloc: Global,
        proj: &Projection,
        draft: Draft,
        rids: &mut Rids,
    ) -> Result<AppendStep, NoMemory>
        requires room { HasRoom draft }
        requires numbers { rids.old.next < 2 ^ 62 }
        ensures turn { IfOk result (λ t. shown append_end t rids.new.next ≡ by_append proj.now rids.old.next (asks_token draft rids.old.next)) }
        ensures err { OnErr result (rids.new ≡ rids.old) }
        ensures drawn { rids.new.next ≤ rids.old.next + 1 }
    {
        let rid = rids.next;
        let state = AppendState::Asks { rid };
        let machine = Append { draft, state };
        let outs = machine.again(alloc, proj, rids)?;
        let _rid = rids.draw();
        Ok(Step {
            next: Next::Goes { machine },
            outs,
            gone: 0,
        })
    }

    /// A message that comes while a token is asked for.
    #[tactic(auto, unfolding(tg_protocol::specs::Appending::append_work_asks, tg_protocol::specs::Appending::append_feed))]
    fn ask_feed(
        alloc: Global,
        proj: &Projection,
        draft: Draft,
        own: u64,
        from: NodeId,
        rid: u64,
        msg: &Msg,
        rids: &mut Rids,
    ) -> Result<AppendStep, NoMemory>
        requires room { HasRoom draft }
        requires numbers { rids.old.next < 2 ^ 62 }
        ensures turn { IfOk result (λ t. shown append_end t rids.new.next ≡ by_append proj.now rids.old.next (append_fed proj.now (asking draft own) from rid msg.now rids.old.next)) }
        ensures free { (awaits (append_asks proj.now (asking draft own)) from rid && asking_needs proj.now draft (reply msg.now)) ≡ false → IsOk result }
        ensures err { OnErr result (rids.new ≡ rids.old) }
        ensures drawn { rids.new.next ≤ rids.old.next + 1 }
    {
        if !answers(sequencer(proj.seq), own, from, rid) {
            return Ok(Append::stay(alloc, draft, own));
        }
        Append::take(alloc, proj, draft, own, msg, rids)
    }

    /// A message is passed by.
    #[tactic(auto, using(tg_chain::proofs::Outs::none_drawn))]
    fn stay(alloc: Global, draft: Draft, own: u64) -> AppendStep
        requires { HasRoom draft }
        ensures { (p : Layout) (n : ℕ) → shown append_end result n ≡ by_append p n (passes n (asking draft own)) }
    {
        let state = AppendState::Asks { rid: own };
        let machine = Append { draft, state };
        Step {
            next: Next::Goes { machine },
            outs: List::new(alloc),
            gone: 0,
        }
    }

    /// An answer of the sequencer.
    #[tactic(auto, unfolding(tg_protocol::specs::Replies::reply))]
    fn take(
        alloc: Global,
        proj: &Projection,
        draft: Draft,
        own: u64,
        msg: &Msg,
        rids: &mut Rids,
    ) -> Result<AppendStep, NoMemory>
        requires room { HasRoom draft }
        requires numbers { rids.old.next < 2 ^ 62 }
        ensures turn { IfOk result (λ t. shown append_end t rids.new.next ≡ by_append proj.now rids.old.next (asking_feed proj.now (asking draft own) (reply msg.now) rids.old.next)) }
        ensures free { asking_needs proj.now draft (reply msg.now) ≡ false → IsOk result }
        ensures err { OnErr result (rids.new ≡ rids.old) }
        ensures drawn { rids.new.next ≤ rids.old.next + 1 }
    {
        match msg {
            Msg::Issued { pos, links } if *pos < FAR => {
                Append::issued(alloc, proj, draft, own, *pos, links, rids)
            }
            Msg::Full { limit } => Ok(Step {
                next: Next::Ends {
                    end: AppendEnd::Full { limit: *limit },
                },
                outs: List::new(alloc),
                gone: 0,
            }),
            Msg::OldEpoch { epoch } => Append::stands(alloc, proj, draft, own, *epoch, rids),
            _ => Ok(Append::stay(alloc, draft, own)),
        }
    }

    /// The sequencer stands at another epoch. In an older one it is told the layout.
    #[tactic(auto, using(tg_chain::proofs::Outs::none_drawn))]
    fn stands(
        alloc: Global,
        proj: &Projection,
        draft: Draft,
        own: u64,
        epoch: Epoch,
        rids: &mut Rids,
    ) -> Result<AppendStep, NoMemory>
        requires room { HasRoom draft }
        requires numbers { rids.old.next < 2 ^ 62 }
        ensures turn { IfOk result (λ t. shown append_end t rids.new.next ≡ by_append proj.now rids.old.next (on_old_epoch proj.now epoch rids.old.next (asking draft own))) }
        ensures free { nat_lt epoch proj.now.epoch ≡ false → IsOk result }
        ensures err { OnErr result (rids.new ≡ rids.old) }
        ensures drawn { rids.new.next ≤ rids.old.next + 1 }
    {
        if epoch > proj.epoch {
            return Ok(Append::learn(alloc, draft, None));
        }
        if epoch == proj.epoch {
            return Ok(Append::stay(alloc, draft, own));
        }
        let outs = tell(alloc, proj, rids.next)?;
        let _rid = rids.draw();
        let state = AppendState::Asks { rid: own };
        let machine = Append { draft, state };
        Ok(Step {
            next: Next::Goes { machine },
            outs,
            gone: 0,
        })
    }

    /// A newer layout has to be learnt.
    fn learn(alloc: Global, draft: Draft, token: Option<Token>) -> AppendStep
        requires { HasRoom draft }
        ensures { (p : Layout) (n : ℕ) (w : AppendWork) → shown append_end result n ≡ by_append p n (learns n (append_at draft token w)) }
    {
        let paused = PausedAppend { draft, token };
        Step {
            next: Next::Learns { paused },
            outs: List::new(alloc),
            gone: 0,
        }
    }

    /// The sequencer has issued a position, with these links.
    fn issued(
        alloc: Global,
        proj: &Projection,
        draft: Draft,
        own: u64,
        pos: Pos,
        links: &List<StreamLink>,
        rids: &mut Rids,
    ) -> Result<AppendStep, NoMemory>
        requires room { HasRoom draft }
        requires numbers { rids.old.next < 2 ^ 62 }
        ensures turn { IfOk result (λ t. shown append_end t rids.new.next ≡ by_append proj.now rids.old.next (on_issued proj.now (asking draft own) pos links.now rids.old.next (names_all (streams_of draft) links.now))) }
        ensures free { names_all (streams_of draft) links.now ≡ false → IsOk result }
        ensures err { OnErr result (rids.new ≡ rids.old) }
        ensures drawn { rids.new.next ≤ rids.old.next + 1 }
    {
        if !name_streams(draft.entry().head.streams.as_slice(), links.as_slice()) {
            return Ok(Append::stay(alloc, draft, own));
        }
        let page = linked_page(alloc, &draft, links)?;
        Append::put(alloc, proj, draft, pos, page, rids)
    }
}

// The page is put.
impl Append {
    /// The page goes to the position.
    #[tactic(auto, unfolding(tg_protocol::specs::Cells::put_cell, tg_protocol::specs::Appending::append_work_asks))]
    fn put(
        alloc: Global,
        proj: &Projection,
        draft: Draft,
        pos: Pos,
        page: Blob,
        rids: &mut Rids,
    ) -> Result<AppendStep, NoMemory>
        requires room { HasRoom draft }
        requires numbers { rids.old.next < 2 ^ 62 }
        ensures turn { IfOk result (λ t. (r : ℕ) → shown append_end t rids.new.next ≡ by_append proj.now rids.old.next (put_turn (asking draft r) (record { pos = pos; page = page }) (put_cell (place_in proj.now pos) page rids.old.next))) }
        ensures err { OnErr result (rids.new ≡ rids.old) }
        ensures drawn { rids.new.next ≤ rids.old.next + 1 }
    {
        let units = units_at(proj, pos);
        let own = page.copy()?;
        match PutCell::start(alloc, units, proj.epoch, pos, page, rids)? {
            Turn::More { machine: put, outs } => {
                let token = Token { pos, page: own };
                let state = AppendState::Puts { token, put };
                let machine = Append { draft, state };
                Ok(Step {
                    next: Next::Goes { machine },
                    outs,
                    gone: 0,
                })
            }
            Turn::End { .. } => unreachable!(),
        }
    }

    /// A message that comes while the page is put.
    #[tactic(auto, unfolding(tg_protocol::specs::Appending::append_work_asks))]
    fn put_feed(
        alloc: Global,
        proj: &Projection,
        draft: Draft,
        token: Token,
        put: PutCell,
        from: NodeId,
        rid: u64,
        msg: &Msg,
        rids: &mut Rids,
    ) -> Result<AppendStep, NoMemory>
        requires room { HasRoom draft }
        requires numbers { rids.old.next < 2 ^ 62 }
        ensures turn { IfOk result (λ t. shown append_end t rids.new.next ≡ by_append proj.now rids.old.next (append_fed proj.now (putting draft token put) from rid msg.now rids.old.next)) }
        ensures free { (awaits (append_asks proj.now (putting draft token put)) from rid && needs_memory msg.now) ≡ false → IsOk result }
        ensures err { OnErr result (rids.new ≡ rids.old) }
        ensures drawn { rids.new.next ≤ rids.old.next + 1 }
    {
        let mut drawn = *rids;
        match put.feed(alloc, from, rid, msg, &mut drawn)? {
            Turn::More { machine: put, outs } => {
                *rids = drawn;
                let state = AppendState::Puts { token, put };
                let machine = Append { draft, state };
                Ok(Step {
                    next: Next::Goes { machine },
                    outs,
                    gone: 0,
                })
            }
            Turn::End { end, .. } => Append::put_over(alloc, proj, draft, token, end, rids),
        }
    }

    /// The put has ended.
    fn put_over(
        alloc: Global,
        proj: &Projection,
        draft: Draft,
        token: Token,
        end: PutCellEnd,
        rids: &mut Rids,
    ) -> Result<AppendStep, NoMemory>
        requires room { HasRoom draft }
        requires numbers { rids.old.next < 2 ^ 62 }
        ensures turn { IfOk result (λ t. (j : CellJob) (d : List ℕ) → shown append_end t rids.new.next ≡ by_append proj.now rids.old.next (put_end (putting draft token j) token (put_ended d end) rids.old.next)) }
        ensures free { is_lost end ≡ false → IsOk result }
        ensures err { OnErr result (rids.new ≡ rids.old) }
        ensures drawn { rids.new.next ≤ rids.old.next + 1 }
    {
        match end {
            PutCellEnd::Done => Ok(Append::at(alloc, token)),
            PutCellEnd::Lost { .. } => Append::ask(alloc, proj, draft, rids),
            PutCellEnd::Fenced { .. } => Ok(Append::learn(alloc, draft, Some(token))),
            PutCellEnd::Gone { below } => Ok(Append::forget(alloc, token.pos, below)),
        }
    }

    /// The page stands at its position.
    fn at(alloc: Global, token: Token) -> AppendStep
        ensures { (p : Layout) (n : ℕ) → shown append_end result n ≡ by_append p n (ends n (At token.pos token.page)) }
    {
        let Token { pos, page } = token;
        Step {
            next: Next::Ends {
                end: AppendEnd::At { pos, page },
            },
            outs: List::new(alloc),
            gone: 0,
        }
    }

    /// The position is gone, with its cell.
    fn forget(alloc: Global, at: Pos, below: Pos) -> AppendStep
        ensures { (p : Layout) (n : ℕ) → shown append_end result n ≡ by_append p n (met_gone below (ends n (Forgotten at below))) }
    {
        Step {
            next: Next::Ends {
                end: AppendEnd::Forgotten { at, below },
            },
            outs: List::new(alloc),
            gone: below,
        }
    }
}

// The position of an older token is settled.
impl Append {
    /// The position is filled in this layout.
    #[tactic(auto, unfolding(tg_protocol::specs::Cells::fill_cell, tg_protocol::specs::Appending::append_work_asks))]
    fn judge(
        alloc: Global,
        proj: &Projection,
        draft: Draft,
        token: Token,
        rids: &mut Rids,
    ) -> Result<AppendStep, NoMemory>
        requires room { HasRoom draft }
        requires numbers { rids.old.next < 2 ^ 62 }
        ensures turn { IfOk result (λ t. (w : AppendWork) → shown append_end t rids.new.next ≡ by_append proj.now rids.old.next (judge_turn (append_at draft (Some token) w) token (fill_cell (place_in proj.now token.pos) rids.old.next))) }
        ensures err { OnErr result (rids.new ≡ rids.old) }
        ensures drawn { rids.new.next ≤ rids.old.next + 1 }
    {
        let units = units_at(proj, token.pos);
        match FillCell::start(alloc, units, proj.epoch, token.pos, rids)? {
            Turn::More {
                machine: fill,
                outs,
            } => {
                let state = AppendState::Judges { token, fill };
                let machine = Append { draft, state };
                Ok(Step {
                    next: Next::Goes { machine },
                    outs,
                    gone: 0,
                })
            }
            Turn::End { .. } => unreachable!(),
        }
    }

    /// A message that comes while the position is settled.
    #[tactic(auto, unfolding(tg_protocol::specs::Appending::append_work_asks))]
    fn judge_feed(
        alloc: Global,
        proj: &Projection,
        draft: Draft,
        token: Token,
        fill: FillCell,
        from: NodeId,
        rid: u64,
        msg: &Msg,
        rids: &mut Rids,
    ) -> Result<AppendStep, NoMemory>
        requires room { HasRoom draft }
        requires numbers { rids.old.next < 2 ^ 62 }
        ensures turn { IfOk result (λ t. shown append_end t rids.new.next ≡ by_append proj.now rids.old.next (append_fed proj.now (judging draft token fill) from rid msg.now rids.old.next)) }
        ensures free { (awaits (append_asks proj.now (judging draft token fill)) from rid && needs_memory msg.now) ≡ false → IsOk result }
        ensures err { OnErr result (rids.new ≡ rids.old) }
        ensures drawn { rids.new.next ≤ rids.old.next + 1 }
    {
        let mut drawn = *rids;
        match fill.feed(alloc, from, rid, msg, &mut drawn)? {
            Turn::More {
                machine: fill,
                outs,
            } => {
                *rids = drawn;
                let state = AppendState::Judges { token, fill };
                let machine = Append { draft, state };
                Ok(Step {
                    next: Next::Goes { machine },
                    outs,
                    gone: 0,
                })
            }
            Turn::End { end, .. } => Append::judge_over(alloc, proj, draft, token, end, rids),
        }
    }

    /// The position is settled: with the entry's own page, or with another cell.
    fn judge_over(
        alloc: Global,
        proj: &Projection,
        draft: Draft,
        token: Token,
        end: FillCellEnd,
        rids: &mut Rids,
    ) -> Result<AppendStep, NoMemory>
        requires room { HasRoom draft }
        requires numbers { rids.old.next < 2 ^ 62 }
        ensures turn { IfOk result (λ t. (j : CellJob) → shown append_end t rids.new.next ≡ by_append proj.now rids.old.next (judge_end (judging draft token j) token (fill_ended end) rids.old.next)) }
        ensures free { is_done end ≡ false → IsOk result }
        ensures err { OnErr result (rids.new ≡ rids.old) }
        ensures drawn { rids.new.next ≤ rids.old.next + 1 }
    {
        match end {
            FillCellEnd::Done { cell } => Append::settle(alloc, proj, draft, token, &cell, rids),
            FillCellEnd::Fenced { .. } => Ok(Append::learn(alloc, draft, Some(token))),
            FillCellEnd::Gone { below } => Ok(Append::forget(alloc, token.pos, below)),
        }
    }

    /// The position holds this cell for good.
    fn settle(
        alloc: Global,
        proj: &Projection,
        draft: Draft,
        token: Token,
        cell: &Cell,
        rids: &mut Rids,
    ) -> Result<AppendStep, NoMemory>
        requires room { HasRoom draft }
        requires numbers { rids.old.next < 2 ^ 62 }
        ensures turn { IfOk result (λ t. (j : CellJob) → shown append_end t rids.new.next ≡ by_append proj.now rids.old.next (own_or_not (judging draft token j) token rids.old.next (cell_eq cell.now (Data token.page)))) }
        ensures err { OnErr result (rids.new ≡ rids.old) }
        ensures drawn { rids.new.next ≤ rids.old.next + 1 }
    {
        if is_page(cell, &token.page) {
            return Ok(Append::at(alloc, token));
        }
        Append::ask(alloc, proj, draft, rids)
    }
}
