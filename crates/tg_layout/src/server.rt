//! The server, and its step.

ghost use Rattle.std.specs.Prelude.{◌≡◌, IfOk, Some, None, if◌then◌else◌};
ghost use Rattle.tg_protocol.specs.LayoutServers.{new_layout, layout_step, on_layout_ask, Prepares, Accepts, Tells, Asks, vote_of};

use crate::vote::{Vote, is_below};
use std::alloc::Global;
use std::collections::BTreeMap;
use std::marker::Model;
use tg_base::{Ballot, Epoch, Msg, NoMemory, Projection};

/// A layout server.
pub struct Layout {
    latest: Projection,
    votes: BTreeMap<Epoch, Vote>,
}

// By hand, since a derived drop is proved anew wherever a value is dropped.
impl Drop for Layout {
    fn drop(self) {
        let Layout {
            latest: _,
            votes: _,
        } = self;
    }
}

impl Model for Layout {
    ghost use Rattle.tg_protocol.specs.LayoutServers.{LayoutState};

    ghost Value = { LayoutState };

    ghost view = { λ s. record { latest = s.latest; votes = s.votes.entries } };
}

impl Layout {
    /// A server that has met nothing, and tells the first layout.
    #[tactic(auto, unfolding(tg_protocol::specs::LayoutServers::new_layout))]
    pub fn new(alloc: Global, first: Projection) -> Layout
        ensures { result ≡ new_layout first }
    {
        Layout {
            latest: first,
            votes: BTreeMap::new(alloc),
        }
    }

    /// The server after a message, and its answer: None exactly for a message that is no request
    /// of a layout server. Each epoch above 1 has an acceptor of its own (Lamport, "Paxos made
    /// simple", 2001).
    #[tactic(auto, unfolding(tg_protocol::specs::LayoutServers::layout_step, tg_protocol::specs::LayoutServers::layout_ask, tg_protocol::specs::LayoutServers::on_layout_ask))]
    pub fn step(self, msg: &Msg) -> Result<(Layout, Option<Msg>), NoMemory>
        ensures now { IfOk result (λ r. r.0 ≡ (layout_step self msg.now).now) }
        ensures says { IfOk result (λ r. r.1 ≡ (layout_step self msg.now).says) }
    {
        match msg {
            Msg::Prepare { epoch, ballot } => self.prepare(*epoch, *ballot),
            Msg::Accept {
                epoch,
                ballot,
                proj,
            } => self.accept(*epoch, *ballot, proj.copy()?),
            Msg::Decided { proj } => self.learn(proj.copy()?),
            Msg::AskLatest => self.tell(),
            _ => Ok((self, None)),
        }
    }

    #[tactic(auto, unfolding(tg_protocol::specs::LayoutServers::on_layout_ask))]
    fn prepare(mut self, epoch: Epoch, ballot: Ballot) -> Result<(Layout, Option<Msg>), NoMemory>
        ensures now { IfOk result (λ r. r.0 ≡ (on_layout_ask self (Prepares epoch ballot)).now) }
        ensures says { IfOk result (λ r. r.1 ≡ (on_layout_ask self (Prepares epoch ballot)).says) }
    {
        if epoch == 1 {
            return self.tell();
        }
        let promised = self.promised(epoch);
        if is_below(ballot, promised) {
            let ballot = promised;
            return Ok((self, Some(Msg::Nack { epoch, ballot })));
        }
        let accepted = self.accepted(epoch)?;
        let kept = self.accepted(epoch)?;
        self.votes.insert(epoch, Vote::promise(ballot, kept))?;
        let promise = Msg::Promise {
            epoch,
            ballot,
            accepted,
        };
        Ok((self, Some(promise)))
    }

    #[tactic(auto, unfolding(tg_protocol::specs::LayoutServers::on_layout_ask))]
    fn accept(
        mut self,
        epoch: Epoch,
        ballot: Ballot,
        proj: Projection,
    ) -> Result<(Layout, Option<Msg>), NoMemory>
        ensures now { IfOk result (λ r. r.0 ≡ (on_layout_ask self (Accepts epoch ballot proj)).now) }
        ensures says { IfOk result (λ r. r.1 ≡ (on_layout_ask self (Accepts epoch ballot proj)).says) }
    {
        if epoch == 1 {
            return self.tell();
        }
        let promised = self.promised(epoch);
        if is_below(ballot, promised) {
            let ballot = promised;
            return Ok((self, Some(Msg::Nack { epoch, ballot })));
        }
        self.votes.insert(epoch, Vote::accept(ballot, proj))?;
        Ok((self, Some(Msg::Accepted { epoch, ballot })))
    }

    /// A layout is decided.
    #[tactic(auto, unfolding(tg_protocol::specs::LayoutServers::on_layout_ask))]
    fn learn(self, proj: Projection) -> Result<(Layout, Option<Msg>), NoMemory>
        ensures now { IfOk result (λ r. r.0 ≡ (on_layout_ask self (Tells proj)).now) }
        ensures says { IfOk result (λ r. r.1 ≡ (on_layout_ask self (Tells proj)).says) }
    {
        let latest = &self.latest;
        if latest.epoch >= proj.epoch {
            return self.tell();
        }
        let Layout { latest: _, votes } = self;
        let newer = Layout {
            latest: proj,
            votes,
        };
        newer.tell()
    }

    #[tactic(auto, unfolding(tg_protocol::specs::LayoutServers::on_layout_ask))]
    fn tell(self) -> Result<(Layout, Option<Msg>), NoMemory>
        ensures now { IfOk result (λ r. r.0 ≡ (on_layout_ask self Asks).now) }
        ensures says { IfOk result (λ r. r.1 ≡ (on_layout_ask self Asks).says) }
    {
        let proj = self.latest.copy()?;
        Ok((self, Some(Msg::Latest { proj })))
    }

    /// The greatest ballot promised in an epoch.
    fn promised(&self, epoch: Epoch) -> Ballot
        ensures { result ≡ (vote_of self.now epoch).promised }
    {
        match self.votes.get(&epoch) {
            None => Vote::new().promised(),
            Some(vote) => vote.promised(),
        }
    }

    /// A copy of what is accepted in an epoch.
    fn accepted(&self, epoch: Epoch) -> Result<Option<(Ballot, Projection)>, NoMemory>
        ensures { IfOk result (λ a. a ≡ (vote_of self.now epoch).accepted) }
    {
        match self.votes.get(&epoch) {
            None => Ok(None),
            Some(vote) => vote.accepted(),
        }
    }
}
