//! The sequencer, and how many steps it has taken.

ghost use Rattle.std.specs.Prelude.{◌≡◌, ◌<◌, ◌+◌, false, IfOk, IsOk, None};
ghost use Rattle.tg_protocol.specs.Sequencers.{new_seqr, seqr_step, seqr_tick};
ghost use Rattle.tg_seqr.specs.Scans.{takes_memory};

use crate::state::State;
use std::alloc::Global;
use std::marker::Model;
use tg_base::{List, Msg, NoMemory, NodeId, Out, Projection};

/// A sequencer, and how many steps it has taken. Before it issues positions of a newer layout, it scans the log.
pub struct Seqr {
    state: State,
    calls: u32,
}

// By hand, since a derived drop is proved anew wherever a value is dropped.
impl Drop for Seqr {
    fn drop(self) {
        let Seqr { state: _, calls: _ } = self;
    }
}

impl Model for Seqr {
    ghost use Rattle.std.specs.Prelude.{◌≤◌, ◌+◌, ◌*◌};
    ghost use Rattle.tg_seqr.specs.Counted.{Counted};

    ghost Value = { Counted };

    ghost view = { λ s. record { state = s.state; calls = s.calls } };

    // a step draws two request numbers at most
    ghost invariant = { λ s. s.state.rids ≤ 2 * s.calls + 1 };
}

impl Seqr {
    /// A sequencer of this number, which issues positions below a limit. The one that the first layout names
    /// has learnt it, and every other one has learnt nothing. An `Err` is want of memory.
    pub fn new(alloc: Global, num: u16, limit: u64, first: Projection) -> Result<Seqr, NoMemory>
        ensures state { IfOk result (λ s. s.state ≡ new_seqr num limit first) }
        ensures calls { IfOk result (λ s. s.calls ≡ 0) }
    {
        let state = State::new(alloc, num, limit, first)?;
        Ok(Seqr { state, calls: 0 })
    }

    /// How many steps it has taken. It takes no memory.
    pub fn calls(&self) -> u32
        ensures { result ≡ self.now.calls }
    {
        self.calls
    }

    /// The sequencer after a message from a node under a number, and what it sends: the answer to a request,
    /// and then the next request of its scan.
    ///
    /// An `Err` is want of memory; nothing is left of the sequencer then.
    pub fn step(
        self,
        alloc: Global,
        from: NodeId,
        rid: u64,
        msg: &Msg,
    ) -> Result<(Seqr, List<Out>), NoMemory>
        requires { self.calls < 200000 }
        ensures now { IfOk result (λ r. r.0.state ≡ (seqr_step self.state from rid msg.now).now) }
        ensures sends { IfOk result (λ r. r.1 ≡ (seqr_step self.state from rid msg.now).sends) }
        ensures calls { IfOk result (λ r. r.0.calls ≡ self.calls + 1) }
        ensures free { takes_memory self.state from rid msg.now ≡ false → IsOk result }
    {
        let Seqr { state, calls } = self;
        let calls = calls + 1;
        let (state, outs) = state.step(alloc, from, rid, msg)?;
        Ok((Seqr { state, calls }, outs))
    }

    /// The sequencer after a tick, which sends the outstanding request of its scan once more.
    ///
    /// An `Err` is want of memory; nothing is left of the sequencer then.
    pub fn tick(self, alloc: Global) -> Result<(Seqr, List<Out>), NoMemory>
        requires { self.calls < 200000 }
        ensures now { IfOk result (λ r. r.0.state ≡ (seqr_tick self.state).now) }
        ensures sends { IfOk result (λ r. r.1 ≡ (seqr_tick self.state).sends) }
        ensures calls { IfOk result (λ r. r.0.calls ≡ self.calls + 1) }
        ensures free { self.state.scan ≡ None → IsOk result }
    {
        let Seqr { state, calls } = self;
        let calls = calls + 1;
        let (state, outs) = state.tick(alloc)?;
        Ok((Seqr { state, calls }, outs))
    }
}
