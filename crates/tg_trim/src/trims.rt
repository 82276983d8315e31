//! What is below a position is trimmed in every unit.

ghost use Rattle.std.specs.Prelude.{ℕ, ◌≡◌, ◌<◌, ◌≤◌, ◌+◌, ◌^◌, ◌&&◌, nat_lt, false, IfOk, IsOk, OnErr};
ghost use Rattle.tg_base.specs.Layouts.{Layout};
ghost use Rattle.tg_base.specs.declared.msg.Msg.TheVariants as msg;
ghost use Rattle.tg_protocol.specs.Words.{unit_id};
ghost use Rattle.tg_protocol.specs.Replies.{reply, near, IsGone};
ghost use Rattle.tg_protocol.specs.Requests.{asked_of, awaits, passes, met_gone};
ghost use Rattle.tg_protocol.specs.Trimming.{trim_asks, trim_start, trim_feed, trims_left, learns_if};
ghost use Rattle.tg_trim.specs.Turns.{shown, by_trim, trim_fed};
ghost use Rattle.tg_trim.specs.Laws.{tells_trim};

use crate::ends::TrimEnd;
use std::alloc::Global;
use std::marker::Model;
use tg_base::{Epoch, List, Msg, NoMemory, NodeId, Out, Pos, Projection, Rids, Role};
use tg_chain::{FAR, Next, Step, ask_alike, ask_units, is_awaited, units_of, without};

/// A step of a trim. In a newer layout it starts over below the same position.
pub type TrimStep = Step<Trims, Pos, TrimEnd>;

/// Asks every unit that stands in a chain of the layout to trim all below a position, and waits for each.
pub struct Trims {
    below: Pos,
    /// The units that haven't answered, each with the number of its request.
    waits: List<(u16, u64)>,
}

// By hand, since a derived drop is proved anew wherever a value is dropped.
impl Drop for Trims {
    fn drop(self) {
        let Trims { below: _, waits: _ } = self;
    }
}

impl Model for Trims {
    ghost use Rattle.tg_trim.specs.Words.{TrimJob};

    ghost Value = { TrimJob };

    ghost view = { λ m. record { below = m.below; waits = m.waits } };
}

impl Trims {
    /// Asks each unit.
    #[tactic(auto, unfolding(tg_protocol::specs::Trimming::trim_start))]
    pub fn start(
        alloc: Global,
        proj: &Projection,
        below: Pos,
        rids: &mut Rids,
    ) -> Result<TrimStep, NoMemory>
        requires { rids.old.next < 2 ^ 62 }
        ensures turn { IfOk result (λ t. shown t rids.new.next ≡ by_trim proj.now rids.old.next (trim_start proj.now below rids.old.next)) }
        ensures err { OnErr result (rids.new ≡ rids.old) }
        ensures drawn { rids.new.next ≤ rids.old.next + 64 }
    {
        let units = units_of(alloc, proj)?;
        let mut drawn = *rids;
        let waits = ask_units(alloc, units.as_slice(), &mut drawn)?;
        let outs = requests(alloc, proj.epoch, below, waits.as_slice())?;
        *rids = drawn;
        let machine = Trims { below, waits };
        Ok(Step {
            next: Next::Goes { machine },
            outs,
            gone: 0,
        })
    }

    /// Takes an awaited answer in the layout by which it asked, and passes every other message by. It draws no
    /// number.
    #[tactic(auto, using(crate::proofs::Awaiting::units_await))]
    pub fn feed(
        self,
        alloc: Global,
        proj: &Projection,
        from: NodeId,
        rid: u64,
        msg: &Msg,
    ) -> Result<TrimStep, NoMemory>
        ensures turn { IfOk result (λ t. (n : ℕ) → shown t n ≡ by_trim proj.now n (trim_fed proj.now self from rid msg.now n)) }
        ensures free { (awaits (trim_asks proj.now self) from rid && tells_trim (reply msg.now)) ≡ false → IsOk result }
    {
        if !is_awaited(Role::Unit, self.waits.as_slice(), from, rid) {
            return Ok(self.stay(alloc));
        }
        self.take(alloc, proj, from.num, msg)
    }

    /// The outstanding requests once more.
    pub fn again(&self, alloc: Global, proj: &Projection) -> Result<List<Out>, NoMemory>
        ensures { IfOk result (λ outs. outs ≡ trim_asks proj.now self.now) }
    {
        requests(alloc, proj.epoch, self.below, self.waits.as_slice())
    }

    /// The position below which all is trimmed.
    pub fn below(&self) -> Pos
        ensures { result ≡ self.now.below }
    {
        self.below
    }

    /// The position below which all is trimmed, with which it starts over where its caller learns a newer layout
    /// meanwhile.
    pub fn pause(self) -> Pos
        ensures { result ≡ self.below }
    {
        self.below
    }
}

/// Each of these units is asked to trim all below a position.
fn requests(
    alloc: Global,
    epoch: Epoch,
    below: Pos,
    waits: &[(u16, u64)],
) -> Result<List<Out>, NoMemory>
    ensures { IfOk result (λ outs. outs ≡ asked_of unit_id (msg.Trim epoch below) waits.now) }
{
    let mut outs = List::new(alloc);
    let msg = Msg::Trim { epoch, below };
    ask_alike(Role::Unit, &msg, waits, &mut outs)?;
    Ok(outs)
}

// The answers that are awaited.
impl Trims {
    /// A message is passed by.
    #[tactic(auto, using(tg_chain::proofs::Outs::none_drawn))]
    fn stay(self, alloc: Global) -> TrimStep
        ensures { (p : Layout) (n : ℕ) → shown result n ≡ by_trim p n (passes n self) }
    {
        Step {
            next: Next::Goes { machine: self },
            outs: List::new(alloc),
            gone: 0,
        }
    }

    /// An answer of a unit.
    #[tactic(auto, unfolding(tg_protocol::specs::Replies::reply, tg_protocol::specs::Trimming::trim_feed))]
    fn take(
        self,
        alloc: Global,
        proj: &Projection,
        num: u16,
        msg: &Msg,
    ) -> Result<TrimStep, NoMemory>
        ensures turn { IfOk result (λ t. (n : ℕ) → shown t n ≡ by_trim proj.now n (trim_feed proj.now self num (reply msg.now) n)) }
        ensures free { tells_trim (reply msg.now) ≡ false → IsOk result }
    {
        match msg {
            Msg::Gone { below } => self.trimmed(alloc, num, *below),
            Msg::Fenced { epoch } => Ok(self.fenced(alloc, proj, *epoch)),
            _ => Ok(self.stay(alloc)),
        }
    }

    /// A unit has trimmed all below a position.
    #[tactic(auto, unfolding(tg_protocol::specs::Trimming::trim_feed))]
    fn trimmed(self, alloc: Global, num: u16, gone: Pos) -> Result<TrimStep, NoMemory>
        ensures turn { IfOk result (λ t. (p : Layout) (n : ℕ) → shown t n ≡ by_trim p n (trim_feed p self num (near gone (IsGone gone)) n)) }
        ensures free { tells_trim (near gone (IsGone gone)) ≡ false → IsOk result }
    {
        if gone >= FAR {
            return Ok(self.stay(alloc));
        }
        let waits = without(alloc, num, &self.waits)?;
        Ok(Trims::left(alloc, self.below, waits, gone))
    }

    /// Only these units are awaited still.
    #[tactic(auto, using(tg_chain::proofs::Outs::none_drawn))]
    fn left(alloc: Global, below: Pos, waits: List<(u16, u64)>, gone: Pos) -> TrimStep
        ensures { (p : Layout) (n : ℕ) → shown result n ≡ by_trim p n (met_gone gone (trims_left below waits n)) }
    {
        let outs = List::new(alloc);
        if waits.is_empty() {
            let end = TrimEnd::AllTrimmed;
            return Step {
                next: Next::Ends { end },
                outs,
                gone,
            };
        }
        let machine = Trims { below, waits };
        Step {
            next: Next::Goes { machine },
            outs,
            gone,
        }
    }

    /// A unit has left the epoch, where it is at a later one.
    fn fenced(self, alloc: Global, proj: &Projection, epoch: Epoch) -> TrimStep
        ensures { (n : ℕ) → shown result n ≡ by_trim proj.now n (learns_if (nat_lt proj.now.epoch epoch) self n) }
    {
        if epoch <= proj.epoch {
            return self.stay(alloc);
        }
        Step {
            next: Next::Learns { paused: self.below },
            outs: List::new(alloc),
            gone: 0,
        }
    }
}
