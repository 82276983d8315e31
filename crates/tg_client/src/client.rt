//! A client.

ghost use Rattle.std.specs.Prelude.{◌≡◌, ◌<◌, ◌∷◌, [], is_some, option_copied, IfOk};
ghost use Rattle.tg_base.specs.declared.ids.Oid.{Oid};
ghost use Rattle.tg_kind.specs.Of.{meaning_of};
ghost use Rattle.tg_protocol.specs.Clients as told;
ghost use Rattle.tg_protocol.specs.ClientSteps.{client_command, client_deliver, client_tick};
ghost use Rattle.tg_protocol.specs.Words.{directory};
ghost use Rattle.tg_client.specs.Kept.{KeepsClient, IsClient};

use crate::few::{asks_few, gives_few, tells_few};
use crate::steps::{commanded, delivered};
use std::alloc::Global;
use tg_base::{Cell, Cluster, Epoch, List, Msg, NoMemory, NodeId, Oid, Out, Pos, Rids};
use tg_chain::header_layout;
use tg_client_cells::Known;
use tg_client_state::{HeaderObjects, Moved, State, StateParts, Work};
use tg_client_tasks::{known_cell, ticked};
use tg_kind::Registry;
use tg_model::{CommandOf, NoteOf};

/// The directory alone. An `Err` is want of memory.
fn directory_alone(alloc: Global) -> Result<List<Oid>, NoMemory>
    ensures { IfOk result (λ l. l ≡ directory ∷ []) }
{
    let mut hosted = List::new(alloc);
    hosted.push(Oid(0))?;
    Ok(hosted)
}

/// A client.
///
/// Each clause speaks of any client of the rules that this one keeps.
pub struct Client<K: Registry> {
    pub state: State<K>,
    /// The command that waits for its reply, if one does.
    pub work: Option<Work<K>>,
}

// By hand, since a derived drop is proved anew wherever a value is dropped.
impl<K: Registry> Drop for Client<K> {
    fn drop(self) {
        let Client { state: _, work: _ } = self;
    }
}

/// A client after a step, with what it sends and what it answers.
#[derive(Drop)]
pub struct Turned<K: Registry> {
    pub now: Client<K>,
    pub sends: List<Out>,
    pub notes: List<NoteOf<K>>,
}

impl<K: Registry> Client<K> {
    /// A client before its first command. An `Err` is want of memory.
    #[tactic(auto, unfolding(tg_protocol::specs::Clients::new_client))]
    pub fn new(alloc: Global, cluster: &Cluster, num: u16) -> Result<Client<K>, NoMemory>
        ensures keeps { IfOk result (λ c. KeepsClient (meaning_of K.Registry) c (told.new_client (meaning_of K.Registry) cluster.now num)) }
    {
        let objects = HeaderObjects::of(cluster)?;
        let dir = K::fresh(alloc, Oid(0), objects.as_slice())?;
        let stand = header_layout(alloc, cluster)?;
        let hosted = directory_alone(alloc)?;
        let parts = StateParts {
            num,
            layouts: cluster.layouts,
            objects,
            calls: 0,
            rids: Rids::new(),
            stand,
            known: Known::new(alloc),
            hosted,
            view: None,
            dir,
            tx: None,
            begun: 0,
            decisions: 0,
            checkpoints: 0,
        };
        let state = State::new(alloc, parts)?;
        Ok(Client { state, work: None })
    }

    /// How many steps it has taken. It takes no memory.
    pub fn calls(&self) -> u32
        ensures { (c : told.Client (meaning_of K.Registry)) → KeepsClient (meaning_of K.Registry) self.now c → result ≡ c.calls }
    {
        let state = &self.state;
        state.parts.calls
    }

    /// The next request number. It takes no memory.
    pub fn next(&self) -> u64
        ensures { (c : told.Client (meaning_of K.Registry)) → KeepsClient (meaning_of K.Registry) self.now c → result ≡ c.next }
    {
        let state = &self.state;
        state.parts.rids.next
    }

    /// The epoch of its layout. It takes no memory.
    pub fn epoch(&self) -> Epoch
        ensures { (c : told.Client (meaning_of K.Registry)) → KeepsClient (meaning_of K.Registry) self.now c → result ≡ c.stand.epoch }
    {
        let state = &self.state;
        state.parts.stand.epoch
    }

    /// Where the play of its view came to; 0 where it keeps none. It takes no memory.
    pub fn upto(&self) -> Pos
        ensures { (c : told.Client (meaning_of K.Registry)) → KeepsClient (meaning_of K.Registry) self.now c → result ≡ told.upto (meaning_of K.Registry) c }
    {
        self.state.upto()
    }

    /// The cell that it knows at a position: None exactly where it knows none. It takes no memory.
    pub fn known(&self, pos: Pos) -> Option<&Cell>
        ensures { (c : told.Client (meaning_of K.Registry)) → KeepsClient (meaning_of K.Registry) self.now c → option_copied result ≡ told.known (meaning_of K.Registry) c pos }
    {
        let state = &self.state;
        known_cell(&state.parts.known, &self.work, pos)
    }

    /// Whether a command waits for its reply. It takes no memory.
    pub fn is_busy(&self) -> bool
        ensures { (c : told.Client (meaning_of K.Registry)) → KeepsClient (meaning_of K.Registry) self.now c → result ≡ is_some c.work }
    {
        self.work.is_some()
    }

    /// The client after a command. An `Err` is want of memory; nothing is left of it then.
    pub fn command(self, alloc: Global, command: CommandOf<K>) -> Result<Turned<K>, NoMemory>
        requires kept { IsClient (meaning_of K.Registry) self }
        requires room { self.state.calls < 200000 }
        ensures now { (c : told.Client (meaning_of K.Registry)) → KeepsClient (meaning_of K.Registry) self c → IfOk result (λ t. KeepsClient (meaning_of K.Registry) t.now (client_command (meaning_of K.Registry) c command).now) }
        ensures sends { (c : told.Client (meaning_of K.Registry)) → KeepsClient (meaning_of K.Registry) self c → IfOk result (λ t. t.sends ≡ (client_command (meaning_of K.Registry) c command).sends) }
        ensures notes { (c : told.Client (meaning_of K.Registry)) → KeepsClient (meaning_of K.Registry) self c → IfOk result (λ t. t.notes ≡ (client_command (meaning_of K.Registry) c command).notes) }
    {
        let Client { state, work } = self;
        asks_few(&state, &work);
        gives_few(&state, &command);
        let moved = commanded(state, work, alloc, command)?;
        Ok(after_step(moved))
    }

    /// The client after a message from a node under a number. An `Err` is want of memory; nothing is left of it then.
    pub fn deliver(
        self,
        alloc: Global,
        from: NodeId,
        rid: u64,
        msg: &Msg,
    ) -> Result<Turned<K>, NoMemory>
        requires kept { IsClient (meaning_of K.Registry) self }
        requires room { self.state.calls < 200000 }
        ensures now { (c : told.Client (meaning_of K.Registry)) → KeepsClient (meaning_of K.Registry) self c → IfOk result (λ t. KeepsClient (meaning_of K.Registry) t.now (client_deliver (meaning_of K.Registry) c from rid msg.now).now) }
        ensures sends { (c : told.Client (meaning_of K.Registry)) → KeepsClient (meaning_of K.Registry) self c → IfOk result (λ t. t.sends ≡ (client_deliver (meaning_of K.Registry) c from rid msg.now).sends) }
        ensures notes { (c : told.Client (meaning_of K.Registry)) → KeepsClient (meaning_of K.Registry) self c → IfOk result (λ t. t.notes ≡ (client_deliver (meaning_of K.Registry) c from rid msg.now).notes) }
    {
        let Client { state, work } = self;
        asks_few(&state, &work);
        tells_few::<K>(msg);
        let moved = delivered(state, work, alloc, from, rid, msg)?;
        Ok(after_step(moved))
    }

    /// The client after a tick. An `Err` is want of memory; nothing is left of it then.
    pub fn tick(self, alloc: Global) -> Result<Turned<K>, NoMemory>
        requires kept { IsClient (meaning_of K.Registry) self }
        requires room { self.state.calls < 200000 }
        ensures now { (c : told.Client (meaning_of K.Registry)) → KeepsClient (meaning_of K.Registry) self c → IfOk result (λ t. KeepsClient (meaning_of K.Registry) t.now (client_tick (meaning_of K.Registry) c).now) }
        ensures sends { (c : told.Client (meaning_of K.Registry)) → KeepsClient (meaning_of K.Registry) self c → IfOk result (λ t. t.sends ≡ (client_tick (meaning_of K.Registry) c).sends) }
        ensures notes { (c : told.Client (meaning_of K.Registry)) → KeepsClient (meaning_of K.Registry) self c → IfOk result (λ t. t.notes ≡ (client_tick (meaning_of K.Registry) c).notes) }
    {
        let Client { state, work } = self;
        asks_few(&state, &work);
        let moved = ticked(state, work, alloc)?;
        Ok(after_step(moved))
    }
}

/// What a step gives. It takes no memory.
fn after_step<K: Registry>(moved: Moved<K>) -> Turned<K>
    ensures now { result.now ≡ record { state = moved.state; work = moved.work } }
    ensures sends { result.sends ≡ moved.sends }
    ensures notes { result.notes ≡ moved.notes }
{
    let Moved {
        state,
        work,
        sends,
        notes,
    } = moved;
    Turned {
        now: Client { state, work },
        sends,
        notes,
    }
}
