//! All kinds of objects as one.

ghost use Rattle.std.specs.Prelude.{◌≡◌, ◌++◌, true, Ok, IfOk, OnOk, OnErr};
ghost use Rattle.tg_any.specs.Anys.{is_object, is_state, is_op, is_of, first, applied, answered, touched, looked, saved, loaded, spelled, code_tag, read, allowed, allowed_ask, lists_object, floor_of, marking};

use std::alloc::Global;
use tg_base::{List, NoMemory, Oid, Pos};
use tg_cell::{
    Counter, CounterAns, CounterAsk, CounterOp, Register, RegisterAns, RegisterAsk, RegisterOp,
};
use tg_dir::{Directory, DirectoryAns, DirectoryAsk, DirectoryOp};
use tg_kind::{Kind, KindFault, Registry, Scope};
use tg_list::{TextList, TextListAns, TextListAsk, TextListOp};
use tg_map::{Map, MapAns, MapAsk, MapOp};
use tg_set::{Set, SetAns, SetAsk, SetOp};
use tg_tree::{Tree, TreeAns, TreeAsk, TreeOp};

/// The state of an object of any kind.
#[derive(Drop)]
pub enum AnyKind {
    Directory(Directory),
    Counter(Counter),
    Register(Register),
    Map(Map),
    List(TextList),
    Tree(Tree),
    Set(Set),
}

/// What changes a state. An op of another kind than the state's changes nothing.
#[derive(Drop)]
pub enum AnyOp {
    Directory(DirectoryOp),
    Counter(CounterOp),
    Register(RegisterOp),
    Map(MapOp),
    List(TextListOp),
    Tree(TreeOp),
    Set(SetOp),
}

/// What looks at a state.
#[derive(Drop)]
pub enum AnyAsk {
    Directory(DirectoryAsk),
    Counter(CounterAsk),
    Register(RegisterAsk),
    Map(MapAsk),
    List(TextListAsk),
    Tree(TreeAsk),
    Set(SetAsk),
}

/// What an ask is answered.
#[derive(Drop)]
pub enum AnyAns {
    Directory(DirectoryAns),
    Counter(CounterAns),
    Register(RegisterAns),
    Map(MapAns),
    List(TextListAns),
    Tree(TreeAns),
    Set(SetAns),
    /// The ask is of another kind than the state's.
    None,
}

/// The tag of an object's kind stands above an index of three bytes.
const INDICES: u32 = 1 << 24;

/// The codes of a kind's ops begin with its tag.
const CODES: u8 = 16;

// The tag that the code of an op begins with.
fn code_tag(bytes: &[u8]) -> u8
    ensures { result ≡ code_tag bytes.now }
{
    match bytes {
        [] => 0,
        [code, ..] => *code / CODES,
    }
}

impl Kind for AnyKind {
    type Op = AnyOp;

    type Ask = AnyAsk;

    type Ans = AnyAns;

    ghost is_object = { is_object };

    ghost is_state = { is_state };

    ghost is_op = { is_op };

    ghost is_of = { is_of };

    ghost first = { first };

    ghost applied = { applied };

    ghost answered = { answered };

    ghost touched = { touched };

    ghost looked = { looked };

    ghost saved = { saved };

    ghost loaded = { loaded };

    ghost spelled = { spelled };

    ghost read = { read };

    #[tactic(auto, unfolding(crate::specs::Anys::first))]
    fn fresh(alloc: Global, oid: Oid, objects: &[Oid]) -> Result<AnyKind, NoMemory> {
        match oid.0 / INDICES {
            0 => Ok(AnyKind::Directory(Directory::fresh(alloc, oid, objects)?)),
            1 => Ok(AnyKind::Counter(Counter::fresh(alloc, oid, objects)?)),
            2 => Ok(AnyKind::Register(Register::fresh(alloc, oid, objects)?)),
            3 => Ok(AnyKind::Map(Map::fresh(alloc, oid, objects)?)),
            4 => Ok(AnyKind::List(TextList::fresh(alloc, oid, objects)?)),
            5 => Ok(AnyKind::Tree(Tree::fresh(alloc, oid, objects)?)),
            _ => Ok(AnyKind::Set(Set::fresh(alloc, oid, objects)?)),
        }
    }

    #[tactic(auto, unfolding(crate::specs::Anys::applied))]
    fn apply(self, op: &AnyOp) -> Result<AnyKind, NoMemory> {
        match self {
            AnyKind::Directory(state) => match op {
                AnyOp::Directory(op) => Ok(AnyKind::Directory(state.apply(op)?)),
                _ => Ok(AnyKind::Directory(state)),
            },
            AnyKind::Counter(state) => match op {
                AnyOp::Counter(op) => Ok(AnyKind::Counter(state.apply(op)?)),
                _ => Ok(AnyKind::Counter(state)),
            },
            AnyKind::Register(state) => match op {
                AnyOp::Register(op) => Ok(AnyKind::Register(state.apply(op)?)),
                _ => Ok(AnyKind::Register(state)),
            },
            AnyKind::Map(state) => match op {
                AnyOp::Map(op) => Ok(AnyKind::Map(state.apply(op)?)),
                _ => Ok(AnyKind::Map(state)),
            },
            AnyKind::List(state) => match op {
                AnyOp::List(op) => Ok(AnyKind::List(state.apply(op)?)),
                _ => Ok(AnyKind::List(state)),
            },
            AnyKind::Tree(state) => match op {
                AnyOp::Tree(op) => Ok(AnyKind::Tree(state.apply(op)?)),
                _ => Ok(AnyKind::Tree(state)),
            },
            AnyKind::Set(state) => match op {
                AnyOp::Set(op) => Ok(AnyKind::Set(state.apply(op)?)),
                _ => Ok(AnyKind::Set(state)),
            },
        }
    }

    #[tactic(auto, unfolding(crate::specs::Anys::answered))]
    fn ask(&self, alloc: Global, ask: &AnyAsk) -> Result<AnyAns, NoMemory> {
        match self {
            AnyKind::Directory(state) => match ask {
                AnyAsk::Directory(ask) => Ok(AnyAns::Directory(state.ask(alloc, ask)?)),
                _ => Ok(AnyAns::None),
            },
            AnyKind::Counter(state) => match ask {
                AnyAsk::Counter(ask) => Ok(AnyAns::Counter(state.ask(alloc, ask)?)),
                _ => Ok(AnyAns::None),
            },
            AnyKind::Register(state) => match ask {
                AnyAsk::Register(ask) => Ok(AnyAns::Register(state.ask(alloc, ask)?)),
                _ => Ok(AnyAns::None),
            },
            AnyKind::Map(state) => match ask {
                AnyAsk::Map(ask) => Ok(AnyAns::Map(state.ask(alloc, ask)?)),
                _ => Ok(AnyAns::None),
            },
            AnyKind::List(state) => match ask {
                AnyAsk::List(ask) => Ok(AnyAns::List(state.ask(alloc, ask)?)),
                _ => Ok(AnyAns::None),
            },
            AnyKind::Tree(state) => match ask {
                AnyAsk::Tree(ask) => Ok(AnyAns::Tree(state.ask(alloc, ask)?)),
                _ => Ok(AnyAns::None),
            },
            AnyKind::Set(state) => match ask {
                AnyAsk::Set(ask) => Ok(AnyAns::Set(state.ask(alloc, ask)?)),
                _ => Ok(AnyAns::None),
            },
        }
    }

    #[tactic(auto, unfolding(crate::specs::Anys::is_op, crate::specs::Anys::touched))]
    fn touch(op: &AnyOp) -> Scope<'_> {
        match op {
            AnyOp::Directory(op) => Directory::touch(op),
            AnyOp::Counter(op) => Counter::touch(op),
            AnyOp::Register(op) => Register::touch(op),
            AnyOp::Map(op) => Map::touch(op),
            AnyOp::List(op) => TextList::touch(op),
            AnyOp::Tree(op) => Tree::touch(op),
            AnyOp::Set(op) => Set::touch(op),
        }
    }

    #[tactic(auto, unfolding(crate::specs::Anys::looked))]
    fn look(ask: &AnyAsk) -> Scope<'_> {
        match ask {
            AnyAsk::Directory(ask) => Directory::look(ask),
            AnyAsk::Counter(ask) => Counter::look(ask),
            AnyAsk::Register(ask) => Register::look(ask),
            AnyAsk::Map(ask) => Map::look(ask),
            AnyAsk::List(ask) => TextList::look(ask),
            AnyAsk::Tree(ask) => Tree::look(ask),
            AnyAsk::Set(ask) => Set::look(ask),
        }
    }

    #[tactic(auto, unfolding(crate::specs::Anys::saved))]
    fn save(&self, alloc: Global) -> Result<List<u8>, NoMemory> {
        match self {
            AnyKind::Directory(state) => state.save(alloc),
            AnyKind::Counter(state) => state.save(alloc),
            AnyKind::Register(state) => state.save(alloc),
            AnyKind::Map(state) => state.save(alloc),
            AnyKind::List(state) => state.save(alloc),
            AnyKind::Tree(state) => state.save(alloc),
            AnyKind::Set(state) => state.save(alloc),
        }
    }

    #[tactic(auto, unfolding(crate::specs::Anys::loaded))]
    fn load(alloc: Global, oid: Oid, bytes: &[u8]) -> Result<AnyKind, KindFault> {
        match oid.0 / INDICES {
            0 => Ok(AnyKind::Directory(Directory::load(alloc, oid, bytes)?)),
            1 => Ok(AnyKind::Counter(Counter::load(alloc, oid, bytes)?)),
            2 => Ok(AnyKind::Register(Register::load(alloc, oid, bytes)?)),
            3 => Ok(AnyKind::Map(Map::load(alloc, oid, bytes)?)),
            4 => Ok(AnyKind::List(TextList::load(alloc, oid, bytes)?)),
            5 => Ok(AnyKind::Tree(Tree::load(alloc, oid, bytes)?)),
            _ => Ok(AnyKind::Set(Set::load(alloc, oid, bytes)?)),
        }
    }

    #[tactic(auto, unfolding(crate::specs::Anys::spelled))]
    fn put_op(alloc: Global, op: &AnyOp, out: &mut List<u8>) -> Result<(), NoMemory> {
        match op {
            AnyOp::Directory(op) => Directory::put_op(alloc, op, out),
            AnyOp::Counter(op) => Counter::put_op(alloc, op, out),
            AnyOp::Register(op) => Register::put_op(alloc, op, out),
            AnyOp::Map(op) => Map::put_op(alloc, op, out),
            AnyOp::List(op) => TextList::put_op(alloc, op, out),
            AnyOp::Tree(op) => Tree::put_op(alloc, op, out),
            AnyOp::Set(op) => Set::put_op(alloc, op, out),
        }
    }

    #[tactic(auto, unfolding(crate::specs::Anys::read))]
    fn get_op(alloc: Global, bytes: &[u8]) -> Result<(AnyOp, usize), KindFault> {
        match code_tag(bytes) {
            0 => {
                let (op, len) = Directory::get_op(alloc, bytes)?;
                Ok((AnyOp::Directory(op), len))
            }
            1 => {
                let (op, len) = Counter::get_op(alloc, bytes)?;
                Ok((AnyOp::Counter(op), len))
            }
            2 => {
                let (op, len) = Register::get_op(alloc, bytes)?;
                Ok((AnyOp::Register(op), len))
            }
            3 => {
                let (op, len) = Map::get_op(alloc, bytes)?;
                Ok((AnyOp::Map(op), len))
            }
            4 => {
                let (op, len) = TextList::get_op(alloc, bytes)?;
                Ok((AnyOp::List(op), len))
            }
            5 => {
                let (op, len) = Tree::get_op(alloc, bytes)?;
                Ok((AnyOp::Tree(op), len))
            }
            _ => {
                let (op, len) = Set::get_op(alloc, bytes)?;
                Ok((AnyOp::Set(op), len))
            }
        }
    }

    fn copy(&self) -> Result<AnyKind, NoMemory> {
        match self {
            AnyKind::Directory(state) => Ok(AnyKind::Directory(state.copy()?)),
            AnyKind::Counter(state) => Ok(AnyKind::Counter(state.copy()?)),
            AnyKind::Register(state) => Ok(AnyKind::Register(state.copy()?)),
            AnyKind::Map(state) => Ok(AnyKind::Map(state.copy()?)),
            AnyKind::List(state) => Ok(AnyKind::List(state.copy()?)),
            AnyKind::Tree(state) => Ok(AnyKind::Tree(state.copy()?)),
            AnyKind::Set(state) => Ok(AnyKind::Set(state.copy()?)),
        }
    }

    fn copy_op(op: &AnyOp) -> Result<AnyOp, NoMemory> {
        match op {
            AnyOp::Directory(op) => Ok(AnyOp::Directory(Directory::copy_op(op)?)),
            AnyOp::Counter(op) => Ok(AnyOp::Counter(Counter::copy_op(op)?)),
            AnyOp::Register(op) => Ok(AnyOp::Register(Register::copy_op(op)?)),
            AnyOp::Map(op) => Ok(AnyOp::Map(Map::copy_op(op)?)),
            AnyOp::List(op) => Ok(AnyOp::List(TextList::copy_op(op)?)),
            AnyOp::Tree(op) => Ok(AnyOp::Tree(Tree::copy_op(op)?)),
            AnyOp::Set(op) => Ok(AnyOp::Set(Set::copy_op(op)?)),
        }
    }

    fn copy_ask(ask: &AnyAsk) -> Result<AnyAsk, NoMemory> {
        match ask {
            AnyAsk::Directory(ask) => Ok(AnyAsk::Directory(Directory::copy_ask(ask)?)),
            AnyAsk::Counter(ask) => Ok(AnyAsk::Counter(Counter::copy_ask(ask)?)),
            AnyAsk::Register(ask) => Ok(AnyAsk::Register(Register::copy_ask(ask)?)),
            AnyAsk::Map(ask) => Ok(AnyAsk::Map(Map::copy_ask(ask)?)),
            AnyAsk::List(ask) => Ok(AnyAsk::List(TextList::copy_ask(ask)?)),
            AnyAsk::Tree(ask) => Ok(AnyAsk::Tree(Tree::copy_ask(ask)?)),
            AnyAsk::Set(ask) => Ok(AnyAsk::Set(Set::copy_ask(ask)?)),
        }
    }

    ghost use Rattle.tg_any.specs.AnyLaws as laws;

    ghost first_is = { laws.first_is };

    ghost applied_is = { laws.applied_is };

    ghost other_kind = { laws.other_kind };

    ghost touched_is = { laws.touched_is };

    ghost apart = { laws.apart };

    ghost loads_saved = { laws.loads_saved };

    ghost loads_only = { laws.loads_only };

    ghost reads_spelled = { laws.reads_spelled };

    ghost reads_only = { laws.reads_only };

    ghost spelled_some = { laws.spelled_some };

    ghost no_front = { laws.no_front_law };
}

impl Registry for AnyKind {
    ghost allowed = { allowed };

    ghost allowed_ask = { allowed_ask };

    ghost lists = { lists_object };

    ghost floor_of = { floor_of };

    ghost marking = { marking };

    fn fits(oid: Oid, op: &AnyOp) -> bool {
        match op {
            AnyOp::Directory(op) => Directory::fits(oid, op),
            AnyOp::Counter(_) => oid.0 / INDICES == 1,
            AnyOp::Register(_) => oid.0 / INDICES == 2,
            AnyOp::Map(_) => oid.0 / INDICES == 3,
            AnyOp::List(_) => oid.0 / INDICES == 4,
            AnyOp::Tree(_) => oid.0 / INDICES == 5,
            AnyOp::Set(_) => oid.0 / INDICES == 6,
        }
    }

    fn allows(oid: Oid, op: &AnyOp) -> bool {
        match op {
            AnyOp::Directory(op) => Directory::allows(oid, op),
            _ => AnyKind::fits(oid, op),
        }
    }

    fn allows_ask(oid: Oid, ask: &AnyAsk) -> bool {
        match ask {
            AnyAsk::Directory(ask) => Directory::allows_ask(oid, ask),
            AnyAsk::Counter(_) => oid.0 / INDICES == 1,
            AnyAsk::Register(_) => oid.0 / INDICES == 2,
            AnyAsk::Map(_) => oid.0 / INDICES == 3,
            AnyAsk::List(_) => oid.0 / INDICES == 4,
            AnyAsk::Tree(_) => oid.0 / INDICES == 5,
            AnyAsk::Set(_) => oid.0 / INDICES == 6,
        }
    }

    fn registered(&self, oid: Oid) -> bool {
        match self {
            AnyKind::Directory(state) => state.registered(oid),
            _ => false,
        }
    }

    fn floor(&self) -> Pos {
        match self {
            AnyKind::Directory(state) => state.floor(),
            _ => 0,
        }
    }

    fn mark_op(oid: Oid, mark: Pos) -> AnyOp {
        AnyOp::Directory(Directory::mark_op(oid, mark))
    }

    ghost use Rattle.tg_any.specs.AnyLaws as laws;

    ghost allowed_is = { laws.allowed_is };

    ghost marking_is = { laws.marking_is };

    ghost marking_short = { laws.marking_short };
}
