//! The directory.

ghost use Rattle.std.specs.Prelude.{◌≡◌, ◌++◌, ◌∷◌, [], true, IfOk, OnOk, map, filter};
ghost use Rattle.tg_base.specs.declared.ids.Oid.{Oid};
ghost use Rattle.tg_base.specs.declared.marks.Part.TheVariants as part;
ghost use Rattle.tg_codec.specs.Reading.{Gives};
ghost use Rattle.tg_kind.specs.Headers.{is_header};
ghost use Rattle.tg_base.specs.Parts.{is_part};
ghost use Rattle.tg_kind.specs.Parts.{part_of};
ghost use Rattle.tg_kind.specs.Texts.{IsText};
ghost use Rattle.tg_dir.specs.Spellings.{is_number};
ghost use Rattle.tg_dir.specs.declared.directory.DirectoryOp.TheVariants.{Mark};
ghost use Rattle.tg_dir.specs.Directories.{is_object, is_state, is_of, first, at_first, applied, named, marked, risen, answered, touched, looked, saved, loaded, listings, state_format, op_format, allowed, allowed_ask, lists, floor_of, marking};

use crate::bytes::{listings_in, op_in, put_op_bytes, put_state};
use crate::listing::{
    Listing, copied, found, is_listed, is_raised, least_mark, marks, named, set_marks,
};
use crate::object::Object;
use crate::spelling::spelled;
use std::alloc::Global;
use std::marker::Model;
use tg_base::{List, NoMemory, Oid, Pos};
use tg_codec::{ReadFault, fixed, u32_in, u64_in};
use tg_kind::{Key, Kind, KindFault, Registry, Scope, Text, in_front, in_whole};

/// The tag of the directory.
const TAG: u8 = 0;

/// The registered objects by name, in order of registration, with their marks, and the floor: the position below which all objects
/// are forgotten. There is one directory in a store, and it lists itself.
#[derive(Drop)]
pub struct Directory {
    entries: Vec<Listing>,
    floor: Pos,
}

impl Model for Directory {
    ghost use Rattle.tg_dir.specs.Directories.{Listings};

    ghost Value = { Listings };

    ghost view = { λ d. record { entries = d.entries.items; floor = d.floor } };
}

/// What changes the directory.
#[derive(Drop)]
pub enum DirectoryOp {
    /// Registers an object under a name, with mark 0; no change where the name or the object is taken.
    Name { name: Text, oid: Object },
    /// Raises an object's mark, and the floor to the least mark; no change where the object isn't registered or its mark isn't below.
    Mark { oid: Object, mark: Pos },
}

/// What looks at the directory.
#[derive(Drop)]
pub enum DirectoryAsk {
    /// The object of this name.
    Find { name: Text },
    /// The objects and their marks, in order of registration.
    Marks,
    /// The position below which all objects are forgotten.
    Floor,
}

/// What an ask of the directory is answered.
#[derive(Drop)]
pub enum DirectoryAns {
    Found(Option<Oid>),
    Marks(List<(Oid, Pos)>),
    Floor(Pos),
}

// An object's entry at first.
fn at_first(alloc: Global, oid: Oid) -> Result<Listing, NoMemory>
    requires { is_number oid ≡ true }
    ensures { IfOk result (λ e. e ≡ at_first oid) }
{
    Ok(Listing {
        name: spelled(alloc, oid)?,
        oid,
        mark: 0,
    })
}

// The entries with an object's own last, where the number is an object's.
fn with_object(alloc: Global, entries: Vec<Listing>, oid: Oid) -> Result<Vec<Listing>, NoMemory>
    ensures { IfOk result (λ v. v.items ≡ entries.items ++ map at_first (filter is_number (oid ∷ []))) }
{
    let mut entries = entries;
    if Object::of(oid).is_some() {
        entries.push(at_first(alloc, oid)?)?;
    }
    Ok(entries)
}

// The entries with a mark, and the floor that goes with them.
fn risen(floor: Pos, entries: Vec<Listing>) -> Directory
    ensures { result ≡ risen floor entries.items }
{
    let floor = floor.max(least_mark(&entries));
    Directory { entries, floor }
}

// The directory after a mark.
fn marked(directory: Directory, oid: Oid, mark: Pos) -> Directory
    ensures { result ≡ marked directory oid mark }
{
    let Directory { entries, floor } = directory;
    if !is_raised(&entries, oid, mark) {
        return Directory { entries, floor };
    }
    let mut entries = entries;
    set_marks(&mut entries, oid, mark);
    risen(floor, entries)
}

// What stands under a name.
fn scope(name: &Text) -> Scope<'_>
    ensures part { part_of result ≡ part.Text name.now }
    ensures known { IsText name.now }
    ensures lawful { is_part (part.Text name.now) ≡ true }
{
    Scope::One(Key::Text(name.as_str()))
}

// What a mark changes, whatever it is.
fn whole(oid: &Object, mark: Pos) -> Scope<'static>
    ensures part { part_of result ≡ part.All }
    ensures fits { op_format.fits (Mark oid.now mark) ≡ true }
{
    let _known = oid.oid();
    Scope::All
}

fn state_in(alloc: Global, bytes: &[u8]) -> Result<(Directory, &[u8]), ReadFault>
    ensures { Gives (λ x. (x.0, x.1.now)) result (listings.read bytes.now) }
{
    let (count, rest) = u32_in(&[(0, u64::MAX)], bytes)?;
    let (entries, rest) = listings_in(alloc, count, rest)?;
    let (floor, rest) = u64_in(&[(0, u64::MAX)], rest)?;
    Ok((Directory { entries, floor }, rest))
}

#[tactic(auto, unfolding(crate::specs::Directories::state_format))]
fn directory_in(alloc: Global, bytes: &[u8]) -> Result<(Directory, &[u8]), ReadFault>
    ensures { Gives (λ x. (x.0, x.1.now)) result (state_format.read bytes.now) }
{
    let ((), rest) = fixed(&[TAG], bytes)?;
    state_in(alloc, rest)
}

impl Kind for Directory {
    type Op = DirectoryOp;

    type Ask = DirectoryAsk;

    type Ans = DirectoryAns;

    ghost is_object = { is_object };

    ghost is_state = { is_state };

    ghost is_op = { op_format.fits };

    ghost is_of = { is_of };

    ghost first = { first };

    ghost applied = { applied };

    ghost answered = { answered };

    ghost touched = { touched };

    ghost looked = { looked };

    ghost saved = { saved };

    ghost loaded = { loaded };

    ghost spelled = { op_format.spell };

    ghost read = { op_format.read };

    fn fresh(alloc: Global, _oid: Oid, objects: &[Oid]) -> Result<Directory, NoMemory> {
        let mut entries = with_object(alloc, Vec::new(alloc), Oid(0))?;
        for oid in objects {
            entries = with_object(alloc, entries, *oid)?;
        }
        Ok(Directory { entries, floor: 0 })
    }

    fn apply(self, op: &DirectoryOp) -> Result<Directory, NoMemory> {
        match op {
            DirectoryOp::Name { name, oid } => {
                let Directory { entries, floor } = self;
                let entries = named(entries, name, oid.oid())?;
                Ok(Directory { entries, floor })
            }
            DirectoryOp::Mark { oid, mark } => Ok(marked(self, oid.oid(), *mark)),
        }
    }

    fn ask(&self, alloc: Global, ask: &DirectoryAsk) -> Result<DirectoryAns, NoMemory> {
        match ask {
            DirectoryAsk::Find { name } => Ok(DirectoryAns::Found(found(&self.entries, name))),
            DirectoryAsk::Marks => Ok(DirectoryAns::Marks(marks(alloc, &self.entries)?)),
            DirectoryAsk::Floor => Ok(DirectoryAns::Floor(self.floor)),
        }
    }

    #[tactic(auto, unfolding(crate::specs::Directories::op_format))]
    fn touch(op: &DirectoryOp) -> Scope<'_> {
        match op {
            DirectoryOp::Name { name, oid } => {
                let _known = oid.oid();
                scope(name)
            }
            DirectoryOp::Mark { oid, mark } => whole(oid, *mark),
        }
    }

    fn look(ask: &DirectoryAsk) -> Scope<'_> {
        match ask {
            DirectoryAsk::Find { name } => scope(name),
            DirectoryAsk::Marks => Scope::All,
            DirectoryAsk::Floor => Scope::All,
        }
    }

    #[tactic(auto, unfolding(crate::specs::Directories::state_format))]
    fn save(&self, alloc: Global) -> Result<List<u8>, NoMemory> {
        let mut bytes = List::new(alloc);
        bytes.push(TAG)?;
        put_state(&self.entries, self.floor, &mut bytes)?;
        Ok(bytes)
    }

    fn load(alloc: Global, _oid: Oid, bytes: &[u8]) -> Result<Directory, KindFault> {
        in_whole(bytes, directory_in(alloc, bytes))
    }

    fn put_op(alloc: Global, op: &DirectoryOp, out: &mut List<u8>) -> Result<(), NoMemory> {
        let mut spelling = List::new(alloc);
        put_op_bytes(op, &mut spelling)?;
        out.extend(spelling.as_slice())
    }

    fn get_op(alloc: Global, bytes: &[u8]) -> Result<(DirectoryOp, usize), KindFault> {
        in_front(bytes, op_in(alloc, bytes))
    }

    fn copy(&self) -> Result<Directory, NoMemory> {
        Ok(Directory {
            entries: copied(&self.entries)?,
            floor: self.floor,
        })
    }

    fn copy_op(op: &DirectoryOp) -> Result<DirectoryOp, NoMemory> {
        match op {
            DirectoryOp::Name { name, oid } => Ok(DirectoryOp::Name {
                name: name.copy()?,
                oid: *oid,
            }),
            DirectoryOp::Mark { oid, mark } => Ok(DirectoryOp::Mark {
                oid: *oid,
                mark: *mark,
            }),
        }
    }

    fn copy_ask(ask: &DirectoryAsk) -> Result<DirectoryAsk, NoMemory> {
        match ask {
            DirectoryAsk::Find { name } => Ok(DirectoryAsk::Find { name: name.copy()? }),
            DirectoryAsk::Marks => Ok(DirectoryAsk::Marks),
            DirectoryAsk::Floor => Ok(DirectoryAsk::Floor),
        }
    }

    ghost use Rattle.tg_dir.specs.DirectoryLaws as laws;

    ghost first_is = { laws.first_is };

    ghost applied_is = { laws.applied_is };

    ghost other_kind = { laws.other_kind };

    ghost touched_is = { laws.touched_is };

    ghost apart = { laws.apart };

    ghost loads_saved = { laws.loads_saved };

    ghost loads_only = { laws.loads_only };

    ghost reads_spelled = { laws.reads_spelled };

    ghost reads_only = { laws.reads_only };

    ghost spelled_some = { laws.spelled_some };

    ghost no_front = { laws.no_front_law };
}

impl Registry for Directory {
    ghost allowed = { allowed };

    ghost allowed_ask = { allowed_ask };

    ghost lists = { lists };

    ghost floor_of = { floor_of };

    ghost marking = { marking };

    fn fits(oid: Oid, _op: &DirectoryOp) -> bool {
        oid.0 == 0
    }

    fn allows(oid: Oid, op: &DirectoryOp) -> bool {
        match op {
            DirectoryOp::Name { name: _, oid: _ } => oid.0 == 0,
            DirectoryOp::Mark { oid: _, mark: _ } => false,
        }
    }

    fn allows_ask(oid: Oid, _ask: &DirectoryAsk) -> bool {
        oid.0 == 0
    }

    fn registered(&self, oid: Oid) -> bool {
        is_listed(&self.entries, oid)
    }

    fn floor(&self) -> Pos {
        self.floor
    }

    fn mark_op(oid: Oid, mark: Pos) -> DirectoryOp {
        match Object::of(oid) {
            Some(oid) => DirectoryOp::Mark { oid, mark },
            None => DirectoryOp::Mark {
                oid: Object::directory(),
                mark: 0,
            },
        }
    }

    ghost use Rattle.tg_dir.specs.DirectoryLaws as laws;

    ghost allowed_is = { laws.allowed_is };

    ghost marking_is = { laws.marking_is };

    ghost marking_short = { laws.marking_short };
}
