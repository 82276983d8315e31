//! The entries of the directory.

ghost use Rattle.std.specs.Prelude.{◌≡◌, ◌||◌, map, IfOk};
ghost use Rattle.tg_dir.specs.Directories.{is_name, is_listed, found, is_full, named, is_raised, with_mark, least_mark, marks};

use std::alloc::Global;
use tg_base::{List, NoMemory, Oid, Pos};
use tg_kind::Text;

/// How many entries there may be.
const MOST: usize = 0xffff_ffff;

/// A registered object: its name, its number, and the position below which it is forgotten.
#[derive(Drop)]
pub struct Listing {
    pub name: Text,
    pub oid: Oid,
    pub mark: Pos,
}

impl Listing {
    /// An equal entry. An `Err` is want of memory.
    pub fn copy(&self) -> Result<Listing, NoMemory>
        ensures { IfOk result (λ e. e ≡ self.now) }
    {
        Ok(Listing {
            name: self.name.copy()?,
            oid: self.oid,
            mark: self.mark,
        })
    }
}

/// Whether an entry has this name. It takes no memory.
pub fn is_name(entries: &[Listing], name: &Text) -> bool
    ensures { result ≡ is_name entries.now name.now }
{
    entries
        .iter()
        .any(|entry| entry.name.as_str() == name.as_str())
}

/// Whether the object is registered. It takes no memory.
pub fn is_listed(entries: &[Listing], oid: Oid) -> bool
    ensures { result ≡ is_listed entries.now oid }
{
    entries.iter().any(|entry| entry.oid.0 == oid.0)
}

/// The object of this name. It takes no memory.
pub fn found(entries: &[Listing], name: &Text) -> Option<Oid>
    ensures { result ≡ found entries.now name.now }
{
    entries
        .iter()
        .find(|entry| entry.name.as_str() == name.as_str())
        .map(|entry| entry.oid)
}

/// Whether the object is registered with a mark below this one. It takes no memory.
pub fn is_raised(entries: &[Listing], oid: Oid, mark: Pos) -> bool
    ensures { result ≡ is_raised entries.now oid mark }
{
    entries
        .iter()
        .any(|entry| entry.oid.0 == oid.0 && entry.mark < mark)
}

// Gives an entry the mark, if it is the object's.
fn set_mark(entry: &mut Listing, oid: Oid, mark: Pos)
    ensures { entry.new ≡ with_mark oid mark entry.old }
{
    if entry.oid.0 == oid.0 {
        entry.mark = mark;
    }
}

/// Gives each entry of the object the mark. It takes no memory.
pub fn set_marks(entries: &mut [Listing], oid: Oid, mark: Pos)
    ensures { entries.new ≡ map (with_mark oid mark) entries.old }
{
    for entry in entries.iter_mut() {
        set_mark(entry, oid, mark);
    }
}

/// The least mark, and the greatest number where there is no entry. It takes no memory.
pub fn least_mark(entries: &[Listing]) -> Pos
    ensures { result ≡ least_mark entries.now }
{
    entries
        .iter()
        .fold(u64::MAX, |least, entry| least.min(entry.mark))
}

/// The objects and their marks, in order of registration. An `Err` is want of memory.
pub fn marks(alloc: Global, entries: &[Listing]) -> Result<List<(Oid, Pos)>, NoMemory>
    ensures { IfOk result (λ ms. ms ≡ marks entries.now) }
{
    let mut marks = List::new(alloc);
    for entry in entries {
        marks.push((entry.oid, entry.mark))?;
    }
    Ok(marks)
}

/// Copies of the entries. An `Err` is want of memory.
pub fn copied(entries: &Vec<Listing>) -> Result<Vec<Listing>, NoMemory>
    ensures { IfOk result (λ v. v.items ≡ entries.now.items) }
{
    let mut copies = Vec::new(*entries.allocator());
    for entry in entries {
        copies.push(entry.copy()?)?;
    }
    Ok(copies)
}

// Whether no entry can be put for this name and this object.
fn is_taken(entries: &[Listing], name: &Text, oid: Oid) -> bool
    ensures { result ≡ (is_name entries.now name.now || is_listed entries.now oid || is_full entries.now) }
{
    is_name(entries, name) || is_listed(entries, oid) || MOST <= entries.len()
}

/// The entries with a new one last, where neither its name nor its object is taken. An `Err` is want of memory.
pub fn named(entries: Vec<Listing>, name: &Text, oid: Oid) -> Result<Vec<Listing>, NoMemory>
    ensures { IfOk result (λ v. v.items ≡ named entries.items name.now oid) }
{
    if is_taken(&entries, name, oid) {
        return Ok(entries);
    }
    let mut entries = entries;
    entries.push(Listing {
        name: name.copy()?,
        oid,
        mark: 0,
    })?;
    Ok(entries)
}
