//! The history of committed transactions.

ghost use Rattle.std.specs.Prelude.{◌≡◌, ◌++◌, ◌<◌, ◌^◌, ◌∷◌, [], List, IfOk, OnOk, if◌then◌else◌};
ghost use Rattle.std.specs.List.{list_all};
ghost use Rattle.tg_entry.specs.Answers.{Decodes};
ghost use Rattle.tg_kind.specs.Of.{meaning_of};
ghost use Rattle.tg_protocol.specs.Logs.{is_current, change_of, with_changes, changes_after, ops_of, op_if, history_of};
ghost use Rattle.tg_protocol.specs.Pages.{entry_in};
ghost use Rattle.tg_protocol.specs.Versions.{PartVersion};
ghost use Rattle.tg_vers.specs.Kept.{Keeps};
ghost use Rattle.tg_world_log.specs.Turns.{changed, changes_by, dones_by, dones_of};

use std::alloc::Global;
use tg_base::{Cell, List, NoMemory, Oid, Pos, ReadMark};
use tg_entry::{Body, Entry, EntryFault, Head, WriteOp, decode};
use tg_kind::Registry;
use tg_model::{Done, DoneOf};
use tg_play::{op_of, touched_by};
use tg_vers::Versions;

// Positions from here on are too far: no node hands one out.
const FAR: Pos = 1 << 62;

/// The committed transactions of a log, by position: a commit record is committed where each of its reads has the
/// version that its part has below the record.
///
/// An `Err` is want of memory, or a commit record at 2 ^ 62 or further, where no node stores one.
pub fn history_of<K: Registry>(
    alloc: Global,
    log: &[(Pos, Cell)],
) -> Result<List<DoneOf<K>>, NoMemory>
    ensures { IfOk result (λ ds. ds ≡ history_of (meaning_of K.Registry) log.now) }
{
    let mut dones = List::new(alloc);
    let mut versions = Versions::new(alloc);
    for (pos, cell) in log {
        versions = turn::<K>(alloc, versions, &mut dones, *pos, cell)?;
    }
    Ok(dones)
}

// What a cell adds to the history, and the versions after it.
fn turn<K: Registry>(
    alloc: Global,
    versions: Versions,
    dones: &mut List<DoneOf<K>>,
    pos: Pos,
    cell: &Cell,
) -> Result<Versions, NoMemory>
    ensures kept { (ns : List PartVersion) → Keeps versions (changed ns) → IfOk result (λ v. Keeps v (changed (changes_by (meaning_of K.Registry) ns pos (entry_in cell.now)))) }
    ensures done { (ns : List PartVersion) → Keeps versions (changed ns) → OnOk result (dones.new ≡ dones.old ++ dones_by (meaning_of K.Registry) ns pos (entry_in cell.now)) }
{
    match entry_of(alloc, cell)? {
        None => Ok(versions),
        Some(entry) => entry_turn::<K>(alloc, versions, dones, pos, &entry),
    }
}

// The entry that a cell spells. An `Err` is want of memory.
#[tactic(auto, unfolding(tg_protocol::specs::Pages::entry_of))]
fn entry_of(alloc: Global, cell: &Cell) -> Result<Option<Entry>, NoMemory>
    ensures { IfOk result (λ e. e ≡ entry_in cell.now) }
{
    match cell {
        Cell::Junk => Ok(None),
        Cell::Data(page) => match decode(alloc, page.as_slice()) {
            Ok(entry) => Ok(Some(entry)),
            Err(EntryFault::NoMemory) => Err(NoMemory),
            Err(_) => Ok(None),
        },
    }
}

// What an entry adds to the history, and the versions after it.
fn entry_turn<K: Registry>(
    alloc: Global,
    versions: Versions,
    dones: &mut List<DoneOf<K>>,
    pos: Pos,
    entry: &Entry,
) -> Result<Versions, NoMemory>
    ensures kept { (ns : List PartVersion) → Keeps versions (changed ns) → IfOk result (λ v. Keeps v (changed (changes_after (meaning_of K.Registry) ns pos entry.now))) }
    ensures done { (ns : List PartVersion) → Keeps versions (changed ns) → OnOk result (dones.new ≡ dones.old ++ dones_of (meaning_of K.Registry) ns pos entry.now) }
{
    match &entry.body {
        Body::Commit { reads, writes } => commit::<K>(
            alloc,
            versions,
            dones,
            pos,
            &entry.head,
            reads.as_slice(),
            writes.as_slice(),
        ),
        Body::Decision { .. } => Ok(versions),
        Body::Checkpoint { .. } => Ok(versions),
    }
}

// What a commit record adds to the history, and the versions after it.
fn commit<K: Registry>(
    alloc: Global,
    versions: Versions,
    dones: &mut List<DoneOf<K>>,
    pos: Pos,
    head: &Head,
    reads: &[ReadMark],
    writes: &[WriteOp],
) -> Result<Versions, NoMemory>
    ensures kept { (ns : List PartVersion) → Keeps versions (changed ns) → IfOk result (λ v. Keeps v (changed (if list_all (is_current (meaning_of K.Registry) ns) reads.now then with_changes (meaning_of K.Registry) pos writes.now ns else ns))) }
    ensures done { (ns : List PartVersion) → Keeps versions (changed ns) → OnOk result (dones.new ≡ dones.old ++ (if list_all (is_current (meaning_of K.Registry) ns) reads.now then record { stamp = pos; client = head.now.client; number = head.now.number; writes = ops_of (meaning_of K.Registry) writes.now } ∷ [] else [])) }
{
    if !are_current::<K>(&versions, reads) {
        return Ok(versions);
    }
    let done = done_at::<K>(alloc, pos, head, writes)?;
    dones.push(done)?;
    note_all::<K>(alloc, versions, pos, writes)
}

// Whether each read has the version that its part has.
fn are_current<K: Registry>(versions: &Versions, reads: &[ReadMark]) -> bool
    ensures { (ns : List PartVersion) → Keeps versions.now (changed ns) → result ≡ list_all (is_current (meaning_of K.Registry) ns) reads.now }
{
    match versions.same(reads) {
        None => true,
        Some(_) => false,
    }
}

fn done_at<K: Registry>(
    alloc: Global,
    pos: Pos,
    head: &Head,
    writes: &[WriteOp],
) -> Result<DoneOf<K>, NoMemory>
    ensures { IfOk result (λ d. d ≡ record { stamp = pos; client = head.now.client; number = head.now.number; writes = ops_of (meaning_of K.Registry) writes.now }) }
{
    let mut ops = List::new(alloc);
    put_ops::<K>(alloc, writes, &mut ops)?;
    Ok(Done {
        stamp: pos,
        client: head.client,
        number: head.number,
        writes: ops,
    })
}

// The ops that a record's writes spell.
fn put_ops<K: Registry>(
    alloc: Global,
    writes: &[WriteOp],
    ops: &mut List<(Oid, K::Op)>,
) -> Result<(), NoMemory>
    ensures { OnOk result (ops.new ≡ ops.old ++ ops_of (meaning_of K.Registry) writes.now) }
{
    match writes {
        [] => Ok(()),
        [write, others @ ..] => {
            put_op::<K>(alloc, write, ops)?;
            put_ops::<K>(alloc, others, ops)
        }
    }
}

fn put_op<K: Registry>(
    alloc: Global,
    write: &WriteOp,
    ops: &mut List<(Oid, K::Op)>,
) -> Result<(), NoMemory>
    ensures { OnOk result (ops.new ≡ ops.old ++ op_if (meaning_of K.Registry) write.now.oid ((meaning_of K.Registry).read write.now.oid write.now.op) []) }
{
    match op_of::<K>(alloc, write)? {
        None => Ok(()),
        Some(op) => {
            ops.push((write.oid, op))?;
            Ok(())
        }
    }
}

// The versions after a record's writes.
fn note_all<K: Registry>(
    alloc: Global,
    versions: Versions,
    pos: Pos,
    writes: &[WriteOp],
) -> Result<Versions, NoMemory>
    ensures { (ns : List PartVersion) → Keeps versions (changed ns) → IfOk result (λ v. Keeps v (changed (with_changes (meaning_of K.Registry) pos writes.now ns))) }
{
    match writes {
        [] => Ok(versions),
        [write, others @ ..] => {
            let versions = note::<K>(alloc, versions, pos, write)?;
            note_all::<K>(alloc, versions, pos, others)
        }
    }
}

// The versions after a write.
#[tactic(auto, unfolding(tg_protocol::specs::Versions::with_change))]
fn note<K: Registry>(
    alloc: Global,
    versions: Versions,
    pos: Pos,
    write: &WriteOp,
) -> Result<Versions, NoMemory>
    ensures { (ns : List PartVersion) → Keeps versions (changed ns) → IfOk result (λ v. Keeps v (changed (change_of (meaning_of K.Registry) pos write.now ∷ ns))) }
{
    if pos >= FAR {
        return Err(NoMemory);
    }
    let op = op_of::<K>(alloc, write)?;
    let touch = touched_by::<K>(alloc, &op)?;
    versions.note(alloc, write.oid, &touch, pos)
}
