//! A transaction of a kind of objects.

ghost use Rattle.std.specs.Prelude.{◌≡◌, ◌≤◌, ◌==◌, true, None, length, OnOk, OnErr, IfErr, IfOk};
ghost use Rattle.tg_base.specs.declared.marks.ReadMark.{ReadMark};
ghost use Rattle.tg_base.specs.Parts.{is_part};
ghost use Rattle.tg_entry.specs.Records.{is_object};
ghost use Rattle.tg_protocol.specs.Transactions.{open_tx, tx_read, tx_put, read_fault, write_fault, commit_record};
ghost use Rattle.tg_tx.specs.Faults.{Faults, FaultsLate, Judges};

use crate::fault::TxFault;
use crate::pending::Pending;
use std::alloc::Global;
use std::marker::{Model, PhantomData};
use tg_base::{List, NoMemory, Oid, Part, Pos, ReadMark};
use tg_entry::Draft;
use tg_kind::Kind;

/// An open transaction: what it has read, with versions, and what it will write.
pub struct Tx<K: Kind> {
    pending: Pending,
    kind: PhantomData<K>,
}

// By hand, since a derived drop is proved anew wherever a value is dropped.
impl<K: Kind> Drop for Tx<K> {
    fn drop(self) {
        let Tx {
            pending: _,
            kind: _,
        } = self;
    }
}

impl<K: Kind> Model for Tx<K> {
    ghost use Rattle.tg_protocol.specs.Transactions as told;

    ghost Value = { told.Tx };

    ghost view = { λ t. t.pending };
}

// The bytes of an op, which aren't none.
fn spelled<K: Kind>(alloc: Global, op: &K::Op) -> Result<List<u8>, NoMemory>
    ensures exact { IfOk result (λ bytes. bytes ≡ K.spelled op.now) }
    ensures some { 1 ≤ length (K.spelled op.now) }
{
    let _known = K::touch(op);
    let mut bytes = List::new(alloc);
    K::put_op(alloc, op, &mut bytes)?;
    Ok(bytes)
}

impl<K: Kind> Tx<K> {
    /// A transaction that has read nothing and writes nothing. It takes no memory.
    pub fn open(alloc: Global, number: u32) -> Tx<K>
        requires { 1 ≤ number }
        ensures { result ≡ open_tx number }
    {
        Tx {
            pending: Pending::new(alloc, number),
            kind: PhantomData,
        }
    }

    /// Its number among the client's transactions. It takes no memory.
    pub fn number(&self) -> u32
        ensures { result ≡ self.now.number }
    {
        self.pending.number()
    }

    /// The tail at which its asks are answered, once one was. It takes no memory.
    pub fn snapshot(&self) -> Option<Pos>
        ensures { result ≡ self.now.snapshot }
    {
        self.pending.snapshot()
    }

    /// Whether it has read nothing. It takes no memory.
    pub fn reads_nothing(&self) -> bool
        ensures { result ≡ (length self.now.reads == 0) }
    {
        self.pending.reads_nothing()
    }

    /// Whether it writes nothing. It takes no memory.
    pub fn writes_nothing(&self) -> bool
        ensures { result ≡ (length self.now.writes == 0) }
    {
        self.pending.writes_nothing()
    }

    /// Whether a read of a part of an object would be taken, whatever its version. It takes no memory.
    ///
    /// `TooMany` comes exactly where 64 reads are there, and then `TooLarge` exactly where the record would pass 4,096 bytes.
    pub fn may_read(&self, read: &ReadMark) -> Result<(), TxFault>
        ensures { Judges result (read_fault self.now read.now.oid read.now.part) }
    {
        self.pending.allows(read)
    }

    /// Takes a read of a part of an object at a snapshot, with the version found there. A part
    /// that is read already isn't added again.
    ///
    /// `TooMany` comes exactly where 64 reads are there, else `TooLarge` exactly where the record
    /// would pass 4,096 bytes, and `NoMemory` only where neither does. An `Err` changes nothing.
    pub fn read(&mut self, oid: Oid, part: Part, at: Pos, version: u64) -> Result<(), TxFault>
        requires object { is_object oid ≡ true }
        requires part { is_part part ≡ true }
        ensures fine { OnOk result (read_fault self.old oid part ≡ None) }
        ensures ok { OnOk result (self.new ≡ tx_read self.old (record { oid = oid; part = part; version = version }) at) }
        ensures fault { IfErr result (λ e. Faults e (read_fault self.old oid part)) }
        ensures err { OnErr result (self.new ≡ self.old) }
    {
        let mark = ReadMark { oid, part, version };
        self.pending.read(mark, at)
    }

    /// Takes a write of an object.
    ///
    /// `TooMany` comes exactly where there would be more than 16 streams, and then where 64 writes
    /// are there, else `TooLarge` exactly where the record would pass 4,096 bytes. The op's bytes
    /// are spelled first, so `NoMemory` may come in place of `TooLarge`, and never in place of
    /// `TooMany`. An `Err` changes nothing.
    pub fn put(&mut self, alloc: Global, oid: Oid, op: K::Op) -> Result<(), TxFault>
        requires object { is_object oid ≡ true }
        ensures fine { OnOk result (write_fault self.old (record { oid = oid; op = K.spelled op }) ≡ None) }
        ensures ok { OnOk result (self.new ≡ tx_put self.old (record { oid = oid; op = K.spelled op })) }
        ensures fault { IfErr result (λ e. FaultsLate e (write_fault self.old (record { oid = oid; op = K.spelled op }))) }
        ensures err { OnErr result (self.new ≡ self.old) }
    {
        self.pending.room(oid)?;
        let bytes = spelled::<K>(alloc, &op)?;
        self.pending.put(alloc, oid, bytes)
    }

    /// The commit record: the reads rising by object and then part, each once, and the writes in
    /// order, in the streams that are written. An `Err` is want of memory.
    pub fn commit_record(&self, alloc: Global, client: u16) -> Result<Draft, NoMemory>
        requires { 1 ≤ length self.now.writes }
        ensures { IfOk result (λ d. d ≡ commit_record self.now client) }
    {
        self.pending.commit_record(alloc, client)
    }
}
