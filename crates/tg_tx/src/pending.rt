//! The reads and writes of an open transaction, within their limits.

ghost use Rattle.std.specs.Prelude.{◌≡◌, ◌≤◌, ◌==◌, ℕ, List, true, false, None, length, OnOk, OnErr, IfErr, IfOk, MatchResult};
ghost use Rattle.tg_base.specs.declared.marks.ReadMark.{ReadMark};
ghost use Rattle.tg_entry.specs.Records.{is_object, is_read};
ghost use Rattle.tg_entry.specs.declared.entry.Body.TheVariants.{Commit};
ghost use Rattle.tg_protocol.specs.Entries.{draft};
ghost use Rattle.tg_protocol.specs.Transactions.{Tx, open_tx, tx_read, tx_put, tx_streams, read_fault, write_fault, commit_record};
ghost use Rattle.tg_tx.specs.Faults.{Faults, Judges, Refuses, is_too_many};
ghost use Rattle.tg_tx.specs.Pendings.{bare, IsPending};

use crate::fault::TxFault;
use crate::limits::{has_room, may_put, may_read};
use crate::reads::add_read;
use crate::writes::links_of;
use std::alloc::Global;
use std::marker::Model;
use tg_base::{Blob, List, NoMemory, Oid, Pos, ReadMark};
use tg_entry::{Body, Draft, Entry, Head, WriteOp};

/// What an open transaction has read, and what it will write.
pub struct Pending {
    number: u32,
    reads: List<ReadMark>,
    writes: List<WriteOp>,
    snapshot: Option<Pos>,
}

// By hand, since a derived drop is proved anew wherever a value is dropped.
impl Drop for Pending {
    fn drop(self) {
        let Pending {
            number: _,
            reads: _,
            writes: _,
            snapshot: _,
        } = self;
    }
}

impl Model for Pending {
    ghost use Rattle.tg_protocol.specs.Transactions.{Tx};
    ghost use Rattle.tg_tx.specs.Pendings.{IsPending};

    ghost Value = { Tx };

    ghost view = { λ t. record { number = t.number; reads = t.reads; writes = t.writes; snapshot = t.snapshot } };

    ghost invariant = { λ t. IsPending t.number t.reads t.writes };
}

fn copied_reads(reads: &List<ReadMark>) -> Result<List<ReadMark>, NoMemory>
    ensures { IfOk result (λ c. c ≡ reads.now) }
{
    Ok(reads.clone()?)
}

fn copied_writes(writes: &List<WriteOp>) -> Result<List<WriteOp>, NoMemory>
    ensures { IfOk result (λ c. c ≡ writes.now) }
{
    Ok(writes.clone()?)
}

// The commit record of reads and writes.
fn drafted(
    alloc: Global,
    client: u16,
    number: u32,
    reads: &List<ReadMark>,
    writes: &List<WriteOp>,
) -> Result<Draft, NoMemory>
    requires limits { IsPending number reads.now writes.now }
    requires some { 1 ≤ length writes.now }
    ensures { IfOk result (λ d. d ≡ draft client number (tx_streams writes.now) (Commit reads.now writes.now)) }
{
    let streams = links_of(alloc, writes.as_slice())?;
    let reads = copied_reads(reads)?;
    let writes = copied_writes(writes)?;
    let head = Head {
        format: 2,
        client,
        number,
        streams,
    };
    let body = Body::Commit { reads, writes };
    Ok(Draft::new(Entry { head, body }))
}

impl Pending {
    /// Nothing read and nothing written. It takes no memory.
    pub fn new(alloc: Global, number: u32) -> Pending
        requires { 1 ≤ number }
        ensures { result ≡ open_tx number }
    {
        Pending {
            number,
            reads: List::new(alloc),
            writes: List::new(alloc),
            snapshot: None,
        }
    }

    /// Its number. It takes no memory.
    pub fn number(&self) -> u32
        ensures { result ≡ self.now.number }
    {
        self.number
    }

    /// At which tail its asks are answered. It takes no memory.
    pub fn snapshot(&self) -> Option<Pos>
        ensures { result ≡ self.now.snapshot }
    {
        self.snapshot
    }

    /// Whether nothing is read. It takes no memory.
    pub fn reads_nothing(&self) -> bool
        ensures { result ≡ (length self.now.reads == 0) }
    {
        self.reads.is_empty()
    }

    /// Whether nothing is written. It takes no memory.
    pub fn writes_nothing(&self) -> bool
        ensures { result ≡ (length self.now.writes == 0) }
    {
        self.writes.is_empty()
    }

    /// Whether a read would be taken. It takes no memory.
    #[tactic(auto, unfolding(tg_protocol::specs::Transactions::read_fault))]
    pub fn allows(&self, mark: &ReadMark) -> Result<(), TxFault>
        ensures { Judges result (read_fault self.now mark.now.oid mark.now.part) }
    {
        may_read(self.reads.as_slice(), self.writes.as_slice(), mark)
    }

    /// Takes a read at a snapshot. An `Err` changes nothing.
    #[tactic(auto, unfolding(tg_protocol::specs::Transactions::read_fault))]
    pub fn read(&mut self, mark: ReadMark, at: Pos) -> Result<(), TxFault>
        requires { is_read mark ≡ true }
        ensures fine { OnOk result (read_fault self.old mark.oid mark.part ≡ None) }
        ensures ok { OnOk result (self.new ≡ tx_read self.old mark at) }
        ensures fault { IfErr result (λ e. Faults e (read_fault self.old mark.oid mark.part)) }
        ensures err { OnErr result (self.new ≡ self.old) }
    {
        may_read(self.reads.as_slice(), self.writes.as_slice(), &mark)?;
        add_read(&mut self.reads, mark)?;
        self.snapshot = Some(at);
        Ok(())
    }

    /// Whether there is room for one write more of an object, whatever its bytes.
    #[tactic(auto, unfolding(tg_protocol::specs::Transactions::write_fault))]
    pub fn room(&self, oid: Oid) -> Result<(), TxFault>
        ensures { MatchResult result (λ _. (op : List ℕ) → is_too_many (write_fault self.now (record { oid = oid; op = op })) ≡ false) (λ e. (op : List ℕ) → Refuses e (write_fault self.now (record { oid = oid; op = op }))) }
    {
        has_room(self.writes.as_slice(), oid)
    }

    /// Takes a write of these bytes. An `Err` changes nothing.
    #[tactic(auto, unfolding(tg_protocol::specs::Transactions::write_fault))]
    pub fn put(&mut self, alloc: Global, oid: Oid, op: List<u8>) -> Result<(), TxFault>
        requires object { is_object oid ≡ true }
        requires some { 1 ≤ length op }
        ensures fine { OnOk result (write_fault self.old (record { oid = oid; op = op }) ≡ None) }
        ensures ok { OnOk result (self.new ≡ tx_put self.old (record { oid = oid; op = op })) }
        ensures fault { IfErr result (λ e. Faults e (write_fault self.old (record { oid = oid; op = op }))) }
        ensures err { OnErr result (self.new ≡ self.old) }
    {
        may_put(
            self.reads.as_slice(),
            self.writes.as_slice(),
            oid,
            op.as_slice(),
        )?;
        let op = Blob::new(alloc, op)?.unwrap();
        self.writes.push(WriteOp { oid, op })?;
        Ok(())
    }

    /// The commit record. An `Err` is want of memory.
    #[tactic(auto, unfolding(tg_protocol::specs::Transactions::commit_record))]
    pub fn commit_record(&self, alloc: Global, client: u16) -> Result<Draft, NoMemory>
        requires { 1 ≤ length self.now.writes }
        ensures { IfOk result (λ d. d ≡ commit_record self.now client) }
    {
        drafted(alloc, client, self.number, &self.reads, &self.writes)
    }
}
