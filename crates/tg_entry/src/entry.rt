//! What an entry says.

ghost use Rattle.std.specs.Prelude.{◌≡◌, IfOk};

use tg_base::{Blob, List, NoMemory, Oid, Part, Pos, ReadMark, StreamLink};

/// A write of a commit record: an object, and the bytes of an op.
#[derive(Clone, Drop)]
pub struct WriteOp {
    pub oid: Oid,
    pub op: Blob,
}

impl WriteOp {
    /// An equal write.
    pub fn copy(&self) -> Result<WriteOp, NoMemory>
        ensures { IfOk result (λ c. c ≡ self.now) }
    {
        Ok(WriteOp {
            oid: self.oid,
            op: self.op.copy()?,
        })
    }
}

/// The head of an entry: who wrote it, and the streams in which it stands, rising by object.
#[derive(Drop)]
pub struct Head {
    /// 1 or 2. Format 2 is the one that is written; format 1 is still read.
    pub format: u8,
    pub client: u16,
    /// From 1: the transaction's number for a commit record, and else how many records of this body the client
    /// made, this one included.
    pub number: u32,
    pub streams: List<StreamLink>,
}

impl Head {
    /// An equal head.
    pub fn copy(&self) -> Result<Head, NoMemory>
        ensures { IfOk result (λ c. c ≡ self.now) }
    {
        Ok(Head {
            format: self.format,
            client: self.client,
            number: self.number,
            streams: self.streams.clone()?,
        })
    }
}

/// The body of an entry.
pub enum Body {
    /// A commit record: what was read, with versions, and what is written.
    Commit {
        reads: List<ReadMark>,
        writes: List<WriteOp>,
    },
    /// Whether the commit record at a position is committed.
    Decision {
        at: Pos,
        yes: bool,
    },
    /// The saved state of an object below `upto`, with the versions of its parts there: `version` is that of the
    /// whole, `keys` has that of each part that has one above `whole`, and `whole` is that of each other part.
    Checkpoint {
        oid: Oid,
        upto: Pos,
        version: u64,
        whole: u64,
        keys: List<(Part, u64)>,
        state: List<u8>,
    },
}

// By hand, since a derived drop is proved anew wherever a value is dropped.
impl Drop for Body {
    fn drop(self) {
        match self {
            Body::Commit {
                reads: _,
                writes: _,
            } => {}
            Body::Decision { at: _, yes: _ } => {}
            Body::Checkpoint {
                oid: _,
                upto: _,
                version: _,
                whole: _,
                keys: _,
                state: _,
            } => {}
        }
    }
}

impl Body {
    /// An equal body.
    pub fn copy(&self) -> Result<Body, NoMemory>
        ensures { IfOk result (λ c. c ≡ self.now) }
    {
        match self {
            Body::Commit { reads, writes } => Ok(Body::Commit {
                reads: copied_reads(reads)?,
                writes: copied_writes(writes)?,
            }),
            Body::Decision { at, yes } => Ok(Body::Decision { at: *at, yes: *yes }),
            Body::Checkpoint {
                oid,
                upto,
                version,
                whole,
                keys,
                state,
            } => Ok(Body::Checkpoint {
                oid: *oid,
                upto: *upto,
                version: *version,
                whole: *whole,
                keys: copied_keys(keys)?,
                state: copied_bytes(state)?,
            }),
        }
    }
}

fn copied_reads(reads: &List<ReadMark>) -> Result<List<ReadMark>, NoMemory>
    ensures { IfOk result (λ c. c ≡ reads.now) }
{
    Ok(reads.clone()?)
}

fn copied_writes(writes: &List<WriteOp>) -> Result<List<WriteOp>, NoMemory>
    ensures { IfOk result (λ c. c ≡ writes.now) }
{
    Ok(writes.clone()?)
}

fn copied_keys(keys: &List<(Part, u64)>) -> Result<List<(Part, u64)>, NoMemory>
    ensures { IfOk result (λ c. c ≡ keys.now) }
{
    Ok(keys.clone()?)
}

fn copied_bytes(bytes: &List<u8>) -> Result<List<u8>, NoMemory>
    ensures { IfOk result (λ c. c ≡ bytes.now) }
{
    Ok(bytes.clone()?)
}

/// An entry of the log.
#[derive(Drop)]
pub struct Entry {
    pub head: Head,
    pub body: Body,
}

impl Entry {
    /// An equal entry.
    pub fn copy(&self) -> Result<Entry, NoMemory>
        ensures { IfOk result (λ c. c ≡ self.now) }
    {
        Ok(Entry {
            head: self.head.copy()?,
            body: self.body.copy()?,
        })
    }
}
