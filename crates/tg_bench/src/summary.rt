//! The summary of a run.

ghost use Rattle.std.specs.Prelude.{◌≡◌, ◌++◌, IfOk, OnOk};
ghost use Rattle.tg_kind.specs.Of.{meaning_of};
ghost use Rattle.tg_bench.specs.Summaries.{summed, last_of, row, last_row, summary_text};

use crate::counting::{aborted, committed, refused, unsure};
use std::alloc::Global;
use tg_any::put_number;
use tg_base::{List, NoMemory, Pos};
use tg_kind::Registry;
use tg_model::{DoneOf, MarkOf};

/// What a run comes to.
#[derive(Clone, Copy, PartialEq, Eq)]
pub struct Summary {
    /// The number of the last event.
    pub events: u64,
    /// How many packets were sent.
    pub packets: u64,
    /// How many transactions were committed, as their clients were told.
    pub committed: u64,
    /// How many were aborted.
    pub aborted: u64,
    /// How many couldn't be decided.
    pub unsure: u64,
    /// How many commands were refused.
    pub refused: u64,
    /// How many transactions the history has.
    pub history: u64,
    /// The stamp of its last one.
    pub last: Option<Pos>,
}

impl Summary {
    /// The summary of a run, by its events, its packets, its replies and its history. It takes no memory.
    pub fn of<K: Registry>(
        events: u64,
        packets: u64,
        trace: &[MarkOf<K>],
        history: &[DoneOf<K>],
    ) -> Summary
        ensures { result ≡ summed (meaning_of K.Registry) events packets trace.now history.now }
    {
        Summary {
            events,
            packets,
            committed: committed::<K>(trace),
            aborted: aborted::<K>(trace),
            unsure: unsure::<K>(trace),
            refused: refused::<K>(trace),
            history: history.len() as u64,
            last: last_stamp::<K>(history),
        }
    }

    /// Its eight lines, each a word and a number. An `Err` is want of memory.
    pub fn text(&self, alloc: Global) -> Result<List<u8>, NoMemory>
        ensures { IfOk result (λ text. text ≡ summary_text self.now) }
    {
        let mut text = List::new(alloc);
        put_row("events", self.events, &mut text)?;
        put_row("packets", self.packets, &mut text)?;
        put_row("committed", self.committed, &mut text)?;
        put_row("aborted", self.aborted, &mut text)?;
        put_row("unsure", self.unsure, &mut text)?;
        put_row("refused", self.refused, &mut text)?;
        put_row("history", self.history, &mut text)?;
        put_last(self.last, &mut text)?;
        Ok(text)
    }
}

// The stamp of the last transaction of a history.
fn last_stamp<K: Registry>(history: &[DoneOf<K>]) -> Option<Pos>
    ensures { result ≡ last_of (meaning_of K.Registry) history.now }
{
    history.last().map(|done| done.stamp)
}

// Puts a line with a word and a number last.
fn put_row(name: &str, number: u64, out: &mut List<u8>) -> Result<(), NoMemory>
    ensures { OnOk result (out.new ≡ out.old ++ row name.now number) }
{
    out.extend(name.as_bytes())?;
    out.push(b' ')?;
    put_number(number, out)?;
    out.push(b'\n')
}

// Puts the line of the last stamp last.
fn put_last(last: Option<Pos>, out: &mut List<u8>) -> Result<(), NoMemory>
    ensures { OnOk result (out.new ≡ out.old ++ last_row last) }
{
    match last {
        None => out.extend(b"last none\n"),
        Some(stamp) => put_row("last", stamp, out),
    }
}
