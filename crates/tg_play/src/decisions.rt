//! Decision records by position.

ghost use Rattle.std.specs.Prelude.{◌≡◌, ◌&&◌, not, is_some, IfOk, OnOk};
ghost use Rattle.tg_entry.specs.Needs.{needs_decision};
ghost use Rattle.tg_protocol.specs.Entries.{decides};
ghost use Rattle.tg_protocol.specs.Views.{decision_in};
ghost use Rattle.tg_play.specs.Kept.{decisions_kept, with_decision, at_position};

use std::alloc::Global;
use std::collections::BTreeMap;
use tg_base::{NoMemory, Pos};
use tg_entry::{Body, Entry, needs_decision};

/// What the decision records among entries say by position; of several for one position the first counts.
/// An `Err` is want of memory.
pub fn decisions_of(
    alloc: Global,
    entries: &[(Pos, Entry)],
) -> Result<BTreeMap<Pos, bool>, NoMemory>
    ensures { IfOk result (λ ds. ds.entries ≡ decisions_kept entries.now) }
{
    let mut decisions = BTreeMap::new(alloc);
    for at in (0..entries.len()).rev() {
        put_decision(&mut decisions, &entries[at].1.body)?;
    }
    Ok(decisions)
}

fn put_decision(decisions: &mut BTreeMap<Pos, bool>, body: &Body) -> Result<(), NoMemory>
    ensures { OnOk result (decisions.new.entries ≡ with_decision decisions.old.entries body.now) }
{
    match body {
        Body::Commit { .. } => Ok(()),
        Body::Decision { at, yes } => {
            decisions.insert(*at, *yes)?;
            Ok(())
        }
        Body::Checkpoint { .. } => Ok(()),
    }
}

/// What is said of a position. It takes no memory.
pub fn decision_at(decisions: &BTreeMap<Pos, bool>, pos: Pos) -> Option<bool>
    ensures { result ≡ at_position decisions.now.entries pos }
{
    decisions.get(&pos).copied()
}

/// What the decision records among entries say of a position; of several for it the first counts. It takes no memory.
pub fn decision_among(entries: &[(Pos, Entry)], pos: Pos) -> Option<bool>
    ensures { result ≡ decision_in entries.now pos }
{
    for (_, entry) in entries {
        if let Some(yes) = decided_by(&entry.body, pos) {
            return Some(yes);
        }
    }
    None
}

// What a decision record says of a position.
fn decided_by(body: &Body, pos: Pos) -> Option<bool>
    ensures { result ≡ decides pos body.now }
{
    match body {
        Body::Commit { .. } => None,
        Body::Decision { at, yes } => {
            if *at == pos {
                return Some(*yes);
            }
            None
        }
        Body::Checkpoint { .. } => None,
    }
}

/// Whether a record needs a decision record and has none. It takes no memory.
pub fn lacks_decision(entry: &Entry, decision: Option<bool>) -> bool
    ensures { result ≡ (needs_decision entry.now && not (is_some decision)) }
{
    needs_decision(entry) && decision.is_none()
}
