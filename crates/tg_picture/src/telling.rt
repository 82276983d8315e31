//! The places of replies.

ghost use Rattle.std.specs.Prelude.{◌≡◌, nat_lt, IfOk};
ghost use Rattle.std.specs.List.{position};
ghost use Rattle.tg_picture.specs.Replies as seen;

use crate::steps::Step;
use std::alloc::Global;
use tg_base::{List, NoMemory};

/// The place of a reply: replies and steps count from 0.
#[derive(Clone, Copy, PartialEq, Eq)]
pub struct Telling {
    pub reply: u64,
    pub step: u64,
}

/// The replies that were told in the steps from `from` on and below `upto`, each once and in their order, with its step. An
/// `Err` is want of memory.
pub fn tellings(
    alloc: Global,
    steps: &[Step],
    from: usize,
    upto: usize,
) -> Result<List<Telling>, NoMemory>
    ensures { IfOk result (λ ts. ts ≡ seen.tellings steps.now from upto) }
{
    told_from(
        alloc,
        steps,
        told_before(steps, from),
        told_before(steps, upto),
    )
}

// The replies from a number on and below another.
#[tactic(auto, unfolding(crate::specs::Replies::told_from))]
fn told_from(alloc: Global, steps: &[Step], low: u64, high: u64) -> Result<List<Telling>, NoMemory>
    ensures { IfOk result (λ ts. ts ≡ seen.told_from steps.now low high) }
{
    let mut found = List::new(alloc);
    for reply in 0..high {
        if low <= reply {
            let step = told_in(steps, reply);
            found.push(Telling { reply, step })?;
        }
    }
    Ok(found)
}

// How many replies had been told before a step.
fn told_before(steps: &[Step], at: usize) -> u64
    ensures { result ≡ seen.told_before steps.now at }
{
    if at == 0 {
        return 0;
    }
    match steps.get(at - 1) {
        None => 0,
        Some(step) => step.told,
    }
}

// The step by which a reply had been told.
fn told_in(steps: &[Step], reply: u64) -> u64
    ensures { result ≡ seen.told_in steps.now reply }
{
    match first_past(steps, reply) {
        Some(at) => at as u64,
        None => steps.len() as u64,
    }
}

// The first step by which more replies had been told than a number.
fn first_past(steps: &[Step], reply: u64) -> Option<usize>
    ensures { result ≡ position (λ (s : Step). nat_lt reply s.told) steps.now }
{
    steps.iter().position(|step| reply < step.told)
}
