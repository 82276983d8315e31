//! A link in memory.

ghost use Rattle.std.specs.Prelude.{◌≡◌, ◌≤◌, ◌==◌, ◌↔◌, ◌++◌, ◌∷◌, [], Some, length, drop, IfOk, IfSome, IsNone, IsTrue, OnOk, OnErr, IsErrOf};
ghost use Rattle.tg_io.specs.Calls.{called, failures, fails_next, never_fails};
ghost use Rattle.tg_io.specs.Links.{arrival_of, hands, late_after, late_rest, next_of, queue_after, rule_at, sends};
ghost use Rattle.tg_io.specs.Memory.{KeepsSure};
ghost use Rattle.tg_io.specs.declared.fault.IoErr.TheVariants.{Failed};

use crate::calls::Calls;
use crate::datagram::Datagram;
use crate::fault::IoErr;
use crate::link::{Arrival, Link, Sent};
use std::alloc::Global;
use std::collections::VecDeque;
use std::marker::Model;
use tg_base::{List, NoMemory, NodeId};

/// What becomes of a datagram that is sent: it is queued once, not at all, twice, or in a second
/// queue, which is served where the first is empty.
#[derive(Clone, Copy, PartialEq, Eq)]
pub enum Rule {
    Keep,
    Lose,
    Twice,
    Late,
}

/// Carries datagrams by rules, and fails at the calls that a list names.
#[derive(Drop)]
pub struct MemLink {
    alloc: Global,
    rules: List<Rule>,
    calls: Calls,
    queue: VecDeque<Arrival>,
    late: VecDeque<Arrival>,
    sent: Vec<Sent>,
    handed: Vec<Option<Arrival>>,
}

impl Model for MemLink {
    ghost use Rattle.tg_io.specs.Links.{Wire};

    ghost Value = { Wire };

    ghost view = { λ s. record {
      rules = s.rules;
      calls = s.calls;
      queue = s.queue.items;
      late = s.late.items;
      sent = s.sent.items;
      handed = s.handed.items;
    } };
}

impl MemLink {
    /// Nothing is sent. The n-th send that succeeds follows rule `n mod rules`, or `Keep` where
    /// there are none. `fails` names the calls, sends and receives together from 0, that fail.
    pub fn new(alloc: Global, rules: List<Rule>, fails: List<u64>) -> MemLink
        ensures value { result ≡ record {
          rules = rules;
          calls = record { made = 0; fails = fails };
          queue = [];
          late = [];
          sent = [];
          handed = [];
        } }
        ensures sent { ⟦<MemLink as Link>⟧.sent result ≡ Some [] }
        ensures handed { ⟦<MemLink as Link>⟧.handed result ≡ Some [] }
        ensures faults { ⟦<MemLink as Link>⟧.faults result ≡ 0 }
        ensures sure { ⟦<MemLink as Link>⟧.sure result ≡ (length fails == 0) }
    {
        MemLink {
            alloc,
            rules,
            calls: Calls::new(fails),
            queue: VecDeque::new(alloc),
            late: VecDeque::new(alloc),
            sent: Vec::new(alloc),
            handed: Vec::new(alloc),
        }
    }

    /// Puts a datagram of at most 8,192 bytes, which no node sent, at the end of the first queue.
    pub fn inject(mut self, to: NodeId, bytes: List<u8>) -> Result<MemLink, NoMemory>
        requires { length bytes ≤ 8192 }
        ensures { IfOk result (λ link. link ≡ record self { queue = self.queue ++ record { to = to; datagram = bytes } ∷ [] }) }
    {
        let datagram = Datagram::new(bytes).unwrap();
        self.queue.push_back(Arrival { to, datagram })?;
        Ok(self)
    }

    /// The sends that succeeded, in order.
    pub fn sent(&self) -> &[Sent]
        ensures { result.now ≡ self.now.sent }
    {
        self.sent.as_slice()
    }

    // The rule of the next send.
    fn next_rule(&self) -> Rule
        ensures { result ≡ rule_at self.now.rules (length self.now.sent) }
    {
        let rules = self.rules.as_slice();
        if rules.is_empty() {
            return Rule::Keep;
        }
        rules[self.sent.len() % rules.len()]
    }
}

impl Link for MemLink {
    ghost use Rattle.std.proofs.Common.{rules, arith};

    ghost faults = { λ s. failures s.calls };

    ghost sent = { λ s. Some s.sent };

    ghost handed = { λ s. Some s.handed };

    ghost sure = { λ s. never_fails s.calls };

    /// Follows the next rule. It is `Failed` exactly where the list names this call.
    fn send(&mut self, from: NodeId, to: NodeId, datagram: &[u8]) -> Result<(), IoErr>
        requires { length datagram.now ≤ 8192 }
        ensures fails { IsErrOf result Failed ↔ IsTrue (fails_next self.old.calls) }
        ensures err { OnErr result (self.new ≡ record self.old { calls = called self.old.calls }) }
        ensures ok { OnOk result (self.new ≡ sends self.old (record { from = from; to = to; datagram = datagram.now })) }
        ensures sure { KeepsSure self.old.calls self.new.calls }
    {
        if self.calls.next_fails() {
            return Err(IoErr::Failed);
        }
        let rule = self.next_rule();
        let sent = Sent {
            from,
            to,
            datagram: Datagram::of(self.alloc, datagram)?,
        };
        self.sent.reserve(1)?;
        enqueue(
            self.alloc,
            rule,
            &mut self.queue,
            &mut self.late,
            to,
            datagram,
        )?;
        self.sent.push_reserved(sent);
        Ok(())
    }

    /// Serves the first queue, and the second where the first is empty. None exactly where both
    /// are. It is `Failed` exactly where the list names this call.
    fn recv(&mut self, buf: &mut [u8]) -> Result<Option<(NodeId, usize)>, IoErr>
        requires { length buf.old ≡ 8192 }
        ensures fails { IsErrOf result Failed ↔ IsTrue (fails_next self.old.calls) }
        ensures err { OnErr result (self.new ≡ record self.old { calls = called self.old.calls }) }
        ensures none { IfOk result (λ answer. IsNone answer ↔ ((self.old.queue ≡ []) × (self.old.late ≡ []))) }
        ensures next { IfOk result (λ answer. arrival_of answer buf.new ≡ next_of self.old.queue self.old.late) }
        ensures ok { OnOk result (self.new ≡ hands self.old) }
        ensures count { IfOk result (λ answer. IfSome answer (λ came. came.1 ≤ 8192)) }
        ensures sure { KeepsSure self.old.calls self.new.calls }
    {
        if self.calls.next_fails() {
            return Err(IoErr::Failed);
        }
        self.handed.reserve(1)?;
        let next = dequeue(&mut self.queue, &mut self.late);
        let answer = copy_out(&next, buf);
        self.handed.push_reserved(next);
        Ok(answer)
    }

    ghost one_list = { λ s. Prim.search (rules, arith) };
}

// What a rule does with a datagram of at most 8,192 bytes. An `Err` changes nothing.
fn enqueue(
    alloc: Global,
    rule: Rule,
    queue: &mut VecDeque<Arrival>,
    late: &mut VecDeque<Arrival>,
    to: NodeId,
    datagram: &[u8],
) -> Result<(), NoMemory>
    requires { length datagram.now ≤ 8192 }
    ensures queue { OnOk result (queue.new.items ≡ queue_after rule queue.old.items (record { to = to; datagram = datagram.now })) }
    ensures late { OnOk result (late.new.items ≡ late_after rule late.old.items (record { to = to; datagram = datagram.now })) }
    ensures err { OnErr result ((queue.new.items ≡ queue.old.items) × (late.new.items ≡ late.old.items)) }
{
    match rule {
        Rule::Keep => queue.push_back(arrival(alloc, to, datagram)?)?,
        Rule::Lose => {}
        Rule::Twice => {
            let first = arrival(alloc, to, datagram)?;
            let second = arrival(alloc, to, datagram)?;
            queue.reserve(2)?;
            queue.push_back_reserved(first);
            queue.push_back_reserved(second);
        }
        Rule::Late => late.push_back(arrival(alloc, to, datagram)?)?,
    }
    Ok(())
}

fn arrival(alloc: Global, to: NodeId, datagram: &[u8]) -> Result<Arrival, NoMemory>
    requires { length datagram.now ≤ 8192 }
    ensures { IfOk result (λ a. a ≡ record { to = to; datagram = datagram.now }) }
{
    Ok(Arrival {
        to,
        datagram: Datagram::of(alloc, datagram)?,
    })
}

// Takes what is handed next.
fn dequeue(queue: &mut VecDeque<Arrival>, late: &mut VecDeque<Arrival>) -> Option<Arrival>
    ensures next { result ≡ next_of queue.old.items late.old.items }
    ensures queue { queue.new.items ≡ drop 1 queue.old.items }
    ensures late { late.new.items ≡ late_rest queue.old.items late.old.items }
{
    match queue.pop_front() {
        Some(arrival) => Some(arrival),
        None => late.pop_front(),
    }
}

// Copies what is handed to the start of the buffer of 8,192 bytes.
fn copy_out(next: &Option<Arrival>, buf: &mut [u8]) -> Option<(NodeId, usize)>
    requires { length buf.old ≡ 8192 }
    ensures same { arrival_of result buf.new ≡ next.now }
    ensures count { IfSome result (λ came. came.1 ≤ 8192) }
{
    let arrival = next.as_ref()?;
    let bytes = arrival.datagram.as_slice();
    buf[..bytes.len()].copy_from_slice(bytes);
    Some((arrival.to, bytes.len()))
}
