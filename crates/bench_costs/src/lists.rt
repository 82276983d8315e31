//! Ops on lists. An object isn't freed: to free its parts is no op.

ghost use Rattle.std.specs.Prelude.{◌≡◌, ◌<◌, ◌-◌, [], IfOk, length};
ghost use Rattle.bench_costs.specs.Rows.{pushing_back, pushing_front, popping_back, popping_front, list_after};

use crate::fault::Fault;
use crate::row::{Row, after_ops};
use crate::words::value;
use std::alloc::Global;
use std::mem;
use tg_base::Oid;
use tg_kind::Kind;
use tg_list::{TextList, TextListAns, TextListAsk, TextListOp};

const LIST: Oid = Oid(0x0400_0000);

/// Pushes texts to the back.
struct PushingBack;

impl Row<TextList> for PushingBack {
    ghost op_at = { pushing_back };

    fn op(alloc: Global, _count: u32, place: u32) -> Result<TextListOp, Fault> {
        let text = value(alloc, place)?;
        Ok(TextListOp::PushBack { text })
    }
}

/// Pushes texts to the front.
struct PushingFront;

impl Row<TextList> for PushingFront {
    ghost op_at = { pushing_front };

    fn op(alloc: Global, _count: u32, place: u32) -> Result<TextListOp, Fault> {
        let text = value(alloc, place)?;
        Ok(TextListOp::PushFront { text })
    }
}

/// Pops texts from the back.
struct PoppingBack;

impl Row<TextList> for PoppingBack {
    ghost op_at = { popping_back };

    fn op(_alloc: Global, _count: u32, _place: u32) -> Result<TextListOp, Fault> {
        Ok(TextListOp::PopBack)
    }
}

/// Pops texts from the front.
struct PoppingFront;

impl Row<TextList> for PoppingFront {
    ghost op_at = { popping_front };

    fn op(_alloc: Global, _count: u32, _place: u32) -> Result<TextListOp, Fault> {
        Ok(TextListOp::PopFront)
    }
}

/// The length of a list after pushing so many texts to its back.
pub fn back(alloc: Global, count: u32) -> Result<u64, Fault>
    ensures { IfOk result (λ n. n ≡ length (list_after pushing_back [] count)) }
{
    let list = pushed::<PushingBack>(alloc, count)?;
    let len = len(alloc, &list)?;
    mem::forget(list);
    Ok(len)
}

/// The length of a list after pushing so many texts to its front.
pub fn front(alloc: Global, count: u32) -> Result<u64, Fault>
    ensures { IfOk result (λ n. n ≡ length (list_after pushing_front [] count)) }
{
    let list = pushed::<PushingFront>(alloc, count)?;
    let len = len(alloc, &list)?;
    mem::forget(list);
    Ok(len)
}

/// How many of so many texts, pushed to the back, are gone after as many pops from the back.
pub fn pop_back(alloc: Global, count: u32) -> Result<u64, Fault>
    ensures { IfOk result (λ n. n ≡ length (list_after pushing_back [] count) - length (list_after popping_back (list_after pushing_back [] count) count)) }
{
    popped::<PoppingBack>(alloc, count)
}

/// How many of so many texts, pushed to the back, are gone after as many pops from the front.
pub fn pop_front(alloc: Global, count: u32) -> Result<u64, Fault>
    ensures { IfOk result (λ n. n ≡ length (list_after pushing_back [] count) - length (list_after popping_front (list_after pushing_back [] count) count)) }
{
    popped::<PoppingFront>(alloc, count)
}

fn popped<R: Row<TextList>>(alloc: Global, count: u32) -> Result<u64, Fault>
    ensures { IfOk result (λ n. n ≡ length (list_after pushing_back [] count) - length (list_after R.op_at (list_after pushing_back [] count) count)) }
{
    let list = pushed::<PushingBack>(alloc, count)?;
    let pushed = len(alloc, &list)?;
    let list = after_ops::<TextList, R>(alloc, list, count)?;
    let left = len(alloc, &list)?;
    mem::forget(list);
    Ok(pushed.saturating_sub(left))
}

fn pushed<R: Row<TextList>>(alloc: Global, count: u32) -> Result<TextList, Fault>
    ensures { IfOk result (λ l. l ≡ list_after R.op_at [] count) }
{
    let list = TextList::fresh(alloc, LIST, &[])?;
    after_ops::<TextList, R>(alloc, list, count)
}

fn len(alloc: Global, list: &TextList) -> Result<u64, Fault>
    ensures { IfOk result (λ n. n ≡ length list.now) }
{
    match list.ask(alloc, &TextListAsk::Len)? {
        TextListAns::Number(len) => Ok(len),
        _ => unreachable!(),
    }
}
