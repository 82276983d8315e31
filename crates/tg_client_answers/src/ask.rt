//! The answer to an ask.

ghost use Rattle.std.specs.Prelude.{◌≡◌, true, Some, IsSome};
ghost use Rattle.tg_base.specs.Parts.{is_part};
ghost use Rattle.tg_kind.specs.Of.{meaning_of};
ghost use Rattle.tg_protocol.specs.Answers as told;
ghost use Rattle.tg_protocol.specs.Transactions.{Tx};
ghost use Rattle.tg_protocol.specs.Views as views;
ghost use Rattle.tg_client_answers.specs.Fates.{Asks, Tells, asked_told};

use crate::asked::{Answer, answer_of, noted};
use crate::closing::tx_number;
use std::alloc::Global;
use tg_base::{NoMemory, Oid, Pos};
use tg_client_state::{Moved, State};
use tg_kind::Registry;
use tg_model::{PlayEnd, Refusal, What};
use tg_play::View;

// The answer of a hosted object, whose read is noted in the open transaction. An `Err` is want of memory, or a read
// that the transaction doesn't take.
fn asked<K: Registry>(
    state: State<K>,
    alloc: Global,
    tail: Pos,
    oid: Oid,
    ask: K::Ask,
    answer: Answer<K::Ans>,
) -> Result<Moved<K>, NoMemory>
    requires part { is_part answer.part ≡ true }
    requires open { IsSome state.tx }
    ensures { Tells (meaning_of K.Registry) state result (λ c. asked_told (meaning_of K.Registry) c tail oid ask answer c.tx) }
{
    let Answer { ans, part, version } = answer;
    let number = tx_number(&state.parts.tx);
    let mut state = state;
    let tx = noted(state.parts.tx.take(), oid, part, tail, version)?;
    state.parts.tx = tx;
    let what = What::Asked {
        oid,
        ask,
        at: tail,
        ans,
    };
    state.answers(alloc, number, what)
}

// What the view answers, and a refusal where the object isn't hosted. An `Err` is want of memory, or a read that the
// transaction doesn't take.
fn asks<K: Registry>(
    state: State<K>,
    alloc: Global,
    tail: Pos,
    oid: Oid,
    ask: K::Ask,
    number: u32,
) -> Result<Moved<K>, NoMemory>
    requires view { IsSome state.view }
    requires open { IsSome state.tx }
    ensures { (t : Tx) → state.tx ≡ Some t → number ≡ t.number → Asks (meaning_of K.Registry) state tail result (λ c w v. told.ask_answer (meaning_of K.Registry) c w t oid ask v (views.state_of (meaning_of K.Registry) v oid)) }
{
    match &state.parts.view {
        None => unreachable!(),
        Some(view) => match answer_of(view, alloc, oid, &ask)? {
            None => state.refuses(alloc, number, Refusal::NotHosted { oid }),
            Some(answer) => asked(state, alloc, tail, oid, ask, answer),
        },
    }
}

// The answer in the open transaction. An `Err` is want of memory, or a read that the transaction doesn't take.
fn ask_in<K: Registry>(
    state: State<K>,
    alloc: Global,
    tail: Pos,
    oid: Oid,
    ask: K::Ask,
) -> Result<Moved<K>, NoMemory>
    requires { IsSome state.view }
    ensures { Asks (meaning_of K.Registry) state tail result (λ c w v. told.ask_in (meaning_of K.Registry) c w oid ask v c.tx) }
{
    match &state.parts.tx {
        None => state.refuses(alloc, 0, Refusal::NoTx),
        Some(tx) => {
            let number = tx.number();
            asks(state, alloc, tail, oid, ask, number)
        }
    }
}

/// A hosted object is asked in the open transaction, once all entries below the tail are played: the answer is that of
/// its state there, and the transaction notes the read with the version that was found.
///
/// An `Err` is want of memory, or of numbers: a read that the transaction doesn't take, and a number that entries may not
/// give an object, are refused before any play.
pub fn on_ask<K: Registry>(
    state: State<K>,
    alloc: Global,
    tail: Pos,
    oid: Oid,
    ask: K::Ask,
    came: PlayEnd,
) -> Result<Moved<K>, NoMemory>
    requires { IsSome state.view }
    ensures { Asks (meaning_of K.Registry) state tail result (λ c w v. told.on_ask (meaning_of K.Registry) c w oid ask v came) }
{
    match came {
        PlayEnd::Played { .. } => ask_in(state, alloc, tail, oid, ask),
        PlayEnd::Blocked { pos, missing } => {
            let number = tx_number(&state.parts.tx);
            state.refuses(alloc, number, Refusal::Undecided { pos, missing })
        }
    }
}
