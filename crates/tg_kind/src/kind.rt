//! What a kind of object is.

ghost use Rattle.std.specs.Prelude.{◌≡◌, ◌≤◌, ◌++◌, List, length, ℕ, Bool, true, false, Result, Ok, IfOk, OnOk, OnErr};
ghost use Rattle.tg_base.specs.declared.ids.Oid.{Oid};
ghost use Rattle.tg_base.specs.declared.marks.Part.{Part};
ghost use Rattle.tg_codec.specs.Reading.{Read};
ghost use Rattle.tg_base.specs.Parts.{is_part};
ghost use Rattle.tg_kind.specs.Parts.{part_of, overlap};
ghost use Rattle.tg_kind.specs.Bytes.{IsBytes, Answers, front};
ghost use Rattle.tg_kind.specs.Headers.{is_header};

use crate::fault::KindFault;
use crate::scope::Scope;
use std::alloc::Global;
use tg_base::{List, NoMemory, Oid};

/// Kinds of replicated objects: their states, the ops that change them and the asks that look at them.
/// An object's number tells its kind.
pub trait Kind: Sized + Drop {
    /// What changes a state.
    type Op: Drop;

    /// What looks at a state.
    type Ask: Drop;

    /// What an ask is answered.
    type Ans: Drop;

    /// The object is of a kind that is here.
    ghost is_object: { Oid → Bool };

    /// The state is one of the object's kind, and its numbers are within their types.
    ghost is_state: { Oid → Self → Bool };

    /// The op's numbers are within their types.
    ghost is_op: { Self.Op → Bool };

    /// The op is of the object's kind.
    ghost is_of: { Oid → Self.Op → Bool };

    /// The state at first, by the header's objects.
    ghost first: { Oid → List Oid → Self };

    /// The state after an op.
    ghost applied: { Self → Self.Op → Self };

    /// The answer to an ask.
    ghost answered: { Self → Self.Ask → Self.Ans };

    /// What an op changes.
    ghost touched: { Self.Op → Part };

    /// What an ask looks at.
    ghost looked: { Self.Ask → Part };

    /// The bytes of a state.
    ghost saved: { Self → List ℕ };

    /// The state of the object that bytes spell, or the place of the first byte that is wrong.
    ghost loaded: { Oid → List ℕ → Result Self ℕ };

    /// The bytes of an op.
    ghost spelled: { Self.Op → List ℕ };

    /// The op that begins bytes, and what follows, or how many bytes are left at the first wrong one.
    ghost read: { List ℕ → Read Self.Op };

    /// The state of an object at first, by the header's objects. An `Err` is want of memory.
    fn fresh(alloc: Global, oid: Oid, objects: &[Oid]) -> Result<Self, NoMemory>
        requires { is_header objects.now ≡ true }
        ensures { IfOk result (λ s. s ≡ first oid objects.now) };

    /// The state after an op. An `Err` is want of memory.
    fn apply(self, op: &Self::Op) -> Result<Self, NoMemory>
        ensures { IfOk result (λ s. s ≡ applied self op.now) };

    /// The answer to an ask. An `Err` is want of memory.
    fn ask(&self, alloc: Global, ask: &Self::Ask) -> Result<Self::Ans, NoMemory>
        ensures { IfOk result (λ a. a ≡ answered self.now ask.now) };

    /// What an op changes. It takes no memory.
    fn touch(op: &Self::Op) -> Scope<'_>
        ensures part { part_of result ≡ touched op.now }
        ensures known { is_op op.now ≡ true };

    /// What an ask looks at. It takes no memory.
    fn look(ask: &Self::Ask) -> Scope<'_>
        ensures part { part_of result ≡ looked ask.now }
        ensures lawful { is_part (looked ask.now) ≡ true };

    /// The bytes of a state. An `Err` is want of memory.
    fn save(&self, alloc: Global) -> Result<List<u8>, NoMemory>
        ensures { IfOk result (λ bytes. bytes ≡ saved self.now) };

    /// The state of an object that bytes spell, with no rest.
    fn load(alloc: Global, oid: Oid, bytes: &[u8]) -> Result<Self, KindFault>
        ensures { Answers result (loaded oid bytes.now) };

    /// Puts the bytes of an op last. An `Err` is want of memory, and changes nothing.
    fn put_op(alloc: Global, op: &Self::Op, out: &mut List<u8>) -> Result<(), NoMemory>
        ensures ok { OnOk result (out.new ≡ out.old ++ spelled op.now) }
        ensures err { OnErr result (out.new ≡ out.old) };

    /// The op whose bytes are in front, and how many they are.
    fn get_op(alloc: Global, bytes: &[u8]) -> Result<(Self::Op, usize), KindFault>
        ensures { Answers result (front bytes.now (read bytes.now)) };

    /// An equal state. An `Err` is want of memory.
    fn copy(&self) -> Result<Self, NoMemory>
        ensures { IfOk result (λ s. s ≡ self.now) };

    /// An equal op. An `Err` is want of memory.
    fn copy_op(op: &Self::Op) -> Result<Self::Op, NoMemory>
        ensures { IfOk result (λ c. c ≡ op.now) };

    /// An equal ask. An `Err` is want of memory.
    fn copy_ask(ask: &Self::Ask) -> Result<Self::Ask, NoMemory>
        ensures { IfOk result (λ c. c ≡ ask.now) };

    /// The state at first is one.
    ghost first_is: { (o : Oid) (os : List Oid) → is_object o ≡ true → is_header os ≡ true → is_state o (first o os) ≡ true };

    /// An op makes states of states, of the same kind.
    ghost applied_is: { (o : Oid) (s : Self) (op : Self.Op) → is_state o s ≡ true → is_op op ≡ true → is_state o (applied s op) ≡ true };

    /// An op of another kind changes nothing.
    ghost other_kind: { (o : Oid) (s : Self) (op : Self.Op) → is_state o s ≡ true → is_of o op ≡ false → applied s op ≡ s };

    /// What an op changes is named by a text or a number that has a spelling.
    ghost touched_is: { (op : Self.Op) → is_op op ≡ true → is_part (touched op) ≡ true };

    /// An op keeps the answer to an ask that looks elsewhere.
    ghost apart: { (s : Self) (op : Self.Op) (ask : Self.Ask) → overlap (touched op) (looked ask) ≡ false → answered (applied s op) ask ≡ answered s ask };

    /// What was saved loads as it was.
    ghost loads_saved: { (o : Oid) (s : Self) → is_state o s ≡ true → loaded o (saved s) ≡ Ok s };

    /// Nothing but saved states loads.
    ghost loads_only: { (o : Oid) (bytes : List ℕ) (s : Self) → is_object o ≡ true → IsBytes bytes → loaded o bytes ≡ Ok s → (is_state o s ≡ true) × (bytes ≡ saved s) };

    /// What was spelled is read as it was, whatever follows.
    ghost reads_spelled: { (op : Self.Op) (rest : List ℕ) → is_op op ≡ true → read (spelled op ++ rest) ≡ Ok (op, rest) };

    /// Nothing but spellings is read.
    ghost reads_only: { (bytes : List ℕ) (op : Self.Op) (rest : List ℕ) → IsBytes bytes → read bytes ≡ Ok (op, rest) → (is_op op ≡ true) × (bytes ≡ spelled op ++ rest) };

    /// An op's bytes aren't none.
    ghost spelled_some: { (op : Self.Op) → is_op op ≡ true → 1 ≤ length (spelled op) };

    /// No op's bytes begin another's.
    ghost no_front: { (a b : Self.Op) (x y : List ℕ) → is_op a ≡ true → is_op b ≡ true → spelled a ++ x ≡ spelled b ++ y → a ≡ b };
}
