//! Kinds with a directory.

ghost use Rattle.std.specs.Prelude.{◌≡◌, ◌≤◌, ℕ, Bool, true, false, length};
ghost use Rattle.tg_base.specs.declared.ids.Oid.{Oid};
ghost use Rattle.tg_kind.specs.Headers.{directory};

use crate::kind::Kind;
use tg_base::{Oid, Pos};

/// Kinds of which one is the directory, which lists the objects and how far each has been forgotten.
pub trait Registry: Kind {
    /// The op is of the object's kind, and a user may put it.
    ghost allowed: { Oid → Self.Op → Bool };

    /// The ask is of the object's kind.
    ghost allowed_ask: { Oid → Self.Ask → Bool };

    /// The directory lists the object.
    ghost lists: { Self → Oid → Bool };

    /// The position below which all objects are forgotten.
    ghost floor_of: { Self → ℕ };

    /// The op that marks an object in the directory.
    ghost marking: { Oid → ℕ → Self.Op };

    /// Whether the op is of the object's kind. It takes no memory.
    fn fits(oid: Oid, op: &Self::Op) -> bool
        ensures { result ≡ Self.Kind.is_of oid op.now };

    /// Whether the op is of the object's kind and a user may put it.
    fn allows(oid: Oid, op: &Self::Op) -> bool
        ensures { result ≡ allowed oid op.now };

    /// Whether the ask is of the object's kind.
    fn allows_ask(oid: Oid, ask: &Self::Ask) -> bool
        ensures { result ≡ allowed_ask oid ask.now };

    /// Whether the directory lists the object.
    fn registered(&self, oid: Oid) -> bool
        ensures { result ≡ lists self.now oid };

    /// The position below which all objects are forgotten.
    fn floor(&self) -> Pos
        ensures { result ≡ floor_of self.now };

    /// The op that marks an object in the directory.
    fn mark_op(oid: Oid, mark: Pos) -> Self::Op
        ensures { result ≡ marking oid mark };

    /// An op that a user may put is of the object's kind.
    ghost allowed_is: { (o : Oid) (op : Self.Op) → allowed o op ≡ true → Self.Kind.is_of o op ≡ true };

    /// A mark is an op of the directory, and no user may put it.
    ghost marking_is: { (o : Oid) (m : ℕ) → (Self.Kind.is_of directory (marking o m) ≡ true) × (allowed directory (marking o m) ≡ false) };

    /// A mark has a short spelling.
    ghost marking_short: { (o : Oid) (m : ℕ) → length (Self.Kind.spelled (marking o m)) ≤ 64 };
}
