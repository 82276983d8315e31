//! Kinds whose ops and answers can be compared.

ghost use Rattle.std.specs.Prelude.{◌≡◌, ◌↔◌, Bool, true};

use tg_kind::Registry;

/// Kinds whose ops and answers can be compared.
pub trait Judged: Registry {
    /// The ops are equal.
    ghost same_ops: { Self.Op → Self.Op → Bool };

    /// The answers are equal.
    ghost same_answers: { Self.Ans → Self.Ans → Bool };

    /// Whether both ops are equal. It takes no memory.
    fn is_same_op(one: &Self::Op, other: &Self::Op) -> bool
        ensures { result ≡ same_ops one.now other.now };

    /// Whether both answers are equal. It takes no memory.
    fn is_same_answer(one: &Self::Ans, other: &Self::Ans) -> bool
        ensures { result ≡ same_answers one.now other.now };

    /// The test of ops is exact.
    ghost same_ops_exact: { (a b : Self.Op) → (same_ops a b ≡ true) ↔ (a ≡ b) };

    /// The test of answers is exact.
    ghost same_answers_exact: { (a b : Self.Ans) → (same_answers a b ≡ true) ↔ (a ≡ b) };
}
