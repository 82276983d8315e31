//! What ops are made of: an order of numbers, texts and paths.

ghost use Rattle.std.specs.Prelude.{◌≡◌, ◌<◌, IfOk};
ghost use Rattle.bench_costs.specs.Rows.{scrambled, key, value, path};

use crate::fault::Fault;
use std::alloc::Global;
use tg_kind::Text;
use tg_tree::Path;

/// A prime next to 2^32 over the golden ratio. Its multiples modulo a count that it doesn't divide
/// are all numbers below that count, far from any order.
const STEP: u64 = 2_654_435_761;

/// The number below a count that stands at this place of a scrambled order.
pub fn scrambled(count: u32, place: u32) -> u32
    requires { 0 < count }
    ensures value { result ≡ scrambled count place }
    ensures below { result < count }
{
    (u64::from(place) * STEP % u64::from(count)) as u32
}

/// The text of the letter k and a number.
pub fn key(alloc: Global, number: u32) -> Result<Text, Fault>
    ensures { IfOk result (λ t. t ≡ key number) }
{
    let word = format!(in alloc; "k{number}")?;
    text(alloc, word.as_str())
}

/// The text of the letter v and a number.
pub fn value(alloc: Global, number: u32) -> Result<Text, Fault>
    ensures { IfOk result (λ t. t ≡ value number) }
{
    let word = format!(in alloc; "v{number}")?;
    text(alloc, word.as_str())
}

/// The path of the letter p and a number, below the root.
pub fn path(alloc: Global, number: u32) -> Result<Path, Fault>
    ensures { IfOk result (λ p. p ≡ path number) }
{
    let word = format!(in alloc; "/p{number}")?;
    path_of(alloc, word.as_str())
}

/// The path that a word is.
pub fn path_of(alloc: Global, word: &str) -> Result<Path, Fault>
    ensures { IfOk result (λ p. p ≡ word.now) }
{
    Path::of(alloc, word)?.ok_or(Fault::Words)
}

/// The text that a word is.
pub fn text(alloc: Global, word: &str) -> Result<Text, Fault>
    ensures { IfOk result (λ t. t ≡ word.now) }
{
    Text::of(alloc, word)?.ok_or(Fault::Words)
}
