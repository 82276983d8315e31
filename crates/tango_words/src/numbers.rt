//! The words of the forms that have some: a node, and a load's start and count.

ghost use Rattle.std.specs.Prelude.{◌≡◌, ◌∷◌, []};
ghost use Rattle.tango_words.specs.Forms.{number_from, role_at, node_in, of_bench};

use crate::forms::Form;
use tg_any::number;
use tg_base::{NodeId, Role};

/// How many rounds a made load has at most.
const MOST_ROUNDS: u64 = 2_000;

/// A node by its letter and its number to 16 bits.
pub fn node(word: &str) -> Option<NodeId>
    ensures { result ≡ node_in word.now }
{
    let (letter, digits) = word.as_bytes().split_first()?;
    let role = role(*letter)?;
    let num = number_to_16_bits(digits)?;
    Some(NodeId { role, num })
}

fn role(letter: u8) -> Option<Role>
    ensures { result ≡ role_at letter }
{
    match letter {
        b'u' => Some(Role::Unit),
        b'l' => Some(Role::Layout),
        b's' => Some(Role::Seqr),
        b'c' => Some(Role::Client),
        _ => None,
    }
}

fn number_to_16_bits(digits: &[u8]) -> Option<u16>
    ensures { result ≡ number_from 0 65535 digits.now }
{
    u16::try_from(number(digits)?).ok()
}

/// A made load by its start and its count of rounds, from 1 to 2,000.
pub fn bench(start: &str, count: &str) -> Option<Form>
    ensures { result ≡ of_bench (start.now ∷ count.now ∷ []) }
{
    let start = number(start.as_bytes())?;
    let count = rounds(count.as_bytes())?;
    Some(Form::Bench { start, count })
}

fn rounds(digits: &[u8]) -> Option<u32>
    ensures { result ≡ number_from 1 2000 digits.now }
{
    let count = number(digits)?;
    if count < 1 || count > MOST_ROUNDS {
        return None;
    }
    Some(count as u32)
}
