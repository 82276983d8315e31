//! Numbers as texts: in decimal, with no leading zero, and within their types.

ghost use Rattle.std.specs.Prelude.{◌≡◌, ◌≤◌, ◌++◌, length, IfSome, IfNone, OnOk, option_map};
ghost use Rattle.std.specs.Str.{IsAscii};
ghost use Rattle.std.specs.List.{prefix_len};
ghost use Rattle.std.specs.Char.{is_ascii_digit};
ghost use Rattle.tg_any.specs.Decimals.{number_in, signed_in, number_at};

use itoa::{Buffer, Integer};
use std::str;
use tg_base::{List, NoMemory};

/// The number that a text is.
pub fn number(word: &[u8]) -> Option<u64>
    ensures { result ≡ number_in word.now }
{
    let n: u64 = ascii(word)?.parse().ok()?;

    // `parse` also reads a plus and leading zeros.
    if Buffer::new().format(n).as_bytes() == word {
        Some(n)
    } else {
        None
    }
}

/// The number that a text is, which may begin with a minus.
pub fn signed(word: &[u8]) -> Option<i64>
    ensures { result ≡ signed_in word.now }
{
    let z: i64 = ascii(word)?.parse().ok()?;
    if Buffer::new().format(z).as_bytes() == word {
        Some(z)
    } else {
        None
    }
}

// The bytes as text, if they are ASCII.
fn ascii(word: &[u8]) -> Option<&str>
    ensures found { IfSome result (λ text. text.now ≡ word.now) }
    ensures none { IfNone result (¬ (IsAscii word.now)) }
{
    str::from_utf8(word).ok()
}

// How many digits a text begins with.
fn count_digits(text: &[u8]) -> usize
    ensures value { result ≡ prefix_len is_ascii_digit text.now }
    ensures bound { result ≤ length text.now }
{
    text.iter().take_while(|b| b.is_ascii_digit()).count()
}

/// The number that a text begins with, and what follows its digits.
#[tactic(auto, unfolding(crate::specs::Decimals::number_at))]
pub fn number_front(text: &[u8]) -> Option<(u64, &[u8])>
    ensures { option_map (λ x. (x.0, x.1.now)) result ≡ number_at text.now }
{
    let (digits, rest) = text.split_at(count_digits(text));
    Some((number(digits)?, rest))
}

/// Puts a number's decimal last.
pub fn put_number<I: Integer>(n: I, out: &mut List<u8>) -> Result<(), NoMemory>
    ensures { OnOk result (out.new ≡ out.old ++ I.text n) }
{
    out.extend(Buffer::new().format(n).as_bytes())
}
