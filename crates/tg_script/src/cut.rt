//! Texts that are cut into words, and words into parts.

ghost use Rattle.std.specs.Prelude.{◌≡◌, ◌==◌, IfOk, IfSome, IfNone, option_copied};
ghost use Rattle.std.specs.List.{slice_split};
ghost use Rattle.std.specs.Str.{IsAscii};
ghost use Rattle.tg_any.specs.Fronts.{after};
ghost use Rattle.tg_any.specs.Words.{texts};
ghost use Rattle.tg_script.specs.Parts.{words_of};

use std::alloc::Global;
use std::str;
use tg_base::NoMemory;

/// The bytes as text, which they are if they are ASCII.
pub fn text_of(line: &[u8]) -> Option<&str>
    ensures found { IfSome result (λ text. text.now ≡ line.now) }
    ensures none { IfNone result (¬ (IsAscii line.now)) }
{
    str::from_utf8(line).ok()
}

/// The words of a line.
pub fn words(alloc: Global, line: &str) -> Result<Vec<&str>, NoMemory>
    ensures { IfOk result (λ ws. texts ws.items ≡ words_of line.now) }
{
    Ok(line.split(' ').collect(alloc)?)
}

/// The parts of a word between its commas.
pub fn by_commas(alloc: Global, word: &str) -> Result<Vec<&str>, NoMemory>
    ensures { IfOk result (λ ws. texts ws.items ≡ slice_split (λ b. b == 44) word.now) }
{
    Ok(word.split(',').collect(alloc)?)
}

/// The parts of a word between its slashes.
pub fn by_slashes(alloc: Global, word: &str) -> Result<Vec<&str>, NoMemory>
    ensures { IfOk result (λ ws. texts ws.items ≡ slice_split (λ b. b == 47) word.now) }
{
    Ok(word.split('/').collect(alloc)?)
}

/// What follows the front.
#[tactic(auto, unfolding(tg_any::specs::Fronts::after))]
pub fn strip<'a>(front: &[u8], text: &'a [u8]) -> Option<&'a [u8]>
    ensures { option_copied result ≡ after front.now text.now }
{
    text.strip_prefix(front)
}
