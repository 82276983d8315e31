//! The words after the program's name.

ghost use Rattle.std.specs.Prelude.{◌≡◌, map, string_bytes};
ghost use Rattle.space_time.specs.Cuts.{cut_of, with_line, with_word, unless_named, no_cut};

use crate::cut::Cut;
use tg_any::number;

/// The cut that the words name: `--from LINE` and `--to LINE`, each at most once, in any order. None where they are no
/// such words.
pub fn cut_of(words: &[String]) -> Option<Cut>
    ensures { result ≡ cut_of (map string_bytes words.now) }
{
    match words {
        [] => Some(no_cut()),
        [word, value] => with_line(word.as_str(), value.as_str(), no_cut()),
        [word, value, other, line] => {
            let cut = with_line(word.as_str(), value.as_str(), no_cut())?;
            with_line(other.as_str(), line.as_str(), cut)
        }
        _ => None,
    }
}

// Where no line is named.
fn no_cut() -> Cut
    ensures { result ≡ no_cut }
{
    Cut {
        from: None,
        to: None,
    }
}

// A word and the number after it.
fn with_line(word: &str, value: &str, cut: Cut) -> Option<Cut>
    ensures { result ≡ with_line word.now value.now cut }
{
    let line = number(value.as_bytes())?;
    with_word(word, line, cut)
}

// A line that a word names.
fn with_word(word: &str, line: u64, cut: Cut) -> Option<Cut>
    ensures { result ≡ with_word word.now line cut }
{
    match word {
        "--from" => unless_named(
            cut.from,
            Cut {
                from: Some(line),
                to: cut.to,
            },
        ),
        "--to" => unless_named(
            cut.to,
            Cut {
                from: cut.from,
                to: Some(line),
            },
        ),
        _ => None,
    }
}

// A cut with a line that wasn't named before.
fn unless_named(before: Option<u64>, cut: Cut) -> Option<Cut>
    ensures { result ≡ unless_named before cut }
{
    match before {
        None => Some(cut),
        Some(_) => None,
    }
}
