//! Objects in words.

ghost use Rattle.std.specs.Prelude.{◌≡◌, ◌++◌, true, string_bytes, IfOk, OnOk};
ghost use Rattle.tg_dir.specs.Spellings.{is_number, kind_name, spelling};

use itoa::Buffer;
use std::alloc::Global;
use tg_base::{List, NoMemory, Oid};
use tg_kind::Text;

// The name of the kind with this tag.
fn kind_name(tag: u32) -> &'static str
    ensures { result.now ≡ kind_name tag }
{
    match tag {
        0 => "dir",
        1 => "ctr",
        2 => "reg",
        3 => "map",
        4 => "list",
        5 => "tree",
        _ => "set",
    }
}

/// Puts an object's spelling last: its kind's name and its index, as in `map3`.
pub fn put_spelling(oid: Oid, out: &mut List<u8>) -> Result<(), NoMemory>
    ensures { OnOk result (out.new ≡ out.old ++ spelling oid) }
{
    out.extend(kind_name(oid.0 >> 24).as_bytes())?;
    out.extend(Buffer::new().format(oid.0 % 0x0100_0000).as_bytes())
}

// An object's spelling.
fn word_of(alloc: Global, oid: Oid) -> Result<String, NoMemory>
    ensures { IfOk result (λ s. string_bytes s ≡ spelling oid) }
{
    let mut word = String::from_str(alloc, kind_name(oid.0 >> 24))?;
    word.push_str(Buffer::new().format(oid.0 % 0x0100_0000))?;
    Ok(word)
}

/// An object's spelling. An `Err` is want of memory.
pub fn spelled(alloc: Global, oid: Oid) -> Result<Text, NoMemory>
    requires { is_number oid ≡ true }
    ensures { IfOk result (λ t. t ≡ spelling oid) }
{
    let word = word_of(alloc, oid)?;
    let text = Text::of(alloc, word.as_str())?;
    Ok(text.unwrap())
}
