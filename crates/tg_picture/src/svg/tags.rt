//! Pieces of an SVG's text.

ghost use Rattle.std.specs.Prelude.{◌≡◌, ◌++◌, OnOk};
ghost use Rattle.tg_picture.specs.Elements.{letter, escaped, short, numbered, worded, line_text, cross_text, title_text, title_if, label_text, rect_text};

use tg_any::put_number;
use tg_base::{List, NoMemory};

/// How wide a letter is.
pub const LETTER: u64 = 7;

/// Puts a text as the content of an element: what would be markup is escaped, and what is no printable ASCII is a
/// question mark.
pub fn put_text(text: &[u8], out: &mut List<u8>) -> Result<(), NoMemory>
    ensures { OnOk result (out.new ≡ out.old ++ escaped text.now) }
{
    for byte in text {
        put_letter(*byte, out)?;
    }
    Ok(())
}

fn put_letter(byte: u8, out: &mut List<u8>) -> Result<(), NoMemory>
    ensures { OnOk result (out.new ≡ out.old ++ letter byte) }
{
    match byte {
        b'<' => out.extend(b"&lt;"),
        b'>' => out.extend(b"&gt;"),
        b'&' => out.extend(b"&amp;"),
        b'"' => out.extend(b"&quot;"),
        b'\'' => out.extend(b"&#39;"),
        32..=126 => out.push(byte),
        _ => out.extend(b"?"),
    }
}

/// Puts a text of which so many letters fit: a longer one is cut, and two dots stand for the rest.
pub fn put_short(text: &[u8], most: usize, out: &mut List<u8>) -> Result<(), NoMemory>
    ensures { OnOk result (out.new ≡ out.old ++ short text.now most) }
{
    if text.len() <= most || most < 2 {
        return put_text(text, out);
    }
    put_text(&text[..most - 2], out)?;
    out.extend(b"..")
}

/// How wide a text is, of which so many letters fit.
pub fn width_of(text: &[u8], most: usize) -> u64 {
    LETTER.saturating_mul(text.len().min(most) as u64)
}

/// Puts an attribute whose value is a number.
pub fn put_numbered(name: &[u8], value: u64, out: &mut List<u8>) -> Result<(), NoMemory>
    ensures { OnOk result (out.new ≡ out.old ++ numbered name.now value) }
{
    out.extend(b" ")?;
    out.extend(name)?;
    out.extend(b"=\"")?;
    put_number(value, out)?;
    out.extend(b"\"")
}

/// Puts an attribute whose value is a word.
pub fn put_worded(name: &[u8], value: &[u8], out: &mut List<u8>) -> Result<(), NoMemory>
    ensures { OnOk result (out.new ≡ out.old ++ worded name.now value.now) }
{
    out.extend(b" ")?;
    out.extend(name)?;
    out.extend(b"=\"")?;
    put_text(value, out)?;
    out.extend(b"\"")
}

/// Puts a line from one point to another.
#[tactic(auto, unfolding(crate::specs::Elements::line_text))]
pub fn put_line(
    class: &[u8],
    from: (u64, u64),
    to: (u64, u64),
    out: &mut List<u8>,
) -> Result<(), NoMemory>
    ensures { OnOk result (out.new ≡ out.old ++ line_text class.now from to) }
{
    out.extend(b"<line")?;
    put_worded(b"class", class, out)?;
    put_numbered(b"x1", from.0, out)?;
    put_numbered(b"y1", from.1, out)?;
    put_numbered(b"x2", to.0, out)?;
    put_numbered(b"y2", to.1, out)?;
    out.extend(b"/>\n")
}

/// Puts a cross over a point.
#[tactic(auto, unfolding(crate::specs::Elements::cross_text))]
pub fn put_cross(at: (u64, u64), out: &mut List<u8>) -> Result<(), NoMemory>
    ensures { OnOk result (out.new ≡ out.old ++ cross_text at) }
{
    let (x, y) = at;
    let (left, top) = (x.saturating_sub(5), y.saturating_sub(5));
    let (right, low) = (x.saturating_add(5), y.saturating_add(5));
    put_line(b"cross", (left, top), (right, low), out)?;
    put_line(b"cross", (left, low), (right, top), out)
}

/// Puts a text of which so many letters fit, with the whole of another one for whoever points at it.
#[tactic(auto, unfolding(crate::specs::Elements::label_text))]
pub fn put_label(
    class: &[u8],
    at: (u64, u64),
    text: &[u8],
    most: usize,
    whole: &[u8],
    out: &mut List<u8>,
) -> Result<(), NoMemory>
    ensures { OnOk result (out.new ≡ out.old ++ label_text class.now at text.now most whole.now) }
{
    out.extend(b"<text")?;
    put_worded(b"class", class, out)?;
    put_numbered(b"x", at.0, out)?;
    put_numbered(b"y", at.1, out)?;
    out.extend(b">")?;
    put_any_title(whole, out)?;
    put_short(text, most, out)?;
    out.extend(b"</text>\n")
}

// Puts what is said to whoever points at an element, if anything is.
fn put_any_title(text: &[u8], out: &mut List<u8>) -> Result<(), NoMemory>
    ensures { OnOk result (out.new ≡ out.old ++ title_if text.now) }
{
    match text {
        [] => Ok(()),
        _ => put_title(text, out),
    }
}

/// Puts what is said of an element to whoever points at it.
#[tactic(auto, unfolding(crate::specs::Elements::title_text))]
pub fn put_title(text: &[u8], out: &mut List<u8>) -> Result<(), NoMemory>
    ensures { OnOk result (out.new ≡ out.old ++ title_text text.now) }
{
    out.extend(b"<title>")?;
    put_text(text, out)?;
    out.extend(b"</title>")
}

/// Puts a rectangle's beginning, without its end.
#[tactic(auto, unfolding(crate::specs::Elements::rect_text))]
pub fn open_rect(
    class: &[u8],
    at: (u64, u64),
    size: (u64, u64),
    out: &mut List<u8>,
) -> Result<(), NoMemory>
    ensures { OnOk result (out.new ≡ out.old ++ rect_text class.now at size) }
{
    out.extend(b"<rect")?;
    put_worded(b"class", class, out)?;
    put_numbered(b"x", at.0, out)?;
    put_numbered(b"y", at.1, out)?;
    put_numbered(b"width", size.0, out)?;
    put_numbered(b"height", size.1, out)
}
