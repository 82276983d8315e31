//! Bytes as rows have them: two hexadecimal digits for each, with a space between any two.

use std::alloc::Global;
use tg_base::{List, NoMemory};

/// The bytes that a text is, None where it isn't some.
pub fn bytes_of(alloc: Global, text: &str) -> Result<Option<List<u8>>, NoMemory> {
    let mut bytes = List::new(alloc);
    if text.is_empty() {
        return Ok(Some(bytes));
    }
    for word in text.split(' ') {
        match byte_of(word.as_bytes()) {
            Some(byte) => bytes.push(byte)?,
            None => return Ok(None),
        }
    }
    Ok(Some(bytes))
}

fn byte_of(word: &[u8]) -> Option<u8> {
    match word {
        [high, low] => {
            let high = digit(*high)?;
            let low = digit(*low)?;
            Some((high << 4) | low)
        }
        _ => None,
    }
}

fn digit(letter: u8) -> Option<u8> {
    match letter {
        b'0'..=b'9' => Some(letter - b'0'),
        b'a'..=b'f' => Some(letter - b'a' + 10),
        _ => None,
    }
}

/// Puts bytes last.
pub fn put_bytes(alloc: Global, bytes: &[u8], out: &mut List<u8>) -> Result<(), NoMemory> {
    let mut is_first = true;
    for byte in bytes {
        if !is_first {
            out.push(b' ')?;
        }
        is_first = false;
        let digits = format!(in alloc; "{byte:02x}")?;
        out.extend(digits.as_bytes())?;
    }
    Ok(())
}
