//! Numbers and texts as bytes.

ghost use Rattle.std.specs.Prelude.{◌≡◌, ◌≤◌, ◌++◌, ◌∷◌, [], length, replicate, OnOk};
ghost use Rattle.std.specs.Int.{w16, w32, w64, to_be_bytes};

use byteorder::{BigEndian, ByteOrder};
use tg_base::{List, NoMemory};

/// Puts the two bytes of a number last.
pub fn put_u16(value: u16, out: &mut List<u8>) -> Result<(), NoMemory>
    ensures { OnOk result (out.new ≡ out.old ++ to_be_bytes w16 value) }
{
    let mut bytes = [0; 2];
    BigEndian::write_u16(&mut bytes, value);
    out.extend(&bytes)
}

/// Puts the four bytes of a number last.
pub fn put_u32(value: u32, out: &mut List<u8>) -> Result<(), NoMemory>
    ensures { OnOk result (out.new ≡ out.old ++ to_be_bytes w32 value) }
{
    let mut bytes = [0; 4];
    BigEndian::write_u32(&mut bytes, value);
    out.extend(&bytes)
}

/// Puts the eight bytes of a number last.
pub fn put_u64(value: u64, out: &mut List<u8>) -> Result<(), NoMemory>
    ensures { OnOk result (out.new ≡ out.old ++ to_be_bytes w64 value) }
{
    let mut bytes = [0; 8];
    BigEndian::write_u64(&mut bytes, value);
    out.extend(&bytes)
}

/// Puts bytes last, behind their count in two bytes.
pub fn put_text(text: &[u8], out: &mut List<u8>) -> Result<(), NoMemory>
    requires { length text.now ≤ 65535 }
    ensures { OnOk result (out.new ≡ out.old ++ (to_be_bytes w16 (length text.now) ++ text.now)) }
{
    put_u16(text.len() as u16, out)?;
    out.extend(text)
}

/// Puts so many zeros last.
pub fn put_zeros(count: usize, out: &mut List<u8>) -> Result<(), NoMemory>
    ensures { OnOk result (out.new ≡ out.old ++ replicate count 0) }
{
    for _ in 0..count {
        out.push(0)?;
    }
    Ok(())
}
