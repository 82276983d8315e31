//! Values that are one word of a line.

ghost use Rattle.std.specs.Prelude.{◌≡◌, ◌++◌, List, Option, Some, IfOk, OnOk};
ghost use Rattle.tg_any.specs.Words.{Word, number, index, signed, text, path, object, mark, flag};

use crate::decimal::{number, put_number, signed};
use crate::names::{mark, object, put_mark, put_object};
use std::alloc::Global;
use tg_base::{List, NoMemory, Oid, Pos};
use tg_dir::Object;
use tg_kind::Text;
use tg_tree::Path;

/// Values that are one word of a line.
pub trait Field: Sized + Drop {
    /// The values' words.
    ghost word: { Word Self };

    /// The value whose word this is. An `Err` is want of memory.
    fn of(alloc: Global, spelling: &str) -> Result<Option<Self>, NoMemory>
        ensures { IfOk result (λ x. x ≡ word.read spelling.now) };

    /// Puts the value's word last. An `Err` is want of memory.
    fn put(&self, out: &mut List<u8>) -> Result<(), NoMemory>
        ensures { OnOk result (out.new ≡ out.old ++ word.spell self.now) };
}

impl Field for u64 {
    ghost word = { number };

    fn of(_alloc: Global, spelling: &str) -> Result<Option<u64>, NoMemory> {
        Ok(number(spelling.as_bytes()))
    }

    fn put(&self, out: &mut List<u8>) -> Result<(), NoMemory> {
        put_number(*self, out)
    }
}

impl Field for u32 {
    ghost word = { index };

    fn of(_alloc: Global, spelling: &str) -> Result<Option<u32>, NoMemory> {
        let Some(n) = number(spelling.as_bytes()) else {
            return Ok(None);
        };
        if n <= u64::from(u32::MAX) {
            Ok(Some(n as u32))
        } else {
            Ok(None)
        }
    }

    fn put(&self, out: &mut List<u8>) -> Result<(), NoMemory> {
        put_number(*self, out)
    }
}

impl Field for i64 {
    ghost word = { signed };

    fn of(_alloc: Global, spelling: &str) -> Result<Option<i64>, NoMemory> {
        Ok(signed(spelling.as_bytes()))
    }

    fn put(&self, out: &mut List<u8>) -> Result<(), NoMemory> {
        put_number(*self, out)
    }
}

impl Field for Text {
    ghost word = { text };

    fn of(alloc: Global, spelling: &str) -> Result<Option<Text>, NoMemory> {
        Text::of(alloc, spelling)
    }

    fn put(&self, out: &mut List<u8>) -> Result<(), NoMemory> {
        out.extend(self.as_str().as_bytes())
    }
}

impl Field for Path {
    ghost word = { path };

    fn of(alloc: Global, spelling: &str) -> Result<Option<Path>, NoMemory> {
        Path::of(alloc, spelling)
    }

    fn put(&self, out: &mut List<u8>) -> Result<(), NoMemory> {
        out.extend(self.as_str().as_bytes())
    }
}

impl Field for Oid {
    ghost word = { object };

    fn of(_alloc: Global, spelling: &str) -> Result<Option<Oid>, NoMemory> {
        Ok(object(spelling.as_bytes()))
    }

    fn put(&self, out: &mut List<u8>) -> Result<(), NoMemory> {
        put_object(*self, out)
    }
}

impl Field for Object {
    ghost word = { object };

    fn of(_alloc: Global, spelling: &str) -> Result<Option<Object>, NoMemory> {
        match object(spelling.as_bytes()) {
            None => Ok(None),
            Some(oid) => Ok(Object::of(oid)),
        }
    }

    fn put(&self, out: &mut List<u8>) -> Result<(), NoMemory> {
        put_object(self.oid(), out)
    }
}

/// An object and its mark.
impl Field for (Oid, Pos) {
    ghost word = { mark };

    fn of(_alloc: Global, spelling: &str) -> Result<Option<(Oid, Pos)>, NoMemory> {
        Ok(mark(spelling.as_bytes()))
    }

    fn put(&self, out: &mut List<u8>) -> Result<(), NoMemory> {
        put_mark(self, out)
    }
}

impl Field for bool {
    ghost word = { flag };

    fn of(_alloc: Global, spelling: &str) -> Result<Option<bool>, NoMemory> {
        match spelling {
            "yes" => Ok(Some(true)),
            "no" => Ok(Some(false)),
            _ => Ok(None),
        }
    }

    fn put(&self, out: &mut List<u8>) -> Result<(), NoMemory> {
        if *self {
            out.extend(b"yes")
        } else {
            out.extend(b"no")
        }
    }
}
