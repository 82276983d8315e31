//! Datagrams.

ghost use Rattle.std.specs.Prelude.{◌≡◌, ◌≤◌, ◌↔◌, length, IsSome, IfSome, IfOk};

use std::alloc::Global;
use std::marker::Model;
use tg_base::{List, NoMemory};

/// A datagram: bytes, of which there are at most 8,192.
#[derive(Drop)]
pub struct Datagram {
    bytes: List<u8>,
}

impl Model for Datagram {
    ghost use Rattle.std.specs.Prelude.{ℕ, List, ◌≤◌, length};

    ghost Value = { List ℕ };

    ghost view = { λ s. s.bytes };

    ghost invariant = { λ s. length s.bytes ≤ 8192 };
}

impl Datagram {
    /// How many bytes fit.
    pub const MAX: usize = 8192;

    /// None exactly where there are more than 8,192 bytes.
    pub fn new(bytes: List<u8>) -> Option<Datagram>
        ensures fits { IsSome result ↔ (length bytes ≤ 8192) }
        ensures bytes { IfSome result (λ d. d ≡ bytes) }
    {
        if bytes.len() > Datagram::MAX {
            return None;
        }
        Some(Datagram { bytes })
    }

    /// The datagram with these bytes, of which there are at most 8,192.
    pub fn of(alloc: Global, bytes: &[u8]) -> Result<Datagram, NoMemory>
        requires { length bytes.now ≤ 8192 }
        ensures { IfOk result (λ d. d ≡ bytes.now) }
    {
        let mut list = List::new(alloc);
        list.extend(bytes)?;
        Ok(Datagram { bytes: list })
    }

    /// The bytes.
    pub fn as_slice(&self) -> &[u8]
        ensures bytes { result.now ≡ self.now }
        ensures fits { length self.now ≤ 8192 }
    {
        self.bytes.as_slice()
    }
}
