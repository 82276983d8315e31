//! What no contract says of streams: that a short call is no fault, and that one after a fault goes on.

use std::io;
use std::io::{Error, ErrorKind, Read, Write};
use std::test::Fail;
use tg_io::{IoErr, Reading, Source, Writing, write_all};

// A stream that takes and gives a byte a call. Call 1 breaks.
#[derive(Drop)]
struct Narrow {
    calls: u8,
    last: u8,
}

impl Narrow {
    fn breaks(&mut self) -> bool {
        let call = self.calls;
        self.calls = call.saturating_add(1);
        call == 1
    }
}

impl Read for Narrow {
    fn read(&mut self, buf: &mut [u8]) -> io::Result<usize> {
        if self.breaks() {
            return Err(Error::from(ErrorKind::BrokenPipe));
        }
        match buf.first_mut() {
            Some(byte) => {
                *byte = self.calls;
                Ok(1)
            }
            None => Ok(0),
        }
    }
}

impl Write for Narrow {
    fn write(&mut self, piece: &[u8]) -> io::Result<usize> {
        if self.breaks() {
            return Err(Error::from(ErrorKind::BrokenPipe));
        }
        match piece.first() {
            Some(byte) => {
                self.last = *byte;
                Ok(1)
            }
            None => Ok(0),
        }
    }

    fn flush(&mut self) -> io::Result<()> {
        Ok(())
    }
}

#[test]
fn short_calls_are_no_faults(rt: HostRuntime) -> Result<(), Fail> {
    let mut buf = [0u8; 2];
    let mut source = Reading::new(Narrow { calls: 0, last: 0 });
    assert!(rt; source.read(&mut buf) == Ok(1));
    assert!(rt; source.read(&mut buf) == Err(IoErr::Failed));
    assert!(rt; source.read(&mut buf) == Ok(1));
    assert!(rt; buf[0] == 3);
    let mut narrow = Narrow { calls: 2, last: 0 };
    assert!(rt; write_all(&mut Writing::new(&mut narrow), b"abc") == Ok(()));
    assert!(rt; narrow.last == b'c');
    Ok(())
}
