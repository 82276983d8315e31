//! Which packet a datagram delivers.

use std::alloc::Global;
use std::test::Fail;
use tg_base::{NoMemory, NodeId, Role};
use tg_live::Book;

fn unit(num: u16) -> NodeId {
    NodeId {
        role: Role::Unit,
        num,
    }
}

/// A book of three packets: 0 and 2 are spelled alike and go to u0, packet 1 goes to u1.
fn noted(alloc: Global) -> Result<Book, NoMemory> {
    let mut book = Book::new(alloc);
    book.note(alloc, 0, unit(0), b"a")?;
    book.note(alloc, 1, unit(1), b"b")?;
    book.note(alloc, 2, unit(0), b"a")?;
    Ok(book)
}

#[test]
fn equal_packets_come_in_turn_and_then_the_first_again(rt: HostRuntime) -> Result<(), Fail> {
    let mut book = noted(rt.alloc())?;
    assert!(rt; book.arrived(unit(0), b"a") == Some(0));
    assert!(rt; book.arrived(unit(1), b"b") == Some(1));
    assert!(rt; book.arrived(unit(0), b"a") == Some(2));
    assert!(rt; book.arrived(unit(0), b"a") == Some(0));
    assert!(rt; book.arrived(unit(1), b"a") == None);
    assert!(rt; book.arrived(unit(0), b"c") == None);
    Ok(())
}
