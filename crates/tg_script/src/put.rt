//! Writing nodes, and lists of units.

ghost use Rattle.std.specs.Prelude.{◌≡◌, ◌++◌, [], ◌∷◌, ℕ, List, map, OnOk};
ghost use Rattle.std.specs.List.{join_with_byte};
ghost use Rattle.std.specs.Fmt.{decimal};
ghost use Rattle.tg_base.specs.declared.ids.Role.TheVariants as role;
ghost use Rattle.tg_script.specs.Nodes.{letter_of, member_word, node_word, units_word};

use tg_any::put_number;
use tg_base::{Chain, List, NoMemory, NodeId, Role};

/// Puts a letter and a number last.
pub fn put_member(letter: u8, number: u16, out: &mut List<u8>) -> Result<(), NoMemory>
    ensures { OnOk result (out.new ≡ out.old ++ (letter ∷ decimal number)) }
{
    out.push(letter)?;
    put_number(number, out)
}

// The letter of a role.
fn letter(role: Role) -> u8
    ensures { result ∷ [] ≡ letter_of role }
{
    match role {
        Role::Unit => b'u',
        Role::Layout => b'l',
        Role::Seqr => b's',
        Role::Client => b'c',
    }
}

/// Puts a node's word last.
pub fn put_node(node: NodeId, out: &mut List<u8>) -> Result<(), NoMemory>
    ensures { OnOk result (out.new ≡ out.old ++ node_word node) }
{
    put_member(letter(node.role), node.num, out)
}

/// Values that stand in a list with a byte between any two.
pub trait Part {
    /// How a value is written.
    ghost spelled: { Self → List ℕ };

    /// Puts the value last. An `Err` is want of memory.
    fn put(&self, out: &mut List<u8>) -> Result<(), NoMemory>
        ensures { OnOk result (out.new ≡ out.old ++ spelled self.now) };
}

/// A unit by its number.
impl Part for u16 {
    ghost spelled = { λ u. member_word role.Unit u };

    fn put(&self, out: &mut List<u8>) -> Result<(), NoMemory> {
        put_member(b'u', *self, out)
    }
}

impl Part for Chain {
    ghost spelled = { units_word };

    fn put(&self, out: &mut List<u8>) -> Result<(), NoMemory> {
        put_joined(b',', self.as_slice(), out)
    }
}

/// Puts values last, with a byte between any two.
pub fn put_joined<P: Part>(byte: u8, items: &[P], out: &mut List<u8>) -> Result<(), NoMemory>
    ensures { OnOk result (out.new ≡ out.old ++ join_with_byte byte (map P.spelled items.now)) }
{
    match items {
        [] => Ok(()),
        [first, rest @ ..] => put_some(byte, first, rest, out),
    }
}

// Puts one value or more.
fn put_some<P: Part>(byte: u8, first: &P, rest: &[P], out: &mut List<u8>) -> Result<(), NoMemory>
    ensures { OnOk result (out.new ≡ out.old ++ join_with_byte byte (map P.spelled (first.now ∷ rest.now))) }
{
    first.put(out)?;
    for item in rest {
        out.push(byte)?;
        item.put(out)?;
    }
    Ok(())
}
