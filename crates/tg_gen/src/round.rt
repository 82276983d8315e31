//! What a round does, by three draws.

ghost use Rattle.std.specs.Prelude.{◌≡◌, ◌<◌};
ghost use Rattle.tg_gen.specs.Draws.{next, form_of, target_of, round_by};
ghost use Rattle.tg_gen.specs.Loads.{oid_of, after};

use crate::numbers::Numbers;
use tg_base::Oid;

/// How a round goes.
#[derive(Clone, Copy, PartialEq, Eq)]
pub enum Form {
    /// A client asks an object and puts into another one, and a rival may change the first between.
    Change,
    /// The rival asks the counter.
    Glance,
    /// A client asks an object.
    Look,
    /// A client updates an object.
    Update,
}

impl Form {
    // The form of a number below 4.
    fn of(number: u64) -> Form
        ensures { result ≡ form_of number }
    {
        match number {
            0 => Form::Change,
            1 => Form::Glance,
            2 => Form::Look,
            _ => Form::Update,
        }
    }
}

/// An object: the first of each kind of the user's, in the order in which the header names them.
#[derive(Clone, Copy, PartialEq, Eq)]
pub enum Target {
    Counter,
    Register,
    Map,
    List,
    Tree,
    Set,
}

impl Target {
    // The target of a number below 6.
    fn of(number: u64) -> Target
        ensures { result ≡ target_of number }
    {
        match number {
            0 => Target::Counter,
            1 => Target::Register,
            2 => Target::Map,
            3 => Target::List,
            4 => Target::Tree,
            _ => Target::Set,
        }
    }

    /// The object's number.
    pub fn oid(self) -> Oid
        ensures { result ≡ oid_of self }
    {
        match self {
            Target::Counter => Oid(0x100_0000),
            Target::Register => Oid(0x200_0000),
            Target::Map => Oid(0x300_0000),
            Target::List => Oid(0x400_0000),
            Target::Tree => Oid(0x500_0000),
            Target::Set => Oid(0x600_0000),
        }
    }

    /// The next one, and after the last the first.
    pub fn after(self) -> Target
        ensures { result ≡ after self }
    {
        match self {
            Target::Counter => Target::Register,
            Target::Register => Target::Map,
            Target::Map => Target::List,
            Target::List => Target::Tree,
            Target::Tree => Target::Set,
            Target::Set => Target::Counter,
        }
    }
}

/// What a round does.
#[derive(Clone, Copy, PartialEq, Eq)]
pub struct Round {
    pub form: Form,
    pub target: Target,
    /// Below 8.
    pub value: u64,
}

impl Round {
    /// The round of the next three draws.
    pub fn draw(numbers: &mut Numbers) -> Round
        ensures round { result ≡ round_by (next numbers.old) (next (next numbers.old)) (next (next (next numbers.old))) }
        ensures digit { result.value < 8 }
        ensures kept { numbers.new ≡ next (next (next numbers.old)) }
    {
        let form = Form::of(numbers.draw() % 4);
        let target = Target::of(numbers.draw() % 6);
        let value = numbers.draw() % 8;
        Round {
            form,
            target,
            value,
        }
    }
}
