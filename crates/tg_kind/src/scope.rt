//! Parts of states.

/// The name of a part.
#[derive(Clone, Copy)]
pub enum Key<'a> {
    Text(&'a str),
    Num(u64),
}

/// What an op changes, or an ask looks at: the whole state, or what a key names.
#[derive(Clone, Copy)]
pub enum Scope<'a> {
    All,
    One(Key<'a>),
}
