//! What holds of the numbers that each machine draws, and of what it keeps, whatever it was before.
//!
//! A machine that begins, or goes on in a newer layout, has no request but those that the call draws. In each later
//! step, where each of its numbers was drawn before, its requests from the step's first number on are those that the
//! step draws, and each of its numbers is drawn by then.

ghost use Rattle.tg_client_state.specs.Laws.{SyncNumbers, AppendNumbers, WalkNumbers, CopyNumbers, TrimNumbers, ReconfNumbers, NumbersGrow, CopyStays};
ghost use Rattle.tg_client_state.specs.Near.{SyncStaysNear, AppendStaysNear};

/// The numbers of a sync.
pub fn sync_numbers()
    ensures { SyncNumbers }
{}

/// The numbers of an append.
pub fn append_numbers()
    ensures { AppendNumbers }
{}

/// The numbers of a walk.
pub fn walk_numbers()
    ensures { WalkNumbers }
{}

/// The numbers of a copy.
pub fn copy_numbers()
    ensures { CopyNumbers }
{}

/// The numbers of a trim.
pub fn trim_numbers()
    ensures { TrimNumbers }
{}

/// The numbers of a reconfiguration, which also awaits those of a round that it hasn't sent yet.
pub fn reconf_numbers()
    ensures { ReconfNumbers }
{}

/// No step of a machine takes a number back, whatever the machine was before.
pub fn numbers_grow()
    ensures { NumbersGrow }
{}

/// A sync works by tails below 2^62, and ends with one.
pub fn sync_stays_near()
    ensures { SyncStaysNear }
{}

/// An append has tokens of positions below 2^62, and ends at one.
pub fn append_stays_near()
    ensures { AppendStaysNear }
{}

/// A copy is one of the same stripe to the same spare as long as it goes on.
pub fn copy_stays()
    ensures { CopyStays }
{}
