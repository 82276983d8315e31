//! What replies tell is true of the log, and of what was sent since their commands began.
//!
//! Proved for every lawful header and every run of lawful events.

ghost use Rattle.tg_kind.specs.Of.{meaning_of};
ghost use Rattle.tg_law_headline.specs.Alike.Rows.{AbortsAgreeByRuns, AbortsRecordedByRuns, AlikeRowsByRuns, CommitsAgreeByRuns, CommitsRecordedByRuns, CopiesAgree, DecisionsRecordedByRuns, InstallsAgree, MarksAgreeByRuns, OvertakesAgree, SavesAgreeByRuns, TrimsAgreeByRuns, UnsureAgreeByRuns};
ghost use Rattle.tg_protocol.specs.Runs.{Always};

use tg_kind::Registry;

/// Of a transaction that was told aborted the record stands where the reply says, and its outcome is no.
pub fn aborts_agree<K: Registry>()
    ensures { AbortsAgreeByRuns (meaning_of K.Registry) }
{}

/// Of one that is unsure the record stands where the reply says, and a commit record where the play was blocked.
pub fn unsure_agree<K: Registry>()
    ensures { UnsureAgreeByRuns (meaning_of K.Registry) }
{}

/// Of one that put something and was told committed the record stands where the reply says, and its outcome is yes.
pub fn commits_agree<K: Registry>()
    ensures { CommitsAgreeByRuns (meaning_of K.Registry) }
{}

/// A layout that a client was told it installed is its own, decided for a later epoch than that of its command's beginning; the
/// layout's sequencer has told it a tail since, or a layout server a newer layout.
pub fn installs_agree<K: Registry>()
    ensures { Always (meaning_of K.Registry) (InstallsAgree (meaning_of K.Registry)) }
{}

/// Of a reconfiguration that was told overtaken, a layout of another is decided for that epoch, later than that of its command's beginning.
pub fn overtakes_agree<K: Registry>()
    ensures { Always (meaning_of K.Registry) (OvertakesAgree (meaning_of K.Registry)) }
{}

/// Of a copy that was told done, the unit has answered since its command began that it has all of the stripe, as a decided
/// layout has it.
pub fn copies_agree<K: Registry>()
    ensures { Always (meaning_of K.Registry) (CopiesAgree (meaning_of K.Registry)) }
{}

/// A checkpoint that was told saved stands in the log, of that client; its position was issued, and its tail told, since its
/// command began.
pub fn saves_agree<K: Registry>()
    ensures { SavesAgreeByRuns (meaning_of K.Registry) }
{}

/// In a legal run a mark is told right after the commit of a transaction that is in the history, and marks the object there.
pub fn marks_agree<K: Registry>()
    ensures { MarksAgreeByRuns (meaning_of K.Registry) }
{}

/// Of a trim that was told done, a tail was told since its command began, below which the whole history's directory has this
/// floor; each unit of a layout that was decided for the epoch of its beginning, or a later one, has trimmed up to it.
pub fn trims_agree<K: Registry>()
    ensures { TrimsAgreeByRuns (meaning_of K.Registry) }
{}

/// A record that needs a decision record, and that a client was told it has decided, has one; or the log was told full since its
/// command began, or a further position issued and then gone.
pub fn decisions_recorded<K: Registry>()
    ensures { DecisionsRecordedByRuns (meaning_of K.Registry) }
{}

/// So has one that was told aborted; or the log was told full after its position was issued, or a further position issued and then
/// gone.
pub fn aborts_recorded<K: Registry>()
    ensures { AbortsRecordedByRuns (meaning_of K.Registry) }
{}

/// So has one that was told committed.
pub fn commits_recorded<K: Registry>()
    ensures { CommitsRecordedByRuns (meaning_of K.Registry) }
{}

/// All of these together.
pub fn alike_rows<K: Registry>()
    ensures { AlikeRowsByRuns (meaning_of K.Registry) }
{}
