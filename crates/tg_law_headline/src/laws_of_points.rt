//! Where replies stand in the order of places. What an ask of a transaction was answered at is a tail that its client had confirmed,
//! and the record of which a reply tells was settled when it was told. So what begins after a reply has no place below it.
//!
//! Proved for every lawful header and every run of lawful events in which trims were spare, of the world that it comes to and each
//! through which it came. A worked run meets that.

mod worked;

ghost use Rattle.tg_kind.specs.Of.{meaning_of};
ghost use Rattle.tg_law_headline.specs.Points.Points.{EachPassedBySpareTrims, RepliesHavePoints, RepliesPrecede};

use tg_kind::Registry;
pub use worked::commit_has_point;

/// A reply of a transaction has its point, by the replies of any later world, in the world that has the reply: an ask was answered at
/// a tail that was confirmed there, in a layout that was decided there, and a record that is told to have committed or aborted, or
/// whose outcome is unsure, was settled there.
pub fn replies_have_points<K: Registry>()
    ensures { EachPassedBySpareTrims (meaning_of K.Registry) (RepliesHavePoints (meaning_of K.Registry)) }
{}

/// So a place that is new after a reply doesn't precede it: where a page with later tokens is settled, or a tail that is told later
/// by the sequencer of a layout of which a whole chain serves requests since.
pub fn replies_precede_places<K: Registry>()
    ensures { EachPassedBySpareTrims (meaning_of K.Registry) (RepliesPrecede (meaning_of K.Registry)) }
{}
