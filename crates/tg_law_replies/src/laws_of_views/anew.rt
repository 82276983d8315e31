//! Views that begin anew, from entries that walks of streams have found.

ghost use Rattle.tg_kind.specs.Of.{meaning_of};
ghost use Rattle.tg_law_replies.specs.Views.Walks.{NewViewsTrue, PastViewsTrue, RescuesJudge, ViewsJudge};

use tg_kind::Registry;

/// A new view, over exact entries whose checkpoints and decision records are true, is true however far it plays.
pub fn new_views_true<K: Registry>()
    ensures { NewViewsTrue (meaning_of K.Registry) }
{}

/// So is a past view, which stands at the position that was asked for, if it isn't ahead of the tail.
pub fn past_views_true<K: Registry>()
    ensures { PastViewsTrue (meaning_of K.Registry) }
{}

/// So is the view of a rescue, which judges the record, where it isn't blocked below it.
pub fn rescues_judge<K: Registry>()
    ensures { RescuesJudge (meaning_of K.Registry) }
{}

/// A true view that has played past a commit record, and has no fate of it, can judge it.
pub fn views_judge<K: Registry>()
    ensures { ViewsJudge (meaning_of K.Registry) }
{}
