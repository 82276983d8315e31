//! What clients tell and write is true of the log, in every run of a cluster. From what the clients find of the log that
//! the run ends with. Laws over the definitions of `tg_protocol` and `tg_model`, for the kinds of
//! any implementation.

ghost use Rattle.tg_kind.specs.Of.{meaning_of};
ghost use Rattle.tg_law_replies.specs.Replies.Told.{TellingIsLegal};
ghost use Rattle.tg_law_replies.specs.Replies.Laws.{RunsWriteTruth, RunsTellTruth};

use tg_kind::Registry;

/// Where the entries of a log bear out all that replies tell of it, history and replies are legal.
pub fn telling_is_legal<K: Registry>()
    ensures { TellingIsLegal (meaning_of K.Registry) }
{}

/// The decision records and the checkpoints of a run's log are true of it, where each of its entries was begun by its
/// client, the clients find what they need, and an append that ends stands where it says.
pub fn runs_write_truth<K: Registry>()
    ensures { RunsWriteTruth (meaning_of K.Registry) }
{}

/// What a run tells of past positions, of rescues and of outcomes is true of its log, where the clients find what they
/// need, and an append that ends stands where it says.
pub fn runs_tell_truth<K: Registry>()
    ensures { RunsTellTruth (meaning_of K.Registry) }
{}
