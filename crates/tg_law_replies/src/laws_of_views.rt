//! Views that are true of a log: the states, the versions and the fates that they tell are the log's. Laws of plays,
//! verdicts, checkpoints, past views and rescues, over the definitions of `tg_protocol`, for the kinds of any
//! implementation. Each speaks of one log, that of the end of a run, and of entries of it that a client has.

mod anew;
mod playing;

pub use anew::{new_views_true, past_views_true, rescues_judge, views_judge};
pub use playing::{changes_true, fresh_true, plays_true, saves_true, starts_true, verdicts_true};
