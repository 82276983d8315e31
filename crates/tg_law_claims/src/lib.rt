//! Laws over definitions, the contracts of empty functions:
//!
//! - Forgetting: what of a log may be forgotten, and what stays, in every run of the store.
//! - Clients at work: from where they play on, and what they read.
//! - Refusals and their causes: laws over definitions, the contracts of empty functions.
//! - Answers and their causes: laws over definitions, the contracts of empty functions.
//! - The claims, whole: laws over definitions, the contracts of empty functions.
#![tactic(auto)]

mod causes_of_answers;
mod confirmed;
mod laws_of_answers;
mod laws_of_causes;
mod laws_of_forgetting;
mod laws_of_playing;
mod laws_of_whole;
mod paths;
mod refusals;
mod rescues;
mod standing;
mod undecided;
mod undecided_of_answers;
mod unsure;
mod worked;

pub use causes_of_answers::refusals_true;
pub use confirmed::{aheads_there, fates_forgotten, nones_there, pasts_forgotten, unsaved_there};
pub use laws_of_answers::{causes_refuse, nones_true};
pub use laws_of_causes::{aborts_name_least, directories_true, refusals_keep};
pub use laws_of_forgetting::{
    floors_stay, forgetting_holds, marks_rest, serial_first, trims_spare,
};
pub use laws_of_playing::{views_fall_at_trims, views_read_on};
pub use laws_of_whole::{causes_hold, headline_holds, one_log};
pub use paths::{reads_on_path, reads_on_path_where};
pub use refusals::{most_refusals_true, refused_at_once_true, refused_later_true};
pub use rescues::{rescues_forgotten, rescues_too_wide};
pub use standing::{asks_stand, pages_give_up, plays_on};
pub use undecided::{stuck_true, undecided_true, unsure_unless_lacking};
pub use undecided_of_answers::{pasts_undecided, rescues_undecided};
pub use unsure::{unsure_true, unsure_unless_yes};
pub use worked::{past_is_undecided, rescue_is_forgotten, rescue_is_undecided};
