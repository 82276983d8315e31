//! A client's reconfiguration: the units of the next layout are sealed, the layout servers agree on it by
//! Paxos, they are told it, and its sequencer is started. The machine asks nodes, and each answer that it is fed
//! makes its next state. Where a unit has left the next epoch it has to learn a newer layout first.
#![tactic(auto)]

mod agreeing;
mod job;
mod laws;
mod machine;
mod plan;
mod promises;
mod reconf;
mod requests;
mod sealing;
mod step;
mod telling;
mod turns;
mod units;
mod vote;

pub use laws::{
    feed_ends_by_answers, latest_ends_as_told, learns_by_answers, numbers_stay_drawn,
    requests_are_few, starts_are_own, starts_with_few, steps_are_few, waits_for_answers,
    waits_to_tell,
};
pub use reconf::Reconf;
pub use step::{Next, ReconfEnd, Step};
