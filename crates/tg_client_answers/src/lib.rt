//! What a client does once all streams of a command are walked: it plays its view, and answers.
#![tactic(auto)]

mod answering;
mod ask;
mod asked;
mod closing;
mod decide;
mod end;
mod ended;
mod entries;
mod fate;
mod following;
mod marking;
mod past;
mod playing;
mod records;
mod rescue;
mod saving;
mod trimming;
mod trims;

pub use ask::on_ask;
pub use asked::{Answer, answer_of};
pub use decide::on_decide;
pub use end::on_end;
pub use fate::on_fate;
pub use following::walked;
pub use marking::on_forget;
pub use past::on_ask_at;
pub use rescue::on_rescue;
pub use saving::on_checkpoint;
pub use trimming::on_trim;
