//! All kinds of objects as one, and their word forms: how ops, asks and answers stand in scripts and
//! transcripts.
#![tactic(auto)]

mod any;
mod any_words;
mod counter_words;
mod decimal;
mod directory_words;
mod field;
mod list_words;
mod map_words;
mod names;
mod objects;
mod phrase;
mod register_words;
mod set_words;
mod tree_words;

pub use any::{AnyAns, AnyAsk, AnyKind, AnyOp};
pub use any_words::{ans_of, ask_of, op_of, spell_ans, spell_ask, spell_op};
pub use decimal::{number, number_front, put_number, signed};
pub use field::Field;
pub use names::{mark, object, object_front, put_mark, put_object};
pub use objects::are_objects;
pub use phrase::{list, maybe, nothing, one, put_list, put_maybe, put_one, put_two, two};
