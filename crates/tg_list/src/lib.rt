//! Lists of texts with cheap ends.
#![tactic(auto)]

mod text_list;

pub use text_list::{TextList, TextListAns, TextListAsk, TextListOp};
