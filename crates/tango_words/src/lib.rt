//! The words after the program's name, read as one of its forms.
#![tactic(auto)]

mod forms;
mod numbers;

pub use forms::{Form, read_form};
