//! What a step makes of a client.

use crate::Work;
use crate::state::State;
use tg_base::{List, Out};
use tg_kind::Registry;
use tg_model::NoteOf;

/// What a step makes of a client.
#[derive(Drop)]
pub struct Moved<K: Registry> {
    pub state: State<K>,
    /// The command that waits for its reply, if one does.
    pub work: Option<Work<K>>,
    /// What is sent.
    pub sends: List<Out>,
    /// What is told.
    pub notes: List<NoteOf<K>>,
}
