//! Agreement on layouts: however many clients reconfigure at once, over one epoch at most one layout is
//! chosen, and one of them proposed it. Laws over the definitions of `tg_protocol`, each the contract of an
//! empty function. (Lamport, *Paxos made simple*, 2001.)

ghost use Rattle.tg_law_layouts.specs.Agreement.Laws.{OneIsChosen, ChosenIsProposed};

/// At most one layout is chosen.
pub fn one_is_chosen()
    ensures { OneIsChosen }
{}

/// A layout that is chosen is the proposal of one of the clients: what its change makes of the present
/// layout, in its name.
pub fn chosen_is_proposed()
    ensures { ChosenIsProposed }
{}
