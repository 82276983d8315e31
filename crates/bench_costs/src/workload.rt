//! What may be timed.

ghost use Rattle.std.specs.Prelude.{◌≡◌};
ghost use Rattle.bench_costs.specs.Workloads.{workload_named};

/// Ops on a new object.
#[derive(Clone, Copy, PartialEq, Eq)]
pub enum Workload {
    /// Adds 1 to a counter.
    Counter,
    /// Writes texts to a register.
    Register,
    /// Sets the keys of a map, in a scrambled order.
    Map,
    /// Includes numbers in a set, in a scrambled order.
    Set,
    /// Creates children of a tree's root, in a scrambled order, and then asks for each.
    Tree,
    /// Pushes texts to a list's back.
    ListBack,
    /// Pushes texts to a list's front.
    ListFront,
    /// Pushes texts to a list's back, and then pops as many from its back.
    ListPopBack,
    /// Pushes texts to a list's back, and then pops as many from its front.
    ListPopFront,
}

impl Workload {
    /// The workload that a word names.
    pub fn named(word: &str) -> Option<Workload>
        ensures { result ≡ workload_named word.now }
    {
        match word {
            "counter" => Some(Workload::Counter),
            "register" => Some(Workload::Register),
            "map" => Some(Workload::Map),
            "set" => Some(Workload::Set),
            "tree" => Some(Workload::Tree),
            "list-back" => Some(Workload::ListBack),
            "list-front" => Some(Workload::ListFront),
            "list-pop-back" => Some(Workload::ListPopBack),
            "list-pop-front" => Some(Workload::ListPopFront),
            _ => None,
        }
    }
}
