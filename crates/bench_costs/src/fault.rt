//! Why there is no answer.

ghost use Rattle.std.specs.Prelude.{◌≡◌};
ghost use Rattle.bench_costs.specs.declared.fault.Fault.TheVariants.{NoMemory};

use std::alloc::AllocError;
use thiserror::Error;

/// Why there is no answer.
#[derive(Clone, Copy, Debug, PartialEq, Eq, Error)]
pub enum Fault {
    /// The words are no task.
    #[error("the words are kinds WORKLOAD COUNT [ROUNDS], unit ORDER COUNT [UNITS] or plays COUNT MORE")]
    Words,
    /// Memory ran out.
    #[error("out of memory")]
    NoMemory,
}

impl From<tg_base::NoMemory> for Fault {
    ghost from_gives = { λ _ e. e ≡ NoMemory };

    fn from(_e: tg_base::NoMemory) -> Fault {
        Fault::NoMemory
    }
}

impl From<AllocError> for Fault {
    ghost from_gives = { λ _ e. e ≡ NoMemory };

    fn from(_e: AllocError) -> Fault {
        Fault::NoMemory
    }
}
