//! So many rounds of a workload.

ghost use Rattle.std.specs.Prelude.{◌≡◌, IfOk, IfSome};
ghost use Rattle.bench_costs.specs.Workloads.{told, total, AreWords};

use crate::fault::Fault;
use crate::workload::Workload;
use crate::{cells, keyed, lists};
use std::alloc::Global;

/// How often a new object takes how many ops.
#[derive(Clone, Copy)]
pub struct Rounds {
    pub workload: Workload,
    pub count: u32,
    pub rounds: u32,
}

impl Rounds {
    /// What words ask for, None where they are no workload and two numbers.
    pub fn of(workload: &str, count: &str, rounds: &str) -> Option<Rounds>
        ensures { IfSome result (λ r. AreWords workload.now count.now rounds.now r) }
    {
        let workload = Workload::named(workload)?;
        let count: u32 = count.parse().ok()?;
        let rounds: u32 = rounds.parse().ok()?;
        Some(Rounds {
            workload,
            count,
            rounds,
        })
    }

    /// The sum of what the objects of all rounds answer, modulo 2^64. An `Err` is want of memory.
    pub fn sum(self, alloc: Global) -> Result<u64, Fault>
        ensures { IfOk result (λ n. n ≡ total self) }
    {
        let mut sum: u64 = 0;
        for _ in 0..self.rounds {
            let told = self.round(alloc)?;
            sum = sum.wrapping_add(told);
        }
        Ok(sum)
    }

    // What a new object answers after the ops.
    fn round(self, alloc: Global) -> Result<u64, Fault>
        ensures { IfOk result (λ n. n ≡ told self.workload self.count) }
    {
        match self.workload {
            Workload::Counter => cells::counter(alloc, self.count),
            Workload::Register => cells::register(alloc, self.count),
            Workload::Map => keyed::map(alloc, self.count),
            Workload::Set => keyed::set(alloc, self.count),
            Workload::Tree => keyed::tree(alloc, self.count),
            Workload::ListBack => lists::back(alloc, self.count),
            Workload::ListFront => lists::front(alloc, self.count),
            Workload::ListPopBack => lists::pop_back(alloc, self.count),
            Workload::ListPopFront => lists::pop_front(alloc, self.count),
        }
    }
}
