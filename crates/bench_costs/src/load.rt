//! Stores on so many new units.

ghost use Rattle.std.specs.Prelude.{◌≡◌, ◌≤◌, length, IfOk, IfSome};
ghost use Rattle.bench_costs.specs.Stores.{total, AreWords};

use crate::fault::Fault;
use crate::order::Order;
use crate::stores::held;
use std::alloc::Global;

/// How many new units store how many pages each, and in which order.
#[derive(Clone, Copy)]
pub struct Load {
    pub order: Order,
    pub count: u32,
    pub units: u32,
}

impl Load {
    /// What words ask for, None where they ask for nothing. There is one unit where they say nothing of units.
    pub fn of(words: &[String]) -> Option<Load>
        ensures { IfSome result (λ _. length words.now ≤ 3) }
    {
        match words {
            [order, count] => Load::named(order.as_str(), count.as_str(), "1"),
            [order, count, units] => { Load::named(order.as_str(), count.as_str(), units.as_str()) }
            _ => None,
        }
    }

    fn named(order: &str, count: &str, units: &str) -> Option<Load>
        ensures { IfSome result (λ r. AreWords order.now count.now units.now r) }
    {
        let order = Order::named(order)?;
        let count: u32 = count.parse().ok()?;
        let units: u32 = units.parse().ok()?;
        Some(Load {
            order,
            count,
            units,
        })
    }

    /// How many stores on all units are held, modulo 2^64. An `Err` is want of memory.
    pub fn sum(self, alloc: Global) -> Result<u64, Fault>
        ensures { IfOk result (λ n. n ≡ total self) }
    {
        Ok(held(alloc, self.order, self.count, self.units)?)
    }
}
