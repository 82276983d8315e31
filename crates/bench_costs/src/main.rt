//! Times the kinds of objects, a storage unit and a client's view.
//!
//! `bench_costs kinds WORKLOAD COUNT [ROUNDS]` applies so many ops to a new object, so many times, and prints the sum of
//! what the objects answer. `bench_costs kinds answers` prints what a new object of each kind answers after an op, once
//! its state was saved and loaded.
//!
//! `bench_costs unit ORDER COUNT [UNITS]` sends so many pages to each of some new units, in that order, the units by
//! turns, and prints how many of them the units hold.
//!
//! `bench_costs plays COUNT MORE` plays so many records at once, and then ten more so many times, and prints the version
//! of their object.
//!
//! A plus as a word stands between two tasks.
#![tactic(auto)]

mod cells;
mod entries;
mod fault;
mod keyed;
mod lists;
mod load;
mod order;
mod plays;
mod records;
mod replay;
mod request;
mod rounds;
mod row;
mod sizes;
mod stores;
mod task;
mod words;
mod workload;

use crate::fault::Fault;
use crate::task::Task;
use std::alloc::Global;
use std::io;
use std::process::ExitCode;

/// Runs the tasks that the words after the program's name ask for.
fn main(rt: HostRuntime) -> io::Result<ExitCode> {
    let alloc = rt.alloc();
    let words: Vec<String> = std::env::args(&rt)?.skip(1).collect(alloc)?;
    for asked in words.as_slice().split(|word| word.as_str() == "+") {
        match told(alloc, asked) {
            Ok(lines) => println!(rt; "{lines}")?,
            Err(fault) => {
                eprintln!(rt; "bench_costs: {fault}")?;
                return Ok(ExitCode::FAILURE);
            }
        }
    }
    Ok(ExitCode::SUCCESS)
}

/// What is printed of the task that words ask for.
fn told(alloc: Global, asked: &[String]) -> Result<String, Fault> {
    match Task::of(asked) {
        None => Err(Fault::Words),
        Some(Task::Answers) => answers(alloc),
        Some(Task::Timed(timed)) => {
            let number = timed.number(alloc)?;
            Ok(format!(in alloc; "{number}")?)
        }
    }
}

// A line for each kind.
fn answers(alloc: Global) -> Result<String, Fault> {
    let answers = replay::answers(alloc)?;
    Ok(format!(in alloc;
        "ctr {}\nreg {}\nmap {}\nlist {}\ntree {}\nset {}",
        answers.counter, answers.register, answers.map, answers.list, answers.tree, answers.set
    )?)
}
