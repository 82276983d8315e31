//! What the words after the program's name ask for.

ghost use Rattle.std.specs.Prelude.{◌≡◌, ◌≤◌, length, IfSome};
ghost use Rattle.bench_costs.specs.Printed.{answers_named, IsTimed};

use crate::rounds::Rounds;

/// What may be asked for.
#[derive(Clone, Copy)]
pub enum Request {
    /// What an object of each kind answers after an op.
    Answers,
    /// What objects answer after many ops.
    Timed(Rounds),
}

impl Request {
    /// What words ask for, None where they ask for nothing. There is one round where they say nothing of rounds.
    pub fn of(words: &[String]) -> Option<Request>
        ensures { IfSome result (λ _. length words.now ≤ 3) }
    {
        match words {
            [word] => Request::answers(word.as_str()),
            [workload, count] => Request::timed(workload.as_str(), count.as_str(), "1"),
            [workload, count, rounds] => {
                Request::timed(workload.as_str(), count.as_str(), rounds.as_str())
            }
            _ => None,
        }
    }

    fn answers(word: &str) -> Option<Request>
        ensures { result ≡ answers_named word.now }
    {
        match word {
            "answers" => Some(Request::Answers),
            _ => None,
        }
    }

    fn timed(workload: &str, count: &str, rounds: &str) -> Option<Request>
        ensures { IfSome result (λ r. IsTimed workload.now count.now rounds.now r) }
    {
        let rounds = Rounds::of(workload, count, rounds)?;
        Some(Request::Timed(rounds))
    }
}
