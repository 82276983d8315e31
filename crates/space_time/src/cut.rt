//! Which steps of a run are drawn.

ghost use Rattle.std.specs.Prelude.{◌≡◌, nat_le, nat_lt};
ghost use Rattle.std.specs.List.{position};
ghost use Rattle.space_time.specs.Cuts.{drawn, begin_of, end_of, first_from, first_past};

use tg_picture::Step;

/// How many steps are drawn at most where no lines are named.
const MOST: usize = 2000;

/// The event lines from which on and up to which a run is drawn.
#[derive(Clone, Copy, PartialEq, Eq)]
pub struct Cut {
    pub from: Option<u64>,
    pub to: Option<u64>,
}

impl Cut {
    /// The steps that are drawn: from the first number on and below the second.
    pub fn range(&self, steps: &[Step]) -> (usize, usize)
        ensures { result ≡ drawn self.now steps.now }
    {
        let upto = end_of(self.from, self.to, steps);
        (begin_of(self.from, steps).min(upto), upto)
    }
}

fn begin_of(from: Option<u64>, steps: &[Step]) -> usize
    ensures { result ≡ begin_of from steps.now }
{
    match from {
        None => 0,
        Some(line) => first_from(steps, line),
    }
}

fn end_of(from: Option<u64>, to: Option<u64>, steps: &[Step]) -> usize
    ensures { result ≡ end_of from to steps.now }
{
    match (from, to) {
        (_, Some(line)) => first_past(steps, line),
        (Some(_), None) => steps.len(),
        (None, None) => steps.len().min(MOST),
    }
}

// The first step of a line or of a later one, or how many steps there are.
fn first_from(steps: &[Step], line: u64) -> usize
    ensures { result ≡ first_from steps.now line }
{
    match step_from(steps, line) {
        None => steps.len(),
        Some(at) => at,
    }
}

fn step_from(steps: &[Step], line: u64) -> Option<usize>
    ensures { result ≡ position (λ (s : Step). nat_le line s.line) steps.now }
{
    steps.iter().position(|step| line <= step.line)
}

// The first step of a line later than this one, or how many steps there are.
fn first_past(steps: &[Step], line: u64) -> usize
    ensures { result ≡ first_past steps.now line }
{
    match step_past(steps, line) {
        None => steps.len(),
        Some(at) => at,
    }
}

fn step_past(steps: &[Step], line: u64) -> Option<usize>
    ensures { result ≡ position (λ (s : Step). nat_lt line s.line) steps.now }
{
    steps.iter().position(|step| line < step.line)
}
