//! A worked run for which the premises are shown to hold.

ghost use Rattle.tg_law_headline.specs.Points.Worked.{WorkedPoint};

/// A run in which a client commits twice, and another begins to read that, meets the premises; the reply of the second commit has its
/// point in the world to which the run comes.
pub fn commit_has_point()
    ensures { WorkedPoint }
{}
