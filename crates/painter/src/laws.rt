//! Laws of the definitions, each the contract of a function that does nothing.

ghost use Rattle.painter.specs.RunningWords.{LastBeginRuns};
ghost use Rattle.painter.specs.Runs.{RunsOfSpan, RunsInSpan};

/// After the first positions of a line the words that run of a sprite are those of the greatest position at
/// which it was armed and its HSTART was that position; where there is none, no words run.
pub fn words_that_run()
    ensures { LastBeginRuns }
{}

/// Over many clocks of a line, between which nothing is written, the words of a sprite begin at most
/// once: where it is armed, at its HSTART, if that is one of the positions of these clocks. The picture
/// steps change that and the held colour alone.
pub fn runs_of_many_clocks()
    ensures span { RunsOfSpan }
    ensures within { RunsInSpan }
{}
