//! Laws of the definitions, each the contract of a function that does nothing.

ghost use Rattle.chip_set.specs.AskLaws.{IsClxRead, ClxCountsForItAlone};
ghost use Rattle.chip_set.specs.Quiet.{FetchesPass};

/// An access is a read of CLXDAT exactly where its owner asks for it, and the word that answers
/// another ask does not depend on the collision bits.
pub fn asks_of_clx()
    ensures read { IsClxRead }
    ensures alone { ClxCountsForItAlone }
{}

/// Clocks at which planes were fetched and everybody else has waited: the chips stand for those behind them.
pub fn clocks_of_fetches()
    ensures { FetchesPass }
{}
