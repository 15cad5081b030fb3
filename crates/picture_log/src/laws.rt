//! Laws of the definitions, each the contract of a function that does nothing.

ghost use Rattle.picture_log.specs.LogLaws.{LogStarts, LogBegins, OneTouchMore, LogShown, LogAccessed, LogRead};
ghost use Rattle.picture_log.specs.LogLaws.{ReadBegins, BeginsWithLine, LogEnds, LogCuts, NumberFits, FetchesAreFew};

/// The log goes from clock to clock: a clock starts, within a band or with one, the script's touches
/// are noted, and then the touch of its access is noted. A read of
/// CLXDAT touches nothing, and a band begins behind it.
pub fn log_of_clocks()
    ensures starts { LogStarts }
    ensures begins { LogBegins }
    ensures touch { OneTouchMore }
    ensures shown { LogShown }
    ensures accessed { LogAccessed }
    ensures read { LogRead }
    ensures after { ReadBegins }
{}

/// The log goes from band to band: one ends where another begins, with a line or a read of CLXDAT, the
/// memory is cut there, the number of the next fits, and no more words are left to look up than
/// registers that a fetch filled last.
pub fn log_of_bands()
    ensures line { BeginsWithLine }
    ensures ends { LogEnds }
    ensures cuts { LogCuts }
    ensures number { NumberFits }
    ensures fetches { FetchesAreFew }
{}
