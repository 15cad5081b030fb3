//! Laws of the definitions, each the contract of a function that does nothing.

ghost use Rattle.serial_model.specs.Laws.{MemoryNext, PictureNext, ShownNext, ClxNext, TraceNext, BeamNext};
ghost use Rattle.serial_model.specs.Laws.{FramesAreWhole, HasEnd, FitIsKept, AskOfFitIsBelow, NoneFitsEach};
ghost use Rattle.serial_model.specs.Laws.{NoSideStays, NoSideIsQuiet, FewerOfQuietSide};
ghost use Rattle.serial_model.specs.StandsLaws.{StandsForItself, StandsLater, StandsOn, StandsWritten, StandsTouched};
ghost use Rattle.serial_model.specs.StandsLaws.{StandsTouchedInOrder, StandsCleared, StandsShown, StandsAfter};

/// What one colour clock makes of a state, part by part, by the script's touches, the picture step
/// and what the access makes. Drawing a part of the picture later, from the writes that were noted
/// and the memory of that time, rests on these.
pub fn next_state()
    ensures memory { MemoryNext }
    ensures picture { PictureNext }
    ensures shown { ShownNext }
    ensures clx { ClxNext }
    ensures trace { TraceNext }
    ensures beam { BeamNext }
{}

/// A side that fits a size of chip memory fits it after each call, and what it then asks for is
/// below that size.
pub fn sides_fit()
    ensures kept { FitIsKept }
    ensures below { AskOfFitIsBelow }
    ensures none { NoneFitsEach }
{}

/// Clocks in which a side requests nothing and asks for nothing: no side is such in each number of them,
/// and stays none; and of so many the first are such.
pub fn quiet_sides()
    ensures stays { NoSideStays }
    ensures quiet { NoSideIsQuiet }
    ensures fewer { FewerOfQuietSide }
{}

/// A run has an end, and has then shown all the bytes of its frames.
pub fn whole_run()
    ensures ends { HasEnd }
    ensures frames { FramesAreWhole }
{}

/// A picture state whose loads show the same from a position on may stand in for another: every change
/// of a clock keeps that, and what is shown is the same.
pub fn kept_picture()
    ensures itself { StandsForItself }
    ensures later { StandsLater }
    ensures on { StandsOn }
    ensures written { StandsWritten }
    ensures touched { StandsTouched }
    ensures in_order { StandsTouchedInOrder }
    ensures cleared { StandsCleared }
    ensures shown { StandsShown }
    ensures after { StandsAfter }
{}
