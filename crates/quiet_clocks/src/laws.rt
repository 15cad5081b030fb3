//! Laws of the definitions, each the contract of a function that does nothing.

ghost use Rattle.quiet_clocks.specs.Ticks.{TicksInClosedForm, TicksTwice, FewerTicks};
ghost use Rattle.quiet_clocks.specs.Ticks.{TicksOfTwo, TickMore, TickLess};
ghost use Rattle.quiet_clocks.specs.PlainClock.{OwnedTick};
ghost use Rattle.quiet_clocks.specs.QuietClock.{QuietTick, QuietMakes, StillIsCalm};
ghost use Rattle.quiet_clocks.specs.QuietTurns.{WaitsThrough, StaysOff, StaysHalted, StaysStopped, LosesSlot};
ghost use Rattle.quiet_clocks.specs.QuietClocks.{QuietSpan, FewerAreQuiet, ClocksOfTwo};
ghost use Rattle.quiet_clocks.specs.QuietClocks.{ClocksOfRun};
ghost use Rattle.quiet_clocks.specs.IdleClocks.{IdleIsCalm, LastLater, UnitStays, UnitOfTwo, UnitCanBegin, TicksByPlace};
ghost use Rattle.quiet_clocks.specs.Plan.{PlanNext, PlanKept, WriteKeepsFetches};
ghost use Rattle.quiet_clocks.specs.Plan.{FetchKeepsFetches, SpriteKeepsFetches, PlanSays, PlanSpan};
ghost use Rattle.quiet_clocks.specs.OwnedClock.{PlaneTick, CopperHas, BlitterHas, ProcessorHas};
ghost use Rattle.quiet_clocks.specs.FetchClocks.{PlanesHave, FetchTick, FetchMakes, StillIsAtRest};
ghost use Rattle.quiet_clocks.specs.FetchClocks.{FetchSpan, FewerFetchClocks, EachIsFetchClock, FetchingLater};

/// Ticks of a CIA's timers among which neither underflows: each timer that counts goes down by their
/// number, and nothing else of the CIA changes. The last three laws count the ticks among clocks.
pub fn timer_ticks()
    ensures closed { TicksInClosedForm }
    ensures twice { TicksTwice }
    ensures fewer { FewerTicks }
    ensures of_two { TicksOfTwo }
    ensures more { TickMore }
    ensures less { TickLess }
{}

/// A clock at whose begin no line starts, no event of the script is due and no interrupt is requested
/// that was not requested before: whoever asks for the slot, it is the rest of a clock from the state that
/// the timers, the side and the picture step have made.
pub fn plain_clock()
    ensures { OwnedTick }
{}

/// A clock at which, beside that, nobody asks for the slot: the state after it in closed form, and that
/// its access makes nothing. The last law names tests that tell that nobody of the chips asks.
pub fn quiet_clock()
    ensures tick { QuietTick }
    ensures makes { QuietMakes }
    ensures still { StillIsCalm }
{}

/// The processor's turn at a clock at which it makes no access, whatever the other chips are: it waits
/// for something that needs no slot, is not started, has halted, is stopped by STOP, or loses its slot.
pub fn quiet_turns()
    ensures waits { WaitsThrough }
    ensures off { StaysOff }
    ensures halted { StaysHalted }
    ensures stopped { StaysStopped }
    ensures loses { LosesSlot }
{}

/// Clocks of a line one behind the other that are all quiet: the state after them in closed form, but for
/// picture, collisions and pixel bytes, which are those of the clocks one by one. The states of a run are
/// such clocks.
pub fn quiet_clocks()
    ensures span { QuietSpan }
    ensures fewer { FewerAreQuiet }
    ensures of_two { ClocksOfTwo }
    ensures of_run { ClocksOfRun }
{}

/// What tells that nobody of the chips asks for the slot, in clocks of sprites too; where the last unit of a
/// later clock began; and that the ticks among clocks hang on the first one's place among five alone.
pub fn idle_clocks()
    ensures calm { IdleIsCalm }
    ensures last { LastLater }
    ensures stays { UnitStays }
    ensures two { UnitOfTwo }
    ensures can { UnitCanBegin }
    ensures ticks { TicksByPlace }
{}

/// A plan of the fetches of a line, made at some clock of it: that it stays one from clock to clock and
/// while the registers that decide the fetches stay, what keeps these, and what it says of the clocks that
/// come.
pub fn plan_of_line()
    ensures next { PlanNext }
    ensures kept { PlanKept }
    ensures write { WriteKeepsFetches }
    ensures fetch { FetchKeepsFetches }
    ensures sprite { SpriteKeepsFetches }
    ensures says { PlanSays }
    ensures span { PlanSpan }
{}

/// A plain clock whose slot's owner is known: the state after the fetch of a plane in closed form; and,
/// where nobody before the Copper asks, whose ask of Copper, blitter and processor is answered.
pub fn owned_clock()
    ensures plane { PlaneTick }
    ensures copper { CopperHas }
    ensures blitter { BlitterHas }
    ensures processor { ProcessorHas }
{}

/// A clock at which everybody but the bitplanes rests: the state after it is one in closed form, whether or
/// not a plane is fetched, and its access makes the fetch alone. The last law names tests that tell that they
/// rest.
pub fn fetch_clock()
    ensures has { PlanesHave }
    ensures tick { FetchTick }
    ensures makes { FetchMakes }
    ensures still { StillIsAtRest }
{}

/// Such clocks of a line one behind the other: the state after them in closed form, but for picture,
/// collisions and pixel bytes, which are those of the clocks one by one. The registers go from clock to
/// clock with the planes' pointers, and need the last unit of the line alone.
pub fn fetch_clocks()
    ensures span { FetchSpan }
    ensures fewer { FewerFetchClocks }
    ensures each { EachIsFetchClock }
    ensures last { FetchingLater }
{}
