//! Laws of the definitions, each the contract of a function that does nothing.

ghost use Rattle.serial_bands.specs.ClockLaws.{WritesReadNothing, PictureOfTick, OpeningOfTick, ReadGivesClx, ClxOfEvents, ClxBefore, ClxAfter};
ghost use Rattle.serial_bands.specs.ClockLaws.{ClxOfTick, PlaceOfTick, NextMemory, NextOpening, DisplayedIsStep, BytesAreOfStep, ClxIsOfStep};
ghost use Rattle.serial_bands.specs.ClockLaws.{ClosingHasFetch, NextShown, ClxAtStart, ClxAtAccess, NextClx, NextInBand, EventsByPlace, FramesRise};
ghost use Rattle.serial_bands.specs.RangeLaws.{ShownInRange, BytesOfTwo, ClxOfTwo, ReadByAccess, ReadByScript, EventsInRange, EventsOfOneMore};
ghost use Rattle.serial_bands.specs.BandLaws.{FirstBand, NextBand, OneBand, BegunInBand, OneBandMore, BytesOfBands, ClxOfBands};
ghost use Rattle.serial_bands.specs.BandLaws.{OpeningOfNextBand, ClockHasBand, NumberHasBand, BandsOfRun, ShownByBands, ReadAfterBands};
ghost use Rattle.serial_bands.specs.BandLaws.{PeekAfterBands, BandsAreFew, NumberIsSmall, NoTint, AccessReadsFew, LatchedAreFew};
ghost use Rattle.serial_bands.specs.ReplayLaws.{BytesOfKept, ClxOfKept, ClosingOfKept, OpeningOfKept};
ghost use Rattle.serial_bands.specs.EventReading.{ScriptEventsAreSets, ScriptComesFirst, RestBehindScript, LastBehindScript, BusTouchIsFound, LastFetchIsFound};
ghost use Rattle.serial_bands.specs.Stores.{StoresMakeMemory, MemoryByStores, ViewHasMemory};
ghost use Rattle.serial_bands.specs.OpenBand.{BandOpens, BandGoesOn, BandCloses};
ghost use Rattle.serial_bands.specs.DrawnTo.{WordsAreFound, DrawingBegins, TouchIsNext, DrawingGoesOn, LastFetchIsNext, DrawingEnds};
ghost use Rattle.serial_bands.specs.Late.{FetchesAreLate};
ghost use Rattle.serial_bands.specs.Spans.{DrawingGoesOnQuietly, UntouchedBeforeFirst, FetchIsNext};
ghost use Rattle.serial_bands.specs.Shadows.{ShadowOfPicture, ShadowOfKept, FirstShadow, ShadowTouched};
ghost use Rattle.serial_bands.specs.Shadows.{ShadowShown, ShadowCleared, NextShadow, ShadowFound, LineOpens};
ghost use Rattle.serial_bands.specs.Fetches.{LeftOfPicture, LeftOfFound, LeftBySets, LeftByTouch, TouchInTwo, FewerWithWrite, FetchesAreLatched};
ghost use Rattle.serial_bands.specs.Fetches.{RangeOfPicture, RangeOfFound, RangeOfSets, RangeOfTouch, ShadowFoundIn, ShadowSets, ShadowAccess};
ghost use Rattle.serial_bands.specs.Gathering.{GatheredFirst, GatheredMore, GatheredMoreIn, GatheredWhole, GatheredStart};
ghost use Rattle.serial_bands.specs.Gathering.{GatheredCleared, GatheredAtAccess, GatheredNext, GatheredRead, ClxOfRange};
ghost use Rattle.serial_bands.specs.BandRanges.{TintOfTwo, LengthOfTint, BandsRise, BandsBegin, BandsAreAlone};
ghost use Rattle.serial_bands.specs.BandRanges.{BandsOfTwo, BytesOfBandsTinted, OpenIsBand, BytesRise};

/// What one colour clock makes of any state: the picture with the access's write of a register apart,
/// the collision bits before and after the picture step, and the place of the beam where no field
/// starts.
pub fn clock_of_state()
    ensures write { WritesReadNothing }
    ensures picture { PictureOfTick }
    ensures opening { OpeningOfTick }
    ensures read { ReadGivesClx }
    ensures events { ClxOfEvents }
    ensures before { ClxBefore }
    ensures after { ClxAfter }
    ensures clx { ClxOfTick }
    ensures place { PlaceOfTick }
{}

/// What a clock of a run shows, from its opening, the script and the memory of that clock alone.
pub fn clock_of_run()
    ensures displayed { DisplayedIsStep }
    ensures bytes { BytesAreOfStep }
    ensures clx { ClxIsOfStep }
    ensures closing { ClosingHasFetch }
{}

/// How the next clock of a run follows: its memory, its opening, the bytes and collision bits so far,
/// and its place where no band begins with it.
pub fn next_clock()
    ensures memory { NextMemory }
    ensures opening { NextOpening }
    ensures shown { NextShown }
    ensures start { ClxAtStart }
    ensures access { ClxAtAccess }
    ensures clx { NextClx }
    ensures place { NextInBand }
    ensures events { EventsByPlace }
    ensures frames { FramesRise }
{}

/// What a range of clocks shows: its bytes are the run's, its collision bits since a read are what the
/// next read sees, and all of it is put together range by range, as its events are clock by clock.
pub fn ranges()
    ensures shown { ShownInRange }
    ensures bytes { BytesOfTwo }
    ensures clx { ClxOfTwo }
    ensures access { ReadByAccess }
    ensures script { ReadByScript }
    ensures range { EventsInRange }
    ensures events { EventsOfOneMore }
{}

/// The order of bands: they follow one another from the first clock on, a number has one range, and
/// what bands show one after another is what their clocks show.
pub fn order_of_bands()
    ensures first { FirstBand }
    ensures next { NextBand }
    ensures one { OneBand }
    ensures within { BegunInBand }
    ensures joined { OneBandMore }
    ensures bytes { BytesOfBands }
    ensures clx { ClxOfBands }
    ensures opening { OpeningOfNextBand }
{}

/// The bands of a whole run: each of its clocks is in one, there is one of each number below their
/// count, together they are the run and show its bytes, those since a read of CLXDAT have the bits that
/// the next read sees, and in the limits of scripts there are fewer than 2^32.
pub fn bands_of_run()
    ensures clock { ClockHasBand }
    ensures number { NumberHasBand }
    ensures all { BandsOfRun }
    ensures shown { ShownByBands }
    ensures read { ReadAfterBands }
    ensures peek { PeekAfterBands }
    ensures few { BandsAreFew }
    ensures small { NumberIsSmall }
{}

/// A clock drawn later from a picture state that stands for its opening shows what the clock showed,
/// and leaves one that stands for its closing and, with the write of the access made, for the next
/// opening.
pub fn clock_drawn_later()
    ensures bytes { BytesOfKept }
    ensures clx { ClxOfKept }
    ensures closing { ClosingOfKept }
    ensures opening { OpeningOfKept }
{}

/// The events of a range tell what touched the picture at each clock, and whether a write was the
/// script's or that of the access of the clock before, where the script's of each clock are counted.
pub fn events_read_back()
    ensures sets { ScriptEventsAreSets }
    ensures script { ScriptComesFirst }
    ensures rest { RestBehindScript }
    ensures last { LastBehindScript }
    ensures bus { BusTouchIsFound }
    ensures fetch { LastFetchIsFound }
{}

/// The tint 0 changes nothing, an access reads at most one word, and a band leaves at most 22 to look
/// up.
pub fn counts()
    ensures tint { NoTint }
    ensures access { AccessReadsFew }
    ensures latched { LatchedAreFew }
{}

/// The writes of memory of a range, kept with their clocks, make the memory of each of its clocks, and
/// a view that is cut at its end has them.
pub fn memory_of_range()
    ensures end { StoresMakeMemory }
    ensures clock { MemoryByStores }
    ensures view { ViewHasMemory }
{}

/// A band that is kept clock by clock from its first one on is right for its job when the next band
/// begins.
pub fn open_band()
    ensures opens { BandOpens }
    ensures on { BandGoesOn }
    ensures closes { BandCloses }
{}

/// A right job that is drawn clock by clock, each touch found in its events and each word in its
/// memory, comes to what the band shows.
pub fn drawn_band()
    ensures words { WordsAreFound }
    ensures begins { DrawingBegins }
    ensures touch { TouchIsNext }
    ensures on { DrawingGoesOn }
    ensures fetch { LastFetchIsNext }
    ensures ends { DrawingEnds }
{}

/// The word that a plane fetches at a clock may be handed to the picture state before that clock's
/// picture step, and before those of the clocks of the line just before it: they show and leave the
/// same.
pub fn fetches_late()
    ensures { FetchesAreLate }
{}

/// Clocks of a line at which nothing touches the picture but fetches of bitplanes are drawn at once
/// behind their fetches, and the events that are left tell which clocks these are.
pub fn drawn_at_once()
    ensures on { DrawingGoesOnQuietly }
    ensures untouched { UntouchedBeforeFirst }
    ensures fetch { FetchIsNext }
{}

/// A shadow of the picture state follows it from clock to clock without a word of a plane or a sprite,
/// and with those words, found in old memory, it is the opening of a line.
pub fn shadow_of_picture()
    ensures picture { ShadowOfPicture }
    ensures kept { ShadowOfKept }
    ensures first { FirstShadow }
    ensures touched { ShadowTouched }
    ensures shown { ShadowShown }
    ensures cleared { ShadowCleared }
    ensures next { NextShadow }
    ensures found { ShadowFound }
    ensures opening { LineOpens }
{}

/// The collision bits of a state, from clock to clock, where those of the bands before a clock were
/// gathered: a band that is gathered later adds its own, and a read clears all.
pub fn collisions_gathered()
    ensures first { GatheredFirst }
    ensures more { GatheredMore }
    ensures more_in { GatheredMoreIn }
    ensures whole { GatheredWhole }
    ensures start { GatheredStart }
    ensures cleared { GatheredCleared }
    ensures access { GatheredAtAccess }
    ensures next { GatheredNext }
    ensures read { GatheredRead }
    ensures range { ClxOfRange }
{}

/// Bands one after another fill one range, whose bytes are theirs one after another, under a tint too;
/// an open band becomes one of them, and no clock shows more than 12 bytes.
pub fn bands_joined()
    ensures tint { TintOfTwo }
    ensures length { LengthOfTint }
    ensures rise { BandsRise }
    ensures begin { BandsBegin }
    ensures alone { BandsAreAlone }
    ensures two { BandsOfTwo }
    ensures bytes { BytesOfBandsTinted }
    ensures opened { OpenIsBand }
    ensures room { BytesRise }
{}

/// The fetches of a shadow that were not looked up: they are those that the events since it had words
/// alone left, no more than the registers that a fetch filled last, and of the clocks since then. A
/// clock's touches of a shadow come in two steps, the script's and the access's.
pub fn fetches_left()
    ensures picture { LeftOfPicture }
    ensures found { LeftOfFound }
    ensures sets { LeftBySets }
    ensures touch { LeftByTouch }
    ensures in_two { TouchInTwo }
    ensures fewer { FewerWithWrite }
    ensures latched { FetchesAreLatched }
    ensures range_of_picture { RangeOfPicture }
    ensures range_of_found { RangeOfFound }
    ensures range_of_sets { RangeOfSets }
    ensures range_of_touch { RangeOfTouch }
    ensures shadow_found { ShadowFoundIn }
    ensures shadow_sets { ShadowSets }
    ensures shadow_access { ShadowAccess }
{}
