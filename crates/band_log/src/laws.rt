//! Laws of the definitions, each the contract of a function that does nothing.

ghost use Rattle.band_log.specs.Laws.{EndedBandIsRight, ViewIsMemory, RightNumbersAreFew, DrawnIsOfRange, FirstComesFirst};

use serial_bands::laws::{bands_of_run, open_band, order_of_bands};
use serial_model::Side;

/// A job of a band that was kept clock by clock, and has come to its end, is right.
pub fn ended_band<S: Side>()
    ensures { EndedBandIsRight S.seen }
{
    open_band();
}

/// What is known of a right job and of what was drawn of it.
pub fn right_jobs<S: Side>()
    ensures memory { ViewIsMemory S.seen }
    ensures few { RightNumbersAreFew S.seen }
    ensures range { DrawnIsOfRange S.seen }
{
    bands_of_run();
    order_of_bands();
}

/// A raster gives bands back in the order in which they were submitted.
pub fn order_of_collecting()
    ensures { FirstComesFirst }
{}
