//! The work of a crew: the bands of a run.

ghost use Rattle.crew.specs.Bands.{IsRightBand, IsDrawnBand, few_bands};

use band_board::Work;
use band_log::{Drawn, Job, Run};
use run_side::RunSide;
use serial_model::Side;

/// The side that the runs of a crew are over. It is one type, chosen here, and no parameter of a
/// crew: where the bands that are right rest on a parameter, no bound can name the crew.
pub type CrewSide = RunSide;

/// The bands of a run of the machine over a `CrewSide`: a job is right for the run, whose script is
/// in its limits, and for the band's number, and what was drawn of it is right under the tint 0. No
/// value of it is made.
pub struct Bands;

impl Work for Bands {
    type Run = Run<CrewSide>;

    type Job = Job<CrewSide>;

    type Drawn = Drawn<CrewSide>;

    ghost right_job = { IsRightBand ⟦<CrewSide as Side>⟧.seen };

    ghost right_drawn = { IsDrawnBand ⟦<CrewSide as Side>⟧.seen };

    ghost few = { few_bands ⟦<CrewSide as Side>⟧.seen };
}
