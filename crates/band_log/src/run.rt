//! A run: what it takes, and how high its bands are.

ghost use Rattle.std.specs.Prelude.{◌≡◌, ◌≤◌, true};
ghost use Rattle.ocs_base.specs.Image.{is_image, fits_chip};
ghost use Rattle.ocs_base.specs.Limits.{IsRunnable};
ghost use Rattle.ocs_base.specs.Sizes.{bytes_of};
ghost use Rattle.serial_model.specs.Side.{no_side, FitsSide};
ghost use Rattle.serial_bands.specs.Run.{IsGoodRun, run_over};

use ocs_base::Script;
use serial_model::{NoSide, Side};
use std::marker::Model;

/// A run of the machine, which all of its jobs share by an `Arc`: the bytes from which chip memory is
/// made, the script, the height of a band in lines, and the side as it is at reset. Every one is
/// good, as `IsGoodRun` says.
#[derive(Drop)]
pub struct Run<S> {
    image: Vec<u8>,
    script: Script,
    height: u16,
    side: S,
}

impl<S> Model for Run<S> {
    ghost use Rattle.serial_bands.specs.Run.{RunOf, IsGoodRun};

    ghost Value = { RunOf S };

    ghost view = { λ r. record {
      image = r.image.items;
      script = r.script;
      height = r.height;
      side = r.side;
    } };

    ghost invariant = { λ r. IsGoodRun (record {
      image = r.image.items;
      script = r.script;
      height = r.height;
      side = r.side;
    }) };
}

impl Run<NoSide> {
    /// A run without a side, of an image of an even number of bytes, from 8 to as many as the script's
    /// chip memory has, a script of 1 to 1000 frames whose events are in its limits and in order of
    /// time, and bands of 1 to 313 lines.
    pub fn new(image: Vec<u8>, script: Script, height: u16) -> Run<NoSide>
        requires image { is_image image.items ≡ true }
        requires fits { fits_chip script.chip image.items ≡ true }
        requires script { IsRunnable script }
        requires least { 1 ≤ height }
        requires most { height ≤ 313 }
        ensures { run_over ⟦<NoSide as Side>⟧.seen result ≡ record {
          image = image.items;
          script = script;
          height = height;
          side = no_side;
        } }
    {
        Run::over(image, script, height, NoSide)
    }
}

impl<S: Side> Run<S> {
    /// A run over a side as it is at reset, which fits the script's chip memory, of an image, a script
    /// and bands as `new` takes them. A caller makes the side twice: one is kept here as what the run
    /// is over, the other goes to the foreground.
    pub fn over(image: Vec<u8>, script: Script, height: u16, side: S) -> Run<S>
        requires image { is_image image.items ≡ true }
        requires fits { fits_chip script.chip image.items ≡ true }
        requires script { IsRunnable script }
        requires least { 1 ≤ height }
        requires most { height ≤ 313 }
        requires side { FitsSide (bytes_of script.chip) (S.seen side) }
        ensures { result ≡ record {
          image = image.items;
          script = script;
          height = height;
          side = side;
        } }
    {
        Run {
            image,
            script,
            height,
            side,
        }
    }
}

impl<S> Run<S> {
    /// The bytes from which chip memory is made: an even number, from 8 to as many as it has.
    pub fn image(&self) -> &[u8]
        ensures bytes { result.now ≡ self.now.image }
        ensures good { IsGoodRun self.now }
    {
        self.image.as_slice()
    }

    /// The script, which is in its limits and in order of time.
    pub fn script(&self) -> &Script
        ensures value { result.now ≡ self.now.script }
        ensures good { IsGoodRun self.now }
    {
        &self.script
    }

    /// The height of a band in lines, 1 to 313.
    pub fn height(&self) -> u16
        ensures value { result ≡ self.now.height }
        ensures least { 1 ≤ result }
        ensures most { result ≤ 313 }
        ensures good { IsGoodRun self.now }
    {
        self.height
    }
}
