//! A run that writes its files: from the machine at reset, which has not begun, to the last byte of the three
//! files and of the audio file, where there is one. A crew draws its bands.
#![tactic(auto)]

mod audio;
mod run;

pub use run::{Drawing, Setup, run_files};
