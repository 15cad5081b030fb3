//! Tests of the foreground: whole runs over rasters that draw at once, reads of CLXDAT, a run over
//! a side, clocks passed over at once. They stand here and not beside the code, so that the foreground is
//! proved once.
#![tactic(auto)]

#[cfg(test)]
mod answers;
#[cfg(test)]
mod clocks_gone_to;
#[cfg(test)]
mod clocks_passed_over;
#[cfg(test)]
mod copies;
#[cfg(test)]
mod rasters;
#[cfg(test)]
mod reads;
#[cfg(test)]
mod runs;
#[cfg(test)]
mod side_runs;
