//! Tests of bands and of who draws them: the board, drawing by single clocks, crews, and runs whose
//! bands workers draw. Nothing of it is part of the program, and so that they are proved once the
//! crates below have no tests of their own.
#![tactic(auto)]

#[cfg(test)]
mod bars;
#[cfg(test)]
mod boards;
#[cfg(test)]
mod crews;
#[cfg(test)]
mod drawn_clocks;
#[cfg(test)]
mod gates;
#[cfg(test)]
mod told;
#[cfg(test)]
mod totals;
